// What a row asks of a session.
use test_wire_plays::Asked;

/// A session of this run of a playbook, with these answers; nothing where the words are no number of a run, and how many records may be
/// appended, where that is not a billion.
pub(crate) fn asked_of<'a>(book: &'a str, words: &str, answers: &'a str) -> Option<Asked<'a>> {
    let (run, most) = match words.split_once(' ') {
        Some((run, most)) => (run, most),
        None => (words, "1000000000"),
    };
    match (run.parse::<u64>(), most.parse::<u64>()) {
        (Ok(run), Ok(most)) => Some(Asked {
            book,
            answers,
            run,
            most,
        }),
        _ => None,
    }
}
