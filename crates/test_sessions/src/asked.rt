// What a row asks of a session.
use test_session_plays::{Asked, Book, whole};

/// Takes a word with a number; false where there is no such word.
fn take(asked: &mut Asked<'_>, word: &str) -> bool {
    let Some((name, text)) = word.split_once('=') else {
        return false;
    };
    match (name, text.parse::<u64>()) {
        ("run", Ok(run)) => asked.run = run,
        ("most", Ok(most)) => asked.most = most,
        _ => return false,
    }
    true
}

/// Takes these words; false where one of them says nothing.
fn take_all(asked: &mut Asked<'_>, words: &str) -> bool {
    for word in words.split(' ') {
        if !take(asked, word) {
            return false;
        }
    }
    true
}

/// What these words ask: a playbook's name, and then the run and the number of records, where they are not 7 and a billion.
pub(crate) fn asked_of<'a>(words: &str, answers: &'a str) -> Option<Asked<'a>> {
    let (name, rest) = match words.split_once(' ') {
        Some((name, rest)) => (name, Some(rest)),
        None => (words, None),
    };
    let mut asked = Asked {
        answers,
        ..whole(Book::named(name)?)
    };
    match rest {
        Some(rest) if !take_all(&mut asked, rest) => None,
        _ => Some(asked),
    }
}
