// What is known of a playbook that was checked.
ghost use Rattle.std.specs.Prelude.{◌≤◌, length};

use crate::checks::{book, mode};
use crate::samples::Samples;
use crate::words::{add_number, add_word, kind_word, number_or_none, some, unknown, word, yes};
use cacao_book::find_place;
use cacao_check::{Books, Checked, Mode, Parts, Sight, check};
use cacao_vars::Name;
use std::alloc::{AllocError, Global};
use test_rows::Row;

/// A playbook that was checked; none where it is refused.
fn checked(alloc: Global, text: &str, mode: Mode) -> Result<Option<Checked>, AllocError> {
    let Some(book) = book(alloc, text)? else {
        return Ok(None);
    };
    let mut books = Books::new(alloc);
    books.push(book)?;
    Ok(check(alloc, books, mode).ok())
}

/// The step of a word; none for the main region.
fn control(word: &str) -> Option<&str> {
    match word {
        "main" => None,
        key => Some(key),
    }
}

/// Whether a step stands in a region.
fn in_region(alloc: Global, checked: &Checked, row: &Row) -> Result<String, AllocError>
    requires { 1 ≤ length checked.now.books }
{
    let found = checked.in_region(0, control(row.text(4)), row.text(3));
    yes(alloc, found)
}

/// The word for what is seen.
fn sight_word(sight: &Sight) -> &'static str {
    match sight {
        Sight::Missing => "missing",
        Sight::Declared(var) => kind_word(&var.kind),
    }
}

/// The words for what is seen, in the order of their letters.
fn sight_words(alloc: Global, sights: &[Sight]) -> Result<String, AllocError> {
    let mut words = Vec::new(alloc);
    for sight in sights {
        words.push(sight_word(sight))?;
    }
    words.sort()?;
    let mut all = String::new(alloc);
    for word in &words {
        add_word(&mut all, word)?;
    }
    Ok(all)
}

/// What the step with a key may see of a name.
fn seen_of(alloc: Global, checked: &Checked, key: &str, name: &Name) -> Result<String, AllocError>
    requires { 1 ≤ length checked.now.books }
{
    let seen = checked.seen(alloc, 0, key, name)?;
    sight_words(alloc, seen.as_slice())
}

/// The kinds of the declarations that a step may see, and `missing` where there may be none, in the order of their letters.
fn seen(alloc: Global, checked: &Checked, row: &Row) -> Result<String, AllocError>
    requires { 1 ≤ length checked.now.books }
{
    let Some(name) = Name::read(alloc, row.text(4))? else {
        return word(alloc, "no name");
    };
    seen_of(alloc, checked, row.text(3), &name)
}

/// What was read of a step.
fn parts_of<'a>(checked: &'a Checked, key: &str) -> Option<&'a Parts>
    requires { 1 ≤ length checked.now.books }
{
    let place = find_place(checked.book(0).steps.as_slice(), key)?;
    Some(checked.parts(0, place as u32))
}

/// The places at which branches begin.
fn heads(alloc: Global, places: &[u32]) -> Result<String, AllocError> {
    let mut said = String::new(alloc);
    for place in places {
        add_number(alloc, &mut said, *place as usize)?;
    }
    Ok(said)
}

/// A part of what was read of a step.
fn part(alloc: Global, checked: &Checked, row: &Row) -> Result<String, AllocError>
    requires { 1 ≤ length checked.now.books }
{
    let Some(parts) = parts_of(checked, row.text(3)) else {
        return word(alloc, "no step");
    };
    match row.text(4) {
        "condition" => some(alloc, parts.condition.is_some()),
        "subject" => some(alloc, parts.subject.is_some()),
        "heads" => heads(alloc, parts.heads.as_slice()),
        "completion" => number_or_none(alloc, parts.completion),
        "success" => number_or_none(alloc, parts.success),
        "called" => number_or_none(alloc, parts.called),
        "contents" => {
            let count = parts.contents.len();
            format!(in alloc; "{count}")
        }
        _ => unknown(alloc),
    }
}

/// The mode of a check.
fn mode_word(mode: Mode) -> &'static str {
    match mode {
        Mode::Read => "read",
        Mode::Run => "run",
    }
}

/// What a row asks of a playbook that was checked.
fn told(alloc: Global, checked: &Checked, row: &Row) -> Result<String, AllocError> {
    let count = checked.books().len();
    match row.text(0) {
        "region" => in_region(alloc, checked, row),
        "seen" => seen(alloc, checked, row),
        "part" => part(alloc, checked, row),
        "step" => some(alloc, checked.step(0, row.text(3)).is_some()),
        "mode" => word(alloc, mode_word(checked.mode())),
        "books" => format!(in alloc; "{count}"),
        _ => unknown(alloc),
    }
}

/// What a row is answered whose fields 1 and 2 are a mode and the name of a playbook.
pub(crate) fn asked(alloc: Global, samples: &Samples, row: &Row) -> Result<String, AllocError> {
    match checked(alloc, samples.short(row.text(2)), mode(row.text(1)))? {
        Some(checked) => told(alloc, &checked, row),
        None => word(alloc, "refused"),
    }
}
