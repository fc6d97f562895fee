// Playbooks that are checked together.
ghost use Rattle.std.specs.Prelude.{◌≤◌, length};

use crate::parts::asked;
use crate::samples::Samples;
use crate::words::{unknown, word, yes};
use cacao_book::{Book, read_book};
use cacao_check::{Books, Break, CheckError, Mode, check, value_fits};
use cacao_json::{Text, find_tree};
use cacao_vars::Kind;
use std::alloc::{AllocError, Global};
use test_rows::Row;

/// Puts a text in the place of one in the last of these texts, which is that of a playbook or, behind `also`, the one that stands there.
fn add_text(
    alloc: Global,
    texts: &mut Vec<String>,
    samples: &Samples,
    row: &Row,
    at: usize,
) -> Result<(), AllocError> {
    let old = row.text(at.saturating_add(1));
    let new = row.text(at.saturating_add(2));
    if row.text(at) != "also" {
        texts.push(samples.short(row.text(at)).replace(alloc, old, new)?)?;
    } else if let Some(text) = texts.last_mut() {
        let changed = text.as_str().replace(alloc, old, new)?;
        *text = changed;
    }
    Ok(())
}

/// The texts of the playbooks of a row, in groups of three fields from 2 on: the name of a playbook, or `also` for the one before, a text in
/// it, and what stands in its place.
fn texts(alloc: Global, samples: &Samples, row: &Row) -> Result<Vec<String>, AllocError> {
    let mut texts: Vec<String> = Vec::new(alloc);
    for n in 0..row.count().saturating_sub(3) / 3 {
        let at = n.saturating_mul(3).saturating_add(2);
        add_text(alloc, &mut texts, samples, row, at)?;
    }
    Ok(texts)
}

/// The playbook of a text whose identifiers are short: `end--13` stands for `end--00000000-0000-4000-8000-000000000013`.
pub(crate) fn book(alloc: Global, text: &str) -> Result<Option<Book>, AllocError> {
    let text = text.replace(alloc, "--", "--00000000-0000-4000-8000-0000000000")?;
    let tree = find_tree(alloc, text.as_str().as_bytes())?;
    let book = match &tree {
        Some(tree) => read_book(alloc, tree).ok(),
        None => None,
    };
    drop(tree);
    Ok(book)
}

/// The playbooks of texts; none where one is no playbook.
fn books(alloc: Global, texts: &[String]) -> Result<Option<Books>, AllocError> {
    let mut books = Books::new(alloc);
    for text in texts {
        let Some(book) = book(alloc, text.as_str())? else {
            return Ok(None);
        };
        books.push(book)?;
    }
    Ok(Some(books))
}

/// The key of a step; empty for the book itself.
fn key_or_empty(step: &Option<Text>) -> &str {
    match step {
        Some(key) => key.text(),
        None => "",
    }
}

/// What a row asks of a break.
fn told(alloc: Global, what: &str, found: &Break) -> Result<String, AllocError> {
    let book = found.book;
    let rule = found.rule;
    let key = key_or_empty(&found.step);
    match what {
        "rule" => format!(in alloc; "{rule}"),
        "rule and book" => format!(in alloc; "{rule} of book {book}"),
        "rule and step" => format!(in alloc; "{rule} at {key}"),
        "break" => format!(in alloc; "{rule} of book {book} at {key}"),
        _ => unknown(alloc),
    }
}

/// The first break of books.
fn first_break(alloc: Global, what: &str, books: Books, mode: Mode) -> Result<String, AllocError>
    requires some { 1 ≤ length books }
    requires few { length books ≤ 16 }
{
    match check(alloc, books, mode) {
        Ok(_) => word(alloc, "sound"),
        Err(CheckError::Memory) => word(alloc, "out of memory"),
        Err(CheckError::Broken(found)) => {
            let said = told(alloc, what, &found);
            drop(found);
            said
        }
    }
}

/// What the books of a row are checked for.
pub(crate) fn mode(word: &str) -> Mode {
    match word {
        "run" => Mode::Run,
        _ => Mode::Read,
    }
}

/// The first break of a row's books.
fn checked(alloc: Global, samples: &Samples, row: &Row) -> Result<String, AllocError> {
    let texts = texts(alloc, samples, row)?;
    let found = books(alloc, texts.as_slice());
    drop(texts);
    let Some(books) = found? else {
        return word(alloc, "no playbook");
    };
    let count = books.as_slice().len();
    if count < 1 || count > 16 {
        return word(alloc, "not 1 to 16 playbooks");
    }
    first_break(alloc, row.text(0), books, mode(row.text(1)))
}

/// Whether a text fits a kind.
fn fits(alloc: Global, kind: &str, text: &str) -> Result<String, AllocError> {
    let kind = Kind::read(alloc, kind)?;
    yes(alloc, value_fits(&kind, text))
}

/// What a row is answered.
pub(crate) fn answer(alloc: Global, samples: &Samples, row: &Row) -> Result<String, AllocError> {
    match row.text(0) {
        "rule" | "rule and book" | "rule and step" | "break" => checked(alloc, samples, row),
        "fits" => fits(alloc, row.text(1), row.text(2)),
        _ => asked(alloc, samples, row),
    }
}
