// What is wrong in a text that has no tree.
ghost use Rattle.std.specs.Prelude.{◌≡◌, ◌≤◌, ℕ, ◌∷◌, [], IfOk, length, map};
ghost use Rattle.cacao_json.specs.declared.error.JsonError.TheVariants.{NotJson, NotWhole, RepeatedName};
ghost use Rattle.cacao_cli_looks.specs.Command.{text_of};
ghost use Rattle.cacao_view_faults.specs.Kinds.{IsFaultAt, IsOfNoKind};
ghost use Rattle.cacao_view_faults.specs.Tokens.{IsBrokenNumber, IsTwice};
ghost use Rattle.cacao_view_explain.specs.Lines.{text_line, told_line};
ghost use Rattle.cacao_view_explain.specs.Reasons.{TellsReason};
ghost use Rattle.cacao_view_explain.specs.Tells.{TellsUnread, first_unread};

use crate::lines::{named_words, quoted, text_line, told_line};
use cacao_cli_looks::FileText;
use cacao_json::{JsonError, find_tree, read_tree, text_of};
use cacao_view_faults::scan::string_end;
use cacao_view_faults::{
    Told, Twice, broken_number, is_twice, name_twice, plain_words, told_fault,
};
use cacao_view_words::Lines;
use std::alloc::{AllocError, Global};

/// What is said of a text in which two names are one, where they are not found.
const TWICE: &str =
    "a name stands twice in one object, once with an escape perhaps: each name stands once";

const TWICE_HERE: &str = "stands here, and once more in the same object:";

const TWICE_THERE: &str = "here; each name stands once";

const NOT_WHOLE: &str =
    "a number that is not whole, or past 9007199254740991: no fraction, no exponent and no -0 stand in a playbook";

/// One line that tells something of a text, and no place in it.
fn one_text(alloc: Global, text: &FileText<'_>, what: &str) -> Result<Lines, AllocError>
    ensures { IfOk result (λ lines. lines ≡ text_line (text_of text.now).name what.now ∷ []) }
{
    let line = text_line(alloc, text, what)?;
    let mut lines = Lines::new(alloc);
    lines.push(line)?;
    Ok(lines)
}

/// What is told where no place is known.
fn no_place(alloc: Global, text: &FileText<'_>, what: &str) -> Result<Lines, AllocError>
    requires { IsOfNoKind what.now }
    ensures not_json { IfOk result (TellsReason (text_of text.now) NotJson) }
    ensures repeated { (colons members : ℕ) → IfOk result (TellsReason (text_of text.now) (RepeatedName colons members)) }
    ensures number { (index : ℕ) → IfOk result (TellsReason (text_of text.now) (NotWhole index)) }
{
    one_text(alloc, text, what)
}

/// One line that tells something of a place of a text.
fn one_place(alloc: Global, text: &FileText<'_>, at: usize, what: &str) -> Result<Lines, AllocError>
    requires { at ≤ length (text_of text.now).bytes }
    ensures { IfOk result (λ lines. lines ≡ told_line (text_of text.now) at what.now ∷ []) }
{
    let line = told_line(alloc, text, at, what)?;
    let mut lines = Lines::new(alloc);
    lines.push(line)?;
    Ok(lines)
}

/// The line that tells where a text is not JSON, and what stands there.
fn fault_line(alloc: Global, text: &FileText<'_>, told: Told) -> Result<Lines, AllocError>
    requires { IsFaultAt (text_of text.now).bytes told.fault.at told.fault.what.now }
    ensures { IfOk result (TellsReason (text_of text.now) NotJson) }
{
    one_place(alloc, text, told.fault.at, told.fault.what)
}

/// What is told of a text that is not JSON.
fn not_json(alloc: Global, text: &FileText<'_>) -> Result<Lines, AllocError>
    ensures { IfOk result (TellsReason (text_of text.now) NotJson) }
{
    let told = told_fault(alloc, text.bytes.as_slice())?;
    if !told.placed {
        return no_place(alloc, text, told.fault.what);
    }
    fault_line(alloc, text, told)
}

fn two_lines(alloc: Global, first: Vec<u8>, second: Vec<u8>) -> Result<Lines, AllocError>
    ensures { IfOk result (λ lines. lines ≡ first.items ∷ second.items ∷ []) }
{
    let mut lines = Lines::new(alloc);
    lines.push(first)?;
    lines.push(second)?;
    Ok(lines)
}

/// The lines that tell where a name stands, and stands again.
fn two_places(
    alloc: Global,
    text: &FileText<'_>,
    twice: Twice,
    here: &str,
    there: &str,
) -> Result<Lines, AllocError>
    requires first { twice.first ≤ length (text_of text.now).bytes }
    requires second { twice.second ≤ length (text_of text.now).bytes }
    requires twice { IsTwice (text_of text.now).bytes twice.first twice.second }
    ensures { (colons members : ℕ) → IfOk result (TellsReason (text_of text.now) (RepeatedName colons members)) }
{
    let first = told_line(alloc, text, twice.first, here)?;
    let second = told_line(alloc, text, twice.second, there)?;
    let lines = two_lines(alloc, first, second)?;
    Ok(lines)
}

/// The name that stands at a place of a text, in quotation marks.
fn name_in(alloc: Global, bytes: &[u8], at: usize) -> Result<String, AllocError> {
    let end = string_end(bytes, at.saturating_add(1));
    let Some(name) = bytes.get(at..end) else {
        return String::from_str(alloc, "a name");
    };
    let Some(tree) = find_tree(alloc, name)? else {
        return String::from_str(alloc, "a name");
    };
    match text_of(&tree) {
        Some(name) => quoted(alloc, name.text()),
        None => String::from_str(alloc, "a name"),
    }
}

/// What is told of a text in which a name stands twice in one object.
fn repeated(
    alloc: Global,
    text: &FileText<'_>,
    colons: u32,
    members: u32,
) -> Result<Lines, AllocError>
    ensures { IfOk result (TellsReason (text_of text.now) (RepeatedName colons members)) }
{
    let Some(twice) = name_twice(alloc, text.bytes.as_slice())? else {
        return no_place(alloc, text, plain_words(TWICE));
    };
    if !is_twice(alloc, text.bytes.as_slice(), twice)? {
        return no_place(alloc, text, plain_words(TWICE));
    }
    let name = name_in(alloc, text.bytes.as_slice(), twice.first)?;
    let here = named_words(alloc, name.as_str(), TWICE_HERE)?;
    two_places(alloc, text, twice, here.as_str(), TWICE_THERE)
}

/// The line that tells where the number of this number stands, which is not whole.
fn number_line(
    alloc: Global,
    text: &FileText<'_>,
    number: u32,
    at: usize,
    what: &str,
) -> Result<Lines, AllocError>
    requires within { at ≤ length (text_of text.now).bytes }
    requires broken { IsBrokenNumber (text_of text.now).bytes number at }
    ensures { IfOk result (TellsReason (text_of text.now) (NotWhole number)) }
{
    one_place(alloc, text, at, what)
}

/// What is told of a text with a number that is not whole.
fn not_whole(alloc: Global, text: &FileText<'_>, index: u32) -> Result<Lines, AllocError>
    ensures { IfOk result (TellsReason (text_of text.now) (NotWhole index)) }
{
    let Some(at) = broken_number(alloc, text.bytes.as_slice(), index)? else {
        return no_place(alloc, text, plain_words(NOT_WHOLE));
    };
    number_line(alloc, text, index, at, NOT_WHOLE)
}

/// What is wrong in a text that has no tree for this reason.
fn reason_lines(alloc: Global, text: &FileText<'_>, error: JsonError) -> Result<Lines, AllocError>
    ensures { IfOk result (TellsReason (text_of text.now) error) }
{
    match error {
        JsonError::NotJson => not_json(alloc, text),
        JsonError::RepeatedName { colons, members } => repeated(alloc, text, colons, members),
        JsonError::NotWhole { index } => not_whole(alloc, text, index),
        JsonError::Memory => Err(AllocError),
    }
}

/// What is wrong in the first of the texts that has no tree; no lines where each has one.
pub(crate) fn unread_lines(alloc: Global, texts: &[FileText<'_>]) -> Result<Lines, AllocError>
    ensures { IfOk result (TellsUnread (first_unread (map text_of texts.now))) }
{
    for text in texts {
        match read_tree(alloc, text.bytes.as_slice()) {
            Ok(_) => {}
            Err(error) => return reason_lines(alloc, text, error),
        }
    }
    Ok(Lines::new(alloc))
}
