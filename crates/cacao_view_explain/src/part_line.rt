// The line that tells what is at fault in a playbook, and where it stands.
ghost use Rattle.std.specs.Prelude.{◌≡◌, ◌≤◌, ◌<◌, IfOk, IsTrue, length, string_bytes, true};
ghost use Rattle.cacao_cli_looks.specs.Command.{text_of};
ghost use Rattle.cacao_view_faults.specs.Stands.{WordStands, stands};
ghost use Rattle.cacao_view_explain.specs.Lines.{BeginsWithName, IsTold, TellsPart};

use crate::lines::{text_line, told_line};
use crate::spot::{Finding, Named};
use cacao_cli_looks::FileText;
use cacao_vars::Name;
use cacao_view_faults::scan::{byte_at, value_end};
use cacao_view_faults::{stands, word_stands};
use std::alloc::{AllocError, Global};

/// The line that tells where a value begins.
fn value_line(
    alloc: Global,
    text: &FileText<'_>,
    path: &str,
    from: usize,
    end: usize,
    what: &str,
) -> Result<Vec<u8>, AllocError>
    requires stands { stands (text_of text.now).bytes path.now from end ≡ true }
    requires within { from ≤ length (text_of text.now).bytes }
    ensures { IfOk result (λ line. TellsPart (text_of text.now) path.now what.now line.items) }
{
    told_line(alloc, text, from, what)
}

/// Whether this is a variable's name, or a text in quotation marks.
fn is_told(name: &str) -> bool
    ensures { IsTrue result → IsTold name.now }
{
    if Name::fits(name) {
        return true;
    }
    byte_at(name.as_bytes(), 0) == b'"'
}

/// Whether words begin with a name, and a blank behind it.
fn begins_with_name(what: &str, name: &str) -> bool
    ensures { IsTrue result → BeginsWithName what.now name.now }
{
    if !is_told(name) {
        return false;
    }
    let Some(rest) = what.strip_prefix(name) else {
        return false;
    };
    let Some(_) = rest.strip_prefix(" ") else {
        return false;
    };
    true
}

/// Whether the name stands at a place of the text of a file, in no longer name, within the bytes from a place on and before another.
fn name_stands(text: &FileText<'_>, from: usize, end: usize, at: usize, name: &str) -> bool
    ensures { IsTrue result → WordStands (text_of text.now).bytes from end at name.now }
{
    word_stands(text.bytes.as_slice(), from, end, at, name.as_bytes())
}

/// The line that tells where in a value the name stands that the words begin with.
fn named_line(
    alloc: Global,
    text: &FileText<'_>,
    path: &str,
    from: usize,
    end: usize,
    at: usize,
    name: &str,
    what: &str,
) -> Result<Vec<u8>, AllocError>
    requires stands { stands (text_of text.now).bytes path.now from end ≡ true }
    requires before { end ≤ length (text_of text.now).bytes }
    requires begins { BeginsWithName what.now name.now }
    requires there { WordStands (text_of text.now).bytes from end at name.now }
    ensures { IfOk result (λ line. TellsPart (text_of text.now) path.now what.now line.items) }
{
    let _ = path;
    let _ = name;
    told_line(alloc, text, at, what)
}

/// The line that tells where a name stands in a value; where the value begins, if the name is not there.
fn name_line(
    alloc: Global,
    text: &FileText<'_>,
    path: &str,
    from: usize,
    end: usize,
    named: &Named,
    what: &str,
) -> Result<Vec<u8>, AllocError>
    requires stands { stands (text_of text.now).bytes path.now from end ≡ true }
    requires after { from ≤ length (text_of text.now).bytes }
    requires before { end ≤ length (text_of text.now).bytes }
    ensures { IfOk result (λ line. TellsPart (text_of text.now) path.now what.now line.items) }
{
    let name = named.name.as_str();
    let at = named.at;
    if !begins_with_name(what, name) {
        return value_line(alloc, text, path, from, end, what);
    }
    if !name_stands(text, from, end, at, name) {
        return value_line(alloc, text, path, from, end, what);
    }
    named_line(alloc, text, path, from, end, at, name, what)
}

/// A line that tells something of a file, and no place in it.
fn bare_line(
    alloc: Global,
    text: &FileText<'_>,
    path: &str,
    what: &str,
) -> Result<Vec<u8>, AllocError>
    ensures { IfOk result (λ line. TellsPart (text_of text.now) path.now what.now line.items) }
{
    let _ = path;
    text_line(alloc, text, what)
}

/// The line that tells what is at fault in a value that stands in the text.
fn standing_line(
    alloc: Global,
    text: &FileText<'_>,
    path: &str,
    from: usize,
    end: usize,
    finding: &Finding,
) -> Result<Vec<u8>, AllocError>
    requires stands { stands (text_of text.now).bytes path.now from end ≡ true }
    requires after { from ≤ length (text_of text.now).bytes }
    requires before { end ≤ length (text_of text.now).bytes }
    ensures { IfOk result (λ line. TellsPart (text_of text.now) path.now (string_bytes finding.now.what) line.items) }
{
    let what = finding.what.as_str();
    let Some(named) = &finding.named else {
        return value_line(alloc, text, path, from, end, what);
    };
    name_line(alloc, text, path, from, end, named, what)
}

/// Whether the value that a pointer leads to stands in the text of a file from a place on and before another.
fn value_stands(
    alloc: Global,
    text: &FileText<'_>,
    path: &str,
    from: usize,
    end: usize,
) -> Result<bool, AllocError>
    ensures exact { IfOk result (λ yes. yes ≡ stands (text_of text.now).bytes path.now from end) }
    ensures within { IfOk result (λ yes. IsTrue yes → (from < end) × (end ≤ length (text_of text.now).bytes)) }
{
    stands(alloc, text.bytes.as_slice(), path, from, end)
}

/// The line that tells what is at fault in the value that a pointer leads to, and where that stands in the text if it was found there.
pub(crate) fn part_line(
    alloc: Global,
    text: &FileText<'_>,
    path: &str,
    finding: &Finding,
) -> Result<Vec<u8>, AllocError>
    ensures { IfOk result (λ line. TellsPart (text_of text.now) path.now (string_bytes finding.now.what) line.items) }
{
    let from = finding.spot.at;
    let end = value_end(text.bytes.as_slice(), from);
    if !value_stands(alloc, text, path, from, end)? {
        return bare_line(alloc, text, path, finding.what.as_str());
    }
    standing_line(alloc, text, path, from, end, finding)
}
