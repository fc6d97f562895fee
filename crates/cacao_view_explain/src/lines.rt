// The lines that tell what is at fault in a text.
ghost use Rattle.std.specs.Prelude.{◌≡◌, ◌≤◌, ◌++◌, codes, IfOk, length, option_map, string_bytes};
ghost use Rattle.cacao_json.specs.Tree.{data_of};
ghost use Rattle.cacao_cli_looks.specs.Command.{text_of};
ghost use Rattle.cacao_view_faults.specs.PlaceBy.{place_by};
ghost use Rattle.cacao_view_explain.specs.Lines.{file_front, name_part, named_words, place_line, place_words, pointer_line, step_line, step_lines, step_name, step_pointer, text_line, told_line};
ghost use Rattle.cacao_view_explain.specs.Plain.{shown, shown_byte};

use cacao_cli_looks::FileText;
use cacao_json::{Text, Tree, member, text_of};
use cacao_text::canonical_string;
use cacao_view_faults::{Place, place_behind};
use cacao_view_words::Lines;
use std::alloc::{AllocError, Global};

// ---- words

/// The words as they are shown: with a blank for each control character.
fn shown(alloc: Global, words: &[u8]) -> Result<Vec<u8>, AllocError>
    ensures { IfOk result (λ made. made.items ≡ shown words.now) }
{
    let mut made = Vec::new(alloc);
    for n in 0..words.len() {
        made.push(shown_byte(words[n]))?;
    }
    Ok(made)
}

fn shown_byte(byte: u8) -> u8
    ensures { result ≡ shown_byte byte }
{
    if byte < 32 { b' ' } else { byte }
}

/// The name in quotation marks, as canonical text.
pub(crate) fn quoted(alloc: Global, name: &str) -> Result<String, AllocError> {
    let canonical = canonical_string(alloc, name)?;
    String::from_utf8_lossy(alloc, canonical.as_slice())
}

// ---- a place

/// A line on a file: its name, these words as they are, and others as they are shown.
fn file_line(alloc: Global, name: &str, front: &str, what: &str) -> Result<Vec<u8>, AllocError>
    ensures { IfOk result (λ line. line.items ≡ file_front name.now ++ ((front.now ++ shown what.now) ++ codes "\n")) }
{
    let mut line = Vec::from_slice(alloc, b"file ")?;
    line.extend_from_slice(name.as_bytes())?;
    let words = words_line(alloc, front, what)?;
    line.extend_from_slice(words.as_slice())?;
    Ok(line)
}

/// These words, others as they are shown, and a line feed.
fn words_line(alloc: Global, front: &str, what: &str) -> Result<Vec<u8>, AllocError>
    ensures { IfOk result (λ line. line.items ≡ (front.now ++ shown what.now) ++ codes "\n") }
{
    let mut line = Vec::from_slice(alloc, front.as_bytes())?;
    let words = shown(alloc, what.as_bytes())?;
    line.extend_from_slice(words.as_slice())?;
    line.push(b'\n')?;
    Ok(line)
}

fn place_words(alloc: Global, place: Place) -> Result<String, AllocError>
    ensures { IfOk result (λ words. string_bytes words ≡ place_words (place_by place)) }
{
    let line = place.line;
    let column = place.column;
    format!(in alloc; " line {line} column {column}: ")
}

fn place_line(alloc: Global, name: &str, place: Place, what: &str) -> Result<Vec<u8>, AllocError>
    ensures { IfOk result (λ line. line.items ≡ place_line name.now (place_by place) what.now) }
{
    let words = place_words(alloc, place)?;
    file_line(alloc, name, words.as_str(), what)
}

/// A line that tells something of a place of a file.
pub(crate) fn told_line(
    alloc: Global,
    text: &FileText<'_>,
    at: usize,
    what: &str,
) -> Result<Vec<u8>, AllocError>
    requires { at ≤ length (text_of text.now).bytes }
    ensures { IfOk result (λ line. line.items ≡ told_line (text_of text.now) at what.now) }
{
    let place = place_behind(text.bytes.as_slice(), at);
    place_line(alloc, text.name, place, what)
}

/// A line that tells something of a file, and no place in it.
pub(crate) fn text_line(
    alloc: Global,
    text: &FileText<'_>,
    what: &str,
) -> Result<Vec<u8>, AllocError>
    ensures { IfOk result (λ line. line.items ≡ text_line (text_of text.now).name what.now) }
{
    file_line(alloc, text.name, ": ", what)
}

/// What is said of a name.
pub(crate) fn named_words(alloc: Global, name: &str, says: &str) -> Result<String, AllocError>
    ensures { IfOk result (λ words. string_bytes words ≡ named_words name.now says.now) }
{
    format!(in alloc; "{name} {says}")
}

// ---- a step

/// The name of the step with this key, if it has one.
fn step_name<'a>(root: &'a Tree, key: &str) -> Option<&'a Text>
    ensures { option_map (λ text. text.now) result ≡ step_name key.now (data_of root.now) }
{
    let workflow = member(root, "workflow")?;
    let step = member(workflow, key)?;
    let name = member(step, "name")?;
    text_of(name)
}

/// The name as it stands behind the key.
fn name_part(alloc: Global, name: Option<&Text>) -> Result<Vec<u8>, AllocError>
    ensures { IfOk result (λ part. part.items ≡ name_part (option_map (λ text. text.now) name.entry)) }
{
    let mut part = Vec::new(alloc);
    let Some(name) = name else {
        return Ok(part);
    };
    let quoted = canonical_string(alloc, name.text())?;
    part.push(b' ')?;
    part.extend_from_slice(quoted.as_slice())?;
    Ok(part)
}

fn step_line(alloc: Global, key: &str, name: Option<&Text>) -> Result<Vec<u8>, AllocError>
    ensures { IfOk result (λ line. line.items ≡ step_line key.now (option_map (λ text. text.now) name.entry)) }
{
    let part = name_part(alloc, name)?;
    let key = shown(alloc, key.as_bytes())?;
    let mut line = Vec::from_slice(alloc, b"step ")?;
    line.extend_from_slice(key.as_slice())?;
    line.extend_from_slice(part.as_slice())?;
    line.push(b'\n')?;
    Ok(line)
}

/// The line that names a step, with its name if it has one; none where no step is named.
pub(crate) fn step_lines(alloc: Global, root: &Tree, key: Option<&str>) -> Result<Lines, AllocError>
    ensures { IfOk result (λ lines. lines ≡ step_lines (option_map (λ text. text.now) key.entry) (data_of root.now)) }
{
    let mut lines = Lines::new(alloc);
    let Some(key) = key else {
        return Ok(lines);
    };
    let line = step_line(alloc, key, step_name(root, key))?;
    lines.push(line)?;
    Ok(lines)
}

// ---- a path

/// The pointer to a step, or to the playbook.
pub(crate) fn step_pointer(alloc: Global, key: Option<&str>) -> Result<String, AllocError>
    ensures { IfOk result (λ pointer. string_bytes pointer ≡ step_pointer (option_map (λ text. text.now) key.entry)) }
{
    match key {
        Some(key) => format!(in alloc; "/workflow/{key}"),
        None => Ok(String::new(alloc)),
    }
}

/// The line with a pointer.
pub(crate) fn pointer_line(alloc: Global, path: &str) -> Result<Vec<u8>, AllocError>
    ensures { IfOk result (λ line. line.items ≡ pointer_line path.now) }
{
    let quoted = canonical_string(alloc, path)?;
    let mut line = Vec::from_slice(alloc, b"at ")?;
    line.extend_from_slice(quoted.as_slice())?;
    line.push(b'\n')?;
    Ok(line)
}
