// The lines that tell of a run, taken apart.
ghost use Rattle.std.specs.Prelude.{◌≡◌, ◌==◌, drop, slice_index_or};
ghost use Rattle.std.specs.List.{position};
ghost use Rattle.cacao_view_graph.specs.Cutting.{behind, behind_head, behind_way, behind_words, first_line, way_told};

use crate::way::Way;

/// The place of the first of these bytes.
fn place_of(text: &[u8], byte: u8) -> Option<usize>
    ensures { result ≡ position (λ b. b == byte) text.now }
{
    text.iter().position(|b| *b == byte)
}

/// What stands behind the first of these bytes.
pub(crate) fn behind(text: &[u8], byte: u8) -> &[u8]
    ensures { result.now ≡ behind byte text.now }
{
    match place_of(text, byte) {
        Some(place) => &text[place + 1..],
        None => &[],
    }
}

/// The first line, with its line feed.
pub(crate) fn first_line(text: &[u8]) -> &[u8]
    ensures { result.now ≡ first_line text.now }
{
    match place_of(text, b'\n') {
        Some(place) => &text[..place + 1],
        None => text,
    }
}

/// What stands behind the first three lines.
pub(crate) fn behind_head(text: &[u8]) -> &[u8]
    ensures { result.now ≡ behind_head text.now }
{
    behind(behind(behind(text, b'\n'), b'\n'), b'\n')
}

/// What stands behind the first three words.
pub(crate) fn behind_words(text: &[u8]) -> &[u8]
    ensures { result.now ≡ behind_words text.now }
{
    behind(behind(behind(text, b' '), b' '), b' ')
}

/// The byte at a place, 0 past the end.
fn byte_at(text: &[u8], place: usize) -> u8
    ensures { result ≡ slice_index_or text.now place 0 }
{
    if place < text.len() { text[place] } else { 0 }
}

/// What stands behind so many bytes.
fn past(text: &[u8], bytes: usize) -> &[u8]
    ensures { result.now ≡ drop bytes text.now }
{
    if bytes <= text.len() {
        &text[bytes..]
    } else {
        &[]
    }
}

/// How a task stands, as the words say with which its line ends.
pub(crate) fn way_told(text: &[u8]) -> Way
    ensures { result ≡ way_told text.now }
{
    if byte_at(text, 0) == b'a' {
        return Way::Stands;
    }
    if byte_at(text, 6) == b'f' {
        return Way::Failed;
    }
    Way::Done
}

/// What stands behind these words, where the key of the step has so many bytes.
pub(crate) fn behind_way(text: &[u8], way: Way, key: usize) -> &[u8]
    ensures { result.now ≡ behind_way key way text.now }
{
    match way {
        Way::Stands => past(text, key.saturating_add(4)),
        Way::Failed => behind(text, b'\n'),
        Way::Done => behind(text, b'\n'),
    }
}
