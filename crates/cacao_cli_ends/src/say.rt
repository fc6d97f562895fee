// The lines that a call of the program says.
ghost use Rattle.std.specs.Prelude.{◌∷◌, [], map, string_bytes};
ghost use Rattle.cacao_cli_ends.specs.Told.{end_of};
ghost use Rattle.cacao_cli_ends.specs.Lines.{SaysOrFails, SaysOrStops, SaysWork, Tells};

use crate::end::End;
use cacao_site::Site;
use std::alloc::Global;

/// Says the line; the end is this one, if it was said.
pub fn say_then<'w, S: Site>(line: &[u8], end: End<'w>, site: &mut S) -> End<'w>
    ensures { SaysWork (line.now ∷ []) (end_of end.entry) (S.view site.old) (S.view site.new) (end_of result) }
{
    match site.say(line) {
        Ok(()) => end,
        Err(_) => End::Unsaid,
    }
}

/// Says these lines in order; the end is this one, if all were said.
pub fn say_all<'w, S: Site>(lines: &[String], end: End<'w>, site: &mut S) -> End<'w>
    ensures { SaysWork (map string_bytes lines.now) (end_of end.entry) (S.view site.old) (S.view site.new) (end_of result) }
{
    if say_lines(lines, site) {
        end
    } else {
        End::Unsaid
    }
}

/// Says these lines in order; false where one could not be said.
fn say_lines<S: Site>(lines: &[String], site: &mut S) -> bool
    ensures { SaysOrStops (map string_bytes lines.now) result (S.view site.old) (S.view site.new) }
{
    for line in lines {
        match site.say(line.as_bytes()) {
            Ok(()) => {}
            Err(_) => return false,
        }
    }
    true
}

/// Says the last line, if the end has one, and answers its status.
pub fn finish<S: Site>(alloc: Global, end: &End<'_>, site: &mut S) -> u8
    ensures { Tells (end_of end.entry.now) (S.view site.old) (S.view site.new) result }
{
    if let End::ShelfFailed { line } = end {
        return say_last(line.as_bytes(), end.status(), site);
    }
    if let End::PeersFailed = end {
        return say_last(b"peers failed\n", end.status(), site);
    }
    if let End::DiskFailed = end {
        return say_last(b"disk failed\n", end.status(), site);
    }
    if !end.has_line() {
        return end.status();
    }
    match format!(in alloc; "{end}\n") {
        Ok(line) => say_last(line.as_bytes(), end.status(), site),
        Err(_) => End::NoMemory.status(),
    }
}

/// Says the last line, and answers the status.
fn say_last<S: Site>(line: &[u8], status: u8, site: &mut S) -> u8
    ensures { SaysOrFails line.now status (S.view site.old) (S.view site.new) result }
{
    match site.say(line) {
        Ok(()) => status,
        Err(_) => 9,
    }
}
