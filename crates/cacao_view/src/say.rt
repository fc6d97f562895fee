// The lines that a call of the program says.
ghost use Rattle.cacao_view_words.specs.Texts.{lines_in};
ghost use Rattle.cacao_view.specs.Lines.{SaysLast, SaysOrStops, SaysWork, Tells};
ghost use Rattle.cacao_view.specs.Told.{end_of};

use crate::end::End;
use cacao_site::Site;
use std::alloc::Global;

/// Says these lines in order; the end is this one, if all were said.
pub(crate) fn say_all<'w, S: Site>(lines: &[&str], end: End<'w>, site: &mut S) -> End<'w>
    ensures { SaysWork (lines_in lines.now) (end_of end.entry) (S.view site.old) (S.view site.new) (end_of result) }
{
    if say_lines(lines, site) {
        end
    } else {
        End::Unsaid
    }
}

/// Says these lines in order; false where one could not be said.
fn say_lines<S: Site>(lines: &[&str], site: &mut S) -> bool
    ensures { SaysOrStops (lines_in lines.now) result (S.view site.old) (S.view site.new) }
{
    for line in lines {
        match site.say(line.as_bytes()) {
            Ok(()) => {}
            Err(_) => return false,
        }
    }
    true
}

/// Says the last line, if the end has one, and answers its status.
pub(crate) fn finish<S: Site>(alloc: Global, end: &End<'_>, site: &mut S) -> u8
    ensures { Tells (end_of end.entry.now) (S.view site.old) (S.view site.new) result }
{
    match end {
        End::Done => 0,
        End::NotUnderstood { wanted } => say_last(wanted.line().as_bytes(), 2, site),
        End::Unsaid => 9,
        End::As { end } => cacao_cli_ends::finish(alloc, end, site),
    }
}

/// Says the last line, and answers the status.
fn say_last<S: Site>(line: &[u8], status: u8, site: &mut S) -> u8
    ensures { SaysLast line.now status (S.view site.old) (S.view site.new) result }
{
    match site.say(line) {
        Ok(()) => status,
        Err(_) => 9,
    }
}
