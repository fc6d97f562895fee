// The lines of a text, said.
ghost use Rattle.flow_engine_reports.specs.RunLines.{lines_of};
ghost use Rattle.cacao_cli_ends.specs.Told.{end_of};
ghost use Rattle.cacao_cli_ends.specs.Lines.{SaysOrStops, SaysWork};

use cacao_cli_ends::End;
use cacao_site::Site;
use flow_engine_reports::next_line;
use std::alloc::Global;

/// Says the lines of a text in order; the end is this one, if all were said.
pub fn say_text<'w, S: Site>(text: &[u8], end: End<'w>, site: &mut S) -> End<'w>
    ensures { SaysWork (lines_of text.now) (end_of end.entry) (S.view site.old) (S.view site.new) (end_of result) }
{
    if say_each(text, site) {
        end
    } else {
        End::Unsaid
    }
}

/// Says the lines of a text in order; false where one could not be said.
fn say_each<S: Site>(text: &[u8], site: &mut S) -> bool
    ensures { SaysOrStops (lines_of text.now) result (S.view site.old) (S.view site.new) }
{
    let mut rest = text;
    while let Some((line, behind)) = next_line(rest) {
        match site.say(line) {
            Ok(()) => {}
            Err(_) => return false,
        }
        rest = behind;
    }
    true
}
