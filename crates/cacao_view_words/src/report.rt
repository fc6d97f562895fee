// What a word says, and how its call ends.
ghost use Rattle.cacao_cli_ends.specs.Told.{end_of};
ghost use Rattle.cacao_cli_ends.specs.Lines.{SaysOrStops, SaysWork};

use crate::lines::Lines;
use cacao_cli_ends::End;
use cacao_site::{Bytes, Site};
use std::alloc::Global;

/// The lines that are said of what was read, and how the call ends behind them.
#[derive(Drop)]
pub struct Report<'w> {
    pub lines: Lines,
    pub end: End<'w>,
}

impl<'w> Report<'w> {
    ghost use Rattle.std.specs.Prelude.{◌≡◌, []};
    ghost use Rattle.cacao_cli_ends.specs.Told.{end_of};
    ghost use Rattle.cacao_cli_ends.specs.Lines.{SaysWork};

    /// No lines, and this end. It takes no memory.
    pub fn ending(alloc: Global, end: End<'w>) -> Report<'w>
        ensures lines { result.lines ≡ [] }
        ensures end { end_of result.end ≡ end_of end.entry }
    {
        Report {
            lines: Lines::new(alloc),
            end,
        }
    }

    /// Says the lines in order, and gives the end.
    pub fn say<S: Site>(self, site: &mut S) -> End<'w>
        ensures { SaysWork self.entry.lines (end_of self.entry.end) (S.view site.old) (S.view site.new) (end_of result) }
    {
        let Report { lines, end } = self;
        say_all(lines.as_slice(), end, site)
    }
}

/// Says these lines in order; the end is this one, if all were said.
fn say_all<'w, S: Site>(lines: &[Bytes], end: End<'w>, site: &mut S) -> End<'w>
    ensures { SaysWork lines.now (end_of end.entry) (S.view site.old) (S.view site.new) (end_of result) }
{
    if say_lines(lines, site) {
        end
    } else {
        End::Unsaid
    }
}

/// Says these lines in order; false where one could not be said.
fn say_lines<S: Site>(lines: &[Bytes], site: &mut S) -> bool
    ensures { SaysOrStops lines.now result (S.view site.old) (S.view site.new) }
{
    for line in lines {
        match site.say(line.as_slice()) {
            Ok(()) => {}
            Err(_) => return false,
        }
    }
    true
}
