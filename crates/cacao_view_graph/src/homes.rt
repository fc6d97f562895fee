// In which cluster a step is drawn.
ghost use Rattle.std.specs.Prelude.{◌<◌};
ghost use Rattle.std.specs.Option.{option_copied};
ghost use Rattle.cacao_check_regions.specs.Charts.{AreRegionsOf};
ghost use Rattle.cacao_view_graph.specs.Homes.{IsHome};
ghost use Rattle.cacao_view_graph.specs.Finding.{FindsHome, FindsNext, FindsRegion};

use cacao_book::Book;
use cacao_check_regions::Regions;

/// The first control step, from this one on, that has the place in its region.
fn next_region(regions: &Regions, place: u32, from: usize) -> Option<usize>
    ensures { FindsNext regions.now.controls.items place from result }
{
    for control in from..regions.controls.len() {
        if regions.controls[control].has(place) {
            return Some(control);
        }
    }
    None
}

/// The control step that alone has the place in its region; None where none has it, or several.
fn only_region(regions: &Regions, place: u32) -> Option<usize>
    ensures { FindsRegion regions.now.controls.items place result }
{
    let Some(first) = next_region(regions, place, 0) else {
        return None;
    };
    match next_region(regions, place, first + 1) {
        Some(_) => None,
        None => Some(first),
    }
}

/// The control step in whose cluster the step at a place is drawn.
fn home_of(regions: &Regions, place: u32) -> Option<usize>
    ensures { FindsHome regions.now place result }
{
    if regions.main.has(place) {
        return None;
    }
    only_region(regions, place)
}

/// The key of the control step in whose cluster the step at a place is drawn; None where that is the playbook's.
pub(crate) fn home_key<'a>(book: &'a Book, regions: &Regions, place: u32) -> Option<&'a str>
    requires { AreRegionsOf book.now regions.now }
    ensures { IsHome book.now place (option_copied result) }
{
    match home_of(regions, place) {
        Some(control) => Some(book.steps.as_slice()[control].key.text()),
        None => None,
    }
}
