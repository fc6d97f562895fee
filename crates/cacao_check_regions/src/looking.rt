// Looking into a book by the keys of its steps.
ghost use Rattle.std.specs.Prelude.{◌≡◌, ◌↔◌, IsTrue, IfOk};
ghost use Rattle.std.specs.Option.{option_copied};
ghost use Rattle.cacao_book.specs.Steps.{step_with as step_under};
ghost use Rattle.cacao_check_regions.specs.Charts.{IsChartOf, AreRegionsOf};
ghost use Rattle.cacao_check_regions.specs.Looking.{StandsIn, ListsSights};

use crate::charts::Chart;
use crate::regions::Regions;
use crate::seeing::seen_at;
use crate::seen::Seen;
use cacao_book::{Book, Step, find_place};
use cacao_vars::Name;
use std::alloc::{AllocError, Global};

/// The step of a book with a key. It takes no memory.
pub fn step_with<'a>(book: &'a Book, key: &str) -> Option<&'a Step>
    ensures { option_copied result ≡ step_under book.now.steps key.now }
{
    let steps = book.steps.as_slice();
    match find_place(steps, key) {
        Some(place) => Some(&steps[place]),
        None => None,
    }
}

/// Whether the step with a key stands in the region of the step with another key, or in the main region. It takes no memory.
pub fn stands_in(book: &Book, regions: &Regions, control: Option<&str>, key: &str) -> bool
    requires { AreRegionsOf book.now regions.now }
    ensures { IsTrue result ↔ StandsIn book.now (option_copied control.entry) key.now }
{
    let steps = book.steps.as_slice();
    let Some(place) = find_place(steps, key) else {
        return false;
    };
    match control {
        None => regions.main.has(place as u32),
        Some(control) => match find_place(steps, control) {
            Some(at) => regions.has(Some(at as u32), place as u32),
            None => false,
        },
    }
}

/// What the step with a key may see of a name.
pub fn seen_at_key(
    alloc: Global,
    book: &Book,
    chart: &Chart,
    key: &str,
    name: &Name,
) -> Result<Seen, AllocError>
    requires { IsChartOf book.now chart.now }
    ensures { IfOk result (ListsSights book.now key.now name.now) }
{
    let Some(place) = find_place(book.steps.as_slice(), key) else {
        return Ok(Seen::from_vec(Vec::new(alloc)));
    };
    let seen = seen_at(alloc, book, chart, place as u32, name)?;
    Ok(Seen::from_vec(seen))
}
