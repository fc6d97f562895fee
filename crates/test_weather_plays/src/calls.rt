// One call of a fleet.
use crate::books::Books;
use cacao_site_memory::MemorySite;
use flow_fleet::{FleetClose, FleetError, FleetRuns, fleet};
use std::alloc::{AllocError, Global};

/// A run of a fleet: its number, and that of its playbook.
#[derive(Clone, Copy)]
pub(crate) struct Run {
    pub(crate) number: u64,
    pub(crate) book: usize,
}

/// What came of a call.
#[derive(Clone, Copy)]
pub(crate) enum Came {
    /// There is no run, a number stands twice, or a playbook is not accepted.
    NoRuns,
    Closed(FleetClose),
    Refused(FleetError),
}

/// Adds these runs; false where one of them can't be added.
fn add_all(all: &mut FleetRuns, books: &Books, runs: &[Run]) -> Result<bool, AllocError> {
    for run in runs {
        let Some(setup) = books.setup(run.book)? else {
            return Ok(false);
        };
        if !all.push(run.number, setup)? {
            return Ok(false);
        }
    }
    Ok(true)
}

/// The runs of a fleet; nothing where there are none such.
fn runs_of(alloc: Global, books: &Books, runs: &[Run]) -> Result<Option<FleetRuns>, AllocError> {
    let [first, others @ ..] = runs else {
        return Ok(None);
    };
    let Some(setup) = books.setup(first.book)? else {
        return Ok(None);
    };
    let mut all = FleetRuns::new(alloc, first.number, setup)?;
    if add_all(&mut all, books, others)? {
        Ok(Some(all))
    } else {
        Ok(None)
    }
}

/// Calls a fleet of these runs, by place; 0 records stand for 1.
pub(crate) fn call(
    alloc: Global,
    books: &Books,
    runs: &[Run],
    site: &mut MemorySite,
    most: u64,
) -> Result<Came, AllocError> {
    let Some(runs) = runs_of(alloc, books, runs)? else {
        return Ok(Came::NoRuns);
    };
    match fleet(alloc, site, runs, most.max(1)) {
        Ok(close) => Ok(Came::Closed(close)),
        Err(error) => Ok(Came::Refused(error)),
    }
}
