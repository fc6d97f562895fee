// Fleets on a site on which sessions are played.
use crate::books::{Book, setup};
use crate::play::Play;
use cacao_site::Rack;
use flow_fleet::{FleetClose, FleetError, FleetRuns, fleet};
use std::alloc::{AllocError, Global};

/// A run of a fleet.
#[derive(Clone, Copy)]
pub struct Run {
    pub number: u64,
    pub book: Book,
}

/// What came of a fleet.
#[derive(Clone, Copy)]
pub enum FleetCame {
    /// A playbook is not accepted.
    NoSetup,
    /// No run is named, or more than 16 are, or two have one number.
    NoRuns,
    Closed(FleetClose),
    Refused(FleetError),
}

/// One run more; false where it is one too many, or one has its number.
fn add(alloc: Global, runs: &mut FleetRuns, run: Run) -> Option<bool> {
    match setup(alloc, run.book) {
        Ok(setup) => match runs.push(run.number, setup) {
            Ok(is_added) => Some(is_added),
            Err(AllocError) => None,
        },
        Err(_) => None,
    }
}

/// The runs of a fleet, of which there is one; what came where there are none such.
fn runs_of(alloc: Global, first: Run, others: &[Run]) -> Result<FleetRuns, FleetCame> {
    let Ok(setup) = setup(alloc, first.book) else {
        return Err(FleetCame::NoSetup);
    };
    let Ok(mut runs) = FleetRuns::new(alloc, first.number, setup) else {
        return Err(FleetCame::NoSetup);
    };
    for run in others {
        match add(alloc, &mut runs, *run) {
            Some(true) => {}
            Some(false) => return Err(FleetCame::NoRuns),
            None => return Err(FleetCame::NoSetup),
        }
    }
    Ok(runs)
}

impl Play {
    /// Plays a fleet of these runs, by place; 0 records stand for 1.
    pub fn fleet(&mut self, runs: &[Run], most: u64) -> FleetCame {
        let [first, others @ ..] = runs else {
            return FleetCame::NoRuns;
        };
        match runs_of(self.alloc, *first, others) {
            Ok(runs) => match fleet(self.alloc, &mut self.site, runs, most.max(1)) {
                Ok(close) => FleetCame::Closed(close),
                Err(error) => FleetCame::Refused(error),
            },
            Err(came) => came,
        }
    }

    /// Writes a run file 1 to 15 from its front on; false where that failed.
    pub fn fill_run(&mut self, number: u8, bytes: &[u8]) -> bool {
        if number == 0 || number > 15 || bytes.len() > 4096 {
            return false;
        }
        self.site.run_write(number, 0, bytes).is_ok() && self.site.run_sync(number).is_ok()
    }

    /// How many bytes a run file 1 to 15 has; nothing where it can't be told.
    pub fn run_size(&mut self, number: u8) -> Option<u64> {
        if number == 0 || number > 15 {
            return None;
        }
        match self.site.run_length(number) {
            Ok(size) => Some(size),
            Err(_) => None,
        }
    }
}
