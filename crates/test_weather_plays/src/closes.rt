// How a fleet closed, against what its files hold.
use crate::calls::{Came, Run};
use crate::looks::Look;
use crate::plans::LATE;
use flow_core::Flow;
use flow_fleet::{FleetClose, FleetError};

/// What a call was given, and how many records it appended.
#[derive(Clone, Copy)]
pub(crate) struct Asked {
    pub(crate) most: u64,
    /// The moment past which the clock does not go on, in milliseconds.
    pub(crate) stop_clock: u64,
    /// Whether a call of the device could fail.
    pub(crate) may_fail: bool,
    pub(crate) appended: u64,
}

/// How a run stands.
fn flow_at(look: &Look, place: usize) -> Option<&Flow> {
    match look.engines.get(place) {
        Some(engine) => Some(engine.flow()),
        None => None,
    }
}

/// Whether a run goes on.
fn goes_on(look: &Look, place: usize) -> bool {
    match flow_at(look, place) {
        Some(flow) => flow.outcome().is_none(),
        None => false,
    }
}

/// Whether one of these runs goes on.
fn some_goes_on(look: &Look, runs: &[Run]) -> bool {
    for place in 0..runs.len() {
        if goes_on(look, place) {
            return true;
        }
    }
    false
}

/// Whether a run ended failed.
fn is_failed(look: &Look, place: usize) -> bool {
    match flow_at(look, place) {
        Some(flow) => flow.outcome() == Some(false),
        None => false,
    }
}

/// The number of the first of these runs that ended failed.
fn first_failed(look: &Look, runs: &[Run]) -> Option<u64> {
    for place in 0..runs.len() {
        if is_failed(look, place) {
            return Some(runs[place].number);
        }
    }
    None
}

/// Whether a run waits for nothing but an operator, if it goes on.
fn is_at_rest(look: &Look, place: usize) -> bool {
    match flow_at(look, place) {
        Some(flow) => flow.enabled(LATE).is_none() && flow.due().is_none(),
        None => false,
    }
}

/// Whether each of these runs waits for nothing but an operator, if it goes on.
fn all_rest(look: &Look, runs: &[Run]) -> bool {
    for place in 0..runs.len() {
        if !is_at_rest(look, place) {
            return false;
        }
    }
    true
}

/// The number of the first of these runs with a question, and its least issue.
fn first_asked(look: &Look, runs: &[Run]) -> Option<(u64, u32)> {
    for place in 0..runs.len() {
        if let Some(flow) = flow_at(look, place) {
            if let Some(issue) = flow.asks() {
                return Some((runs[place].number, issue));
            }
        }
    }
    None
}

/// Whether this question is the one that is named.
fn is_first_asked(look: &Look, runs: &[Run], run: u64, issue: u32) -> bool {
    match first_asked(look, runs) {
        Some((first, least)) => first == run && least == issue,
        None => false,
    }
}

/// Whether a close is that of these runs.
fn closed_so(close: FleetClose, look: &Look, runs: &[Run], asked: Asked) -> bool {
    match close {
        FleetClose::Ended { failed } => {
            !some_goes_on(look, runs) && failed == first_failed(look, runs)
        }
        FleetClose::Paused => asked.appended == asked.most && some_goes_on(look, runs),
        FleetClose::Waiting { due } => due > asked.stop_clock,
        FleetClose::Flooded => false,
        FleetClose::Asked { run, issue } => {
            some_goes_on(look, runs)
                && all_rest(look, runs)
                && is_first_asked(look, runs, run, issue)
        }
    }
}

/// Whether what came of a call fits what these runs left. A fleet refuses for a failure alone.
pub(crate) fn fits(came: Came, look: &Look, runs: &[Run], asked: Asked) -> bool {
    if asked.appended > asked.most {
        return false;
    }
    match came {
        Came::Closed(close) => closed_so(close, look, runs, asked),
        Came::Refused(FleetError::Disk) => asked.may_fail,
        Came::Refused(FleetError::Say) => asked.may_fail,
        Came::Refused(FleetError::Memory) => true,
        _ => false,
    }
}

/// Whether a call was refused memory.
pub(crate) fn wants_memory(came: Came) -> bool {
    match came {
        Came::Refused(FleetError::Memory) => true,
        _ => false,
    }
}

/// Whether a call ended by itself, with all runs at their ends or before a question.
pub(crate) fn is_last(came: Came) -> bool {
    match came {
        Came::Closed(FleetClose::Ended { .. }) => true,
        Came::Closed(FleetClose::Asked { .. }) => true,
        _ => false,
    }
}

/// How many records of a call may have no line.
pub(crate) fn unsaid_most(came: Came) -> u32 {
    match came {
        Came::Refused(_) => 1,
        _ => 0,
    }
}
