// What came of the ends, as text.
use flow_core::LimitKind;
use oc2_wire::{WireClose, WireError};
use oc2_wire_site::LinkState;
use std::alloc::{AllocError, Global};
use test_wire_plays::{Answering, Asking, Came, Served, Talk, Verdict};

/// How a session closed.
fn close(alloc: Global, close: WireClose) -> Result<String, AllocError> {
    match close {
        WireClose::Ended { well: true } => String::from_str(alloc, "ended well"),
        WireClose::Ended { well: false } => String::from_str(alloc, "ended failed"),
        WireClose::Paused => String::from_str(alloc, "paused"),
        WireClose::Waiting { due } => format!(in alloc; "waiting {due}"),
        WireClose::Flooded => String::from_str(alloc, "closed as flooded"),
        WireClose::Asked { issue } => format!(in alloc; "asked {issue}"),
    }
}

/// Which limit was passed.
fn limit(what: LimitKind) -> &'static str {
    match what {
        LimitKind::Journal => "limit journal",
        LimitKind::Moment => "limit moment",
        _ => "another limit",
    }
}

/// Why an end refused.
fn error(alloc: Global, error: WireError) -> Result<String, AllocError> {
    match error {
        WireError::Disk => String::from_str(alloc, "disk failed"),
        WireError::Damaged { file, place } => format!(in alloc; "damaged {file} {place}"),
        WireError::OtherRun { held, asked } => format!(in alloc; "other run {held} {asked}"),
        WireError::OtherBook { index } => format!(in alloc; "other playbook {index}"),
        WireError::Limit { what } => String::from_str(alloc, limit(what)),
        WireError::Say => String::from_str(alloc, "not said"),
        WireError::Flooded => String::from_str(alloc, "flooded"),
        WireError::TooLong => String::from_str(alloc, "too long"),
        WireError::Link => String::from_str(alloc, "link failed"),
        WireError::Memory => String::from_str(alloc, "memory"),
    }
}

/// What came of the engine's end.
fn came(alloc: Global, came: Came) -> Result<String, AllocError> {
    match came {
        Came::NoSetup => String::from_str(alloc, "no setup"),
        Came::NoAnswers => String::from_str(alloc, "no answers"),
        Came::NoWire => String::from_str(alloc, "no wire"),
        Came::Closed(how) => close(alloc, how),
        Came::Refused(why) => error(alloc, why),
    }
}

/// What came of the end of the filters.
fn served(alloc: Global, served: Served) -> Result<String, AllocError> {
    match served {
        Served::NoWire => String::from_str(alloc, "no wire"),
        Served::Acted(acts) => format!(in alloc; "acts {acts}"),
        Served::Refused(why) => error(alloc, why),
    }
}

/// The word for what broke a link.
fn word(state: LinkState) -> &'static str {
    match state {
        LinkState::Whole => "whole",
        LinkState::Ended => "ended",
        LinkState::Failed => "failed",
        LinkState::TooLong => "too long",
        LinkState::PassedOver => "passed over",
        LinkState::NoMemory => "no memory",
    }
}

/// What the engine's end said, how it ended, what broke its link, and how many lines it passed over.
pub(crate) fn asking(alloc: Global, asking: &Asking) -> Result<String, AllocError> {
    let came = came(alloc, asking.came)?;
    let said = asking.said.as_str();
    let state = word(asking.state);
    format!(in alloc; "{said}{came}; link {state}, passed {}", asking.passed)
}

/// The same of the end of the filters; what it said comes to a number of lines, where there are any.
pub(crate) fn answering(alloc: Global, answering: &Answering) -> Result<String, AllocError> {
    let served = served(alloc, answering.served)?;
    let state = word(answering.state);
    if answering.lines > 0 {
        return format!(in alloc; "{served}; said {}", answering.lines);
    }
    format!(in alloc; "{served}; link {state}, passed {}", answering.passed)
}

/// The same of both ends.
pub(crate) fn talk(alloc: Global, talk: &Talk) -> Result<String, AllocError> {
    let engine = asking(alloc, &talk.engine)?;
    let filters = answering(alloc, &talk.filters)?;
    if !talk.is_settled {
        return String::from_str(alloc, "not settled");
    }
    format!(in alloc; "{engine}\n{filters}")
}

/// A verdict.
pub(crate) fn verdict(alloc: Global, verdict: Verdict) -> Result<String, AllocError> {
    match verdict {
        Verdict::Agree { records, acts } => format!(in alloc; "records {records}, acts {acts}"),
        Verdict::Differ { file, place } => format!(in alloc; "differ in {file} at {place}"),
        Verdict::None => String::from_str(alloc, "no verdict"),
    }
}
