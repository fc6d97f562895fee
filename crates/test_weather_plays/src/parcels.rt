// The parcels that fleets put.
use crate::calls::Run;
use crate::looks::{KeptAct, Look};
use cacao_site::Parcel;
use cacao_site_memory::MemorySite;
use flow_engine::Engine;

/// The place of the run of a number.
pub(crate) fn place_of(runs: &[Run], number: u64) -> Option<usize> {
    for place in 0..runs.len() {
        if runs[place].number == number {
            return Some(place);
        }
    }
    None
}

/// Whether a run sent this command.
fn has_sent(engine: &Engine, parcel: &Parcel) -> bool {
    let flow = engine.flow();
    if parcel.issue >= flow.issues() {
        return false;
    }
    let agent = flow.agent_of(parcel.issue);
    agent == parcel.agent && flow.bytes_of(parcel.issue) == parcel.bytes.as_slice()
}

/// Whether an act has this reply.
fn has_replied(kept: &KeptAct, parcel: &Parcel) -> bool {
    kept.agent == parcel.agent
        && kept.act.run == parcel.run
        && kept.act.issue == parcel.issue
        && kept.act.reply.as_slice() == parcel.bytes.as_slice()
}

/// Whether a parcel is a command whose Send is kept, or a reply whose act is.
fn is_kept(look: &Look, runs: &[Run], parcel: &Parcel) -> bool {
    if parcel.back {
        return look.acts.iter().any(|kept| has_replied(kept, parcel));
    }
    let Some(place) = place_of(runs, parcel.run) else {
        return false;
    };
    match look.engines.get(place) {
        Some(engine) => has_sent(engine, parcel),
        None => false,
    }
}

/// A parcel that was put, by its number from 0.
fn parcel_at(site: &MemorySite, n: usize) -> Option<&Parcel> {
    if n >= site.put_count() {
        return None;
    }
    Some(site.parcel_put(n))
}

/// Whether each parcel that was put is a command whose Send is kept, or a reply whose act is.
pub(crate) fn are_kept(look: &Look, runs: &[Run], site: &MemorySite) -> bool {
    for n in 0..site.put_count() {
        let Some(parcel) = parcel_at(site, n) else {
            return false;
        };
        if !is_kept(look, runs, parcel) {
            return false;
        }
    }
    true
}
