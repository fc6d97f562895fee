// Calls of an engine on a rack, whose run file is its journal: those of a site, on what the run at a place sees.
ghost use Rattle.std.specs.Prelude.{◌≡◌, ◌≤◌, [], length, false, true, Err, Ok, IfErr, IfOk, IsSome, OnErr, OnOk, None, Some, slice_get};
ghost use Rattle.oc2_msg.specs.declared.answers.Answer.{Answer};
ghost use Rattle.run_records.specs.Ranges.{last_moment};
ghost use Rattle.run_records.specs.declared.record.Record.TheVariants as entry;
ghost use Rattle.flow_core_rules.specs.Changes.{is_in_time};
ghost use Rattle.flow_core_rules.specs.Moves.{deadline_of, enabled_move};
ghost use Rattle.flow_core_rules.specs.declared.issues.Issue.{Issue};
ghost use Rattle.flow_engine_history.specs.HistoryCalls.{Is};
ghost use Rattle.flow_engine_history.specs.HistoryView.{IsReady};
ghost use Rattle.flow_engine.specs.EngineCalls.{Appends, IsBeginning, IsMove, IsReply, IsReplyTo, IsWaiting, Refused, Sends};
ghost use Rattle.flow_engine.specs.OpenIssues.{puts_of};
ghost use Rattle.flow_world_parts.specs.Openings.{IsJournalOpen, RefusesJournal};
ghost use Rattle.flow_fleet_laws.specs.Views.{seen_from};

use cacao_site::{Disk, Parcel, Rack, RunView};
use flow_core::Setup;
use flow_engine::{Engine, EngineError};
use flow_world_parts::WorldError;
use flow_world_parts::error::of_opening;
use std::alloc::Global;

/// Opens the journal of a run, which is file 0 of this disk. It writes nothing.
fn open_journal<D: Disk>(
    alloc: Global,
    disk: &mut D,
    setup: Setup,
    run: u64,
) -> Result<Engine, WorldError>
    ensures opens { IfOk result (λ engine. IsJournalOpen setup run (D.view disk.old) (D.view disk.new) engine) }
    ensures refused { IfErr result (λ error. RefusesJournal error setup run (D.view disk.old) (D.view disk.new)) }
{
    let engine = match Engine::open_on(alloc, disk, setup, run) {
        Ok(engine) => engine,
        Err(error) => return Err(of_opening(error)),
    };
    engine.law();
    Ok(engine)
}

/// Opens the journal of the run at a place. It writes nothing.
pub(crate) fn open_at<R: Rack>(
    alloc: Global,
    rack: &mut R,
    place: u8,
    setup: Setup,
    run: u64,
) -> Result<Engine, WorldError>
    requires { place ≤ 15 }
    ensures opens { IfOk result (λ engine. IsJournalOpen setup run (seen_from place (R.view rack.old)) (seen_from place (R.view rack.new)) engine) }
    ensures refused { IfErr result (λ error. RefusesJournal error setup run (seen_from place (R.view rack.old)) (seen_from place (R.view rack.new))) }
{
    let mut view = RunView::new(rack, place);
    open_journal(alloc, &mut view, setup, run)
}

/// `Engine::start` of the run at a place.
pub(crate) fn start_at<R: Rack>(
    engine: &mut Engine,
    rack: &mut R,
    place: u8,
    moment: u64,
) -> Result<(), EngineError>
    requires place { place ≤ 15 }
    requires empty { engine.old.history.records ≡ [] }
    requires in_time { moment ≤ last_moment }
    requires ready { IsReady engine.old.history (seen_from place (R.view rack.old)) }
    ensures ready { IsReady engine.new.history (seen_from place (R.view rack.new)) }
    ensures ok { OnOk result (Appends engine.old engine.new (IsBeginning engine.old.history moment) (seen_from place (R.view rack.old)) (seen_from place (R.view rack.new))) }
    ensures refused { IfErr result (λ error. Refused engine.old engine.new (IsBeginning engine.old.history moment) error
        (seen_from place (R.view rack.old)) (seen_from place (R.view rack.new))) }
{
    let mut view = RunView::new(rack, place);
    engine.start(&mut view, moment)
}

/// `Engine::step` of the run at a place.
pub(crate) fn step_at<R: Rack>(
    engine: &mut Engine,
    rack: &mut R,
    place: u8,
    moment: u64,
) -> Result<bool, EngineError>
    requires place { place ≤ 15 }
    requires in_time { is_in_time engine.old.history.seen moment ≡ true }
    requires ready { IsReady engine.old.history (seen_from place (R.view rack.old)) }
    ensures ready { IsReady engine.new.history (seen_from place (R.view rack.new)) }
    ensures stepped { result ≡ Ok true → Appends engine.old engine.new (IsMove engine.old.history moment) (seen_from place (R.view rack.old)) (seen_from place (R.view rack.new)) }
    ensures idle { result ≡ Ok false → enabled_move engine.old.history.seen moment ≡ None }
    ensures refused { IfErr result (λ error. Refused engine.old engine.new (IsMove engine.old.history moment) error
        (seen_from place (R.view rack.old)) (seen_from place (R.view rack.new))) }
{
    let mut view = RunView::new(rack, place);
    engine.step(&mut view, moment)
}

/// `Engine::reply` of the run at a place.
pub(crate) fn reply_at<R: Rack>(
    engine: &mut Engine,
    rack: &mut R,
    place: u8,
    parcel: &Parcel,
    moment: u64,
) -> Result<bool, EngineError>
    requires place { place ≤ 15 }
    requires small { length parcel.now.bytes ≤ 1_048_576 }
    requires in_time { is_in_time engine.old.history.seen moment ≡ true }
    requires ready { IsReady engine.old.history (seen_from place (R.view rack.old)) }
    ensures ready { IsReady engine.new.history (seen_from place (R.view rack.new)) }
    ensures replied { result ≡ Ok true → Appends engine.old engine.new (IsReply engine.old.history parcel.now moment)
        (seen_from place (R.view rack.old)) (seen_from place (R.view rack.new)) }
    ensures ignored { result ≡ Ok false → (read : Answer) → IsReplyTo engine.old.history parcel.now read → ⊥ }
    ensures ignored_stays { result ≡ Ok false → (engine.new ≡ engine.old) × (R.view rack.new ≡ R.view rack.old) }
    ensures refused { IfErr result (λ error. Refused engine.old engine.new (IsReply engine.old.history parcel.now moment) error
        (seen_from place (R.view rack.old)) (seen_from place (R.view rack.new))) }
{
    let mut view = RunView::new(rack, place);
    engine.reply(&mut view, parcel, moment)
}

/// `Engine::expire` of the run at a place.
pub(crate) fn expire_at<R: Rack>(
    engine: &mut Engine,
    rack: &mut R,
    place: u8,
    issue: u32,
    moment: u64,
) -> Result<(), EngineError>
    requires place { place ≤ 15 }
    requires put { IsSome (puts_of engine.old.puts issue) }
    requires due { (it : Issue) → slice_get engine.old.history.seen.lists.issues issue ≡ Some it → deadline_of engine.old.history.seen it ≤ moment }
    requires in_time { is_in_time engine.old.history.seen moment ≡ true }
    requires ready { IsReady engine.old.history (seen_from place (R.view rack.old)) }
    ensures ready { IsReady engine.new.history (seen_from place (R.view rack.new)) }
    ensures ok { OnOk result (Appends engine.old engine.new (Is (entry.Expire issue moment)) (seen_from place (R.view rack.old)) (seen_from place (R.view rack.new))) }
    ensures refused { IfErr result (λ error. Refused engine.old engine.new (Is (entry.Expire issue moment)) error
        (seen_from place (R.view rack.old)) (seen_from place (R.view rack.new))) }
{
    let mut view = RunView::new(rack, place);
    engine.expire(&mut view, issue, moment)
}

/// `Engine::send` of the run at a place.
pub(crate) fn send_at<R: Rack>(
    engine: &mut Engine,
    rack: &mut R,
    place: u8,
    issue: u32,
    moment: u64,
) -> Result<(), EngineError>
    requires place { place ≤ 15 }
    requires waiting { (it : Issue) × IsWaiting engine.old.history.seen issue it }
    requires in_time { is_in_time engine.old.history.seen moment ≡ true }
    requires ready { IsReady engine.old.history (seen_from place (R.view rack.old)) }
    ensures ready { IsReady engine.new.history (seen_from place (R.view rack.new)) }
    ensures ok { OnOk result (Sends engine.old engine.new issue moment (seen_from place (R.view rack.old)) (seen_from place (R.view rack.new))) }
    ensures stays { OnErr result ((engine.new ≡ engine.old) × (R.view rack.new ≡ R.view rack.old)) }
{
    let mut view = RunView::new(rack, place);
    engine.send(&mut view, issue, moment)
}
