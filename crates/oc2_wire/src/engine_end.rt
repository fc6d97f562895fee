// The engine's end of a wire.
ghost use Rattle.std.specs.Prelude.{◌≡◌, ◌≢◌, ◌≤◌, ℕ, true, List, Err, IfOk, IfErr};
ghost use Rattle.cacao_site.specs.DiskCalls.{GoesOn as KeepsOn};
ghost use Rattle.cacao_site.specs.LinkCalls.{GainsAll, Keeps};
ghost use Rattle.cacao_site.specs.declared.parcel.Parcel.{Parcel};
ghost use Rattle.flow_world_parts.specs.Openings.{IsJournalOpen};
ghost use Rattle.flow_world_laws.specs.Prefixes.{AddsNothing, GoesOn, GoesOnDurably};
ghost use Rattle.oc2_wire.specs.Errors.{IsOfEngine};
ghost use Rattle.oc2_wire.specs.Reading.{KeepsByLines};
ghost use Rattle.oc2_wire.specs.Serving.{HasRefused, HasServed, RefusesFirst, Serves};
ghost use Rattle.oc2_wire_laws.specs.Since.{EngineKeepsSince};
ghost use Rattle.oc2_wire_site.specs.ReadLines.{KeepsLinesSince, mark_now};
ghost use Rattle.oc2_wire_site.specs.WireOf.{wire_of};
ghost use Rattle.oc2_wire_steps.specs.Kept.{IsToldStart};

use crate::error::{WireError, of_world};
use cacao_site::{Disk, Site};
use flow_core::Setup;
use flow_engine::Engine;
use flow_engine_answers::Answers;
use flow_world_parts::error::of_opening;
use flow_world_parts::{Close as WireClose, Filters, run_opened};
use oc2_wire_laws::engine_laws;
use oc2_wire_link::Link;
use oc2_wire_site::{WireSite, wire_law};
use oc2_wire_steps::engine_law;
use std::alloc::Global;

/// Opens the journal for a run. It writes nothing.
fn open_journal<D: Disk>(
    alloc: Global,
    disk: &mut D,
    setup: Setup,
    run: u64,
) -> Result<Engine, WireError>
    ensures opens { IfOk result (λ engine. IsJournalOpen setup run (D.view disk.old) (D.view disk.new) engine) }
    ensures refused { IfErr result (λ error. RefusesFirst error setup run (D.view disk.old) (D.view disk.new)) }
{
    match Engine::open_on(alloc, disk, setup, run) {
        Ok(engine) => {
            engine.law();
            Ok(engine)
        }
        Err(error) => Err(of_world(of_opening(error))),
    }
}

/// A session beside no filter, over any site.
fn hold<S: Site>(
    alloc: Global,
    site: &mut S,
    setup: Setup,
    answers: &Answers,
    run: u64,
    most: u64,
) -> Result<WireClose, WireError>
    requires some { 1 ≤ most }
    ensures served { IfOk result (λ close. HasServed close setup run most answers.now (S.view site.old) (S.view site.new)) }
    ensures refused { IfErr result (λ error. HasRefused error setup run most answers.now (S.view site.old) (S.view site.new)) }
{
    let engine = match open_journal(alloc, site, setup, run) {
        Ok(engine) => engine,
        Err(error) => return Err(error),
    };
    match run_opened(site, engine, Filters::none(alloc), answers, run, most) {
        Ok(close) => Ok(close),
        Err(error) => Err(of_world(error)),
    }
}

/// The same, with what its end promises.
fn serve<S: Site>(
    alloc: Global,
    site: &mut S,
    setup: Setup,
    answers: &Answers,
    run: u64,
    most: u64,
) -> Result<WireClose, WireError>
    requires some { 1 ≤ most }
    ensures served { IfOk result (λ close. HasServed close setup run most answers.now (S.view site.old) (S.view site.new)) }
    ensures refused { IfErr result (λ error. HasRefused error setup run most answers.now (S.view site.old) (S.view site.new)) }
    ensures own { IfErr result IsOfEngine }
    ensures steady { result ≢ Err WireError.Disk → (S.view site.new).disk.faults ≡ (S.view site.old).disk.faults }
    ensures disk { KeepsOn (S.view site.old).disk (S.view site.new).disk }
    ensures took { Keeps (S.view site.old).link.taken (S.view site.new).link.taken }
    ensures put { Keeps (S.view site.old).link.puts (S.view site.new).link.puts }
    ensures kept { IsToldStart (S.view site.old) run → EngineKeepsSince (S.view site.old) run (S.view site.new) }
    ensures goes_on { IsToldStart (S.view site.old) run → GoesOn most (S.view site.old) (S.view site.new) }
    ensures durably { IsToldStart (S.view site.old) run → Serves setup run most answers.now (S.view site.old) (S.view site.new)
        → GoesOnDurably most (S.view site.old) (S.view site.new) }
    ensures nothing { IfErr result (λ error. IsToldStart (S.view site.old) run
        → RefusesFirst error setup run (S.view site.old) (S.view site.new) → AddsNothing most (S.view site.old) (S.view site.new)) }
{
    engine_law();
    hold(alloc, site, setup, answers, run, most)
}

/// One session of a run at the engine's end of a wire that `WireSite::asking` made: its journal is opened, and it goes on until it
/// closes or a call refuses, with the filters at the other end. At most `most` records are appended. Moments are in milliseconds.
///
/// A link that breaks is no refusal: what is put over it is lost and counted. The call returns where each take of the wire does.
pub fn serve_engine<S: Site, K: Link>(
    alloc: Global,
    wire: &mut WireSite<S, K>,
    setup: Setup,
    answers: &Answers,
    run: u64,
    most: u64,
) -> Result<WireClose, WireError>
    requires asking { (wire_of S.view K.view wire.old).asking ≡ true }
    requires some { 1 ≤ most }
    ensures served { IfOk result (λ close. HasServed close setup run most answers.now
        (wire_of S.view K.view wire.old).site (wire_of S.view K.view wire.new).site) }
    ensures refused { IfErr result (λ error. HasRefused error setup run most answers.now
        (wire_of S.view K.view wire.old).site (wire_of S.view K.view wire.new).site) }
    // Three refusals come of the other end alone.
    ensures own { IfErr result IsOfEngine }
    // No answer but a failure of the disk counts a fault of it.
    ensures steady { result ≢ Err WireError.Disk → (wire_of S.view K.view wire.new).site.disk.faults
        ≡ (wire_of S.view K.view wire.old).site.disk.faults }
    // It is the same disk, and what a past beat may leave stays.
    ensures disk { KeepsOn (wire_of S.view K.view wire.old).site.disk (wire_of S.view K.view wire.new).site.disk }
    // At each beat of the call, whatever is received.
    ensures kept { IsToldStart (wire_of S.view K.view wire.old).site run
        → EngineKeepsSince (wire_of S.view K.view wire.old).site run (wire_of S.view K.view wire.new).site }
    ensures goes_on { IsToldStart (wire_of S.view K.view wire.old).site run
        → GoesOn most (wire_of S.view K.view wire.old).site (wire_of S.view K.view wire.new).site }
    // Once its file was open, and where it could not be opened.
    ensures durably { IsToldStart (wire_of S.view K.view wire.old).site run
        → Serves setup run most answers.now (wire_of S.view K.view wire.old).site (wire_of S.view K.view wire.new).site
        → GoesOnDurably most (wire_of S.view K.view wire.old).site (wire_of S.view K.view wire.new).site }
    ensures nothing { IfErr result (λ error. IsToldStart (wire_of S.view K.view wire.old).site run
        → RefusesFirst error setup run (wire_of S.view K.view wire.old).site (wire_of S.view K.view wire.new).site
        → AddsNothing most (wire_of S.view K.view wire.old).site (wire_of S.view K.view wire.new).site) }
    // It asks still. Where it was just made or marked, what it took and put tells of the lines that it read and sent; and what the end
    // promises holds in words of these lines.
    ensures asking { (wire_of S.view K.view wire.new).asking ≡ true }
    ensures lines { (wire_of S.view K.view wire.old).mark ≡ mark_now (wire_of S.view K.view wire.old)
        → (taken puts : List (ℕ × Parcel))
        → GainsAll (wire_of S.view K.view wire.old).site.link.taken taken (wire_of S.view K.view wire.new).site.link.taken
        → GainsAll (wire_of S.view K.view wire.old).site.link.puts puts (wire_of S.view K.view wire.new).site.link.puts
        → KeepsLinesSince (wire_of S.view K.view wire.old) (wire_of S.view K.view wire.new) taken puts }
    ensures by_lines { (wire_of S.view K.view wire.old).mark ≡ mark_now (wire_of S.view K.view wire.old)
        → IsToldStart (wire_of S.view K.view wire.old).site run
        → ∥ KeepsByLines run (wire_of S.view K.view wire.old) (wire_of S.view K.view wire.new) ∥₁ }
{
    wire_law();
    engine_laws();
    wire.law();
    let result = serve(alloc, wire, setup, answers, run, most);
    wire.law();
    result
}
