// The texts of a fleet, judged: each playbook by itself, without bindings.
ghost use Rattle.std.specs.Prelude.{◌≡◌, ◌<◌, ◌≤◌, ◌∷◌, ◌++◌, [], All, Contains, IfErr, IfOk, IsSome, length, map, take, true, ◌^◌};
ghost use Rattle.cacao_json.specs.Reading.{tree};
ghost use Rattle.flow_fleet_steps.specs.Openings.{numbers};
ghost use Rattle.cacao_cli_words.specs.Commands.{fleet_request_by};
ghost use Rattle.cacao_cli_words.specs.Requests.{are_apart};
ghost use Rattle.cacao_cli_words.specs.RunBooks.{run_of};
ghost use Rattle.cacao_cli_ends.specs.Ends.{refused};
ghost use Rattle.cacao_cli_ends.specs.Told.{end_of};
ghost use Rattle.cacao_cli_looks.specs.Command.{text_of};
ghost use Rattle.cacao_cli_fleets.specs.FleetEnds.{plain};
ghost use Rattle.cacao_cli_fleets.specs.FleetTexts.{Gives, told_at};
ghost use Rattle.cacao_cli_fleets.specs.Fleeting.{GivesNone};
ghost use Rattle.cacao_cli_fleets.specs.Judging.{AreFirst, AreSetUp, IsRefusal, JoinsRun, RefusesSome, runs_in};

use cacao_check::Break;
use cacao_cli_ends::End;
use cacao_cli_looks::{FileText, trees_of};
use cacao_cli_words::{FleetWords, RunBook};
use cacao_site::Bytes;
use flow_core::{Setup, SetupError};
use flow_fleet_returns::FleetRuns;
use std::alloc::{AllocError, Global};

/// The one text, as a run is given its playbooks.
fn alone(alloc: Global, bytes: Bytes) -> Result<Vec<Bytes>, AllocError>
    ensures { IfOk result (λ books. books.items ≡ bytes ∷ []) }
{
    let mut books = Vec::new(alloc);
    books.push(bytes)?;
    Ok(books)
}

/// The break of a rule, under the number of a playbook's place.
fn told_at<'w>(place: u32, broken: Break) -> End<'w>
    ensures { end_of result ≡ refused (told_at place broken) }
{
    let Break {
        book: _,
        step,
        rule,
    } = broken;
    End::Refused {
        broken: Break {
            book: place,
            step,
            rule,
        },
    }
}

/// What the playbook of this place gives a run, by itself.
fn judge_one<'w>(alloc: Global, place: u32, text: FileText<'w>) -> Result<Setup, End<'w>>
    requires { IsSome (tree text.bytes) }
    ensures ok { IfOk result (Gives (text_of text.entry)) }
    ensures err { IfErr result (λ end. IsRefusal (text_of text.entry) place (end_of end)) }
{
    let Ok(bind) = Bytes::from_slice(alloc, b"") else {
        return Err(End::NoMemory);
    };
    let Ok(books) = alone(alloc, text.bytes) else {
        return Err(End::NoMemory);
    };
    match Setup::read(alloc, books.as_slice(), &bind) {
        Ok(setup) => Ok(setup),
        Err(SetupError::Broken(broken)) => Err(told_at(place, broken)),
        Err(SetupError::Memory) => Err(End::NoMemory),
        Err(SetupError::Unreadable { .. }) => unreachable!(),
        Err(SetupError::Bind { .. }) => unreachable!(),
    }
}

/// One run more, behind those of the places before it.
fn join(
    alloc: Global,
    runs: Option<FleetRuns>,
    run: u64,
    setup: Setup,
) -> Result<FleetRuns, AllocError>
    requires few { length (runs_in runs) < 16 }
    requires other { Contains (numbers (runs_in runs)) run → ⊥ }
    requires small { run < 2 ^ 64 }
    ensures { IfOk result (λ all. all ≡ runs_in runs ++ (run, setup) ∷ []) }
{
    match runs {
        None => FleetRuns::new(alloc, run, setup),
        Some(runs) => {
            let mut all = runs;
            match all.push(run, setup)? {
                true => Ok(all),
                false => unreachable!(),
            }
        }
    }
}

/// The runs of the places up to this one, whose playbook is this text; or the end for it.
fn ready_one<'w>(
    alloc: Global,
    pairs: &[RunBook<'w>],
    place: u32,
    text: FileText<'w>,
    runs: Option<FleetRuns>,
) -> Result<FleetRuns, End<'w>>
    requires here { place < length pairs.now }
    requires few { length pairs.now ≤ 16 }
    requires apart { are_apart (map run_of pairs.now) ≡ true }
    requires numbered { numbers (runs_in runs) ≡ map (λ one. one.run) (take place pairs.now) }
    requires readable { IsSome (tree text.bytes) }
    ensures ok { IfOk result (JoinsRun pairs.entry.now place (text_of text.entry) (runs_in runs)) }
    ensures err { IfErr result (λ end. IsRefusal (text_of text.entry) place (end_of end)) }
{
    let setup = match judge_one(alloc, place, text) {
        Ok(setup) => setup,
        Err(end) => return Err(end),
    };
    match join(alloc, runs, pairs[place as usize].run, setup) {
        Ok(all) => Ok(all),
        Err(_) => Err(End::NoMemory),
    }
}

/// The runs of a fleet, by place; or the end for the first playbook that breaks a rule.
fn ready_runs<'w>(
    alloc: Global,
    pairs: &[RunBook<'w>],
    texts: Vec<FileText<'w>>,
) -> Result<FleetRuns, End<'w>>
    requires some { 1 ≤ length pairs.now }
    requires few { length pairs.now ≤ 16 }
    requires apart { are_apart (map run_of pairs.now) ≡ true }
    requires many { length texts.items ≡ length pairs.now }
    requires readable { All (λ text. IsSome (tree text.bytes)) texts.items }
    ensures ok { IfOk result (AreFirst pairs.entry.now (map text_of texts.entry.items) (length pairs.entry.now)) }
    ensures err { IfErr result (λ end. RefusesSome (map text_of texts.entry.items) (end_of end)) }
{
    let mut runs = None;
    let mut place = 0u32;
    for text in texts {
        runs = match ready_one(alloc, pairs, place, text, runs) {
            Ok(all) => Some(all),
            Err(end) => return Err(end),
        };
        place += 1;
    }
    match runs {
        Some(runs) => Ok(runs),
        None => unreachable!(),
    }
}

/// The runs of a fleet, from the texts of its files in their order; or how the call ends that can hold none.
pub(crate) fn set_up<'w>(
    alloc: Global,
    wanted: &FleetWords<'w>,
    texts: Vec<FileText<'w>>,
) -> Result<FleetRuns, End<'w>>
    requires many { length texts.items ≡ length wanted.now.runs.items }
    ensures ok { IfOk result (AreSetUp (fleet_request_by wanted.entry.now) (map text_of texts.entry.items)) }
    ensures err { IfErr result (λ end. GivesNone (map text_of texts.entry.items) (plain (end_of end))) }
{
    match trees_of(alloc, texts.as_slice()) {
        Ok(_) => ready_runs(alloc, wanted.runs.as_slice(), texts),
        Err(end) => Err(end),
    }
}
