// What a session of a run begins with.
ghost use Rattle.std.specs.Prelude.{◌≡◌, ◌≤◌, [], Some, IfOk, IfErr};
ghost use Rattle.cacao_cli_words.specs.Commands.{run_request};
ghost use Rattle.cacao_cli_ends.specs.Asked.{runs};
ghost use Rattle.cacao_cli_ends.specs.Told.{end_of};
ghost use Rattle.cacao_cli_ends.specs.Files.{files_of, shelf_call};
ghost use Rattle.cacao_cli_starts.specs.ReadyRuns.{IsNotReady, IsReady};

use crate::judging::judge_texts;
use crate::run_parts::{names_of, split};
use cacao_cli_ends::{End, Limit};
use cacao_cli_looks::read_files;
use cacao_cli_words::RunWords;
use cacao_site::Shelf;
use flow_core::Setup;
use flow_engine_answers::Answers;
use std::alloc::Global;

/// What a session of a run begins with.
#[derive(Drop)]
pub struct Ready {
    pub setup: Setup,
    /// What operators answered for the run.
    pub answers: Answers,
}

/// Reads the files of a run and judges them; or how the call ends that can hold no session.
pub fn make_ready<'w, L: Shelf>(
    alloc: Global,
    wanted: &RunWords<'w>,
    shelf: &mut L,
) -> Result<Ready, End<'w>>
    ensures ready { IfOk result (λ ready. IsReady (run_request wanted.entry.now)
        (shelf_call (L.told shelf.old) (L.faults shelf.old) (L.faults shelf.new) (L.reads shelf.old) (L.reads shelf.new)) ready.setup ready.answers) }
    ensures refused { IfErr result (λ end. IsNotReady (run_request wanted.entry.now)
        (shelf_call (L.told shelf.old) (L.faults shelf.old) (L.faults shelf.new) (L.reads shelf.old) (L.reads shelf.new)) (end_of end)) }
    ensures files { L.told shelf.new ≡ L.told shelf.old }
    ensures faults { L.faults shelf.old ≤ L.faults shelf.new }
    ensures untouched { files_of (Some (runs (run_request wanted.entry.now))) ≡ [] → shelf.new ≡ shelf.old }
{
    let limit = Limit::BookCount;
    if wanted.books.as_slice().len() as u64 > limit.most() {
        return Err(End::Past { limit });
    }
    let Ok(names) = names_of(alloc, wanted) else {
        return Err(End::NoMemory);
    };
    let texts = match read_files(alloc, names.as_slice(), shelf) {
        Ok(texts) => texts,
        Err(end) => return Err(end),
    };
    match split(alloc, wanted, texts) {
        Ok(texts) => judge_texts(alloc, wanted, &texts),
        Err(_) => Err(End::NoMemory),
    }
}
