// A whole session.
ghost use Rattle.std.specs.Prelude.{◌≡◌, ◌≢◌, ◌≤◌, Err, IfOk, IfErr};
ghost use Rattle.flow_world.specs.Sessions.{HasClosed, HasRefused, IsStart, KeepsAgreement};

use cacao_site::Site;
use flow_engine_answers::Answers;
use flow_world_parts::{Close, Setup, WorldError, open_files, run_opened};
use std::alloc::Global;

/// One session of a run: its files are opened, and it goes on until it closes or a call refuses. At most `most` records are
/// appended. Moments are in milliseconds.
pub fn session<S: Site>(
    alloc: Global,
    site: &mut S,
    setup: Setup,
    answers: &Answers,
    run: u64,
    most: u64,
) -> Result<Close, WorldError>
    requires some { 1 ≤ most }
    ensures closed { IfOk result (λ close. HasClosed close setup run most answers.now (S.view site.old) (S.view site.new)) }
    ensures refused { IfErr result (λ error. HasRefused error setup run most answers.now (S.view site.old) (S.view site.new)) }
    // No answer but a failure of the disk counts a fault.
    ensures steady { result ≢ Err WorldError.Disk → (S.view site.new).disk.faults ≡ (S.view site.old).disk.faults }
    ensures agreement { IsStart (S.view site.old) run → KeepsAgreement (S.view site.old) (S.view site.new) }
{
    match open_files(alloc, site, setup, run) {
        Ok((engine, filters)) => run_opened(site, engine, filters, answers, run, most),
        Err(error) => Err(error),
    }
}
