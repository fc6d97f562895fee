// What a session of a rehearsal is given.
ghost use Rattle.std.specs.Prelude.{◌≡◌, [], IsSome, IfOk, IfErr};
ghost use Rattle.cacao_json.specs.Reading.{tree};
ghost use Rattle.flow_core.specs.Setups.{IsReadable};
ghost use Rattle.cacao_cli_rehearsal.specs.Settings.{IsAccepted, IsNewSite, RefusesText};
ghost use Rattle.cacao_cli_rehearsal.specs.Sites.{inside};

use crate::error::RehearsalError;
use crate::site::RehearsalSite;
use cacao_site::Bytes;
use cacao_site_memory::{CallList, MemorySite, SitePlan, WeatherList};
use flow_core::{Setup, SetupError};
use flow_engine_answers::{AnswerError, Answers, read_answers};
use std::alloc::{AllocError, Global};

/// The text of no bindings.
fn no_bindings(alloc: Global) -> Bytes
    ensures { result ≡ [] }
{
    Bytes::from_vec(Vec::new(alloc))
}

/// What the text of a playbook gives a run.
pub(crate) fn read_setup(alloc: Global, text: Bytes) -> Result<Setup, RehearsalError>
    requires short { IsReadable text }
    requires tree { IsSome (tree text) }
    ensures ok { IfOk result (IsAccepted text) }
    ensures err { IfErr result (RefusesText text) }
{
    let books = [text];
    let bind = no_bindings(alloc);
    match Setup::read(alloc, &books, &bind) {
        Ok(setup) => Ok(setup),
        Err(SetupError::Broken(told)) => Err(RehearsalError::Broken(told)),
        Err(SetupError::Memory) => Err(RehearsalError::Memory),
        Err(SetupError::Unreadable { .. }) => unreachable!(),
        Err(SetupError::Bind { .. }) => unreachable!(),
    }
}

/// The answers that the empty text reads as.
pub(crate) fn no_answers(alloc: Global) -> Result<Answers, AllocError>
    ensures { IfOk result (λ answers. answers ≡ []) }
{
    match read_answers(alloc, b"", 1) {
        Ok(answers) => Ok(answers),
        Err(AnswerError::Memory) => Err(AllocError),
        Err(AnswerError::Line { .. }) => unreachable!(),
    }
}

/// A new site in memory, with room for 67,108,864 bytes and 131,072 device calls, none of which fails, and with a clock that starts
/// at 0 and goes on by itself to 9,000,000,000,000,000 milliseconds.
pub fn new_site(alloc: Global) -> Result<RehearsalSite, AllocError>
    ensures { IfOk result (λ own. IsNewSite (inside own)) }
{
    let plan = SitePlan {
        room: 67_108_864,
        calls: 131_072,
        start: 0,
        stop_clock: 9_000_000_000_000_000,
        failing: CallList::from_vec(Vec::new(alloc)),
        weather: WeatherList::from_vec(Vec::new(alloc)),
    };
    let site = MemorySite::new(alloc, plan)?;
    Ok(RehearsalSite {
        site,
        has_failed: false,
        takes: 0,
    })
}
