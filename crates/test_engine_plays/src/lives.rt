// What an engine is asked from its opening on.
ghost use Rattle.flow_engine_history.specs.HistoryView.{IsReady};

use crate::call::{Answer, Call};
use crate::calls::{expire, reply, reply_of, send, start, step, upgrade};
use cacao_site::Site;
use flow_engine::{Engine, EngineError};
use std::alloc::{AllocError, Global};
use std::str::from_utf8;

/// What came of the calls of an engine.
#[derive(Drop)]
pub struct Life {
    /// The answer of each call, up to the first that refused.
    pub answers: Vec<Answer>,
    /// How many records there were then.
    pub records: u32,
    /// The lines of these records.
    pub lines: String,
    /// Whether a call refused, and one more move behind it was refused as broken.
    pub is_broken: bool,
}

/// Appends the Begin and all moves at a moment, at most 100.
fn begin_and_move<S: Site>(
    engine: &mut Engine,
    site: &mut S,
    moment: u64,
) -> Result<bool, EngineError>
    requires ready { IsReady engine.old.history (S.view site.old) }
    ensures ready { IsReady engine.new.history (S.view site.new) }
{
    start(engine, site, moment)?;
    for _ in 0..100 {
        if !step(engine, site, moment)? {
            return Ok(true);
        }
    }
    Ok(false)
}

/// The answer of a call that did something, or nothing.
fn answer_of(came: Result<bool, EngineError>) -> Answer {
    match came {
        Ok(true) => Answer::Done,
        Ok(false) => Answer::Nothing,
        Err(error) => Answer::Refused(error),
    }
}

/// Hands over a reply; nothing where it has more than 1,000 bytes.
fn hand_over<S: Site>(
    alloc: Global,
    engine: &mut Engine,
    site: &mut S,
    call: (u64, u8, u64, &str),
) -> Result<bool, EngineError>
    requires ready { IsReady engine.old.history (S.view site.old) }
    ensures ready { IsReady engine.new.history (S.view site.new) }
{
    let (moment, agent, run, text) = call;
    if text.len() > 1_000 {
        return Ok(false);
    }
    let parcel = reply_of(alloc, agent, run, text)?;
    reply(engine, site, &parcel, moment)
}

/// Makes a call that may append a record or put a command.
fn make<S: Site>(
    alloc: Global,
    engine: &mut Engine,
    site: &mut S,
    call: Call<'_>,
) -> Result<bool, EngineError>
    requires ready { IsReady engine.old.history (S.view site.old) }
    ensures ready { IsReady engine.new.history (S.view site.new) }
{
    match call {
        Call::Start { moment } => start(engine, site, moment),
        Call::Begin { moment } => begin_and_move(engine, site, moment),
        Call::Upgrade { moment } => upgrade(engine, site, moment),
        Call::Put { moment, issue } => send(engine, site, issue, moment),
        Call::Reply {
            moment,
            agent,
            run,
            text,
        } => hand_over(alloc, engine, site, (moment, agent, run, text)),
        Call::Expire { moment } => expire(engine, site, moment),
        Call::Next => Ok(false),
    }
}

/// Makes a call.
fn answer<S: Site>(alloc: Global, engine: &mut Engine, site: &mut S, call: Call<'_>) -> Answer
    requires ready { IsReady engine.old.history (S.view site.old) }
    ensures ready { IsReady engine.new.history (S.view site.new) }
{
    if let Call::Next = call {
        return Answer::Next(engine.next_put());
    }
    answer_of(make(alloc, engine, site, call))
}

/// Makes calls, up to the first that is refused.
fn answers<S: Site>(
    alloc: Global,
    engine: &mut Engine,
    site: &mut S,
    calls: &[Call<'_>],
) -> Result<Vec<Answer>, AllocError>
    requires ready { IsReady engine.old.history (S.view site.old) }
    ensures ready { IsReady engine.new.history (S.view site.new) }
{
    let mut answers = Vec::new(alloc);
    for call in calls {
        let answer = answer(alloc, engine, site, *call);
        answers.push(answer)?;
        if answer.is_refusal() {
            return Ok(answers);
        }
    }
    Ok(answers)
}

/// Adds the line of a record, where it is there, and text.
fn add_line(lines: &mut String, engine: &Engine, n: u32) -> Result<(), AllocError> {
    if n >= engine.count() {
        return Ok(());
    }
    let line = engine.line(n)?;
    match from_utf8(line.as_slice()) {
        Ok(text) => lines.push_str(text),
        Err(_) => Ok(()),
    }
}

/// The lines of all records.
fn lines_of(alloc: Global, engine: &Engine) -> Result<String, AllocError> {
    let mut lines = String::new(alloc);
    for n in 0..engine.count() {
        add_line(&mut lines, engine, n)?;
    }
    Ok(lines)
}

/// Whether the last call was refused.
fn has_refused(answers: &[Answer]) -> bool {
    match answers.last() {
        Some(answer) => answer.is_refusal(),
        None => false,
    }
}

/// Whether a move is refused as broken.
fn is_broken<S: Site>(engine: &mut Engine, site: &mut S) -> bool
    requires ready { IsReady engine.old.history (S.view site.old) }
{
    let moment = engine.last_moment();
    match step(engine, site, moment) {
        Err(EngineError::Broken) => true,
        _ => false,
    }
}

/// Makes calls of an engine that was opened, and tells what came of them.
pub(crate) fn live<S: Site>(
    alloc: Global,
    engine: &mut Engine,
    site: &mut S,
    calls: &[Call<'_>],
) -> Result<Life, AllocError>
    requires ready { IsReady engine.old.history (S.view site.old) }
{
    let answers = answers(alloc, engine, site, calls)?;
    let records = engine.count();
    let lines = lines_of(alloc, engine)?;
    let is_broken = has_refused(answers.as_slice()) && is_broken(engine, site);
    Ok(Life {
        answers,
        records,
        lines,
        is_broken,
    })
}
