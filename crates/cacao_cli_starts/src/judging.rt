// The texts of a run, judged.
ghost use Rattle.std.specs.Prelude.{◌≤◌, IfOk, IfErr, length};
ghost use Rattle.flow_engine_answers.specs.Answers.{Answers as TellAnswers};
ghost use Rattle.cacao_cli_words.specs.Commands.{run_request};
ghost use Rattle.cacao_cli_ends.specs.Told.{end_of};
ghost use Rattle.cacao_cli_starts.specs.Starting.{AreJudged, AreNamed, AreRefused, HasBind, IsNoAnswers, IsNumbered, IsUnreadableEnd, LacksOthers, answers_of};

use crate::ready::Ready;
use crate::run_texts::RunTexts;
use cacao_cli_ends::{End, Reason};
use cacao_cli_looks::json_end;
use cacao_cli_words::RunWords;
use cacao_json::JsonError;
use flow_core::{Setup, SetupError};
use flow_engine_answers::{AnswerError, Answers, read_answers};
use std::alloc::Global;

/// The answers for the run. Without a file of them there are none.
fn answers_of<'w>(alloc: Global, texts: &RunTexts<'w>, run: u64) -> Result<Answers, End<'w>>
    ensures ok { IfOk result (TellAnswers (answers_of texts.entry.now) run) }
    ensures err { IfErr result (IsNoAnswers texts.entry.now) }
{
    match &texts.answers {
        Some(text) => match read_answers(alloc, text.bytes.as_slice(), run) {
            Ok(answers) => Ok(answers),
            Err(AnswerError::Line { number }) => Err(End::NotReadable {
                name: text.name,
                reason: Reason::Line { number },
            }),
            Err(AnswerError::Memory) => Err(End::NoMemory),
        },
        None => match read_answers(alloc, b"", run) {
            Ok(answers) => Ok(answers),
            Err(_) => Err(End::NoMemory),
        },
    }
}

/// The answers for the run, if the file of bindings is not an empty one, which has no tree. (An empty text binds nothing where no file of
/// bindings is named.)
fn others_of<'w>(
    alloc: Global,
    wanted: &RunWords<'w>,
    texts: &RunTexts<'w>,
) -> Result<Answers, End<'w>>
    ensures bind { IfOk result (λ answers. HasBind (run_request wanted.entry.now) texts.entry.now) }
    ensures ok { IfOk result (TellAnswers (answers_of texts.entry.now) wanted.entry.now.run) }
    ensures err { IfErr result (LacksOthers (run_request wanted.entry.now) texts.entry.now) }
{
    if let Some(name) = wanted.bind {
        if texts.bind.is_empty() {
            return Err(json_end(name, JsonError::NotJson));
        }
    }
    answers_of(alloc, texts, wanted.run)
}

/// How a call ends where the text of this number has no tree: the playbooks count from 0, and that of bindings stands behind them.
fn unreadable_end<'w>(wanted: &RunWords<'w>, file: u32, error: JsonError) -> End<'w>
    requires { IsNumbered (run_request wanted.now) file }
    ensures { IsUnreadableEnd (run_request wanted.entry.now) file error (end_of result) }
{
    let books = wanted.books.as_slice();
    if (file as usize) < books.len() {
        return json_end(books[file as usize], error);
    }
    match wanted.bind {
        Some(name) => json_end(name, error),
        None => unreachable!(),
    }
}

/// What a session is held with, where the playbooks, the bindings and the answers are accepted.
pub(crate) fn judge_texts<'w>(
    alloc: Global,
    wanted: &RunWords<'w>,
    texts: &RunTexts<'w>,
) -> Result<Ready, End<'w>>
    requires some { 1 ≤ length texts.now.books.items }
    requires few { length texts.now.books.items ≤ 16 }
    requires named { AreNamed (run_request wanted.now) texts.now }
    ensures judged { IfOk result (λ ready. AreJudged (run_request wanted.entry.now) texts.entry.now ready.setup ready.answers) }
    ensures refused { IfErr result (λ end. AreRefused (run_request wanted.entry.now) texts.entry.now (end_of end)) }
{
    match Setup::read(alloc, texts.books.as_slice(), &texts.bind) {
        Ok(setup) => match others_of(alloc, wanted, texts) {
            Ok(answers) => Ok(Ready { setup, answers }),
            Err(end) => Err(end),
        },
        Err(SetupError::Unreadable { file, error }) => Err(unreadable_end(wanted, file, error)),
        Err(SetupError::Broken(broken)) => match others_of(alloc, wanted, texts) {
            Ok(_) => Err(End::Refused { broken }),
            Err(end) => Err(end),
        },
        Err(SetupError::Bind { rule }) => match others_of(alloc, wanted, texts) {
            Ok(_) => Err(End::BindRefused { rule }),
            Err(end) => Err(end),
        },
        Err(SetupError::Memory) => Err(End::NoMemory),
    }
}
