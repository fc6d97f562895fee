// Answers of operators.
ghost use Rattle.std.specs.Prelude.{◌≡◌, ◌==◌, ◌≤◌, ◌++◌, ◌∷◌, [], ℕ, All, Err, IfOk, IfSome, OnOk, find, length, option_copied};
ghost use Rattle.flow_engine_answers.specs.Answers.{Answers as TellAnswers, IsFirstBadLine, IsOperatorAnswer, of_run};
ghost use Rattle.flow_engine_answers.specs.AnswerLaws.{AnswersAreOne, FirstBadLineIsOne, BadLinesTellNothing, EachTextIsOneOfBoth};
ghost use Rattle.flow_engine_answers.specs.AnswerReading.{told_of};

use crate::told_line::{ToldLine, read_first};
use cacao_site::Bytes;
use std::alloc::{AllocError, Global};
use std::marker::Model;

/// How an issue ended, as an operator told: a status code (OpenC2 Language 1.0, section 3.2) other than 102, and a text of at most
/// 4,096 bytes of UTF-8.
#[derive(Clone, Drop, PartialEq, Eq)]
pub struct OperatorAnswer {
    pub issue: u32,
    pub status: u16,
    pub text: Bytes,
}

/// Why a text gives no answers.
#[derive(Clone, Copy, Drop, PartialEq, Eq)]
pub enum AnswerError {
    /// The line with this number, from 1 on, is the first that is none.
    Line { number: u32 },
    Memory,
}

impl From<AllocError> for AnswerError {
    ghost use Rattle.std.specs.Prelude.{◌≡◌};
    ghost use Rattle.flow_engine_answers.specs.declared.answers.AnswerError.TheVariants.{Memory};

    ghost from_gives = { λ _ e. e ≡ Memory };

    fn from(_refused: AllocError) -> AnswerError {
        AnswerError::Memory
    }
}

/// The answers for one run, in the order of their lines.
pub struct Answers {
    list: Vec<OperatorAnswer>,
}

// (by hand, and not by derive: so a drop is one call in the proofs of all who own one)
impl Drop for Answers {
    fn drop(self) {
        let Self { list: _ } = self;
    }
}

impl Model for Answers {
    ghost use Rattle.std.specs.Prelude.{All, List};
    ghost use Rattle.flow_engine_answers.specs.declared.answers.OperatorAnswer.{OperatorAnswer};

    ghost Value = { List OperatorAnswer };

    ghost use Rattle.flow_engine_answers.specs.Answers.{IsOperatorAnswer};

    ghost view = { λ answers. answers.list.items };

    ghost invariant = { λ answers. All IsOperatorAnswer answers.list.items };
}

impl Answers {
    /// The answers in order.
    pub fn as_slice(&self) -> &[OperatorAnswer]
        ensures items { result.now ≡ self.now }
        ensures good { All IsOperatorAnswer self.now }
    {
        self.list.as_slice()
    }

    /// The first answer for an issue.
    pub fn first(&self, issue: u32) -> Option<&OperatorAnswer>
        ensures found { option_copied result ≡ find (λ told. told.issue == issue) self.now }
        ensures good { IfSome result (λ told. IsOperatorAnswer told.now) }
    {
        self.list.iter().find(|told| told.issue == issue)
    }
}

// Adds what a line tells where it tells it of this run.
fn add(
    alloc: Global,
    list: &mut Vec<OperatorAnswer>,
    told: ToldLine<'_>,
    run: u64,
) -> Result<(), AllocError>
    ensures { OnOk result (list.new.items ≡ list.old.items ++ of_run run (told_of told.entry ∷ [])) }
{
    if told.run != run {
        return Ok(());
    }
    let text = Bytes::from_slice(alloc, told.text)?;
    list.push(OperatorAnswer {
        issue: told.issue,
        status: told.status,
        text,
    })?;
    Ok(())
}

/// The answers for a run in a text of at most 1,048,576 bytes. Each line is `RUN ISSUE STATUS`, or these, a space and a text, with its
/// line feed: the number of a run from 1 to 9,007,199,254,740,991, that of an issue, a status code other than 102. `Line` comes
/// exactly where a line is none of these, with the number of the first.
pub fn read_answers(alloc: Global, bytes: &[u8], run: u64) -> Result<Answers, AnswerError>
    requires { length bytes.now ≤ 1_048_576 }
    ensures ok { IfOk result (TellAnswers bytes.now run) }
    ensures line { (number : ℕ) → result ≡ Err (AnswerError.Line number) → IsFirstBadLine bytes.now number }
{
    let mut list = Vec::new(alloc);
    let mut rest = bytes;
    let mut number: u32 = 1;
    while !rest.is_empty() {
        let Some((told, behind)) = read_first(rest) else {
            return Err(AnswerError::Line { number });
        };
        add(alloc, &mut list, told, run)?;
        rest = behind;
        number += 1;
    }
    Ok(Answers { list })
}

/// What a text tells of a run is one list, its first line that tells nothing has one number, and each text has one of both. The
/// function does nothing; its contract is the law.
pub fn answers_law()
    ensures answers_are_one { AnswersAreOne }
    ensures first_bad_line_is_one { FirstBadLineIsOne }
    ensures bad_lines_tell_nothing { BadLinesTellNothing }
    ensures each_text_is_one_of_both { EachTextIsOneOfBoth }
{}
