// The lines that tell of a run.
ghost use Rattle.std.specs.Prelude.{◌≡◌, ◌∷◌, ◌++◌, [], ℕ, IfOk, OnOk, codes, decimal, true, slice_get, unwrap_or, Some};
ghost use Rattle.flow_core_rules.specs.Lines.{report, line_from, line, maybe_number, phase_words, issue_words, agent_word, maybe_text, outcome_words, well_words, key_of, task_lines, issue_lines, variable_lines};
ghost use Rattle.flow_core_rules.specs.Changes.{outcome};
ghost use Rattle.flow_core_plans.specs.RunFacts.{shown_of};
ghost use Rattle.flow_core.specs.Views.{has_begun};

use crate::flow::Flow;
use base_lines::{add, add_number, add_word};
use cacao_site::Bytes;
use cacao_text::canonical_string;
use cacao_vars::{Name, Word};
use flow_core_plans::Run;
use flow_core_rules::{Issue, IssuePhase, Phase, Task};
use std::alloc::{AllocError, Global};
use std::collections::BTreeMap;

/// Ends the line.
fn end(out: &mut Vec<u8>) -> Result<(), AllocError>
    ensures { OnOk result (out.new.items ≡ out.old.items ++ line []) }
{
    add(out, b"\n")
}

/// Adds a line of a word and a number.
fn add_number_line(out: &mut Vec<u8>, first: &[u8], number: u64) -> Result<(), AllocError>
    ensures { OnOk result (out.new.items ≡ out.old.items ++ line_from first.now (decimal number ∷ [])) }
{
    add(out, first)?;
    add_number(out, number)?;
    end(out)
}

/// Adds how something ended, and the end of the line.
fn add_end(out: &mut Vec<u8>, well: bool) -> Result<(), AllocError>
    ensures { OnOk result (out.new.items ≡ out.old.items ++ line (well_words well)) }
{
    add_word(out, b"ended")?;
    if well {
        add_word(out, b"ok")?;
        end(out)
    } else {
        add_word(out, b"failed")?;
        end(out)
    }
}

/// Adds a number, or a hyphen where there is none.
fn add_maybe_number(out: &mut Vec<u8>, number: Option<u32>) -> Result<(), AllocError>
    ensures { OnOk result (out.new.items ≡ out.old.items ++ 32 ∷ maybe_number number) }
{
    match number {
        Some(number) => add_number(out, number as u64),
        None => add_word(out, b"-"),
    }
}

/// Adds the number of a filter, or a hyphen for an operator.
fn add_agent(out: &mut Vec<u8>, agent: u8) -> Result<(), AllocError>
    ensures { OnOk result (out.new.items ≡ out.old.items ++ 32 ∷ agent_word agent) }
{
    if agent == 0 {
        add_word(out, b"-")
    } else {
        add_number(out, agent as u64)
    }
}

/// Adds a status behind a word, and the end of the line.
fn add_status(out: &mut Vec<u8>, word: &[u8], status: u16) -> Result<(), AllocError>
    ensures { OnOk result (out.new.items ≡ out.old.items ++ line (word.now ∷ decimal status ∷ [])) }
{
    add_word(out, word)?;
    add_number(out, status as u64)?;
    end(out)
}

/// Adds how an issue stands, and the end of the line.
fn add_issue_phase(out: &mut Vec<u8>, phase: IssuePhase) -> Result<(), AllocError>
    ensures { OnOk result (out.new.items ≡ out.old.items ++ line (issue_words phase)) }
{
    match phase {
        IssuePhase::Waiting => {
            add_word(out, b"waiting")?;
            end(out)
        }
        IssuePhase::Answered { status } => add_status(out, b"answered", status),
        IssuePhase::Told { status } => add_status(out, b"told", status),
        IssuePhase::Expired => {
            add_word(out, b"expired")?;
            end(out)
        }
    }
}

/// Adds the line of an issue.
fn add_issue(out: &mut Vec<u8>, number: u64, issue: &Issue) -> Result<(), AllocError>
    ensures { OnOk result (out.new.items ≡ out.old.items ++ line_from (codes "issue") (decimal number ∷ agent_word issue.now.agent ∷ issue_words issue.now.phase)) }
{
    add(out, b"issue")?;
    add_number(out, number)?;
    add_agent(out, issue.agent)?;
    add_issue_phase(out, issue.phase)
}

/// Adds the lines of all issues.
fn add_issues(out: &mut Vec<u8>, issues: &[Issue]) -> Result<(), AllocError>
    ensures { OnOk result (out.new.items ≡ out.old.items ++ issue_lines 0 issues.now) }
{
    for number in 0..issues.len() {
        add_issue(out, number as u64, &issues[number])?;
    }
    Ok(())
}

/// Adds a text as a string of JSON, or a hyphen where there is none.
fn add_maybe_text(alloc: Global, out: &mut Vec<u8>, text: &Option<Word>) -> Result<(), AllocError>
    ensures { OnOk result (out.new.items ≡ out.old.items ++ 32 ∷ maybe_text text.now) }
{
    match text {
        Some(word) => {
            let quoted = canonical_string(alloc, word.text())?;
            add_word(out, quoted.as_slice())
        }
        None => add_word(out, b"-"),
    }
}

/// Adds the line of a variable.
fn add_variable(
    alloc: Global,
    out: &mut Vec<u8>,
    name: &Name,
    text: &Option<Word>,
) -> Result<(), AllocError>
    ensures { OnOk result (out.new.items ≡ out.old.items ++ line_from (codes "var") (name.now ∷ maybe_text text.now ∷ [])) }
{
    add(out, b"var")?;
    add_word(out, name.text().as_bytes())?;
    add_maybe_text(alloc, out, text)?;
    end(out)
}

/// Adds how the run stands.
fn add_outcome(out: &mut Vec<u8>, outcome: Option<bool>) -> Result<(), AllocError>
    ensures { OnOk result (out.new.items ≡ out.old.items ++ line_from (codes "state") (outcome_words outcome)) }
{
    add(out, b"state")?;
    match outcome {
        Some(well) => add_end(out, well),
        None => {
            add_word(out, b"running")?;
            end(out)
        }
    }
}

/// Adds the lines of the variables of a scope.
fn add_variables(
    alloc: Global,
    out: &mut Vec<u8>,
    texts: &BTreeMap<Name, Option<Word>>,
) -> Result<(), AllocError>
    ensures { OnOk result (out.new.items ≡ out.old.items ++ variable_lines texts.now.entries) }
{
    for (name, text) in texts.iter() {
        add_variable(alloc, out, name, text)?;
    }
    Ok(())
}

/// Adds how a task stands, and the end of the line.
fn add_phase(run: &Run, out: &mut Vec<u8>, task: &Task) -> Result<(), AllocError>
    ensures { (t : ℕ) → slice_get run.now.tables.tasks.items t ≡ Some task.now
        → OnOk result (out.new.items ≡ out.old.items ++ line (phase_words (shown_of run.now) t task.now.phase)) }
{
    match task.phase {
        Phase::Ended { well } => add_end(out, well),
        _ => {
            add_word(out, b"at")?;
            add_word(out, run.key_of(task).as_bytes())?;
            end(out)
        }
    }
}

/// Adds the line of a task.
fn add_task(run: &Run, out: &mut Vec<u8>, number: u64, task: &Task) -> Result<(), AllocError>
    requires { slice_get run.now.tables.tasks.items number ≡ Some task.now }
    ensures { OnOk result (out.new.items ≡ out.old.items
        ++ line_from (codes "task") (decimal number ∷ maybe_number task.now.parent ∷ phase_words (shown_of run.now) number task.now.phase)) }
{
    add(out, b"task")?;
    add_number(out, number)?;
    add_maybe_number(out, task.parent)?;
    add_phase(run, out, task)
}

/// Adds the lines of all tasks.
fn add_tasks(run: &Run, out: &mut Vec<u8>) -> Result<(), AllocError>
    ensures { OnOk result (out.new.items ≡ out.old.items ++ task_lines (shown_of run.now) 0 run.now.tables.tasks.items) }
{
    let tasks = run.tables.tasks.as_slice();
    for number in 0..tasks.len() {
        let task = &tasks[number];
        add_task(run, out, number as u64, task)?;
    }
    Ok(())
}

/// Adds the first three lines.
fn add_head(run: &Run, out: &mut Vec<u8>, count: u32) -> Result<(), AllocError>
    ensures { OnOk result (out.new.items ≡ out.old.items ++ (line_from (codes "run") (decimal run.now.number ∷ [])
        ++ (line_from (codes "records") (decimal count ∷ []) ++ line_from (codes "moment") (decimal run.now.moment ∷ [])))) }
{
    add_number_line(out, b"run", run.number)?;
    add_number_line(out, b"records", count as u64)?;
    add_number_line(out, b"moment", run.moment)
}

/// Adds the lines of the variables of the first playbook.
fn add_first_variables(run: &Run, alloc: Global, out: &mut Vec<u8>) -> Result<(), AllocError>
    ensures { OnOk result (out.new.items ≡ out.old.items ++ variable_lines (unwrap_or (slice_get run.now.tables.opened.texts 0) [])) }
{
    match run.tables.opened.texts(0) {
        Some(texts) => add_variables(alloc, out, texts.as_map()),
        None => Ok(()),
    }
}

impl Flow {
    /// The lines that tell of the run (`show`): its number, how many records it has, the moment of the last one, each task, each
    /// issue, each variable of the first playbook, and how it stands.
    pub fn report(&self) -> Result<Bytes, AllocError>
        requires { has_begun self.now ≡ true }
        ensures { IfOk result (λ lines. lines ≡ report self.now.seen self.now.count) }
    {
        let mut out = Vec::new(self.alloc);
        add_head(&self.run, &mut out, self.count)?;
        add_tasks(&self.run, &mut out)?;
        add_issues(&mut out, self.run.tables.issues.as_slice())?;
        add_first_variables(&self.run, self.alloc, &mut out)?;
        add_outcome(&mut out, self.run.outcome())?;
        Ok(Bytes::from_vec(out))
    }
}
