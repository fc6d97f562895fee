// Reading the steps of a book that breaks no rule of shape.
ghost use Rattle.std.specs.Prelude.{◌≡◌, IsTrue, IfOk, codes, map, nat_abs};
ghost use Rattle.std.specs.Option.{option_map_or};
ghost use Rattle.cacao_ids.specs.Ids.{IsId};
ghost use Rattle.cacao_json.specs.Tree.{data_of, pair_data};
ghost use Rattle.cacao_book_shape.specs.Members.{MayHave, IsUpTo, whole, members_at, number_at, texts_at};
ghost use Rattle.cacao_book_shape.specs.Shape.{IsWellShapedStep, IsWellShaped, K9, K10, K11, is_of_type, workflow};
ghost use Rattle.cacao_book.specs.Books.{action_of, playbook_action_of, if_of, while_of, switch_of, kind_at, step_of, case_of};
ghost use Rattle.cacao_book.specs.declared.step_kinds.StepKind.TheVariants as step_kind;

use crate::arguments::read_arguments;
use crate::cases::{Case, Cases};
use crate::contents::read_commands;
use crate::dictionaries::read_vars;
use crate::step_kinds::StepKind;
use crate::step_lists::Steps;
use crate::steps::Step;
use crate::text_reading::{read_some_text, read_text, read_texts};
use cacao_book_shape::{is_type, members_at, text_at, text_or_empty};
use cacao_ids::Id;
use cacao_json::{Pair, Text, Tree, member, whole_of};
use std::alloc::{AllocError, Global};

// How many milliseconds a step's commands may take where it states no timeout.
const DEFAULT_TIMEOUT: u32 = 60_000;

// The number that a value is.
fn number_of(value: &Tree, absent: u32) -> u32
    requires { IsUpTo 2147483647 (data_of value.now) }
    ensures { result ≡ option_map_or nat_abs (whole (data_of value.now)) absent }
{
    match whole_of(value) {
        Some(n) => n as u32,
        None => absent,
    }
}

// The number under a name, and another where there is none.
fn number_at(tree: &Tree, name: &str, absent: u32) -> u32
    requires { MayHave name.now (IsUpTo 2147483647) (data_of tree.now) }
    ensures { result ≡ number_at name.now absent (data_of tree.now) }
{
    match member(tree, name) {
        Some(value) => number_of(value, absent),
        None => absent,
    }
}

// The identifier that a text is.
pub(crate) fn known_id(alloc: Global, text: &str) -> Result<Id, AllocError>
    requires { IsId text.now }
    ensures { IfOk result (λ id. id ≡ text.now) }
{
    let id = Id::read(alloc, text)?;
    Ok(id.unwrap())
}

fn read_action(alloc: Global, step: &Tree) -> Result<StepKind, AllocError>
    requires action { IsTrue (is_of_type (codes "action") (data_of step.now)) }
    requires k9 { K9 (data_of step.now) }
    requires k10 { K10 (data_of step.now) }
    ensures { IfOk result (λ kind. kind ≡ action_of (data_of step.now)) }
{
    let commands = read_commands(alloc, step)?;
    let agent = read_some_text(alloc, step, "agent")?;
    let targets = read_texts(alloc, step, "targets")?;
    let in_args = read_arguments(alloc, step, "in_args")?;
    let out_args = read_arguments(alloc, step, "out_args")?;
    Ok(StepKind::Action {
        commands,
        agent,
        targets,
        in_args,
        out_args,
    })
}

fn read_playbook_action(alloc: Global, step: &Tree) -> Result<StepKind, AllocError>
    requires action { IsTrue (is_of_type (codes "playbook-action") (data_of step.now)) }
    requires k11 { K11 (data_of step.now) }
    ensures { IfOk result (λ kind. kind ≡ playbook_action_of (data_of step.now)) }
{
    let playbook = read_some_text(alloc, step, "playbook_id")?;
    let version = read_text(alloc, step, "playbook_version")?;
    let in_args = read_arguments(alloc, step, "in_args")?;
    let out_args = read_arguments(alloc, step, "out_args")?;
    Ok(StepKind::PlaybookAction {
        playbook,
        version,
        in_args,
        out_args,
    })
}

fn read_parallel(alloc: Global, step: &Tree) -> Result<StepKind, AllocError>
    ensures { IfOk result (λ kind. kind ≡ step_kind.Parallel (texts_at (codes "next_steps") (data_of step.now))) }
{
    let next = read_texts(alloc, step, "next_steps")?;
    Ok(StepKind::Parallel { next })
}

fn read_if(alloc: Global, step: &Tree) -> Result<StepKind, AllocError>
    ensures { IfOk result (λ kind. kind ≡ if_of (data_of step.now)) }
{
    let condition = read_some_text(alloc, step, "condition")?;
    let on_true = read_some_text(alloc, step, "on_true")?;
    let on_false = read_text(alloc, step, "on_false")?;
    Ok(StepKind::If {
        condition,
        on_true,
        on_false,
    })
}

fn read_while(alloc: Global, step: &Tree) -> Result<StepKind, AllocError>
    ensures { IfOk result (λ kind. kind ≡ while_of (data_of step.now)) }
{
    let condition = read_some_text(alloc, step, "condition")?;
    let on_true = read_some_text(alloc, step, "on_true")?;
    Ok(StepKind::While { condition, on_true })
}

fn read_case(alloc: Global, pair: &Pair) -> Result<Case, AllocError>
    ensures { IfOk result (λ case. case ≡ case_of (pair_data pair.now)) }
{
    let value = Text::from_str(alloc, pair.name.text())?;
    let step = Text::from_str(alloc, text_or_empty(&pair.tree))?;
    Ok(Case { value, step })
}

fn read_cases(alloc: Global, step: &Tree) -> Result<Cases, AllocError>
    ensures { IfOk result (λ cases. cases ≡ map case_of (members_at (codes "cases") (data_of step.now))) }
{
    let mut cases = Vec::new(alloc);
    for pair in members_at(step, "cases") {
        cases.push(read_case(alloc, pair)?)?;
    }
    Ok(Cases::from_vec(cases))
}

fn read_switch(alloc: Global, step: &Tree) -> Result<StepKind, AllocError>
    ensures { IfOk result (λ kind. kind ≡ switch_of (data_of step.now)) }
{
    let subject = read_some_text(alloc, step, "switch")?;
    let cases = read_cases(alloc, step)?;
    Ok(StepKind::Switch { subject, cases })
}

// What a step that is an action, a control step or a playbook-action does.
fn read_kind(alloc: Global, step: &Tree) -> Result<StepKind, AllocError>
    requires k9 { K9 (data_of step.now) }
    requires k10 { K10 (data_of step.now) }
    requires k11 { K11 (data_of step.now) }
    ensures { IfOk result (λ kind. kind ≡ kind_at (data_of step.now)) }
{
    let found = text_at(step, "type");
    if is_type(step, found, "start") {
        return Ok(StepKind::Start);
    }
    if is_type(step, found, "end") {
        return Ok(StepKind::End);
    }
    if is_type(step, found, "action") {
        let kind = read_action(alloc, step)?;
        return Ok(kind);
    }
    if is_type(step, found, "playbook-action") {
        let kind = read_playbook_action(alloc, step)?;
        return Ok(kind);
    }
    if is_type(step, found, "parallel") {
        let kind = read_parallel(alloc, step)?;
        return Ok(kind);
    }
    if is_type(step, found, "if-condition") {
        let kind = read_if(alloc, step)?;
        return Ok(kind);
    }
    if is_type(step, found, "while-condition") {
        let kind = read_while(alloc, step)?;
        return Ok(kind);
    }
    let kind = read_switch(alloc, step)?;
    Ok(kind)
}

// The step that a member is.
fn read_step(alloc: Global, pair: &Pair) -> Result<Step, AllocError>
    requires key { IsId (pair_data pair.now).0 }
    requires shaped { IsWellShapedStep (pair_data pair.now).1 }
    ensures { IfOk result (λ step. step ≡ step_of (pair_data pair.now)) }
{
    let step = &pair.tree;
    let key = known_id(alloc, pair.name.text())?;
    let variables = read_vars(alloc, step, "step_variables")?;
    let completion = read_text(alloc, step, "on_completion")?;
    let success = read_text(alloc, step, "on_success")?;
    let failure = read_text(alloc, step, "on_failure")?;
    let kind = read_kind(alloc, step)?;
    Ok(Step {
        key,
        delay: number_at(step, "delay", 0),
        timeout: number_at(step, "timeout", DEFAULT_TIMEOUT),
        variables,
        completion,
        success,
        failure,
        kind,
    })
}

/// The steps of a book in the order of their keys.
pub(crate) fn read_steps(alloc: Global, book: &Tree) -> Result<Steps, AllocError>
    requires { IsWellShaped (data_of book.now) }
    ensures { IfOk result (λ steps. steps ≡ map step_of (workflow (data_of book.now))) }
{
    let mut steps = Vec::new(alloc);
    for pair in members_at(book, "workflow") {
        steps.push(read_step(alloc, pair)?)?;
    }
    Ok(Steps::from_vec(steps))
}
