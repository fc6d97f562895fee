// The rules of shape of a step, K5 to K12.
ghost use Rattle.std.specs.Prelude.{◌≡◌, ◌↔◌, IsTrue, All, IfOk, codes, map};
ghost use Rattle.cacao_json.specs.Tree.{data_of, pair_data};
ghost use Rattle.cacao_book_shape.specs.Least.{FirstRule};
ghost use Rattle.cacao_book_shape.specs.Members.{Has, MayHave, EachItem, ListOf, ObjectOf, IsText};
ghost use Rattle.cacao_book_shape.specs.Shape.{K5, K6, K7, K8, K9, K10, K11, K12, LinksAreTexts, links_agree, must_go_on, HasCondition, OnType, HasContent, KeepsOfStep, shape_number};

use crate::arguments::may_have_arguments;
use crate::contents::{is_command_list, keep_contents};
use crate::dictionaries::may_have_dictionary;
use crate::grammars::has_id;
use crate::lists::{is_text, is_text_list, list, pairs};
use crate::members::{
    has_member, has_some_text, has_type, is_short_text, is_type, items_of, may_have_text,
    may_have_up_to, members_of, text_at,
};
use cacao_json::{Pair, Tree, member};
use std::alloc::{AllocError, Global};

// How many milliseconds a delay or a timeout may last.
const MOST_WAIT: u32 = 2_147_483_647;
// How many bytes a condition may have.
const MOST_CONDITION: usize = 2_048;
// How many targets, arguments, branches or cases a step may have, and how many names of `out_args` an action.
const MOST_ITEMS: usize = 64;

const MOST_OUT: usize = 3;

fn keeps_k5(step: &Tree) -> bool
    ensures { IsTrue result ↔ K5 (data_of step.now) }
{
    let found = text_at(step, "type");
    is_type(step, found, "start")
        || is_type(step, found, "end")
        || is_type(step, found, "action")
        || is_type(step, found, "playbook-action")
        || is_type(step, found, "parallel")
        || is_type(step, found, "if-condition")
        || is_type(step, found, "while-condition")
        || is_type(step, found, "switch-condition")
}

fn keeps_k6(step: &Tree) -> bool
    ensures { IsTrue result ↔ K6 (data_of step.now) }
{
    may_have_up_to(step, "delay", MOST_WAIT) && may_have_up_to(step, "timeout", MOST_WAIT)
}

fn keeps_k7(step: &Tree) -> bool
    ensures { IsTrue result ↔ K7 (data_of step.now) }
{
    may_have_dictionary(step, "step_variables")
}

fn links_are_texts(step: &Tree) -> bool
    ensures { IsTrue result ↔ LinksAreTexts (data_of step.now) }
{
    may_have_text(step, "on_completion")
        && may_have_text(step, "on_success")
        && may_have_text(step, "on_failure")
}

// Whether a step is of a type that goes on in any case or after a success.
fn must_go_on(step: &Tree) -> bool
    ensures { result ≡ must_go_on (data_of step.now) }
{
    let found = text_at(step, "type");
    is_type(step, found, "start")
        || is_type(step, found, "action")
        || is_type(step, found, "playbook-action")
}

fn links_agree(step: &Tree) -> bool
    ensures { result ≡ links_agree (data_of step.now) }
{
    let completes = has_member(step, "on_completion");
    let succeeds = has_member(step, "on_success");
    let splits = succeeds || has_member(step, "on_failure");
    let is_end = has_type(step, "end");
    let goes_on = must_go_on(step);
    !(completes && splits)
        && !(is_end && (completes || splits))
        && (!goes_on || completes || succeeds)
}

fn keeps_k8(step: &Tree) -> bool
    ensures { IsTrue result ↔ K8 (data_of step.now) }
{
    links_are_texts(step) && links_agree(step)
}

// Whether the commands of an action are there and are 1 to 64.
fn has_commands(step: &Tree) -> bool
    ensures { IsTrue result ↔ Has (codes "commands") (ListOf 1 64 (Has (codes "type") IsText)) (data_of step.now) }
{
    match member(step, "commands") {
        Some(value) => is_command_list(value),
        None => false,
    }
}

// Whether the targets of an action are absent or at most 64 texts.
fn may_have_targets(step: &Tree) -> bool
    ensures { IsTrue result ↔ MayHave (codes "targets") (ListOf 0 64 IsText) (data_of step.now) }
{
    match member(step, "targets") {
        Some(value) => is_text_list(value, 0, MOST_ITEMS),
        None => true,
    }
}

fn keeps_k9(step: &Tree) -> bool
    ensures { IsTrue result ↔ K9 (data_of step.now) }
{
    if !has_type(step, "action") {
        return true;
    }
    has_commands(step)
        && has_some_text(step, "agent")
        && may_have_targets(step)
        && may_have_arguments(step, "in_args", MOST_ITEMS)
        && may_have_arguments(step, "out_args", MOST_OUT)
}

// Whether each OpenC2 command of an action has its content as it is to be.
fn commands_keep_contents(alloc: Global, step: &Tree) -> Result<bool, AllocError>
    ensures { IfOk result (λ kept. IsTrue kept ↔ MayHave (codes "commands") (EachItem (λ c. OnType (codes "openc2-http") (HasContent c) c)) (data_of step.now)) }
{
    let Some(value) = member(step, "commands") else {
        return Ok(true);
    };
    let Some(commands) = items_of(value) else {
        return Ok(true);
    };
    let kept = keep_contents(alloc, list(commands))?;
    Ok(kept)
}

fn keeps_k10(alloc: Global, step: &Tree) -> Result<bool, AllocError>
    ensures { IfOk result (λ kept. IsTrue kept ↔ K10 (data_of step.now)) }
{
    if !has_type(step, "action") {
        return Ok(true);
    }
    let kept = commands_keep_contents(alloc, step)?;
    Ok(kept)
}

fn keeps_k11(alloc: Global, step: &Tree) -> Result<bool, AllocError>
    ensures { IfOk result (λ kept. IsTrue kept ↔ K11 (data_of step.now)) }
{
    if !has_type(step, "playbook-action") {
        return Ok(true);
    }
    let has_playbook = has_id(alloc, step, "playbook_id")?;
    let has_ins = may_have_arguments(step, "in_args", MOST_ITEMS);
    let has_outs = may_have_arguments(step, "out_args", MOST_ITEMS);
    Ok(has_playbook && may_have_text(step, "playbook_version") && has_ins && has_outs)
}

// Whether a condition is there with a step to which it leads.
fn has_condition(step: &Tree) -> bool
    ensures { IsTrue result ↔ HasCondition (data_of step.now) }
{
    match member(step, "condition") {
        Some(value) => is_short_text(value, MOST_CONDITION) && has_some_text(step, "on_true"),
        None => false,
    }
}

// Whether the branches of a parallel step are there and are 1 to 64.
fn has_next_steps(step: &Tree) -> bool
    ensures { IsTrue result ↔ Has (codes "next_steps") (ListOf 1 64 IsText) (data_of step.now) }
{
    match member(step, "next_steps") {
        Some(value) => is_text_list(value, 1, MOST_ITEMS),
        None => false,
    }
}

// Whether each case leads to a text.
fn lead_to_texts(cases: &[Pair]) -> bool
    ensures { IsTrue result ↔ All (λ m. IsText m.1) (map pair_data cases.now) }
{
    for case in cases {
        if !is_text(&case.tree) {
            return false;
        }
    }
    true
}

// Whether a value is an object of 1 to 64 cases.
fn is_case_table(value: &Tree) -> bool
    ensures { IsTrue result ↔ ObjectOf 1 64 (λ _ step. IsText step) (data_of value.now) }
{
    let Some(members) = members_of(value) else {
        return false;
    };
    let cases = pairs(members);
    1 <= cases.len() && cases.len() <= MOST_ITEMS && lead_to_texts(cases)
}

// Whether the cases of a switch are there.
fn has_cases(step: &Tree) -> bool
    ensures { IsTrue result ↔ Has (codes "cases") (ObjectOf 1 64 (λ _ step. IsText step)) (data_of step.now) }
{
    match member(step, "cases") {
        Some(value) => is_case_table(value),
        None => false,
    }
}

fn keeps_k12(step: &Tree) -> bool
    ensures { IsTrue result ↔ K12 (data_of step.now) }
{
    let found = text_at(step, "type");
    (!is_type(step, found, "parallel") || has_next_steps(step))
        && (!is_type(step, found, "if-condition")
            || (has_condition(step) && may_have_text(step, "on_false")))
        && (!is_type(step, found, "while-condition") || has_condition(step))
        && (!is_type(step, found, "switch-condition")
            || (has_some_text(step, "switch") && has_cases(step)))
}

/// The number of the first rule that a step breaks.
pub(crate) fn first_broken_of_step(alloc: Global, step: &Tree) -> Result<Option<u8>, AllocError>
    ensures { IfOk result (FirstRule shape_number (λ rule. KeepsOfStep rule (data_of step.now))) }
{
    if !keeps_k5(step) {
        return Ok(Some(5));
    }
    if !keeps_k6(step) {
        return Ok(Some(6));
    }
    if !keeps_k7(step) {
        return Ok(Some(7));
    }
    if !keeps_k8(step) {
        return Ok(Some(8));
    }
    if !keeps_k9(step) {
        return Ok(Some(9));
    }
    if !keeps_k10(alloc, step)? {
        return Ok(Some(10));
    }
    if !keeps_k11(alloc, step)? {
        return Ok(Some(11));
    }
    if !keeps_k12(step) {
        return Ok(Some(12));
    }
    Ok(None)
}
