// What breaks a rule of shape, K1 to K12.
use crate::at_fault::AtFault;
use crate::shape_parts::part_fault;
use crate::wants::Wants;
use cacao_book_shape::some_text;
use cacao_json::{Tree, member};
use std::alloc::{AllocError, Global};

const K1: &[(&str, Wants)] = &[("type", Wants::Playbook), ("spec_version", Wants::Version)];

const K2: &[(&str, Wants)] = &[
    ("id", Wants::PlaybookId),
    ("created_by", Wants::Id),
    ("created", Wants::Stamp),
    ("modified", Wants::Stamp),
    ("name", Wants::Text),
];

const K3: &[(&str, Wants)] = &[
    ("playbook_variables", Wants::Variables),
    ("agent_definitions", Wants::Definitions),
    ("target_definitions", Wants::Definitions),
];

const K4: &[(&str, Wants)] = &[
    ("workflow_start", Wants::Text),
    ("workflow_exception", Wants::MaybeText),
    ("workflow", Wants::Steps),
];

const K5: &[(&str, Wants)] = &[("type", Wants::Type)];

const K6: &[(&str, Wants)] = &[("delay", Wants::Whole), ("timeout", Wants::Whole)];

const K7: &[(&str, Wants)] = &[("step_variables", Wants::Variables)];

const K8: &[(&str, Wants)] = &[
    ("on_completion", Wants::MaybeText),
    ("on_success", Wants::MaybeText),
    ("on_failure", Wants::MaybeText),
];

const K9: &[(&str, Wants)] = &[
    ("commands", Wants::Commands),
    ("agent", Wants::Text),
    ("targets", Wants::Targets),
    ("in_args", Wants::InArgs),
    ("out_args", Wants::OutArgs),
];

const K10: &[(&str, Wants)] = &[("commands", Wants::Contents)];

const K11: &[(&str, Wants)] = &[
    ("playbook_id", Wants::Id),
    ("playbook_version", Wants::MaybeText),
    ("in_args", Wants::InArgs),
    ("out_args", Wants::InArgs),
];

const PARALLEL: &[(&str, Wants)] = &[("next_steps", Wants::NextSteps)];

const IF: &[(&str, Wants)] = &[
    ("condition", Wants::Condition),
    ("on_true", Wants::Text),
    ("on_false", Wants::MaybeText),
];

const WHILE: &[(&str, Wants)] = &[("condition", Wants::Condition), ("on_true", Wants::Text)];

const SWITCH: &[(&str, Wants)] = &[("switch", Wants::Text), ("cases", Wants::Cases)];

/// What a rule wants of the members of a playbook, or of a step of this type.
fn wanted(rule: u8, kind: &str) -> &'static [(&'static str, Wants)] {
    match rule {
        1 => K1,
        2 => K2,
        3 => K3,
        4 => K4,
        5 => K5,
        6 => K6,
        7 => K7,
        8 => K8,
        9 => K9,
        10 => K10,
        11 => K11,
        _ => wanted_of_control(kind),
    }
}

fn wanted_of_control(kind: &str) -> &'static [(&'static str, Wants)] {
    if kind == "parallel" {
        return PARALLEL;
    }
    if kind == "if-condition" {
        return IF;
    }
    if kind == "while-condition" {
        return WHILE;
    }
    SWITCH
}

/// What is at fault in the member of this name, if it is not as it is wanted.
fn misfit<'a>(
    alloc: Global,
    object: &'a Tree,
    name: &'static str,
    wants: Wants,
) -> Result<Option<AtFault<'a>>, AllocError> {
    let Some(value) = member(object, name) else {
        if wants.may_be_absent() {
            return Ok(None);
        }
        return Ok(Some(AtFault::missing(name, wants.says())));
    };
    if wants.fits(alloc, value)? {
        return Ok(None);
    }
    let fault = part_fault(alloc, name, value, wants)?;
    Ok(Some(fault))
}

/// What breaks the rule on links that go together.
fn link_fault<'a>(step: &Tree) -> AtFault<'a> {
    let name = if member(step, "on_success").is_some() {
        "on_success"
    } else {
        "on_failure"
    };
    let splits = member(step, name).is_some();
    if some_text(step, "type") == "end" {
        let name = if splits { name } else { "on_completion" };
        return AtFault::of(name, "an end step goes on to no other step");
    }
    if splits && member(step, "on_completion").is_some() {
        return AtFault::of(
            name,
            "on_success and on_failure do not stand beside on_completion",
        );
    }
    AtFault::missing(
        "on_completion",
        "the step goes on to another, by on_completion or on_success",
    )
}

/// What breaks this rule of shape in the playbook, or in the step.
pub(crate) fn shape_fault<'a>(
    alloc: Global,
    object: &'a Tree,
    rule: u8,
) -> Result<AtFault<'a>, AllocError> {
    let kind = some_text(object, "type");
    for (name, wants) in wanted(rule, kind) {
        if let Some(fault) = misfit(alloc, object, *name, *wants)? {
            return Ok(fault);
        }
    }
    if rule == 8 {
        return Ok(link_fault(object));
    }
    Ok(AtFault::whole("an object is wanted"))
}
