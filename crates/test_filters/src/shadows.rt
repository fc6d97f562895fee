// Rows of shadowed rules: `shadows COMMANDS`, a command a line, and `within FLOW FLOW`.
use crate::answers::{none, truth, unknown};
use crate::filters::Filter;
use crate::flows::read_flow;
use slpf_shadow::{Shadow, flow_within};
use std::alloc::{AllocError, Global};
use test_rows::Row;

fn lines(alloc: Global, shadows: &[Shadow]) -> Result<String, AllocError> {
    let mut text = String::new(alloc);
    for shadow in shadows {
        let before = if text.is_empty() { "" } else { ", " };
        let rule = shadow.rule;
        let by = shadow.by;
        write!(text, "{before}{rule} by {by}")?;
    }
    Ok(text)
}

/// What is listed of the rules of a filter and of these commands.
fn shadows_with(alloc: Global, filter: &mut Filter, commands: &str) -> Result<String, AllocError> {
    for command in commands.split('\n') {
        if !filter.adds(alloc, command.as_bytes())? {
            return unknown(alloc);
        }
    }
    let list = filter.shadowed(alloc)?;
    if list.as_slice().is_empty() {
        none(alloc)
    } else {
        lines(alloc, list.as_slice())
    }
}

/// What is listed of the rules of these commands.
fn shadows(alloc: Global, commands: &str) -> Result<String, AllocError> {
    let mut filter = Filter::new(alloc);
    shadows_with(alloc, &mut filter, commands)
}

fn within(alloc: Global, inner: &str, outer: &str) -> Result<String, AllocError> {
    let Some(inner) = read_flow(alloc, inner)? else {
        return unknown(alloc);
    };
    let Some(outer) = read_flow(alloc, outer)? else {
        return unknown(alloc);
    };
    truth(alloc, flow_within(&inner, &outer))
}

/// What a row answers.
pub(crate) fn answer(alloc: Global, row: &Row) -> Result<String, AllocError> {
    match row.text(0) {
        "shadows" => shadows(alloc, row.text(1)),
        "within" => within(alloc, row.text(1), row.text(2)),
        _ => unknown(alloc),
    }
}
