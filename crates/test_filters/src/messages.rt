// Rows of OpenC2 messages: `command TEXT`, `response TEXT` and `write RULE FEATURES`.
use crate::answers::{place_of, said, text_of, unknown, words};
use oc2_msg::{
    CommandError, Feature, FeatureList, Reason, Response, ResponseError, read_command,
    read_response, write_command, write_response,
};
use std::alloc::{AllocError, Global};
use test_rows::Row;

/// The most bytes of a text.
pub(crate) const MOST: usize = 1_048_576;

/// The least text of the command, or the status and the text with which it is refused.
fn command(alloc: Global, text: &[u8]) -> Result<String, AllocError> {
    if text.len() > MOST {
        return unknown(alloc);
    }
    match read_command(alloc, text) {
        Ok(command) => {
            let least = write_command(alloc, &command);
            drop(command);
            String::from_str(alloc, text_of(least?.as_slice()))
        }
        Err(CommandError::Refused(refusal)) => {
            let status = refusal.status;
            let reason = refusal.text.text();
            format!(in alloc; "{status} {reason}")
        }
        Err(CommandError::Memory) => Err(AllocError),
    }
}

/// The status of a response, the number of its rule and its text.
fn response(alloc: Global, text: &[u8]) -> Result<String, AllocError> {
    if text.len() > MOST {
        return unknown(alloc);
    }
    match read_response(alloc, text) {
        Ok(answer) => said(alloc, answer.status, answer.rule, answer.text.text()),
        Err(ResponseError::Malformed) => String::from_str(alloc, "malformed"),
        Err(ResponseError::Memory) => Err(AllocError),
    }
}

fn features(alloc: Global, names: &[&str]) -> Result<FeatureList, AllocError> {
    let mut features = FeatureList::new(alloc);
    for name in names {
        if let Some(feature) = Feature::read(name) {
            features.push(feature)?;
        }
    }
    Ok(features)
}

/// The text of the response of status 200 with this rule and these features.
fn written(alloc: Global, rule: u32, names: &[&str]) -> Result<String, AllocError> {
    let response = Response {
        status: 200,
        rule,
        text: Reason::Empty,
        features: features(alloc, names)?,
    };
    let text = write_response(alloc, &response)?;
    String::from_str(alloc, text_of(text.as_slice()))
}

/// What a row answers.
pub(crate) fn answer(alloc: Global, row: &Row) -> Result<String, AllocError> {
    match row.text(0) {
        "command" => command(alloc, row.bytes(1)),
        "response" => response(alloc, row.bytes(1)),
        "write" => {
            let names = words(alloc, row.text(2))?;
            written(alloc, place_of(row.text(1)), names.as_slice())
        }
        _ => unknown(alloc),
    }
}
