// From bytes to the answer of a response.
ghost use Rattle.std.specs.Prelude.{◌≡◌, ◌≤◌, ◌<◌, ◌^◌, IfOk, IfSome, length, option_map};
ghost use Rattle.cacao_json.specs.Tree.{data_of};
ghost use Rattle.oc2_msg.specs.Responses.{status_in, short_text, status_text_in, rule_number_in, rule_in, answer_in, answer, IsReadOrMemory};
ghost use Rattle.oc2_msg.specs.Ranges.{is_status, IsStatus, AnswerInRange};

use crate::answers::{Answer, ResponseError};
use cacao_json::{JsonError, Text, Tree, member, read_tree};
use oc2_msg_targets::{is_absent_or_object, str_of, whole_between};
use std::alloc::Global;

/// What a response answers (OpenC2 Language 1.0, section 3.2). `Malformed`: the bytes are no object with a status
/// code as `status`, a text of at most 4,096 bytes as `status_text`, if it stands, and an object as `results`, if it
/// stands. Other members are not looked at.
pub fn read_response(alloc: Global, bytes: &[u8]) -> Result<Answer, ResponseError>
    requires { length bytes.now ≤ 1_048_576 }
    ensures answer { IsReadOrMemory result (answer bytes.now) }
    ensures in_range { IfOk result AnswerInRange }
{
    match read_tree(alloc, bytes) {
        Ok(tree) => read_answer(alloc, &tree),
        Err(JsonError::Memory) => Err(ResponseError::Memory),
        Err(_) => Err(ResponseError::Malformed),
    }
}

fn is_status(status: u64) -> bool
    ensures { result ≡ is_status status }
{
    match status {
        102 | 200 | 400 | 401 | 403 | 404 | 500 | 501 | 503 => true,
        _ => false,
    }
}

fn read_status(tree: &Tree) -> Option<u16>
    ensures value { result ≡ status_in (data_of tree.now) }
    ensures known { IfSome result IsStatus }
{
    let status = whole_between(member(tree, "status")?, 0, 65_535)?;
    if is_status(status) {
        Some(status as u16)
    } else {
        None
    }
}

fn short_text(tree: &Tree) -> Option<&str>
    ensures value { option_map (λ text. text.now) result ≡ short_text (data_of tree.now) }
    ensures short { IfSome result (λ text. length text.now ≤ 4_096) }
{
    let text = str_of(tree)?;
    if text.len() <= 4_096 {
        Some(text)
    } else {
        None
    }
}

fn read_text(tree: &Tree) -> Option<&str>
    ensures value { option_map (λ text. text.now) result ≡ status_text_in (data_of tree.now) }
    ensures short { IfSome result (λ text. length text.now ≤ 4_096) }
{
    match member(tree, "status_text") {
        Some(part) => short_text(part),
        None => Some(""),
    }
}

fn rule_part(tree: &Tree) -> Option<u64>
    ensures value { result ≡ rule_number_in (data_of tree.now) }
    ensures fits { IfSome result (λ n. n < 2 ^ 32) }
{
    let results = member(tree, "results")?;
    let slpf = member(results, "slpf")?;
    whole_between(member(slpf, "rule_number")?, 1, 4_294_967_295)
}

/// The number of the rule that was added, 0 where there is none.
fn read_rule(tree: &Tree) -> u32
    ensures { result ≡ rule_in (data_of tree.now) }
{
    match rule_part(tree) {
        Some(number) => number as u32,
        None => 0,
    }
}

fn read_answer(alloc: Global, tree: &Tree) -> Result<Answer, ResponseError>
    ensures answer { IsReadOrMemory result (answer_in (data_of tree.now)) }
    ensures in_range { IfOk result AnswerInRange }
{
    if !is_absent_or_object(tree, "results") {
        return Err(ResponseError::Malformed);
    }
    let Some(status) = read_status(tree) else {
        return Err(ResponseError::Malformed);
    };
    let Some(text) = read_text(tree) else {
        return Err(ResponseError::Malformed);
    };
    let rule = read_rule(tree);
    let text = Text::from_str(alloc, text)?;
    Ok(Answer { status, rule, text })
}
