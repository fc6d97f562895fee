// The lines of a rule table.
ghost use Rattle.std.specs.Prelude.{◌≡◌, ◌∷◌, [], IfOk, map, decimal};
ghost use Rattle.std.specs.String.{string_bytes};
ghost use Rattle.oc2_msg.specs.Words.{direction_word};
ghost use Rattle.cacao_cli_filters.specs.Lines.{drop_text, flow_text, rule_line, rule_lines, verdict_word, words};

use crate::flows::{flow_text, maybe_moment};
use oc2_msg::Drop3;
use slpf_rules::{Rule, Table};
use std::alloc::{AllocError, Global};

/// A line for each rule, in order of number: `NUMBER VERDICT DIRECTION FLOW START STOP DROP`.
pub fn rule_lines(alloc: Global, table: &Table) -> Result<Vec<String>, AllocError>
    ensures { IfOk result (λ lines. map string_bytes lines.items ≡ rule_lines table.now) }
{
    let mut lines = Vec::new(alloc);
    for rule in table.rules().iter() {
        lines.push(rule_line(alloc, rule)?)?;
    }
    Ok(lines)
}

fn rule_line(alloc: Global, rule: &Rule) -> Result<String, AllocError>
    ensures { IfOk result (λ text. string_bytes text ≡ rule_line rule.now) }
{
    let covered = covered_text(alloc, rule)?;
    let start = rule.start;
    let stop = maybe_moment(alloc, rule.stop)?;
    let drop = drop_text(rule.deny, rule.drop);
    format!(in alloc; "{covered} {start} {stop} {drop}\n")
}

/// The rule's number, and what it says of which packets.
fn covered_text(alloc: Global, rule: &Rule) -> Result<String, AllocError>
    ensures { IfOk result (λ text. string_bytes text
        ≡ words (decimal rule.now.number) (verdict_word rule.now.deny ∷ direction_word rule.now.direction ∷ flow_text rule.now.flow ∷ [])) }
{
    let number = rule.number;
    let verdict = verdict_word(rule.deny);
    let direction = rule.direction.word();
    let flow = flow_text(alloc, &rule.flow)?;
    format!(in alloc; "{number} {verdict} {direction} {flow}")
}

pub(crate) fn verdict_word(deny: bool) -> &'static str
    ensures { result.now ≡ verdict_word deny }
{
    if deny { "deny" } else { "allow" }
}

fn drop_text(deny: bool, drop: Drop3) -> &'static str
    ensures { result.now ≡ drop_text deny drop }
{
    if deny { drop.word() } else { "-" }
}
