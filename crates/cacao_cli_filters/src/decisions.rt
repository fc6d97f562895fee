// The lines of decisions.
ghost use Rattle.std.specs.Prelude.{◌≡◌, IfOk, map};
ghost use Rattle.std.specs.String.{string_bytes};
ghost use Rattle.cacao_cli_filters.specs.Lines.{decision_line, decision_lines};

use crate::rules::verdict_word;
use oc2_nets::Packet;
use slpf_rules::{Table, Verdict};
use std::alloc::{AllocError, Global};

/// A line for each packet, in order, with what the table decides for it at its moment, in milliseconds: `allow N` or `deny N`, N the
/// number of the rule that decides, or a hyphen where none does.
pub fn decision_lines(
    alloc: Global,
    table: &Table,
    packets: &[(u64, Packet)],
) -> Result<Vec<String>, AllocError>
    ensures { IfOk result (λ lines. map string_bytes lines.items ≡ decision_lines packets.now table.now) }
{
    let mut lines = Vec::new(alloc);
    for (moment, packet) in packets {
        let verdict = table.decide(packet, *moment);
        lines.push(decision_line(alloc, verdict)?)?;
    }
    Ok(lines)
}

fn decision_line(alloc: Global, verdict: Verdict) -> Result<String, AllocError>
    ensures { IfOk result (λ text. string_bytes text ≡ decision_line verdict) }
{
    let word = verdict_word(verdict.deny);
    let rule = verdict.rule;
    if rule == 0 {
        format!(in alloc; "{word} -\n")
    } else {
        format!(in alloc; "{word} {rule}\n")
    }
}
