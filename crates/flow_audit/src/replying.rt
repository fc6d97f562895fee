// What the rules of a filter reply.
ghost use Rattle.std.specs.Prelude.{◌≡◌, ◌≤◌, length, IfOk, OnOk};
ghost use Rattle.slpf_rules_acts.specs.Acts.{reply_text};
ghost use Rattle.slpf_rules.specs.Replies.{reply};

use cacao_site::Bytes;
use oc2_msg::{CommandError, Response, read_command, write_response};
use slpf_rules::{Table, refused, replies_are_final};
use std::alloc::{AllocError, Global};

/// Answers the bytes of a command at a moment, in milliseconds, and acts on it.
fn respond(
    alloc: Global,
    table: &mut Table,
    command: &[u8],
    moment: u64,
) -> Result<Response, AllocError>
    requires short { length command.now ≤ 1_048_576 }
    requires moment { moment ≤ 9_000_000_000_000_000 }
    ensures response { IfOk result (λ response. response ≡ (reply table.old command.now moment).0) }
    ensures rules { OnOk result (table.new ≡ (reply table.old command.now moment).1) }
{
    match read_command(alloc, command) {
        Ok(asked) => table.answer(&asked, moment),
        Err(CommandError::Refused(refusal)) => Ok(refused(alloc, &refusal)),
        Err(CommandError::Memory) => Err(AllocError),
    }
}

/// The text of the response to the bytes of a command at a moment, in milliseconds; the table acts on it.
pub(crate) fn reply_to(
    alloc: Global,
    table: &mut Table,
    command: &[u8],
    moment: u64,
) -> Result<Bytes, AllocError>
    requires short { length command.now ≤ 1_048_576 }
    requires moment { moment ≤ 9_000_000_000_000_000 }
    ensures text { IfOk result (λ text. text ≡ reply_text table.old command.now moment) }
    ensures rules { OnOk result (table.new ≡ (reply table.old command.now moment).1) }
{
    let response = respond(alloc, table, command, moment)?;
    replies_are_final();
    let text = write_response(alloc, &response)?;
    Ok(Bytes::from_vec(text.into_vec()))
}
