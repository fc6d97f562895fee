// What a command asks, and what the table answers.
ghost use Rattle.std.specs.Prelude.{◌≡◌, ◌≤◌, ℕ, IfOk, OnOk, OnErr, length};
ghost use Rattle.oc2_msg.specs.Commands.{answer_of};
ghost use Rattle.oc2_msg.specs.Ranges.{InRange};
ghost use Rattle.slpf_rules.specs.Replies.{reply_to};
ghost use Rattle.slpf_rules_acts.specs.Acts.{reply_text};

use cacao_site::Bytes;
use oc2_msg::{Command, CommandError, Refusal, Response, read_command, write_response};
use slpf_rules::{Table, refused, replies_are_final};
use std::alloc::{AllocError, Global};

/// What the bytes of a command ask, or why they are refused.
pub type Asked = Result<Command, Refusal>;

/// A command's meaning, and the bytes of its reply.
#[derive(Drop)]
pub struct Answered {
    pub asked: Asked,
    pub reply: Bytes,
}

fn read_asked(alloc: Global, command: &[u8]) -> Result<Asked, AllocError>
    requires { length command.now ≤ 1_048_576 }
    ensures asked { IfOk result (λ asked. asked ≡ answer_of command.now) }
    ensures in_range { IfOk result (λ asked. IfOk asked InRange) }
{
    match read_command(alloc, command) {
        Ok(command) => Ok(Ok(command)),
        Err(CommandError::Refused(refusal)) => Ok(Err(refusal)),
        Err(CommandError::Memory) => Err(AllocError),
    }
}

/// The response that the table would give. Nothing changes.
fn foreseen(alloc: Global, table: &Table, asked: &Asked) -> Result<Response, AllocError>
    ensures { IfOk result (λ response. (moment : ℕ) → response ≡ (reply_to table.now moment asked.now).0) }
{
    match asked {
        Ok(command) => table.foresee(command),
        Err(refusal) => Ok(refused(alloc, refusal)),
    }
}

/// What the bytes of a command ask, and the reply of the table, which is the same at each moment. Nothing changes.
pub fn answer(alloc: Global, table: &Table, command: &[u8]) -> Result<Answered, AllocError>
    requires { length command.now ≤ 1_048_576 }
    ensures asked { IfOk result (λ answered. answered.asked ≡ answer_of command.now) }
    ensures in_range { IfOk result (λ answered. IfOk answered.asked InRange) }
    ensures reply { IfOk result (λ answered. (moment : ℕ) → answered.reply ≡ reply_text table.now command.now moment) }
{
    let asked = read_asked(alloc, command)?;
    let response = foreseen(alloc, table, &asked)?;
    replies_are_final();
    let text = write_response(alloc, &response)?;
    Ok(Answered {
        asked,
        reply: Bytes::from_vec(text.into_vec()),
    })
}

/// Does what is asked. Nothing changes where memory is wanted.
pub(crate) fn enact(table: &mut Table, asked: &Asked, moment: u64) -> Result<(), AllocError>
    requires in_range { IfOk asked.now InRange }
    requires moment { moment ≤ 9_000_000_000_000_000 }
    ensures ok { OnOk result (table.new ≡ (reply_to table.old moment asked.now).1) }
    ensures err { OnErr result (table.new ≡ table.old) }
{
    match asked {
        Ok(command) => {
            table.answer(command, moment)?;
            Ok(())
        }
        Err(_) => Ok(()),
    }
}
