// A command as the filter keeps it.
ghost use Rattle.std.specs.Prelude.{◌≡◌, ◌≢◌, ◌⊎◌, ◌<◌, ◌≤◌, ◌++◌, ◌∷◌, [], ℕ, length, true, false, IfOk, OnOk, OnErr, IsErrOf, Err};
ghost use Rattle.cacao_site.specs.Counts.{Rose};
ghost use Rattle.oc2_msg.specs.Commands.{answer_of};
ghost use Rattle.oc2_msg.specs.Ranges.{InRange};
ghost use Rattle.run_records.specs.Layout.{act_layout};
ghost use Rattle.run_records.specs.Ranges.{ActInRange};
ghost use Rattle.slpf_actuator_acts.specs.ActLists.{MayFollow, entries_of, length_with};
ghost use Rattle.slpf_actuator_acts.specs.Adding.{MayAdd};
ghost use Rattle.slpf_actuator_acts.specs.ActuatorView.{IsReady, act_for, reply_parcel_of, view_over};

use crate::answering::{Asked, answer};
use crate::history::History;
use cacao_site::{Bytes, Disk, Parcel};
use run_journal::{Journal, JournalError};
use run_records::{Act, write_act};
use std::alloc::{AllocError, Global};

/// An act that is to be kept: what its command asks, the act, its bytes in the journal, and the reply that goes back.
#[derive(Drop)]
pub struct Made {
    pub asked: Asked,
    pub act: Act,
    pub entry: Bytes,
    pub reply: Parcel,
}

/// The parcel with these bytes that goes back for a command.
pub fn reply_parcel(alloc: Global, command: &Parcel, reply: &Bytes) -> Result<Parcel, AllocError>
    ensures { IfOk result (λ parcel. parcel ≡ reply_parcel_of command.now.agent command.now reply.now) }
{
    Ok(Parcel {
        agent: command.agent,
        back: true,
        run: command.run,
        issue: command.issue,
        bytes: reply.copy(alloc)?,
    })
}

/// The bytes of an act in the journal, and the parcel that goes back for its command.
fn written(alloc: Global, command: &Parcel, act: &Act) -> Result<(Bytes, Parcel), AllocError>
    requires { ActInRange act.now }
    ensures entry { IfOk result (λ written. written.0 ≡ act_layout act.now) }
    ensures reply { IfOk result (λ written. written.1 ≡ reply_parcel_of command.now.agent command.now act.now.reply) }
{
    let entry = write_act(alloc, act)?;
    let reply = reply_parcel(alloc, command, &act.reply)?;
    Ok((entry, reply))
}

/// The act on a command at a moment, in milliseconds. Nothing changes.
pub fn make(
    alloc: Global,
    history: &History,
    command: &Parcel,
    moment: u64,
) -> Result<Made, AllocError>
    requires small { length command.now.bytes ≤ 1_048_576 }
    requires fits { ActInRange (act_for history.now command.now moment) }
    ensures asked { IfOk result (λ made. made.asked ≡ answer_of command.now.bytes) }
    ensures in_range { IfOk result (λ made. IfOk made.asked InRange) }
    ensures act { IfOk result (λ made. made.act ≡ act_for history.now command.now moment) }
    ensures entry { IfOk result (λ made. made.entry ≡ act_layout (act_for history.now command.now moment)) }
    ensures reply { IfOk result (λ made. made.reply
        ≡ reply_parcel_of command.now.agent command.now (act_for history.now command.now moment).reply) }
{
    let bytes = command.bytes.copy(alloc)?;
    let answered = answer(alloc, history.table(), command.bytes.as_slice())?;
    let act = Act {
        run: command.run,
        issue: command.issue,
        moment: moment.max(history.last_moment()),
        command: bytes,
        reply: answered.reply,
    };
    let (entry, reply) = written(alloc, command, &act)?;
    Ok(Made {
        asked: answered.asked,
        act,
        entry,
        reply,
    })
}

/// Makes room for one more entry like this.
fn reserve(journal: &mut Journal, entry: &Bytes) -> Result<(), JournalError>
    requires { length entry.now ≤ 17_829_888 }
    ensures spare { OnOk result (length entry.now < journal.new.spare) }
    ensures memory { OnErr result (result ≡ Err JournalError.Memory) }
    ensures file { journal.new.file ≡ journal.old.file }
    ensures items { journal.new.items ≡ journal.old.items }
    ensures broken { journal.new.broken ≡ journal.old.broken }
    ensures prepared { journal.new.prepared ≡ journal.old.prepared }
{
    journal.reserve(entry.len() as u32)?;
    Ok(())
}

/// Makes an act durable, and then adds it to the history. After a refusal the file may have the act, and the history is as it was.
pub fn keep<D: Disk>(
    journal: &mut Journal,
    history: &mut History,
    disk: &mut D,
    entry: Bytes,
    act: Act,
    asked: &Asked,
) -> Result<(), JournalError>
    requires ready { IsReady (view_over journal.old history.old) (D.view disk.old) }
    requires whole { journal.old.broken ≡ false }
    requires entries { journal.old.items ≡ entries_of history.old }
    requires fits { ActInRange act }
    requires entry { entry ≡ act_layout act }
    requires follows { MayFollow history.old act }
    requires asked { asked.now ≡ answer_of act.command }
    requires in_range { IfOk asked.now InRange }

    ensures adds { MayAdd (view_over journal.old history.old) act (D.view disk.old) (D.view disk.new) }
    ensures view { OnOk result (view_over journal.new history.new
        ≡ record (view_over journal.old history.old) { acts = history.old ++ act ∷ []; prepared = true }) }
    ensures ready { OnOk result (IsReady (view_over journal.new history.new) (D.view disk.new)) }
    ensures whole { OnOk result (journal.new.broken ≡ false) }
    ensures entries { OnOk result (journal.new.items ≡ entries_of history.new) }
    ensures room { OnOk result (length_with history.old act ≤ 67_108_864) }

    ensures file { journal.new.file ≡ journal.old.file }
    ensures acts_stay { OnErr result (history.new ≡ history.old) }
    ensures disk { IsErrOf result JournalError.Disk → Rose (D.view disk.old).disk.faults (D.view disk.new).disk.faults }
    ensures steady { result ≢ Err JournalError.Disk → (D.view disk.new).disk.faults ≡ (D.view disk.old).disk.faults }
    ensures full { (needed : ℕ) → IsErrOf result (JournalError.Full needed)
        → (disk.new ≡ disk.old) × (needed ≡ length_with history.old act) × (67_108_864 < needed) }
    ensures full_only { 67_108_864 < length_with history.old act
        → (IsErrOf result (JournalError.Full (length_with history.old act))) ⊎ (IsErrOf result JournalError.Memory) }
    ensures no_other { (place : ℕ) → (result ≢ Err JournalError.Broken) × (result ≢ Err (JournalError.Damaged place)) }
{
    reserve(journal, &entry)?;
    journal.append_durably(disk, entry)?;
    prove!(journal.count() > 0);
    history.push(act, asked)?;
    Ok(())
}
