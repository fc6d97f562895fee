// The acts of a file's entries.
ghost use Rattle.std.specs.Prelude.{◌≡◌, ◌<◌, ◌++◌, ◌∷◌, [], length, true, false, Ok, IfOk, IfErr};
ghost use Rattle.slpf_actuator_acts.specs.ActLists.{IsHistory, entries_of};
ghost use Rattle.slpf_actuator_acts.specs.Damage.{BreaksIn, IsBad};

use crate::answering::answer;
use crate::history::History;
use run_journal::Journal;
use run_records::read_act;
use std::alloc::{AllocError, Global};

/// The acts of the entries of a journal in one pass, or the place of the gate of the first entry that is no act that may follow
/// those before it, in bytes. Each command is answered anew, to see that its reply is the table's.
pub fn replay(alloc: Global, journal: &Journal) -> Result<Result<History, u64>, AllocError>
    ensures acts { IfOk result (λ replayed. IfOk replayed (λ history. entries_of history ≡ journal.now.items)) }
    ensures history { IfOk result (λ replayed. IfOk replayed IsHistory) }
    ensures breaks { IfOk result (λ replayed. IfErr replayed (BreaksIn journal.now.items)) }
{
    let mut history = History::new(alloc);
    for n in 0..journal.count() {
        if !add_entry(alloc, &mut history, journal.entry(n))? {
            return Ok(Err(journal.place(n)));
        }
    }
    Ok(Ok(history))
}

/// Adds the act of an entry; false where it is no act that may follow.
fn add_entry(alloc: Global, history: &mut History, entry: &[u8]) -> Result<bool, AllocError>
    requires few { length history.old < 4_294_967_295 }
    ensures added { result ≡ Ok true → entries_of history.new ≡ entries_of history.old ++ entry.now ∷ [] }
    ensures history { result ≡ Ok true → IsHistory history.new }
    ensures bad { result ≡ Ok false → IsBad history.old entry.now }
{
    let Some(act) = read_act(alloc, entry)? else {
        return Ok(false);
    };
    if history.find(act.run, act.issue).is_some() {
        return Ok(false);
    }
    let answered = answer(alloc, history.table(), act.command.as_slice())?;
    if answered.reply != act.reply {
        return Ok(false);
    }
    history.push(act, &answered.asked)?;
    Ok(true)
}
