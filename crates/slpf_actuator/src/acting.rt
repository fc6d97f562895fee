// A command that acts.
ghost use Rattle.std.specs.Prelude.{◌≡◌, ◌≢◌, ◌⊎◌, ◌<◌, ◌≤◌, ℕ, length, false, OnOk, OnErr, IsErrOf, Err};
ghost use Rattle.cacao_site.specs.Counts.{Rose};
ghost use Rattle.run_records.specs.Ranges.{ActInRange};
ghost use Rattle.slpf_actuator_acts.specs.ActLists.{IsFinalReply, IsNew, entries_of, length_with};
ghost use Rattle.slpf_actuator_acts.specs.ActuatorView.{IsReady, act_for, view_over};
ghost use Rattle.slpf_actuator.specs.ActuatorCalls.{Acts, Offers, Overflows};

use crate::error::ActError;
use cacao_site::{Parcel, Site};
use run_journal::Journal;
use slpf_actuator_acts::{History, Made, keep, make};
use std::alloc::Global;

/// Acts on a command whose run and issue no act has, and puts its reply.
pub(crate) fn act_on<S: Site>(
    alloc: Global,
    journal: &mut Journal,
    history: &mut History,
    site: &mut S,
    command: &Parcel,
    moment: u64,
) -> Result<(), ActError>
    requires own { command.now.agent ≡ journal.old.file }
    requires small { length command.now.bytes ≤ 1_048_576 }
    requires fits { ActInRange (act_for history.old command.now moment) }
    requires final_reply { IsFinalReply (act_for history.old command.now moment).reply }
    requires ready { IsReady (view_over journal.old history.old) (S.view site.old) }
    requires is_new { IsNew history.old command.now.run command.now.issue }
    requires whole { journal.old.broken ≡ false }
    requires entries { journal.old.items ≡ entries_of history.old }

    ensures acted { OnOk result (Acts (view_over journal.old history.old) (view_over journal.new history.new)
        command.now moment (S.view site.old) (S.view site.new)) }
    ensures ready { OnOk result (IsReady (view_over journal.new history.new) (S.view site.new)) }
    ensures whole { OnOk result (journal.new.broken ≡ false) }
    ensures entries { OnOk result (journal.new.items ≡ entries_of history.new) }
    ensures refused { OnErr result (Offers (view_over journal.old history.old)
        command.now moment (S.view site.old) (S.view site.new)) }

    ensures file { journal.new.file ≡ journal.old.file }
    ensures acts_stay { OnErr result (history.new ≡ history.old) }
    ensures disk { IsErrOf result ActError.Disk → Rose (S.view site.old).disk.faults (S.view site.new).disk.faults }
    ensures steady { result ≢ Err ActError.Disk → (S.view site.new).disk.faults ≡ (S.view site.old).disk.faults }
    ensures full { (needed : ℕ) → IsErrOf result (ActError.Full needed)
        → Overflows (view_over journal.old history.old) command.now moment needed }
    ensures full_stays { (needed : ℕ) → IsErrOf result (ActError.Full needed) → site.new ≡ site.old }
    ensures full_only { 67_108_864 < length_with history.old (act_for history.old command.now moment)
        → (IsErrOf result (ActError.Full (length_with history.old (act_for history.old command.now moment))))
        ⊎ (IsErrOf result ActError.Memory) }
    ensures no_other { (place : ℕ) → (result ≢ Err ActError.Broken) × (result ≢ Err (ActError.Damaged place)) }
{
    let Made {
        asked,
        act,
        entry,
        reply,
    } = make(alloc, history, command, moment)?;
    keep(journal, history, site, entry, act, &asked)?;
    site.put(reply);
    Ok(())
}
