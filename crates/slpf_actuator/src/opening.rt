// The opening of a filter.
ghost use Rattle.std.specs.Prelude.{◌≡◌, ◌≢◌, ◌↔◌, ◌⊎◌, ◌+◌, ◌/◌, ◌<◌, ◌≤◌, ℕ, length, false, IsTrue, Err, IfOk, OnErr, IsErrOf};
ghost use Rattle.cacao_site.specs.Counts.{Rose};
ghost use Rattle.cacao_site.specs.DiskCalls.{IsDurable, IsLeft, OnlyFile};
ghost use Rattle.slpf_actuator_acts.specs.ActLists.{IsHistory, entries_of};
ghost use Rattle.slpf_actuator_acts.specs.ActuatorView.{HoldsActs, IsReady};
ghost use Rattle.slpf_actuator_acts.specs.Damage.{BreaksIn, IsDamaged};

use crate::actuator::Actuator;
use crate::error::ActError;
use cacao_site::Disk;
use run_journal::Journal;
use slpf_actuator_acts::{History, replay};
use std::alloc::Global;

impl Actuator {
    /// Opens the file of an agent, 1 to 16: it syncs, reads the acts in one pass, and answers each command anew to see
    /// that its reply is the table's. It writes nothing.
    pub fn open_on<D: Disk>(alloc: Global, disk: &mut D, agent: u8) -> Result<Actuator, ActError>
        requires low { 1 ≤ agent }
        requires high { agent ≤ 16 }

        // Each image on the way was one before.
        ensures only { OnlyFile agent (D.view disk.old) (D.view disk.new)
            (IsLeft (D.view disk.old).disk agent (D.view disk.old).disk.beat) }
        ensures calls { IsTrue (D.view disk.old).disk.told
            → (D.view disk.new).disk.calls
            ≤ (D.view disk.old).disk.calls + 3 + length ((D.view disk.new).disk.reads agent) / 4096 }
        ensures bytes { (D.view disk.new).disk.written ≤ (D.view disk.old).disk.written }
        // Unless the disk failed, the file reads as before.
        ensures reads { result ≢ Err ActError.Disk → (D.view disk.new).disk.reads agent ≡ (D.view disk.old).disk.reads agent }

        // The one image then stands for the value's acts.
        ensures ready { IfOk result (λ actuator. IsReady actuator (D.view disk.new)) }
        ensures durable { IfOk result (λ actuator. IsDurable agent (D.view disk.new).disk) }
        ensures stands { IfOk result (λ actuator. IsTrue (D.view disk.old).disk.told
            → HoldsActs actuator.acts ((D.view disk.new).disk.reads agent)) }
        ensures agent { IfOk result (λ actuator. actuator.agent ≡ agent) }
        ensures whole { IfOk result (λ actuator. actuator.broken ≡ false) }
        ensures prepared { IfOk result (λ actuator. IsTrue (D.view disk.old).disk.told
            → IsTrue actuator.prepared ↔ (9 < length ((D.view disk.new).disk.reads agent))) }

        ensures damaged_durable { (place : ℕ) → IsErrOf result (ActError.Damaged place) → IsDurable agent (D.view disk.new).disk }
        ensures damaged { (place : ℕ) → IsErrOf result (ActError.Damaged place) → IsTrue (D.view disk.old).disk.told
            → IsDamaged ((D.view disk.new).disk.reads agent) place }
        ensures disk { IsErrOf result ActError.Disk → Rose (D.view disk.old).disk.faults (D.view disk.new).disk.faults }
        // No other answer counts a fault.
        ensures steady { result ≢ Err ActError.Disk → (D.view disk.new).disk.faults ≡ (D.view disk.old).disk.faults }
        ensures no_other { (needed : ℕ) → (result ≢ Err ActError.Broken) × (result ≢ Err (ActError.Full needed)) }
    {
        let journal = match Journal::open_on(alloc, disk, agent) {
            Ok(journal) => journal,
            Err(error) => return Err(ActError::from(error)),
        };
        match read_acts(alloc, &journal) {
            Ok(history) => Ok(Actuator {
                alloc,
                journal,
                history,
                broken: false,
            }),
            Err(error) => Err(error),
        }
    }
}

/// The acts of the entries.
fn read_acts(alloc: Global, journal: &Journal) -> Result<History, ActError>
    ensures acts { IfOk result (λ history. entries_of history ≡ journal.now.items) }
    ensures history { IfOk result IsHistory }
    ensures damaged { (place : ℕ) → IsErrOf result (ActError.Damaged place) → BreaksIn journal.now.items place }
    ensures no_other { OnErr result ((result ≡ Err ActError.Memory) ⊎ ((place : ℕ) × (result ≡ Err (ActError.Damaged place)))) }
{
    match replay(alloc, journal)? {
        Ok(history) => Ok(history),
        Err(place) => Err(ActError::Damaged { place }),
    }
}
