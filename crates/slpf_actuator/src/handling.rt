// A command, and what becomes of it.
ghost use Rattle.std.specs.Prelude.{◌≡◌, ◌≢◌, ◌⊎◌, ◌↔◌, ◌<◌, ◌≤◌, ℕ, length, true, false, Ok, Err, IfErr, IsErrOf};
ghost use Rattle.cacao_site.specs.Counts.{Rose};
ghost use Rattle.slpf_actuator_acts.specs.ActLists.{IsNew, length_with};
ghost use Rattle.slpf_actuator.specs.ActuatorCalls.{Acts, Overflows, Refuses, Repeats};
ghost use Rattle.slpf_actuator_acts.specs.ActuatorView.{IsReady, act_for};

use crate::acting::act_on;
use crate::actuator::Actuator;
use crate::error::ActError;
use cacao_site::{Parcel, Site};
use slpf_actuator_acts::reply_parcel;
use slpf_rules::replies_are_final;

impl Actuator {
    /// Acts on a command at a moment, in milliseconds, keeps the act, and puts its reply; true exactly where it acted.
    ///
    /// A command of whose run and issue there is an act is answered from that act, whatever its bytes are. The moment of
    /// an act is never less than that of the act before. A command that the table of refusals refuses is an act too.
    pub fn handle<S: Site>(
        &mut self,
        site: &mut S,
        parcel: &Parcel,
        moment: u64,
    ) -> Result<bool, ActError>
        requires command { parcel.now.back ≡ false }
        requires own { parcel.now.agent ≡ self.old.agent }
        requires small { length parcel.now.bytes ≤ 1_048_576 }
        requires moment { moment ≤ 9_000_000_000_000_000 }
        requires ready { IsReady self.old (S.view site.old) }
        ensures ready { IsReady self.new (S.view site.new) }
        ensures agent { self.new.agent ≡ self.old.agent }
        ensures acted { result ≡ Ok true → Acts self.old self.new parcel.now moment (S.view site.old) (S.view site.new) }
        ensures repeated { result ≡ Ok false → Repeats self.old self.new parcel.now (S.view site.old) (S.view site.new) }
        ensures refused { self.old.broken ≡ false → IfErr result (λ error.
            Refuses self.old self.new parcel.now moment error (S.view site.old) (S.view site.new)) }
        ensures broken { IsErrOf result ActError.Broken ↔ (self.old.broken ≡ true) }
        ensures broken_stays { IsErrOf result ActError.Broken → (site.new ≡ site.old) × (self.new ≡ self.old) }
        ensures disk { IsErrOf result ActError.Disk
            → Rose (S.view site.old).disk.faults (S.view site.new).disk.faults }
        ensures full { (needed : ℕ) → IsErrOf result (ActError.Full needed) → Overflows self.old parcel.now moment needed }
        ensures full_stays { (needed : ℕ) → IsErrOf result (ActError.Full needed) → site.new ≡ site.old }
        ensures full_only { self.old.broken ≡ false → IsNew self.old.acts parcel.now.run parcel.now.issue
            → 67_108_864 < length_with self.old.acts (act_for self.old.acts parcel.now moment)
            → (IsErrOf result (ActError.Full (length_with self.old.acts (act_for self.old.acts parcel.now moment))))
            ⊎ (IsErrOf result ActError.Memory) }
        ensures no_other { (place : ℕ) → result ≢ Err (ActError.Damaged place) }
    {
        if self.broken {
            return Err(ActError::Broken);
        }
        replies_are_final();
        match self.history.find(parcel.run, parcel.issue) {
            Some(act) => match reply_parcel(self.alloc, parcel, &act.reply) {
                Ok(reply) => {
                    site.put(reply);
                    Ok(false)
                }
                Err(_) => {
                    self.broken = true;
                    Err(ActError::Memory)
                }
            },
            None => match act_on(
                self.alloc,
                &mut self.journal,
                &mut self.history,
                site,
                parcel,
                moment,
            ) {
                Ok(()) => Ok(true),
                Err(error) => {
                    self.broken = true;
                    Err(error)
                }
            },
        }
    }
}
