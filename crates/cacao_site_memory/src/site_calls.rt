// The disk of a site in memory.
ghost use Rattle.std.specs.Prelude.{◌≡◌, ◌+◌, ◌<◌, ◌≤◌, IfOk, OnOk, OnErr, is_err, length, take, drop, IsTrue};
ghost use Rattle.cacao_site.specs.Counts.{next_count};
ghost use Rattle.cacao_site.specs.DiskCalls.{CallsOn, StaysAt, SameRest, Follows, Spreads, Same, Torn, Written, IsDurable};
ghost use Rattle.cacao_site.specs.View.{device_calls};
ghost use Rattle.cacao_site_memory.specs.Plan.{fails_by};

use crate::site::MemorySite;
use cacao_site::{Disk, Failed};

impl Disk for MemorySite {
    ghost use Rattle.cacao_site_memory.specs.MemorySite.{plan_of, used_of, view_of};
    ghost use Rattle.cacao_site_memory.specs.MemorySound.{site-sound};

    ghost view = { view_of };

    ghost sound = { site-sound };

    fn length(&mut self, file: u8) -> Result<u64, Failed>
        requires { file ≤ 31 }
        ensures call { CallsOn file 0 (view_of self.old).disk (view_of self.new).disk }
        ensures rest { SameRest (view_of self.old) (view_of self.new) }
        ensures faultless { OnOk result ((view_of self.new).disk.faults ≡ (view_of self.old).disk.faults) }
        ensures cause { OnErr result ((view_of self.new).disk.faults ≡ next_count (view_of self.old).disk.faults) }
        ensures stays { StaysAt (view_of self.old).disk (view_of self.new).disk file }
        ensures length { IfOk result (λ n. IsTrue (view_of self.old).disk.told → n ≡ length ((view_of self.old).disk.reads file)) }
        ensures by_plan { is_err result ≡ fails_by (plan_of self.old) (device_calls (view_of self.old)) (used_of self.old) 0 }
        ensures plan { plan_of self.new ≡ plan_of self.old }
        ensures used { used_of self.new ≡ used_of self.old }
    {
        if self.fails(0) {
            self.pass_failed();
            return Err(Failed);
        }
        let size = self.length_of(file);
        self.pass();
        Ok(size)
    }

    /// Fills the front of the buffer. Places between the end of a file and a write past it read as zeros.
    fn read(&mut self, file: u8, at: u64, into: &mut [u8]) -> Result<u32, Failed>
        requires file { file ≤ 31 }
        requires size { length into.old ≤ 4_096 }
        ensures call { CallsOn file 0 (view_of self.old).disk (view_of self.new).disk }
        ensures rest { SameRest (view_of self.old) (view_of self.new) }
        ensures faultless { OnOk result ((view_of self.new).disk.faults ≡ (view_of self.old).disk.faults) }
        ensures cause { OnErr result ((view_of self.new).disk.faults ≡ next_count (view_of self.old).disk.faults) }
        ensures stays { StaysAt (view_of self.old).disk (view_of self.new).disk file }
        ensures count { IfOk result (λ n. n ≤ length into.old) }
        ensures bytes { IfOk result (λ n. IsTrue (view_of self.old).disk.told
            → take n into.new ≡ take (length into.old) (drop at ((view_of self.old).disk.reads file))) }
        ensures behind { IfOk result (λ n. drop n into.new ≡ drop n into.old) }
        ensures by_plan { is_err result ≡ fails_by (plan_of self.old) (device_calls (view_of self.old)) (used_of self.old) 0 }
        ensures plan { plan_of self.new ≡ plan_of self.old }
        ensures used { used_of self.new ≡ used_of self.old }
    {
        if self.fails(0) {
            self.pass_failed();
            return Err(Failed);
        }
        let count = self.read_front(file, at, into);
        self.pass();
        Ok(count)
    }

    fn write(&mut self, file: u8, at: u64, bytes: &[u8]) -> Result<(), Failed>
        requires file { file ≤ 31 }
        requires fits { at + length bytes.now ≤ 67_108_864 }
        ensures call { CallsOn file (length bytes.now) (view_of self.old).disk (view_of self.new).disk }
        ensures rest { SameRest (view_of self.old) (view_of self.new) }
        ensures faultless { OnOk result ((view_of self.new).disk.faults ≡ (view_of self.old).disk.faults) }
        ensures cause { OnErr result ((view_of self.new).disk.faults ≡ next_count (view_of self.old).disk.faults) }
        ensures images { Follows file (Torn at (length bytes.now)) (view_of self.old).disk (view_of self.new).disk }
        ensures spreads { OnOk result (Spreads file (Torn at (length bytes.now)) (view_of self.old).disk (view_of self.new).disk) }
        ensures written { OnOk result (IsTrue (view_of self.old).disk.told
            → Written at bytes.now ((view_of self.old).disk.reads file) ((view_of self.new).disk.reads file)) }

        // A write that failed counts as a write, the one under way when the device stopped too; behind it the device is dead.
        ensures spreads_failed { OnErr result (device_calls (view_of self.old) ≤ (plan_of self.old).calls
            → Spreads file (Torn at (length bytes.now)) (view_of self.old).disk (view_of self.new).disk) }
        ensures unwritten { OnErr result ((view_of self.new).disk.reads file ≡ (view_of self.old).disk.reads file) }
        ensures by_plan { is_err result ≡ fails_by (plan_of self.old) (device_calls (view_of self.old)) (used_of self.old) (length bytes.now) }
        ensures plan { plan_of self.new ≡ plan_of self.old }
        ensures used { OnOk result (used_of self.new ≡ used_of self.old + length bytes.now) }
        ensures unused { OnErr result (used_of self.new ≡ used_of self.old) }
    {
        if !self.fails(bytes.len()) {
            self.log_write(file, at, bytes);
            return Ok(());
        }
        self.fail_write(file, at, bytes.len());
        Err(Failed)
    }

    fn sync(&mut self, file: u8) -> Result<(), Failed>
        requires { file ≤ 31 }
        ensures call { CallsOn file 0 (view_of self.old).disk (view_of self.new).disk }
        ensures rest { SameRest (view_of self.old) (view_of self.new) }
        ensures faultless { OnOk result ((view_of self.new).disk.faults ≡ (view_of self.old).disk.faults) }
        ensures cause { OnErr result ((view_of self.new).disk.faults ≡ next_count (view_of self.old).disk.faults) }
        ensures images { Follows file Same (view_of self.old).disk (view_of self.new).disk }
        ensures reads { OnOk result ((view_of self.new).disk.reads file ≡ (view_of self.old).disk.reads file) }
        ensures durable { OnOk result (IsDurable file (view_of self.new).disk) }
        ensures undone { OnErr result (StaysAt (view_of self.old).disk (view_of self.new).disk file) }
        ensures by_plan { is_err result ≡ fails_by (plan_of self.old) (device_calls (view_of self.old)) (used_of self.old) 0 }
        ensures plan { plan_of self.new ≡ plan_of self.old }
        ensures used { used_of self.new ≡ used_of self.old }
    {
        if self.fails(0) {
            self.pass_failed();
            return Err(Failed);
        }
        self.log_sync(file);
        Ok(())
    }
}
