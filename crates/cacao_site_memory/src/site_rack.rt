// The run files of a site in memory: files 17 to 31 of its disk.
ghost use Rattle.std.specs.Prelude.{◌≡◌, ◌+◌, ◌≤◌, IfOk, OnOk, OnErr, is_err, length, take, drop, IsTrue};
ghost use Rattle.cacao_site.specs.Counts.{next_count};
ghost use Rattle.cacao_site.specs.DiskCalls.{CallsOn, StaysAt, SameRest, Follows, Spreads, Same, Torn, Written, IsDurable};
ghost use Rattle.cacao_site.specs.View.{device_calls};
ghost use Rattle.cacao_site_memory.specs.Plan.{fails_by};

use crate::site::MemorySite;
use cacao_site::{Disk, Failed, Rack};

impl Rack for MemorySite {
    ghost use Rattle.cacao_site_memory.specs.MemorySite.{plan_of, used_of, view_of};

    fn run_length(&mut self, file: u8) -> Result<u64, Failed>
        requires low { 1 ≤ file }
        requires high { file ≤ 15 }
        ensures call { CallsOn (16 + file) 0 (view_of self.old).disk (view_of self.new).disk }
        ensures rest { SameRest (view_of self.old) (view_of self.new) }
        ensures faultless { OnOk result ((view_of self.new).disk.faults ≡ (view_of self.old).disk.faults) }
        ensures cause { OnErr result ((view_of self.new).disk.faults ≡ next_count (view_of self.old).disk.faults) }
        ensures stays { StaysAt (view_of self.old).disk (view_of self.new).disk (16 + file) }
        ensures length { IfOk result (λ n. IsTrue (view_of self.old).disk.told → n ≡ length ((view_of self.old).disk.reads (16 + file))) }
        ensures by_plan { is_err result ≡ fails_by (plan_of self.old) (device_calls (view_of self.old)) (used_of self.old) 0 }
        ensures plan { plan_of self.new ≡ plan_of self.old }
        ensures used { used_of self.new ≡ used_of self.old }
    {
        self.length(16 + file)
    }

    fn run_read(&mut self, file: u8, at: u64, into: &mut [u8]) -> Result<u32, Failed>
        requires low { 1 ≤ file }
        requires high { file ≤ 15 }
        requires size { length into.old ≤ 4_096 }
        ensures call { CallsOn (16 + file) 0 (view_of self.old).disk (view_of self.new).disk }
        ensures rest { SameRest (view_of self.old) (view_of self.new) }
        ensures faultless { OnOk result ((view_of self.new).disk.faults ≡ (view_of self.old).disk.faults) }
        ensures cause { OnErr result ((view_of self.new).disk.faults ≡ next_count (view_of self.old).disk.faults) }
        ensures stays { StaysAt (view_of self.old).disk (view_of self.new).disk (16 + file) }
        ensures count { IfOk result (λ n. n ≤ length into.old) }
        ensures bytes { IfOk result (λ n. IsTrue (view_of self.old).disk.told
            → take n into.new ≡ take (length into.old) (drop at ((view_of self.old).disk.reads (16 + file)))) }
        ensures behind { IfOk result (λ n. drop n into.new ≡ drop n into.old) }
        ensures by_plan { is_err result ≡ fails_by (plan_of self.old) (device_calls (view_of self.old)) (used_of self.old) 0 }
        ensures plan { plan_of self.new ≡ plan_of self.old }
        ensures used { used_of self.new ≡ used_of self.old }
    {
        self.read(16 + file, at, into)
    }

    fn run_write(&mut self, file: u8, at: u64, bytes: &[u8]) -> Result<(), Failed>
        requires low { 1 ≤ file }
        requires high { file ≤ 15 }
        requires fits { at + length bytes.now ≤ 67_108_864 }
        ensures call { CallsOn (16 + file) (length bytes.now) (view_of self.old).disk (view_of self.new).disk }
        ensures rest { SameRest (view_of self.old) (view_of self.new) }
        ensures faultless { OnOk result ((view_of self.new).disk.faults ≡ (view_of self.old).disk.faults) }
        ensures cause { OnErr result ((view_of self.new).disk.faults ≡ next_count (view_of self.old).disk.faults) }
        ensures images { Follows (16 + file) (Torn at (length bytes.now)) (view_of self.old).disk (view_of self.new).disk }
        ensures spreads { OnOk result (Spreads (16 + file) (Torn at (length bytes.now)) (view_of self.old).disk (view_of self.new).disk) }
        ensures written { OnOk result (IsTrue (view_of self.old).disk.told
            → Written at bytes.now ((view_of self.old).disk.reads (16 + file)) ((view_of self.new).disk.reads (16 + file))) }
        ensures spreads_failed { OnErr result (device_calls (view_of self.old) ≤ (plan_of self.old).calls
            → Spreads (16 + file) (Torn at (length bytes.now)) (view_of self.old).disk (view_of self.new).disk) }
        ensures unwritten { OnErr result ((view_of self.new).disk.reads (16 + file) ≡ (view_of self.old).disk.reads (16 + file)) }
        ensures by_plan { is_err result ≡ fails_by (plan_of self.old) (device_calls (view_of self.old)) (used_of self.old) (length bytes.now) }
        ensures plan { plan_of self.new ≡ plan_of self.old }
        ensures used { OnOk result (used_of self.new ≡ used_of self.old + length bytes.now) }
        ensures unused { OnErr result (used_of self.new ≡ used_of self.old) }
    {
        self.write(16 + file, at, bytes)
    }

    fn run_sync(&mut self, file: u8) -> Result<(), Failed>
        requires low { 1 ≤ file }
        requires high { file ≤ 15 }
        ensures call { CallsOn (16 + file) 0 (view_of self.old).disk (view_of self.new).disk }
        ensures rest { SameRest (view_of self.old) (view_of self.new) }
        ensures faultless { OnOk result ((view_of self.new).disk.faults ≡ (view_of self.old).disk.faults) }
        ensures cause { OnErr result ((view_of self.new).disk.faults ≡ next_count (view_of self.old).disk.faults) }
        ensures images { Follows (16 + file) Same (view_of self.old).disk (view_of self.new).disk }
        ensures reads { OnOk result ((view_of self.new).disk.reads (16 + file) ≡ (view_of self.old).disk.reads (16 + file)) }
        ensures durable { OnOk result (IsDurable (16 + file) (view_of self.new).disk) }
        ensures undone { OnErr result (StaysAt (view_of self.old).disk (view_of self.new).disk (16 + file)) }
        ensures by_plan { is_err result ≡ fails_by (plan_of self.old) (device_calls (view_of self.old)) (used_of self.old) 0 }
        ensures plan { plan_of self.new ≡ plan_of self.old }
        ensures used { used_of self.new ≡ used_of self.old }
    {
        self.sync(16 + file)
    }
}
