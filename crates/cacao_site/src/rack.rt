// A site with the journals of further runs.
ghost use Rattle.std.specs.Prelude.{◌≡◌, ◌+◌, ◌≤◌, length, take, drop, IsTrue, IfOk, OnOk, OnErr};
ghost use Rattle.cacao_site.specs.Counts.{next_count};
ghost use Rattle.cacao_site.specs.DiskCalls.{CallsOn, StaysAt, SameRest, Follows, Spreads, Same, Torn, Written, IsDurable};

use crate::failed::Failed;
use crate::site::Site;

/// A site that has run files 1 to 15 too: run file k is file 16 + k of its view.
pub trait Rack: Site {
    /// The run file's length in bytes; 0 for a file that is not there.
    fn run_length(&mut self, file: u8) -> Result<u64, Failed>
        requires low { 1 ≤ file }
        requires high { file ≤ 15 }
        ensures call { CallsOn (16 + file) 0 (Self.view self.old).disk (Self.view self.new).disk }
        ensures rest { SameRest (Self.view self.old) (Self.view self.new) }
        ensures faultless { OnOk result ((Self.view self.new).disk.faults ≡ (Self.view self.old).disk.faults) }
        ensures cause { OnErr result ((Self.view self.new).disk.faults ≡ next_count (Self.view self.old).disk.faults) }
        ensures stays { StaysAt (Self.view self.old).disk (Self.view self.new).disk (16 + file) }
        ensures length { IfOk result (λ n. IsTrue (Self.view self.old).disk.told → n ≡ length ((Self.view self.old).disk.reads (16 + file))) };

    /// Fills the front of `into` as `read` of `Disk` does.
    fn run_read(&mut self, file: u8, at: u64, into: &mut [u8]) -> Result<u32, Failed>
        requires low { 1 ≤ file }
        requires high { file ≤ 15 }
        requires size { length into.old ≤ 4_096 }
        ensures call { CallsOn (16 + file) 0 (Self.view self.old).disk (Self.view self.new).disk }
        ensures rest { SameRest (Self.view self.old) (Self.view self.new) }
        ensures faultless { OnOk result ((Self.view self.new).disk.faults ≡ (Self.view self.old).disk.faults) }
        ensures cause { OnErr result ((Self.view self.new).disk.faults ≡ next_count (Self.view self.old).disk.faults) }
        ensures stays { StaysAt (Self.view self.old).disk (Self.view self.new).disk (16 + file) }
        ensures count { IfOk result (λ n. n ≤ length into.old) }
        ensures bytes { IfOk result (λ n. IsTrue (Self.view self.old).disk.told
            → take n into.new ≡ take (length into.old) (drop at ((Self.view self.old).disk.reads (16 + file)))) }
        ensures behind { IfOk result (λ n. drop n into.new ≡ drop n into.old) };

    /// Writes the bytes at place `at`; the first write makes the file.
    fn run_write(&mut self, file: u8, at: u64, bytes: &[u8]) -> Result<(), Failed>
        requires low { 1 ≤ file }
        requires high { file ≤ 15 }
        requires fits { at + length bytes.now ≤ 67_108_864 }
        ensures call { CallsOn (16 + file) (length bytes.now) (Self.view self.old).disk (Self.view self.new).disk }
        ensures rest { SameRest (Self.view self.old) (Self.view self.new) }
        ensures faultless { OnOk result ((Self.view self.new).disk.faults ≡ (Self.view self.old).disk.faults) }
        ensures cause { OnErr result ((Self.view self.new).disk.faults ≡ next_count (Self.view self.old).disk.faults) }
        ensures images { Follows (16 + file) (Torn at (length bytes.now)) (Self.view self.old).disk (Self.view self.new).disk }
        ensures spreads { OnOk result (Spreads (16 + file) (Torn at (length bytes.now)) (Self.view self.old).disk (Self.view self.new).disk) }
        ensures written { OnOk result (IsTrue (Self.view self.old).disk.told
            → Written at bytes.now ((Self.view self.old).disk.reads (16 + file)) ((Self.view self.new).disk.reads (16 + file))) };

    /// Makes what was written durable.
    fn run_sync(&mut self, file: u8) -> Result<(), Failed>
        requires low { 1 ≤ file }
        requires high { file ≤ 15 }
        ensures call { CallsOn (16 + file) 0 (Self.view self.old).disk (Self.view self.new).disk }
        ensures rest { SameRest (Self.view self.old) (Self.view self.new) }
        ensures faultless { OnOk result ((Self.view self.new).disk.faults ≡ (Self.view self.old).disk.faults) }
        ensures cause { OnErr result ((Self.view self.new).disk.faults ≡ next_count (Self.view self.old).disk.faults) }
        ensures images { Follows (16 + file) Same (Self.view self.old).disk (Self.view self.new).disk }
        ensures reads { OnOk result ((Self.view self.new).disk.reads (16 + file) ≡ (Self.view self.old).disk.reads (16 + file)) }
        ensures durable { OnOk result (IsDurable (16 + file) (Self.view self.new).disk) };
}
