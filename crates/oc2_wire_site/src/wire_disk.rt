// The disk of a site over a link: that of the site beneath.
ghost use Rattle.std.specs.Prelude.{◌≡◌, ◌+◌, ◌≤◌, length, take, drop, IsTrue, IfOk, OnOk, OnErr};
ghost use Rattle.cacao_site.specs.Counts.{next_count};
ghost use Rattle.cacao_site.specs.DiskCalls.{CallsOn, Follows, IsDurable, Same, SameRest, Spreads, StaysAt, Torn, Written};
ghost use Rattle.oc2_wire_site.specs.WireCalls.{KeepsWire};
ghost use Rattle.oc2_wire_site.specs.WireOf.{disk_of, wire_of};

use crate::wire_site::WireSite;
use cacao_site::{Disk, Failed, Site};
use oc2_wire_link::Link;

impl<S: Site, K: Link> Disk for WireSite<S, K> {
    ghost use Rattle.oc2_wire_site.specs.Entries.{empty_by, puts_by, taken_by};
    ghost use Rattle.oc2_wire_site.specs.LinesOf.{mark_of};
    ghost use Rattle.oc2_wire_site.specs.Marks.{marked_site};
    ghost use Rattle.oc2_wire_site.specs.Wires.{wire_view};
    ghost use Rattle.oc2_wire_site.specs.WireSound.{wire-sound};

    ghost view = { λ w. wire_view (marked_site w.asking (mark_of K.view w.mark) (S.view w.site)) (puts_by S.view w.puts.items)
        (taken_by S.view w.taken.items) (empty_by S.view w.empty.items) w.mishaps };

    ghost sound = { λ w. wire-sound w.asking (mark_of K.view w.mark) (S.view w.site) (puts_by S.view w.puts.items)
        (taken_by S.view w.taken.items) (empty_by S.view w.empty.items) w.mishaps (S.sound w.site) w.puts_in_time w.taken_in_time };

    fn length(&mut self, file: u8) -> Result<u64, Failed>
        requires { file ≤ 16 }
        ensures call { CallsOn file 0 (disk_of S.view K.view self.old) (disk_of S.view K.view self.new) }
        ensures rest { SameRest (wire_of S.view K.view self.old).site (wire_of S.view K.view self.new).site }
        ensures faultless { OnOk result ((disk_of S.view K.view self.new).faults ≡ (disk_of S.view K.view self.old).faults) }
        ensures cause { OnErr result ((disk_of S.view K.view self.new).faults ≡ next_count (disk_of S.view K.view self.old).faults) }
        ensures stays { StaysAt (disk_of S.view K.view self.old) (disk_of S.view K.view self.new) file }
        ensures length { IfOk result
            (λ n. IsTrue (disk_of S.view K.view self.old).told → n ≡ length ((disk_of S.view K.view self.old).reads file)) }
        ensures wire { KeepsWire (wire_of S.view K.view self.old) (wire_of S.view K.view self.new) }
    {
        self.site.length(file)
    }

    fn read(&mut self, file: u8, at: u64, into: &mut [u8]) -> Result<u32, Failed>
        requires file { file ≤ 16 }
        requires size { length into.old ≤ 4_096 }
        ensures call { CallsOn file 0 (disk_of S.view K.view self.old) (disk_of S.view K.view self.new) }
        ensures rest { SameRest (wire_of S.view K.view self.old).site (wire_of S.view K.view self.new).site }
        ensures faultless { OnOk result ((disk_of S.view K.view self.new).faults ≡ (disk_of S.view K.view self.old).faults) }
        ensures cause { OnErr result ((disk_of S.view K.view self.new).faults ≡ next_count (disk_of S.view K.view self.old).faults) }
        ensures stays { StaysAt (disk_of S.view K.view self.old) (disk_of S.view K.view self.new) file }
        ensures count { IfOk result (λ n. n ≤ length into.old) }
        ensures bytes { IfOk result (λ n. IsTrue (disk_of S.view K.view self.old).told
            → take n into.new ≡ take (length into.old) (drop at ((disk_of S.view K.view self.old).reads file))) }
        ensures behind { IfOk result (λ n. drop n into.new ≡ drop n into.old) }
        ensures wire { KeepsWire (wire_of S.view K.view self.old) (wire_of S.view K.view self.new) }
    {
        self.site.read(file, at, into)
    }

    fn write(&mut self, file: u8, at: u64, bytes: &[u8]) -> Result<(), Failed>
        requires file { file ≤ 16 }
        requires fits { at + length bytes.now ≤ 67_108_864 }
        ensures call { CallsOn file (length bytes.now) (disk_of S.view K.view self.old) (disk_of S.view K.view self.new) }
        ensures rest { SameRest (wire_of S.view K.view self.old).site (wire_of S.view K.view self.new).site }
        ensures faultless { OnOk result ((disk_of S.view K.view self.new).faults ≡ (disk_of S.view K.view self.old).faults) }
        ensures cause { OnErr result ((disk_of S.view K.view self.new).faults ≡ next_count (disk_of S.view K.view self.old).faults) }
        ensures images { Follows file (Torn at (length bytes.now)) (disk_of S.view K.view self.old) (disk_of S.view K.view self.new) }
        ensures spreads { OnOk result
            (Spreads file (Torn at (length bytes.now)) (disk_of S.view K.view self.old) (disk_of S.view K.view self.new)) }
        ensures written { OnOk result (IsTrue (disk_of S.view K.view self.old).told
            → Written at bytes.now ((disk_of S.view K.view self.old).reads file) ((disk_of S.view K.view self.new).reads file)) }
        ensures wire { KeepsWire (wire_of S.view K.view self.old) (wire_of S.view K.view self.new) }
    {
        self.site.write(file, at, bytes)
    }

    fn sync(&mut self, file: u8) -> Result<(), Failed>
        requires { file ≤ 16 }
        ensures call { CallsOn file 0 (disk_of S.view K.view self.old) (disk_of S.view K.view self.new) }
        ensures rest { SameRest (wire_of S.view K.view self.old).site (wire_of S.view K.view self.new).site }
        ensures faultless { OnOk result ((disk_of S.view K.view self.new).faults ≡ (disk_of S.view K.view self.old).faults) }
        ensures cause { OnErr result ((disk_of S.view K.view self.new).faults ≡ next_count (disk_of S.view K.view self.old).faults) }
        ensures images { Follows file Same (disk_of S.view K.view self.old) (disk_of S.view K.view self.new) }
        ensures reads { OnOk result ((disk_of S.view K.view self.new).reads file ≡ (disk_of S.view K.view self.old).reads file) }
        ensures durable { OnOk result (IsDurable file (disk_of S.view K.view self.new)) }
        ensures wire { KeepsWire (wire_of S.view K.view self.old) (wire_of S.view K.view self.new) }
    {
        self.site.sync(file)
    }
}
