// The link, the lines and the clock of a site in memory.
ghost use Rattle.std.specs.Prelude.{◌≡◌, ◌+◌, ◌-◌, ◌*◌, ◌≤◌, min, max, IfOk, IfSome, OnOk, OnErr, is_err, false, IsTrue, MatchOption, length};
ghost use Rattle.cacao_site.specs.Counts.{next_count};
ghost use Rattle.cacao_site.specs.LinkCalls.{Gains, LosesFirst};
ghost use Rattle.cacao_site.specs.View.{device_calls};
ghost use Rattle.cacao_site_memory.specs.Plan.{fails_by};
ghost use Rattle.cacao_site.specs.SayCalls.{SaysOnly};
ghost use Rattle.cacao_site.specs.SiteCalls.{Puts, Reaches, TakesNone, TakesOnly, TakesSome};
ghost use Rattle.cacao_site_memory.specs.Weather.{arrivals, copies, holds, room_of};

use crate::plan::Weather;
use crate::site::MemorySite;
use cacao_site::{Disk, Failed, Parcel, Site};
use std::alloc::AllocError;

impl MemorySite {
    ghost use Rattle.cacao_site_memory.specs.MemorySite.{view_of, weather_of, Carries, LosesPut};
    ghost use Rattle.cacao_site.specs.declared.parcel.Parcel.{Parcel};

    /// The number of the next put, as far as the list of weather goes.
    fn next_turn(&self) -> usize
        ensures { result ≡ min (self.now.turn + 1) (length self.now.plan.weather) }
    {
        if self.turn < self.plan.weather.len() {
            self.turn + 1
        } else {
            self.turn
        }
    }

    /// Loses a parcel that is put, for which there is no room.
    fn lose(&mut self)
        ensures puts { (parcel : Parcel) → Puts parcel (view_of self.old) (view_of self.new) }
        ensures loses { LosesPut self.old self.new }
        ensures turn { self.new.turn ≡ min (self.old.turn + 1) (length self.old.plan.weather) }
        ensures plan { self.new.plan ≡ self.old.plan }
    {
        self.turn = self.next_turn();
        self.counts.count_put(true);
    }

    /// Carries a parcel by the weather, for which there is room.
    fn carry(&mut self, weather: Weather, parcel: Parcel, room: u64)
        requires weather { weather ≡ weather_of self.old }
        requires listed { 1 ≤ copies weather + (length self.old.plan.weather - self.old.turn) }
        requires room { room ≡ room_of weather (length parcel.bytes) }
        requires each { 64 * copies weather ≤ room }
        requires together { arrivals weather + holds weather ≡ copies weather }
        requires fits { self.old.used + room ≤ self.old.plan.room }
        ensures puts { Puts parcel (view_of self.old) (view_of self.new) }
        ensures carries { Carries weather parcel self.old self.new }
        ensures turn { self.new.turn ≡ min (self.old.turn + 1) (length self.old.plan.weather) }
        ensures plan { self.new.plan ≡ self.old.plan }
    {
        let turn = self.next_turn();
        let beat = self.first_beat.saturating_add(self.calls);
        self.link.put(weather, beat, parcel);
        self.used += room;
        self.turn = turn;
        self.counts.count_put(weather.is_mishap());
    }
}

impl Site for MemorySite {
    ghost use Rattle.cacao_site_memory.specs.MemorySite.{plan_of, used_of, view_of, held_of, turn_of, weather_of, has_room_of, Carries, LosesPut, Releases, KeepsPlan};

    /// Carries the parcel by the weather of this put, where there is room for its copies; else it is lost.
    fn put(&mut self, parcel: Parcel)
        ensures puts { Puts parcel (view_of self.old) (view_of self.new) }
        ensures carried { IsTrue (has_room_of self.old (length parcel.bytes)) → Carries (weather_of self.old) parcel self.old self.new }
        ensures lost { has_room_of self.old (length parcel.bytes) ≡ false → LosesPut self.old self.new }
        ensures turn { turn_of self.new ≡ min (turn_of self.old + 1) (length (plan_of self.old).weather) }
        ensures plan { plan_of self.new ≡ plan_of self.old }
    {
        let weather = self.plan.weather.at(self.turn);
        let room = weather.room(parcel.bytes.len());
        if room > u128::from(self.plan.room - self.used) {
            self.lose();
            return;
        }
        self.carry(weather, parcel, room as u64)
    }

    /// Takes the parcel that became pending first; of several that did so at once, the one put first.
    fn take(&mut self) -> Result<Option<Parcel>, AllocError>
        ensures only { TakesOnly (view_of self.old) (view_of self.new) }
        ensures taken { IfOk result (λ taken. MatchOption taken (TakesNone (view_of self.old) (view_of self.new))
            (λ parcel. TakesSome parcel (view_of self.old) (view_of self.new))) }
        ensures memory { OnErr result ((view_of self.new).link ≡ (view_of self.old).link) }
        ensures first { IfOk result (λ taken. IfSome taken
            (λ parcel. LosesFirst (view_of self.old).link.pending parcel (view_of self.new).link.pending)) }
        ensures held { held_of self.new ≡ held_of self.old }
        ensures plan { KeepsPlan self.old self.new }
    {
        let Some(place) = self.link.first() else {
            self.link.empty_takes.push(self.clock.now)?;
            return Ok(None);
        };
        let beat = self.first_beat.saturating_add(self.calls);
        let parcel = self.link.take_first(place, beat)?;
        Ok(Some(parcel))
    }

    /// Goes on towards the moment, not past the plan's `stop_clock`.
    fn reach(&mut self, moment: u64) -> u64
        ensures reaches { Reaches moment result (view_of self.old) (view_of self.new) }
        ensures answer { result ≡ max (view_of self.old).clock.now (min moment (plan_of self.old).stop_clock) }
        ensures released { Releases result self.old self.new }
        ensures plan { KeepsPlan self.old self.new }
    {
        let now = self.clock.reach(moment, self.plan.stop_clock);
        self.link.release(now);
        now
    }

    fn say(&mut self, bytes: &[u8]) -> Result<(), Failed>
        ensures only { SaysOnly (view_of self.old) (view_of self.new) }
        ensures said { OnOk result
            (Gains (view_of self.old).link.said ((view_of self.new).disk.beat, bytes.now) (view_of self.new).link.said) }
        ensures said_before { OnErr result ((view_of self.new).link.said ≡ (view_of self.old).link.said) }
        ensures unsaid { OnOk result ((view_of self.new).counts.unsaid ≡ (view_of self.old).counts.unsaid) }
        ensures cause { OnErr result ((view_of self.new).counts.unsaid ≡ next_count (view_of self.old).counts.unsaid) }
        ensures by_plan { is_err result ≡ fails_by (plan_of self.old) (device_calls (view_of self.old)) (used_of self.old) (length bytes.now) }
        ensures held { held_of self.new ≡ held_of self.old }
        ensures turn { turn_of self.new ≡ turn_of self.old }
        ensures plan { plan_of self.new ≡ plan_of self.old }
        ensures used { OnOk result (used_of self.new ≡ used_of self.old + length bytes.now) }
        ensures unused { OnErr result (used_of self.new ≡ used_of self.old) }
    {
        if self.fails(bytes.len()) {
            self.pass_line(true);
            return Err(Failed);
        }
        self.add_line(bytes);
        Ok(())
    }
}
