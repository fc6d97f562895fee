// The parcels of a site in memory.
ghost use Rattle.std.specs.Prelude.{◌≡◌, ◌+◌, ◌≤◌, ◌<◌, IfOk, IfSome, OnOk, OnErr, Some, None, [], ◌∷◌, ◌++◌, MatchOption, length, map, replicate, vec_len, vec_capacity, slice_index_or, drop};
ghost use Rattle.std.specs.List.{filter};
ghost use Rattle.std.specs.VecDeque.{deque_len, deque_capacity};
ghost use Rattle.cacao_site_memory.specs.Parcels.{all_marked_at, no_put, parcels_at, is_due, is_later, AreNamed};
ghost use Rattle.cacao_site_memory.specs.Weather.{arrivals, holds, marks};

use crate::plan::Weather;
use cacao_site::Parcel;
use std::alloc::{AllocError, Global};
use std::collections::VecDeque;

/// The parcels that were put and what became of them. A parcel is named by its place among the puts.
pub struct Link {
    /// Each parcel put, with its beat.
    pub puts: Vec<(u64, Parcel)>,
    /// The pending parcels, in the order in which they became pending.
    pub pending: VecDeque<usize>,
    /// The parcels held back, in the order of their puts, each with the moment up to which it is.
    pub held: Vec<(u64, usize)>,
    /// The parcels taken, each with its beat.
    pub taken: Vec<(u64, usize)>,
    /// The moments of the takes that found none.
    pub empty_takes: Vec<u64>,
}

// (by hand, and not by derive: so a drop is one call in the proofs of all who own one)
impl Drop for Link {
    fn drop(self) {
        let Self {
            puts: _,
            pending: _,
            held: _,
            taken: _,
            empty_takes: _,
        } = self;
    }
}

impl Link {
    /// No parcel, with room for so many.
    pub fn new(alloc: Global, slots: usize) -> Result<Link, AllocError>
        ensures puts { IfOk result (λ link. link.puts.items ≡ []) }
        ensures pending { IfOk result (λ link. link.pending.items ≡ []) }
        ensures held { IfOk result (λ link. link.held.items ≡ []) }
        ensures taken { IfOk result (λ link. link.taken.items ≡ []) }
        ensures empty_takes { IfOk result (λ link. link.empty_takes.items ≡ []) }
        ensures named { IfOk result (λ link. AreNamed link.puts.items link.pending.items link.held.items link.taken.items) }
        ensures put_slots { IfOk result (λ link. slots ≤ vec_capacity link.puts) }
        ensures pending_slots { IfOk result (λ link. slots ≤ deque_capacity link.pending) }
        ensures held_slots { IfOk result (λ link. slots ≤ vec_capacity link.held) }
    {
        Ok(Link {
            puts: Vec::with_capacity(alloc, slots)?,
            pending: VecDeque::with_capacity(alloc, slots)?,
            held: Vec::with_capacity(alloc, slots)?,
            taken: Vec::new(alloc),
            empty_takes: Vec::new(alloc),
        })
    }

    /// Makes room for so many parcels more.
    pub fn make_room(&mut self, slots: usize) -> Result<(), AllocError>
        ensures puts { self.new.puts.items ≡ self.old.puts.items }
        ensures pending { self.new.pending.items ≡ self.old.pending.items }
        ensures held { self.new.held.items ≡ self.old.held.items }
        ensures taken { self.new.taken.items ≡ self.old.taken.items }
        ensures empty_takes { self.new.empty_takes.items ≡ self.old.empty_takes.items }
        ensures named { AreNamed self.old.puts.items self.old.pending.items self.old.held.items self.old.taken.items → AreNamed self.new.puts.items self.new.pending.items self.new.held.items self.new.taken.items }
        ensures put_slots { OnOk result (vec_len self.new.puts + slots ≤ vec_capacity self.new.puts) }
        ensures pending_slots { OnOk result (deque_len self.new.pending + vec_len self.new.held + slots ≤ deque_capacity self.new.pending) }
        ensures held_slots { OnOk result (vec_len self.new.held + slots ≤ vec_capacity self.new.held) }
    {
        self.puts.reserve(slots)?;
        self.held.reserve(slots)?;
        let Some(more) = slots.checked_add(self.held.len()) else {
            return Err(AllocError);
        };
        self.pending.reserve(more)?;
        Ok(())
    }

    /// Adds a parcel that is put at a beat, and lets it arrive by the weather.
    pub fn put(&mut self, weather: Weather, beat: u64, parcel: Parcel)
        requires put { vec_len self.old.puts < vec_capacity self.old.puts }
        requires pending { deque_len self.old.pending + arrivals weather ≤ deque_capacity self.old.pending }
        requires held { vec_len self.old.held + holds weather ≤ vec_capacity self.old.held }
        requires named { AreNamed self.old.puts.items self.old.pending.items self.old.held.items self.old.taken.items }
        ensures named { AreNamed self.new.puts.items self.new.pending.items self.new.held.items self.new.taken.items }
        ensures puts { self.new.puts.items ≡ self.old.puts.items ++ (beat, parcel) ∷ [] }
        ensures pending { parcels_at self.new.puts.items self.new.pending.items
            ≡ parcels_at self.old.puts.items self.old.pending.items ++ replicate (arrivals weather) parcel }
        ensures held { all_marked_at self.new.puts.items self.new.held.items
            ≡ all_marked_at self.old.puts.items self.old.held.items ++ marks weather parcel }
        ensures taken { all_marked_at self.new.puts.items self.new.taken.items ≡ all_marked_at self.old.puts.items self.old.taken.items }
        ensures taken_marks { self.new.taken.items ≡ self.old.taken.items }
        ensures empty_takes { self.new.empty_takes ≡ self.old.empty_takes }
        ensures put_len { vec_len self.new.puts ≡ vec_len self.old.puts + 1 }
        ensures put_slots { vec_capacity self.old.puts ≤ vec_capacity self.new.puts }
        ensures pending_len { deque_len self.new.pending ≡ deque_len self.old.pending + arrivals weather }
        ensures pending_slots { deque_capacity self.old.pending ≤ deque_capacity self.new.pending }
        ensures held_len { vec_len self.new.held ≡ vec_len self.old.held + holds weather }
        ensures held_slots { vec_capacity self.old.held ≤ vec_capacity self.new.held }
    {
        let place = self.puts.len();
        self.puts.push_reserved((beat, parcel));
        self.arrive(weather, place);
    }

    /// Lets the parcel put at this place arrive by the weather.
    fn arrive(&mut self, weather: Weather, place: usize)
        requires pending { deque_len self.old.pending + arrivals weather ≤ deque_capacity self.old.pending }
        requires held { vec_len self.old.held + holds weather ≤ vec_capacity self.old.held }
        ensures pending { self.new.pending.items ≡ self.old.pending.items ++ replicate (arrivals weather) place }
        ensures pending_len { deque_len self.new.pending ≡ deque_len self.old.pending + arrivals weather }
        ensures pending_slots { deque_capacity self.old.pending ≤ deque_capacity self.new.pending }
        ensures held { self.new.held.items ≡ self.old.held.items ++ marks weather place }
        ensures held_len { vec_len self.new.held ≡ vec_len self.old.held + holds weather }
        ensures held_slots { vec_capacity self.old.held ≤ vec_capacity self.new.held }
        ensures puts { self.new.puts ≡ self.old.puts }
        ensures taken { self.new.taken ≡ self.old.taken }
        ensures empty_takes { self.new.empty_takes ≡ self.old.empty_takes }
    {
        match weather {
            Weather::Deliver => self.pending.push_back_reserved(place),
            Weather::Lose => {}
            Weather::Twice => {
                self.pending.push_back_reserved(place);
                self.pending.push_back_reserved(place);
            }
            Weather::Hold { until } => self.held.push_reserved((until, place)),
        }
    }

    /// Lets the parcels that were held back up to this moment become pending.
    pub fn release(&mut self, now: u64)
        requires { deque_len self.old.pending + vec_len self.old.held ≤ deque_capacity self.old.pending }
        ensures named { AreNamed self.old.puts.items self.old.pending.items self.old.held.items self.old.taken.items → AreNamed self.new.puts.items self.new.pending.items self.new.held.items self.new.taken.items }
        ensures pending { parcels_at self.new.puts.items self.new.pending.items
            ≡ parcels_at self.old.puts.items self.old.pending.items
            ++ map (λ held. held.1) (filter (is_due now) (all_marked_at self.old.puts.items self.old.held.items)) }
        ensures held { all_marked_at self.new.puts.items self.new.held.items
            ≡ filter (is_later now) (all_marked_at self.old.puts.items self.old.held.items) }
        ensures together { deque_len self.new.pending + vec_len self.new.held ≡ deque_len self.old.pending + vec_len self.old.held }
        ensures fewer { vec_len self.new.held ≤ vec_len self.old.held }
        ensures pending_slots { deque_capacity self.new.pending ≡ deque_capacity self.old.pending }
        ensures held_slots { vec_capacity self.new.held ≡ vec_capacity self.old.held }
        ensures puts { self.new.puts ≡ self.old.puts }
        ensures taken { self.new.taken ≡ self.old.taken }
        ensures empty_takes { self.new.empty_takes ≡ self.old.empty_takes }
    {
        add_due(&mut self.pending, self.held.as_slice(), now);
        keep_later(&mut self.held, now);
    }

    /// The place of the parcel that is to be taken next.
    pub fn first(&self) -> Option<usize>
        ensures first { MatchOption result (self.now.pending.items ≡ [])
            (λ place. self.now.pending.items ≡ place ∷ drop 1 self.now.pending.items) }
        ensures put { AreNamed self.now.puts.items self.now.pending.items self.now.held.items self.now.taken.items → IfSome result (λ place. place < length self.now.puts.items) }
    {
        match self.pending.front() {
            Some(place) => Some(*place),
            None => None,
        }
    }

    /// Takes the first pending parcel, which was put at this place, at a beat.
    pub fn take_first(&mut self, place: usize, beat: u64) -> Result<Parcel, AllocError>
        requires put { place < length self.old.puts.items }
        requires before { (slice_index_or self.old.puts.items place no_put).0 ≤ beat }
        requires first { self.old.pending.items ≡ place ∷ drop 1 self.old.pending.items }
        ensures named { AreNamed self.old.puts.items self.old.pending.items self.old.held.items self.old.taken.items → AreNamed self.new.puts.items self.new.pending.items self.new.held.items self.new.taken.items }
        ensures pending { IfOk result (λ parcel. parcels_at self.old.puts.items self.old.pending.items
            ≡ parcel ∷ parcels_at self.old.puts.items self.new.pending.items) }
        ensures taken { IfOk result (λ parcel. all_marked_at self.old.puts.items self.new.taken.items
            ≡ all_marked_at self.old.puts.items self.old.taken.items ++ (beat, parcel) ∷ []) }
        ensures taken_marks { OnOk result (self.new.taken.items ≡ self.old.taken.items ++ (beat, place) ∷ []) }
        ensures err { OnErr result (self.new.pending ≡ self.old.pending) }
        ensures not_taken { OnErr result (self.new.taken.items ≡ self.old.taken.items) }
        ensures slots { deque_capacity self.new.pending ≡ deque_capacity self.old.pending }
        ensures fewer { deque_len self.new.pending ≤ deque_len self.old.pending }
        ensures puts { self.new.puts ≡ self.old.puts }
        ensures held { self.new.held ≡ self.old.held }
        ensures empty_takes { self.new.empty_takes ≡ self.old.empty_takes }
    {
        let parcel = self.puts[place].1.clone()?;
        self.taken.push((beat, place))?;
        let _ = self.pending.pop_front();
        Ok(parcel)
    }
}

/// Adds the places of those that are held up to this moment, in their order.
fn add_due(pending: &mut VecDeque<usize>, held: &[(u64, usize)], now: u64)
    requires { deque_len pending.old + length held.now ≤ deque_capacity pending.old }
    ensures items { pending.new.items ≡ pending.old.items ++ map (λ mark. mark.1) (filter (is_due now) held.now) }
    ensures len { deque_len pending.new ≡ deque_len pending.old + length (filter (is_due now) held.now) }
    ensures slots { deque_capacity pending.new ≡ deque_capacity pending.old }
{
    for k in 0..held.len() {
        let (until, place) = held[k];
        if until <= now {
            pending.push_back_reserved(place);
        }
    }
}

/// Keeps those that are held past this moment, in their order.
fn keep_later(held: &mut Vec<(u64, usize)>, now: u64)
    ensures items { held.new.items ≡ filter (is_later now) held.old.items }
    ensures slots { vec_capacity held.new ≡ vec_capacity held.old }
{
    held.retain(|mark| mark.0 > now);
}
