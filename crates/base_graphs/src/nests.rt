// Guards inside which places stand.
ghost use Rattle.std.specs.Prelude.{◌≡◌, [], IfOk, IfSome, IsTrue, None, replicate};
ghost use Rattle.base_graphs.specs.Nests.{inner_of, IsInside};

use std::alloc::{AllocError, Global};
use std::marker::Model;

/// For each place the innermost guard that is told of it, if one is. Guards of which a place is inside are found in few steps: a place
/// also has a jump to one that is further out, and its depth, the number of the guards of which it is inside.
#[derive(Drop)]
pub struct Nests {
    inner: Vec<Option<u32>>,
    jumps: Vec<Option<u32>>,
    depths: Vec<u32>,
}

impl Model for Nests {
    ghost use Rattle.std.specs.Prelude.{List, Option, ℕ};

    ghost Value = { List (Option ℕ) };

    ghost view = { λ nests. nests.inner.items };

    ghost use Rattle.base_graphs.specs.Nests.{HasJumps};

    ghost invariant = { λ nests. HasJumps nests.inner.items nests.jumps.items };
}

// At most so many jumps lead from a place to a guard: twice the bits of a place, and some more.
const STEPS: u32 = 128;

fn no_places(alloc: Global, count: usize) -> Result<Vec<Option<u32>>, AllocError>
    ensures { IfOk result (λ places. places.items ≡ replicate count None) }
{
    vec![in alloc; None; count]
}

fn place_at(places: &[Option<u32>], place: u32) -> Option<u32>
    ensures { result ≡ inner_of places.now place }
{
    match places.get(place as usize) {
        Some(found) => *found,
        None => None,
    }
}

impl Nests {
    /// Nests that tell nothing. It takes no memory.
    pub fn new(alloc: Global) -> Nests
        ensures { result ≡ [] }
    {
        Nests {
            inner: Vec::new(alloc),
            jumps: Vec::new(alloc),
            depths: Vec::new(alloc),
        }
    }

    /// Nests of so many places that tell nothing yet.
    pub(crate) fn over(alloc: Global, count: usize) -> Result<Nests, AllocError> {
        let inner = no_places(alloc, count)?;
        let jumps = no_places(alloc, count)?;
        let depths = vec![in alloc; 0; count]?;
        Ok(Nests {
            inner,
            jumps,
            depths,
        })
    }

    /// The innermost guard that is told of a place. It takes no memory.
    pub(crate) fn inner_at(&self, place: u32) -> Option<u32>
        ensures { result ≡ inner_of self.now place }
    {
        place_at(&self.inner, place)
    }

    // A guard that is told of a place, which may be far out.
    fn jump_at(&self, place: u32) -> Option<u32>
        ensures { IfSome result (λ jump. IsInside self.now place jump) }
    {
        place_at(&self.jumps, place)
    }

    fn depth_at(&self, place: u32) -> u32 {
        match self.depths.get(place as usize) {
            Some(depth) => *depth,
            None => 0,
        }
    }

    // The guard furthest out that one step finds of a place, at this depth or more.
    fn outward(&self, place: u32, depth: u32) -> Option<u32>
        ensures { IfSome result (λ guard. IsInside self.now place guard) }
    {
        if self.depth_at(place) <= depth {
            return None;
        }
        let jump = self.jump_at(place)?;
        if self.depth_at(jump) >= depth {
            return Some(jump);
        }
        self.inner_at(place)
    }

    /// Whether it is told that each way to a place takes a guarded edge that leaves the guard. It takes no memory.
    pub fn encloses(&self, guard: u32, place: u32) -> bool
        ensures { IsTrue result → IsInside self.now place guard }
    {
        let depth = self.depth_at(guard);
        let mut at = place;
        for _ in 0..STEPS {
            let Some(next) = self.outward(at, depth) else {
                return false;
            };
            if next == guard {
                return true;
            }
            at = next;
        }
        false
    }

    // One step from two guards towards the innermost one of which both are inside.
    fn approach(&self, one: u32, other: u32) -> Option<(u32, u32)> {
        let (depth, other_depth) = (self.depth_at(one), self.depth_at(other));
        if depth > other_depth {
            return Some((self.outward(one, other_depth)?, other));
        }
        if depth < other_depth {
            return Some((one, self.outward(other, depth)?));
        }
        let (jump, other_jump) = (self.jump_at(one)?, self.jump_at(other)?);
        if jump != other_jump {
            return Some((jump, other_jump));
        }
        Some((self.inner_at(one)?, self.inner_at(other)?))
    }

    /// The innermost guard that both guards are or are inside.
    pub(crate) fn meet(&self, one: Option<u32>, other: Option<u32>) -> Option<u32> {
        let (mut one, mut other) = (one?, other?);
        for _ in 0..STEPS {
            if one == other {
                return Some(one);
            }
            (one, other) = self.approach(one, other)?;
        }
        None
    }

    // The jump of a place of which this is the innermost guard: as far as two jumps of the guard lead, if these are of one length.
    fn jump_past(&self, guard: u32) -> Option<u32>
        ensures { IfSome result (λ jump. IsInside self.now guard jump) }
    {
        let near = self.jump_at(guard)?;
        let far = self.jump_at(near)?;
        let (depth, middle) = (self.depth_at(guard), self.depth_at(near));
        if depth.abs_diff(middle) != middle.abs_diff(self.depth_at(far)) {
            return None;
        }
        Some(far)
    }

    /// Tells the innermost guard of a place of which none was told yet.
    pub(crate) fn tell(&mut self, place: u32, guard: u32) {
        let at = place as usize;
        if at >= self.inner.len() || at >= self.jumps.len() || at >= self.depths.len() {
            return;
        }
        if self.inner_at(place).is_some() {
            return;
        }
        let jump = self.jump_past(guard).unwrap_or(guard);
        self.depths[at] = self.depth_at(guard).saturating_add(1);
        self.inner[at] = Some(guard);
        self.jumps[at] = Some(jump);
    }
}
