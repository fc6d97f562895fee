// Graphs with free and with guarded edges.
use crate::answers::unknown;
use crate::marks::marked_below;
use crate::tables::{are_below, is_within, table};
use base_graphs::{Bits, Nests, Places, may_return, nests_of, reached_past_guards, reversed};
use std::alloc::{AllocError, Global};

/// More places than a graph of a row has.
pub(crate) const MOST: u32 = 1000;

/// A graph, and which of its edges are guarded.
pub(crate) struct Guarded {
    count: u32,
    free: Vec<Places>,
    guarded: Vec<Places>,
}

// (by hand, and not by derive: so a drop is one call in the proofs of all who own one)
impl Drop for Guarded {
    fn drop(self) {
        let Self {
            count: _,
            free: _,
            guarded: _,
        } = self;
    }
}

/// A table turned round; nothing where it leads past its rows.
pub(crate) fn turned(alloc: Global, rows: &[Places]) -> Result<Option<Vec<Places>>, AllocError> {
    let count = rows.len();
    if count > MOST as usize || !is_within(count, rows) {
        return Ok(None);
    }
    let back = reversed(alloc, rows)?;
    Ok(Some(back))
}

impl Guarded {
    /// The graph of so many places with the edges of these texts.
    pub(crate) fn read(
        alloc: Global,
        count: u32,
        free: &str,
        guarded: &str,
    ) -> Result<Guarded, AllocError> {
        Ok(Guarded {
            count: count.min(MOST),
            free: table(alloc, free)?,
            guarded: table(alloc, guarded)?,
        })
    }

    /// The places that are reached along edges that leave no place of `shut` and enter none of `blocked`.
    pub(crate) fn reached(
        &self,
        alloc: Global,
        shut: &Bits,
        blocked: &Bits,
        first: &[u32],
    ) -> Result<String, AllocError> {
        let count = self.count as usize;
        let (free, guarded) = (self.free.as_slice(), self.guarded.as_slice());
        if !is_within(count, free) || !is_within(count, guarded) || !are_below(count, first) {
            return unknown(alloc);
        }
        let bits = reached_past_guards(alloc, count, free, guarded, shut, blocked, first)?;
        marked_below(alloc, &bits, self.count)
    }

    /// The places that may return.
    pub(crate) fn returning(&self, alloc: Global) -> Result<String, AllocError> {
        let (free, guarded) = (self.free.as_slice(), self.guarded.as_slice());
        let Some(back_free) = turned(alloc, free)? else {
            return unknown(alloc);
        };
        let Some(back_guarded) = turned(alloc, guarded)? else {
            return unknown(alloc);
        };
        self.returning_by(alloc, back_free.as_slice(), back_guarded.as_slice())
    }

    fn returning_by(
        &self,
        alloc: Global,
        back_free: &[Places],
        back_guarded: &[Places],
    ) -> Result<String, AllocError> {
        let count = self.count.min(MOST) as usize;
        let (free, guarded) = (self.free.as_slice(), self.guarded.as_slice());
        if !is_within(count, free) || !is_within(count, guarded) {
            return unknown(alloc);
        }
        let bits = may_return(alloc, count, free, guarded, back_free, back_guarded)?;
        marked_below(alloc, &bits, self.count)
    }

    /// The guards inside which places stand, as the tables of a graph that leads backwards tell.
    pub(crate) fn nests(
        &self,
        alloc: Global,
        back: &Guarded,
        first: &[u32],
    ) -> Result<Nests, AllocError> {
        let count = self.count as usize;
        let (free, guarded) = (self.free.as_slice(), self.guarded.as_slice());
        if free.len() > MOST as usize || guarded.len() > MOST as usize {
            return Ok(Nests::new(alloc));
        }
        let (back_free, back_guarded) = (back.free.as_slice(), back.guarded.as_slice());
        let nests = nests_of(alloc, count, free, guarded, back_free, back_guarded, first)?;
        Ok(nests)
    }
}
