// Where a name stands among members.
ghost use Rattle.std.specs.Prelude.{◌≤◌, length};
ghost use Rattle.std.specs.Bool.{OnTrue};
ghost use Rattle.cacao_json.specs.Profile.{AreSortedMembers};
ghost use Rattle.cacao_json.specs.Places.{IsPlace, AreBefore};
ghost use Rattle.cacao_json.specs.Tree.{pairs_data};

use crate::tree::Pair;
use std::cmp::Ordering;

/// The most members before which a name is put in its place at the end of many.
pub const MOVED: usize = 8;

/// The place of the member with this name; in `Err`, the place where it would go.
pub fn place_of(pairs: &[Pair], name: &str) -> Result<usize, usize>
    requires { AreSortedMembers (pairs_data pairs.now) }
    ensures { IsPlace name.now pairs.now result }
{
    place_from(pairs, 0, name)
}

/// The same, where the name is greater than those before `start`.
fn place_from(pairs: &[Pair], start: usize, name: &str) -> Result<usize, usize>
    requires sorted { AreSortedMembers (pairs_data pairs.now) }
    requires within { start ≤ length pairs.now }
    requires before { AreBefore name.now pairs.now start }
    ensures { IsPlace name.now pairs.now result }
{
    let mut low = start;
    let mut high = pairs.len();
    while low < high {
        let middle = low + (high - low) / 2;
        match name.cmp(pairs[middle].name.text()) {
            Ordering::Equal => return Ok(middle),
            Ordering::Less => high = middle,
            Ordering::Greater => low = middle + 1,
        }
    }
    Err(low)
}

/// The same as `place_of`, found soon where the name is greater than all that are there, or than all but a few.
pub fn place_to_add(pairs: &[Pair], name: &str) -> Result<usize, usize>
    requires { AreSortedMembers (pairs_data pairs.now) }
    ensures { IsPlace name.now pairs.now result }
{
    let count = pairs.len();
    if is_behind(pairs, count, name) {
        return Err(count);
    }
    let start = count.saturating_sub(MOVED);
    if is_behind(pairs, start, name) {
        place_from(pairs, start, name)
    } else {
        place_of(pairs, name)
    }
}

/// Whether the name is greater than the first `count`.
pub fn is_behind(pairs: &[Pair], count: usize, name: &str) -> bool
    requires sorted { AreSortedMembers (pairs_data pairs.now) }
    requires within { count ≤ length pairs.now }
    ensures { OnTrue result (AreBefore name.now pairs.now count) }
{
    if count == 0 {
        return true;
    }
    let last = count - 1;
    match name.cmp(pairs[last].name.text()) {
        Ordering::Greater => true,
        _ => false,
    }
}
