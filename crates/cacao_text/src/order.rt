// The order of an object's members.
ghost use Rattle.std.specs.Prelude.{◌≡◌, IfOk, OnOk};
ghost use Rattle.std.specs.BTreeMap.{insert_entry};
ghost use Rattle.std.specs.Bool.{OnTrue};
ghost use Rattle.cacao_json.specs.Profile.{AreSortedMembers};
ghost use Rattle.cacao_text.specs.Arranged.{names_in, name_at, is_kept, kept_places, AreInOrder, pairs_data};
ghost use Rattle.cacao_text.specs.Keys.{key_cmp, places_in};
ghost use Rattle.cacao_text.specs.Canon.{in_order};

use crate::units::units_of;
use cacao_json::Pair;
use std::alloc::{AllocError, Global};
use std::collections::BTreeMap;

/// A name's units, and the place where it stands.
#[derive(Drop, PartialEq, Eq, PartialOrd, Ord)]
struct Key {
    units: Vec<u16>,
    place: usize,
}

/// Whether the names, which rise in byte order, are all of ASCII, so that they stand in the order of their units.
/// That is so for most objects that were read.
pub fn is_in_order(pairs: &[Pair]) -> bool
    requires { AreSortedMembers (pairs_data pairs.now) }
    ensures { OnTrue result (AreInOrder (names_in pairs.now)) }
{
    for pair in pairs {
        if !pair.name.text().is_ascii() {
            return false;
        }
    }
    true
}

/// The places of the members in the order of their names' units. An unsigned object has no member `signatures`.
pub fn places(alloc: Global, pairs: &[Pair], unsigned: bool) -> Result<Vec<usize>, AllocError>
    ensures { IfOk result (λ list. list.items
        ≡ in_order (name_at pairs.now) (kept_places unsigned 0 pairs.now)) }
{
    let mut order = BTreeMap::new(alloc);
    for (place, pair) in pairs.iter().enumerate() {
        let name = pair.name.text();
        if is_kept(unsigned, name) {
            let units = units_of(alloc, name)?;
            insert_key(&mut order, Key { units, place })?;
        }
    }
    places_in_map(alloc, &order)
}

fn is_kept(unsigned: bool, name: &str) -> bool
    ensures { result ≡ is_kept unsigned name.now }
{
    !unsigned || "signatures" != name
}

fn insert_key(order: &mut BTreeMap<Key, ()>, key: Key) -> Result<(), AllocError>
    ensures { OnOk result (order.new.entries ≡ insert_entry key_cmp order.old.entries key tt) }
{
    order.insert(key, ())?;
    Ok(())
}

/// The places in the map, in its order.
fn places_in_map(alloc: Global, order: &BTreeMap<Key, ()>) -> Result<Vec<usize>, AllocError>
    ensures { IfOk result (λ list. list.items ≡ places_in order.now.entries) }
{
    let mut list = Vec::with_capacity(alloc, order.len())?;
    for (key, _) in order.iter() {
        list.push(key.place)?;
    }
    Ok(list)
}
