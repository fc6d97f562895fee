// The members of a wide object, in a map until all are there.
ghost use Rattle.std.specs.Prelude.{◌≡◌, ◌+◌, IfOk, OnOk};
ghost use Rattle.serde_json.specs.Data.{put};
ghost use Rattle.cacao_json_counts.specs.Counts.{members, members_of_pairs};
ghost use Rattle.cacao_json.specs.Profile.{AreFormedMembers};
ghost use Rattle.cacao_json.specs.Straight.{entries_data};
ghost use Rattle.cacao_json.specs.Tree.{data_of};

use crate::straight::Halt;
use crate::tree::{Pair, Pairs, Tree};
use base_texts::Text;
use std::alloc::{AllocError, Global};
use std::collections::BTreeMap;

/// The map of these members and one more, whose name is new.
pub(crate) fn widened(
    alloc: Global,
    pairs: Pairs,
    name: Text,
    tree: Tree,
) -> Result<BTreeMap<Text, Tree>, Halt>
    ensures value { IfOk result (λ map. entries_data map.entries ≡ put name (data_of tree) pairs) }
    ensures counted { IfOk result
        (λ map. members_of_pairs (entries_data map.entries)
        ≡ 1 + (members (data_of tree) + members_of_pairs pairs)) }
{
    let mut map = map_of(alloc, pairs)?;
    add_new(&mut map, name, tree)?;
    Ok(map)
}

fn map_of(alloc: Global, pairs: Pairs) -> Result<BTreeMap<Text, Tree>, Halt>
    ensures { IfOk result (λ map. entries_data map.entries ≡ pairs) }
{
    let mut map = BTreeMap::new(alloc);
    for pair in pairs.into_vec() {
        let Pair { name, tree } = pair;
        add_new(&mut map, name, tree)?;
    }
    Ok(map)
}

/// One member more, whose name is new.
pub(crate) fn add_new(map: &mut BTreeMap<Text, Tree>, name: Text, tree: Tree) -> Result<(), Halt>
    ensures value { OnOk result (entries_data map.new.entries ≡ put name (data_of tree) (entries_data map.old.entries)) }
    ensures counted { OnOk result (members_of_pairs (entries_data map.new.entries)
        ≡ 1 + (members (data_of tree) + members_of_pairs (entries_data map.old.entries))) }
{
    if map.insert(name, tree)?.is_some() {
        return Err(Halt::NoTree);
    }
    Ok(())
}

/// The members of the map, in its order.
pub(crate) fn pairs_of_map(alloc: Global, map: BTreeMap<Text, Tree>) -> Result<Pairs, AllocError>
    requires { AreFormedMembers (entries_data map.entries) }
    ensures { IfOk result (λ pairs. pairs ≡ entries_data map.entries) }
{
    let mut pairs = Vec::with_capacity(alloc, map.len())?;
    for (name, tree) in map {
        pairs.push(Pair { name, tree })?;
    }
    Ok(Pairs { pairs })
}
