// The tree of a JSON text.
ghost use Rattle.std.specs.Prelude.{◌≡◌, ◌+◌, map, is_ok, option_map, if◌then◌else◌, IfOk, OnOk};
ghost use Rattle.cacao_json_counts.specs.Counts.{members, members_of_pairs};
ghost use Rattle.serde_json.specs.Data.{no_items, no_members, put};
ghost use Rattle.serde_json.specs.Find.{get_member};
ghost use Rattle.cacao_json.specs.Tree.{data_of, pair_data, items_of, members_of, item_last, without};
ghost use Rattle.cacao_json.specs.Profile.{IsSorted, AreSorted, AreSortedMembers};

use crate::place::{MOVED, is_behind, place_of, place_to_add};
use crate::straight::Halt;
use base_texts::Text;
use std::alloc::{AllocError, Global};
use std::marker::Model;

/// A JSON value (RFC 8259, section 3) whose numbers are integers of 64 bits.
#[cycle(tree)]
#[derive(Drop)]
pub enum Tree {
    Null,
    Flag(bool),
    Whole(i64),
    Text(Text),
    List(Items),
    Members(Pairs),
}

/// The items of a JSON array, in their order. Contracts see them as `serde_json`'s.
#[cycle(tree)]
#[derive(Drop)]
pub struct Items {
    pub(crate) items: Vec<Tree>,
}

/// A member of a JSON object.
#[cycle(tree)]
#[derive(Drop)]
pub struct Pair {
    pub name: Text,
    pub tree: Tree,
}

/// The members of a JSON object, in byte order of their names, each name once. Contracts see them as
/// `serde_json`'s.
#[cycle(tree)]
#[derive(Drop)]
pub struct Pairs {
    pub(crate) pairs: Vec<Pair>,
}

impl Model for Items {
    ghost use Rattle.serde_json.specs.Data.{Items};
    ghost use Rattle.cacao_json.specs.Code.{items_code};
    ghost use Rattle.cacao_json.specs.Size.{items_size};

    ghost Value = { Items };

    ghost coded = { items_code };

    ghost use Rattle.std.specs.Prelude.{map};
    ghost use Rattle.cacao_json.specs.Tree.{data_of, items_of};
    ghost use Rattle.cacao_json.specs.Profile.{AreSorted};

    ghost view = { λ a. items_of (map data_of a.items.items) };

    ghost invariant = { λ a. AreSorted (items_of (map data_of a.items.items)) };

    ghost size = { items_size };

    ghost use Rattle.cacao_json.specs.Falls.{items_fall};

    ghost size_decreases = { λ a h. items_fall a.items.items };
}

impl Model for Pairs {
    ghost use Rattle.serde_json.specs.Data.{Members};
    ghost use Rattle.cacao_json.specs.Code.{members_code};
    ghost use Rattle.cacao_json.specs.Size.{members_size};

    ghost Value = { Members };

    ghost coded = { members_code };

    ghost use Rattle.std.specs.Prelude.{map};
    ghost use Rattle.cacao_json.specs.Tree.{pair_data, members_of};
    ghost use Rattle.cacao_json.specs.Profile.{AreSortedMembers};

    ghost view = { λ a. members_of (map pair_data a.pairs.items) };

    ghost invariant = { λ a. AreSortedMembers (members_of (map pair_data a.pairs.items)) };

    ghost size = { members_size };

    ghost use Rattle.cacao_json.specs.Falls.{pairs_fall};

    ghost size_decreases = { λ a h. pairs_fall a.pairs.items };
}

impl Items {
    /// No items.
    pub fn new(alloc: Global) -> Items
        ensures { result ≡ no_items }
    {
        Items {
            items: Vec::new(alloc),
        }
    }

    /// The trees of the vector, with no copy.
    pub fn from_vec(trees: Vec<Tree>) -> Items
        ensures { result ≡ items_of (map data_of trees.items) }
    {
        for tree in &trees {
            tree_law(tree);
        }
        Items { items: trees }
    }

    /// The items, in their order.
    pub fn as_slice(&self) -> &[Tree]
        ensures value { items_of (map data_of result.now) ≡ self.now }
        ensures sorted { AreSorted self.now }
    {
        &self.items
    }

    /// The vector, with no copy.
    pub fn into_vec(self) -> Vec<Tree>
        ensures value { items_of (map data_of result.items) ≡ self }
        ensures sorted { AreSorted self }
    {
        self.items
    }

    /// One item more, behind the others. `Err`: there was no memory, and nothing changed.
    pub fn push(&mut self, tree: Tree) -> Result<(), AllocError>
        ensures { self.new ≡ (if is_ok result then item_last self.old (data_of tree) else self.old) }
    {
        tree_law(&tree);
        self.items.push(tree)?;
        Ok(())
    }
}

impl Pairs {
    /// No members.
    pub fn new(alloc: Global) -> Pairs
        ensures { result ≡ no_members }
    {
        Pairs {
            pairs: Vec::new(alloc),
        }
    }

    /// No members, and room for so many.
    pub(crate) fn with_room(alloc: Global, room: usize) -> Result<Pairs, AllocError>
        ensures { IfOk result (λ pairs. pairs ≡ no_members) }
    {
        let pairs = Vec::with_capacity(alloc, room)?;
        Ok(Pairs { pairs })
    }

    /// The members, in byte order of their names.
    pub fn as_slice(&self) -> &[Pair]
        ensures value { members_of (map pair_data result.now) ≡ self.now }
        ensures sorted { AreSortedMembers self.now }
    {
        &self.pairs
    }

    /// The member with this name set, in its place: its tree replaced where the name is there, else the member added.
    /// `Err`: there was no memory, and nothing changed.
    pub fn put(&mut self, name: Text, tree: Tree) -> Result<(), AllocError>
        ensures { self.new ≡ (if is_ok result then put name (data_of tree) self.old else self.old) }
    {
        tree_law(&tree);
        match place_of(&self.pairs, name.text()) {
            Ok(place) => {
                self.pairs[place] = Pair { name, tree };
                Ok(())
            }
            Err(place) => {
                self.pairs.insert(place, Pair { name, tree })?;
                Ok(())
            }
        }
    }

    /// Whether there are at least this many members, and the name is not greater than all of theirs but a few.
    pub(crate) fn is_wide(&self, wide: usize, name: &str) -> bool {
        let count = self.pairs.len();
        count >= wide && !is_behind(&self.pairs, count.saturating_sub(MOVED), name)
    }

    /// One member more, in its place. `Err`: its name was there, or there was no memory.
    pub(crate) fn add(&mut self, name: Text, tree: Tree) -> Result<(), Halt>
        requires { IsSorted (data_of tree) }
        ensures value { OnOk result (self.new ≡ put name (data_of tree) self.old) }
        ensures counted { OnOk result (members_of_pairs self.new
            ≡ 1 + (members (data_of tree) + members_of_pairs self.old)) }
    {
        match place_to_add(&self.pairs, name.text()) {
            Ok(_) => Err(Halt::NoTree),
            Err(place) => {
                let pair = Pair { name, tree };
                self.pairs.insert(place, pair)?;
                Ok(())
            }
        }
    }

    /// The member with this name taken out. `None`: there was none, and nothing changed.
    pub fn remove(&mut self, name: &str) -> Option<Tree>
        ensures value { option_map data_of result ≡ get_member name.now self.old }
        ensures others { self.new ≡ without name.now self.old }
    {
        match place_of(&self.pairs, name) {
            Ok(place) => Some(self.pairs.remove(place).tree),
            Err(_) => None,
        }
    }

    /// The vector, with no copy.
    pub fn into_vec(self) -> Vec<Pair>
        ensures value { members_of (map pair_data result.items) ≡ self }
        ensures sorted { AreSortedMembers self }
    {
        self.pairs
    }
}

/// What holds of every tree: at each level the names of an object rise in byte order, each once, and the names and
/// texts are in UTF-8. The function does nothing; its contract is the law.
pub fn tree_law(tree: &Tree)
    ensures { IsSorted (data_of tree.now) }
{
    match tree {
        Tree::Text(text) => {
            let _ = text.text();
        }
        Tree::List(items) => {
            let _ = items.as_slice();
        }
        Tree::Members(pairs) => {
            let _ = pairs.as_slice();
        }
        _ => {}
    }
}
