// Contents of commands, read once: trees in whose texts the references were found.
ghost use Rattle.std.specs.Prelude.{◌≡◌, IfOk, map, option_map};
ghost use Rattle.serde_json.specs.Find.{get_member};
ghost use Rattle.cacao_json.specs.Tree.{data_of, items_of, members_of};
ghost use Rattle.cacao_json.specs.Profile.{AreSortedMembers};
ghost use Rattle.flow_core_texts.specs.Contents.{content_data, entry_data};

use crate::phrases::Phrase;
use cacao_json::{Items, Pairs, Text, Tree};
use std::alloc::{AllocError, Global};
use std::marker::Model;

/// A tree in whose texts the references were found.
#[cycle(content)]
#[derive(Drop)]
pub enum Content {
    Null,
    Flag(bool),
    Whole(i64),
    Text(Phrase),
    List(Contents),
    Members(Entries),
}

/// The items of an array, in their order.
#[cycle(content)]
#[derive(Drop)]
pub struct Contents {
    items: Vec<Content>,
}

/// A member of an object.
#[cycle(content)]
#[derive(Drop)]
pub struct Entry {
    pub name: Text,
    pub content: Content,
}

/// The members of an object, in byte order of their names, each name once.
#[cycle(content)]
#[derive(Drop)]
pub struct Entries {
    entries: Vec<Entry>,
}

impl Model for Contents {
    ghost use Rattle.serde_json.specs.Data.{Items};
    ghost use Rattle.cacao_json.specs.Code.{items_code};
    ghost use Rattle.cacao_json.specs.Size.{items_size};

    ghost Value = { Items };

    ghost coded = { items_code };

    ghost use Rattle.std.specs.Prelude.{map};
    ghost use Rattle.cacao_json.specs.Tree.{items_of};
    ghost use Rattle.flow_core_texts.specs.Contents.{content_data};

    ghost view = { λ a. items_of (map content_data a.items.items) };

    ghost size = { items_size };

    ghost use Rattle.flow_core_texts.specs.ContentFalls.{contents_fall};

    ghost size_decreases = { λ a h. contents_fall a.items.items };
}

impl Model for Entries {
    ghost use Rattle.serde_json.specs.Data.{Members};
    ghost use Rattle.cacao_json.specs.Code.{members_code};
    ghost use Rattle.cacao_json.specs.Size.{members_size};

    ghost Value = { Members };

    ghost coded = { members_code };

    ghost use Rattle.std.specs.Prelude.{map};
    ghost use Rattle.cacao_json.specs.Tree.{members_of};
    ghost use Rattle.cacao_json.specs.Profile.{AreSortedMembers};
    ghost use Rattle.flow_core_texts.specs.Contents.{entry_data};

    ghost view = { λ a. members_of (map entry_data a.entries.items) };

    ghost invariant = { λ a. AreSortedMembers (members_of (map entry_data a.entries.items)) };

    ghost size = { members_size };

    ghost use Rattle.flow_core_texts.specs.ContentFalls.{entries_fall};

    ghost size_decreases = { λ a h. entries_fall a.entries.items };
}

impl Contents {
    pub fn as_slice(&self) -> &[Content]
        ensures { items_of (map content_data result.now) ≡ self.now }
    {
        &self.items
    }
}

impl Entries {
    pub fn as_slice(&self) -> &[Entry]
        ensures value { members_of (map entry_data result.now) ≡ self.now }
        ensures sorted { AreSortedMembers self.now }
    {
        &self.entries
    }

    /// The value of the member with this name. It takes no memory.
    pub fn member(&self, name: &str) -> Option<&Content>
        ensures { option_map (λ found. content_data found.now) result ≡ get_member name.now self.now }
    {
        let entries = self.as_slice();
        for entry in entries {
            if entry.name.text() == name {
                return Some(&entry.content);
            }
        }
        None
    }
}

/// The content of this tree.
#[cycle(reading)]
pub(crate) fn read_content(alloc: Global, tree: &Tree) -> Result<Content, AllocError>
    ensures { IfOk result (λ content. content_data content ≡ data_of tree.now) }
{
    match tree {
        Tree::Null => Ok(Content::Null),
        Tree::Flag(flag) => Ok(Content::Flag(*flag)),
        Tree::Whole(number) => Ok(Content::Whole(*number)),
        Tree::Text(text) => Ok(Content::Text(Phrase::read(alloc, text.text())?)),
        Tree::List(items) => Ok(Content::List(read_contents(alloc, items)?)),
        Tree::Members(pairs) => Ok(Content::Members(read_entries(alloc, pairs)?)),
    }
}

#[cycle(reading)]
fn read_contents(alloc: Global, items: &Items) -> Result<Contents, AllocError>
    ensures { IfOk result (λ contents. contents ≡ items.now) }
{
    let trees = items.as_slice();
    let mut read = Vec::with_capacity(alloc, trees.len())?;
    for tree in trees {
        read.push(read_content(alloc, tree)?)?;
    }
    Ok(Contents { items: read })
}

#[cycle(reading)]
fn read_entries(alloc: Global, pairs: &Pairs) -> Result<Entries, AllocError>
    ensures { IfOk result (λ entries. entries ≡ pairs.now) }
{
    let members = pairs.as_slice();
    let mut read = Vec::with_capacity(alloc, members.len())?;
    for pair in members {
        let name = pair.name.clone()?;
        let content = read_content(alloc, &pair.tree)?;
        read.push(Entry { name, content })?;
    }
    Ok(Entries { entries: read })
}
