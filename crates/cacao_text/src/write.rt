// From a tree to its canonical text.
ghost use Rattle.std.specs.Prelude.{◌≡◌, ◌<◌, IfOk, OnOk, All, flat_map, length};
ghost use Rattle.serde_json.specs.Data.{object, string};
ghost use Rattle.cacao_json.specs.Profile.{AreSortedMembers};
ghost use Rattle.cacao_json.specs.Tree.{data_of};
ghost use Rattle.cacao_text.specs.Canon.{canon, book_text, unsigned_of};
ghost use Rattle.cacao_text.specs.Arranged.{value_tokens, sorted_tokens, Adds, items_data, pairs_data, pair_tokens, place_tokens};

use crate::bytes::Bytes2;
use crate::order::{is_in_order, places};
use cacao_json::{Pair, Tree};
use json::Writer;
use std::alloc::{AllocError, Global};

/// The canonical text of the tree (RFC 8785), in UTF-8.
pub fn canonical(alloc: Global, tree: &Tree) -> Result<Bytes2, AllocError>
    ensures { IfOk result (λ text. text ≡ canon (data_of tree.now)) }
{
    let mut writer = Writer::new(Vec::new(alloc));
    write_tree(alloc, &mut writer, tree)?;
    Ok(Bytes2::from_vec(writer.into_inner()))
}

/// The canonical text of the tree without the member `signatures` of its top object.
pub fn canonical_book(alloc: Global, tree: &Tree) -> Result<Bytes2, AllocError>
    ensures { IfOk result (λ text. text ≡ book_text (data_of tree.now)) }
{
    canonical_book_with_room(alloc, tree, 0)
}

/// The same, where room for this many bytes is taken at once. The length of the text that the tree was read from,
/// and two for the writer, is enough; where it is not, more is taken.
pub fn canonical_book_with_room(
    alloc: Global,
    tree: &Tree,
    room: usize,
) -> Result<Bytes2, AllocError>
    ensures { IfOk result (λ text. text ≡ book_text (data_of tree.now)) }
{
    let mut writer = Writer::new(Vec::with_capacity(alloc, room)?);
    write_book(alloc, &mut writer, tree)?;
    Ok(Bytes2::from_vec(writer.into_inner()))
}

/// The canonical text of the string, as one that stands in a tree.
pub fn canonical_string(alloc: Global, text: &str) -> Result<Bytes2, AllocError>
    ensures { IfOk result (λ canonical. canonical ≡ canon (string text.now)) }
{
    let mut writer = Writer::new(Vec::new(alloc));
    writer.string(text)?;
    Ok(Bytes2::from_vec(writer.into_inner()))
}

fn write_book(alloc: Global, writer: &mut Writer, tree: &Tree) -> Result<(), AllocError>
    ensures { OnOk result (Adds writer.old writer.new (value_tokens (unsigned_of (data_of tree.now)))) }
{
    match tree {
        Tree::Members(pairs) => write_unsigned(alloc, writer, pairs.as_slice()),
        _ => write_tree(alloc, writer, tree),
    }
}

fn write_unsigned(alloc: Global, writer: &mut Writer, pairs: &[Pair]) -> Result<(), AllocError>
    ensures { OnOk result (Adds writer.old writer.new (value_tokens (unsigned_of (object (pairs_data pairs.now))))) }
{
    writer.begin_object()?;
    let order = places(alloc, pairs, true)?;
    write_places(alloc, writer, pairs, &order)?;
    writer.end_object()
}

#[cycle(write)]
fn write_tree(alloc: Global, writer: &mut Writer, tree: &Tree) -> Result<(), AllocError>
    ensures { OnOk result (Adds writer.old writer.new (value_tokens (data_of tree.now))) }
{
    match tree {
        Tree::Null => writer.null(),
        Tree::Flag(flag) => writer.boolean(*flag),
        Tree::Whole(n) => writer.i64(*n),
        Tree::Text(text) => writer.string(text.text()),
        Tree::List(items) => write_items(alloc, writer, items.as_slice()),
        Tree::Members(pairs) => write_pairs(alloc, writer, pairs.as_slice()),
    }
}

#[cycle(write)]
fn write_items(alloc: Global, writer: &mut Writer, items: &[Tree]) -> Result<(), AllocError>
    ensures { OnOk result (Adds writer.old writer.new (value_tokens (items_data items.now))) }
{
    writer.begin_array()?;
    for tree in items {
        write_tree(alloc, writer, tree)?;
    }
    writer.end_array()
}

#[cycle(write)]
fn write_pairs(alloc: Global, writer: &mut Writer, pairs: &[Pair]) -> Result<(), AllocError>
    requires { AreSortedMembers (pairs_data pairs.now) }
    ensures { OnOk result (Adds writer.old writer.new (value_tokens (object (pairs_data pairs.now)))) }
{
    writer.begin_object()?;
    write_members(alloc, writer, pairs)?;
    writer.end_object()
}

/// The members in the order of their names' units. Most stand in it.
#[cycle(write)]
fn write_members(alloc: Global, writer: &mut Writer, pairs: &[Pair]) -> Result<(), AllocError>
    requires { AreSortedMembers (pairs_data pairs.now) }
    ensures { OnOk result (Adds writer.old writer.new (sorted_tokens (pairs_data pairs.now))) }
{
    if is_in_order(pairs) {
        return write_all(alloc, writer, pairs);
    }
    let order = places(alloc, pairs, false)?;
    write_places(alloc, writer, pairs, &order)
}

/// The members as they stand.
#[cycle(write)]
fn write_all(alloc: Global, writer: &mut Writer, pairs: &[Pair]) -> Result<(), AllocError>
    ensures { OnOk result (Adds writer.old writer.new (flat_map pair_tokens pairs.now)) }
{
    for pair in pairs {
        write_pair(alloc, writer, pair)?;
    }
    Ok(())
}

/// The members at these places.
#[cycle(write)]
fn write_places(
    alloc: Global,
    writer: &mut Writer,
    pairs: &[Pair],
    order: &[usize],
) -> Result<(), AllocError>
    requires { All (λ i. i < length pairs.now) order.now }
    ensures { OnOk result (Adds writer.old writer.new (flat_map (place_tokens pairs.now) order.now)) }
{
    for place in order {
        write_pair(alloc, writer, &pairs[*place])?;
    }
    Ok(())
}

#[cycle(write)]
fn write_pair(alloc: Global, writer: &mut Writer, pair: &Pair) -> Result<(), AllocError>
    ensures { OnOk result (Adds writer.old writer.new (pair_tokens pair.now)) }
{
    writer.key(pair.name.text())?;
    write_tree(alloc, writer, &pair.tree)
}
