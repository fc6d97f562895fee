// From the tokens of a text straight to its tree, with no value between. Of a text that has no tree only this is told;
// `read.rt` reads it once more for the cause.
ghost use Rattle.std.specs.Prelude.{◌≡◌, ℕ, ◌+◌, ◌<◌, ◌≤◌, length, IfOk, OnOk, IfSome, Some, IsUtf8};
ghost use Rattle.json.specs.Json.{value, items, members};
ghost use Rattle.serde_json.specs.Data.{no_members};
ghost use Rattle.serde_json.specs.Read.{of_json, of_items, of_members, converted};
ghost use Rattle.cacao_json_counts.specs.Counts.{members as members_in, members_of_items, members_of_pairs};
ghost use Rattle.cacao_json.specs.Profile.{IsFormed, AreFormed, AreFormedMembers};
ghost use Rattle.cacao_json.specs.Reading.{tree};
ghost use Rattle.cacao_json.specs.Straight.{keys_in, entries_data};
ghost use Rattle.cacao_json.specs.Tree.{data_of};

use crate::rooms::Rooms;
use crate::tree::{Items, Pairs, Tree};
use crate::whole::whole_text;
use crate::wide::{add_new, pairs_of_map, widened};
use base_texts::Text;
use json::{Invalid, Reader, Scratch, Token};
use std::alloc::{AllocError, AllocFailed, Global};
use std::collections::BTreeMap;
use std::str;

/// How deep arrays and objects may nest.
const MAX_DEPTH: usize = 127;

/// The members of an object from which on a name that stands before many is not put in its place, with those behind it
/// moved, but all go into a map.
const WIDE: usize = 64;

/// Why no tree is given.
#[derive(Clone, Copy, Drop)]
pub(crate) enum Halt {
    /// The text has none.
    NoTree,
    /// There was no memory for it.
    NoMemory,
}

impl From<AllocError> for Halt {
    fn from(_refused: AllocError) -> Halt {
        Halt::NoMemory
    }
}

impl<T: Drop> From<AllocFailed<T>> for Halt {
    fn from(_refused: AllocFailed<T>) -> Halt {
        Halt::NoMemory
    }
}

impl From<Invalid> for Halt {
    fn from(_refused: Invalid) -> Halt {
        Halt::NoTree
    }
}

/// The tree of the bytes. `None`: most likely they have none.
pub(crate) fn straight_tree(alloc: Global, bytes: &[u8]) -> Result<Option<Tree>, AllocError>
    ensures { IfOk result (λ found. IfSome found (λ t. tree bytes.now ≡ Some (data_of t))) }
{
    let mut scratch = Scratch::new(alloc);
    straight_tree_with(alloc, bytes, &mut scratch)
}

/// The same with the memory of the reader of an earlier text.
pub(crate) fn straight_tree_with(
    alloc: Global,
    bytes: &[u8],
    scratch: &mut Scratch,
) -> Result<Option<Tree>, AllocError>
    ensures { IfOk result (λ found. IfSome found (λ t. tree bytes.now ≡ Some (data_of t))) }
{
    let Ok(text) = str::from_utf8(bytes) else {
        return Ok(None);
    };
    match read_text(alloc, text, scratch) {
        Ok(tree) => Ok(Some(tree)),
        Err(Halt::NoTree) => Ok(None),
        Err(Halt::NoMemory) => Err(AllocError),
    }
}

fn read_text(alloc: Global, text: &str, scratch: &mut Scratch) -> Result<Tree, Halt>
    ensures { IfOk result (λ t. tree text.now ≡ Some (data_of t)) }
{
    let mut reader = Reader::new(text, scratch)?;
    let mut rooms = Rooms::new();
    let tree = read(alloc, &mut reader, &mut rooms, MAX_DEPTH)?;
    if reader.next().is_some() {
        return Err(Halt::NoTree);
    }
    Ok(tree)
}

#[cycle(straight)]
fn read(
    alloc: Global,
    reader: &mut Reader<'_>,
    rooms: &mut Rooms,
    depth: usize,
) -> Result<Tree, Halt>
    ensures value { IfOk result
        (λ t. converted of_json (value depth reader.old) ≡ Some (data_of t, reader.new)) }
    ensures keys { IfOk result (λ t. keys_in reader.old ≡ members_in (data_of t) + keys_in reader.new) }
    ensures formed { IfOk result (λ t. IsFormed (data_of t)) }
    ensures shorter { OnOk result (length reader.new < length reader.old) }
{
    let token = reader.next().ok_or(Halt::NoTree)?;
    match token {
        Token::String(text) => Ok(Tree::Text(Text::from_str(alloc, text)?)),
        Token::Number(text) => match whole_text(text) {
            Some(number) => Ok(Tree::Whole(number)),
            None => Err(Halt::NoTree),
        },
        Token::Bool(flag) => Ok(Tree::Flag(flag)),
        Token::Null => Ok(Tree::Null),
        Token::EndObject | Token::EndArray | Token::Key(_) | Token::Bad => Err(Halt::NoTree),
        Token::BeginArray => {
            if depth == 0 {
                return Err(Halt::NoTree);
            }
            Ok(Tree::List(read_items(alloc, reader, rooms, depth - 1)?))
        }
        Token::BeginObject => {
            if depth == 0 {
                return Err(Halt::NoTree);
            }
            Ok(Tree::Members(read_members(alloc, reader, rooms, depth - 1)?))
        }
    }
}

#[cycle(straight)]
fn read_items(
    alloc: Global,
    reader: &mut Reader<'_>,
    rooms: &mut Rooms,
    depth: usize,
) -> Result<Items, Halt>
    ensures value { IfOk result
        (λ ds. converted of_items (items (value depth) (length reader.old) reader.old)
        ≡ Some (ds, reader.new)) }
    ensures keys { IfOk result (λ ds. keys_in reader.old ≡ members_of_items ds + keys_in reader.new) }
    ensures formed { IfOk result (λ ds. AreFormed ds) }
    ensures shorter { OnOk result (length reader.new < length reader.old) }
{
    let mut found = Vec::with_capacity(alloc, rooms.for_list(depth))?;
    'items: while !reader.take_end_array() {
        let item = read(alloc, reader, rooms, depth)?;
        found.push(item)?;
    }
    rooms.keep_list(depth, found.len());
    Ok(Items { items: found })
}

#[cycle(straight)]
fn read_members(
    alloc: Global,
    reader: &mut Reader<'_>,
    rooms: &mut Rooms,
    depth: usize,
) -> Result<Pairs, Halt>
    ensures value { IfOk result
        (λ ms. converted (λ js. of_members js no_members)
        (members (value depth) (length reader.old) reader.old)
        ≡ Some (ms, reader.new)) }
    ensures keys { IfOk result (λ ms. keys_in reader.old ≡ members_of_pairs ms + keys_in reader.new) }
    ensures formed { IfOk result (λ ms. AreFormedMembers ms) }
    ensures shorter { OnOk result (length reader.new < length reader.old) }
{
    let mut found = Pairs::with_room(alloc, rooms.for_object(depth))?;
    'members: while let Some(key) = reader.next_key()? {
        let name = name_of(alloc, key)?;
        let member = read(alloc, reader, rooms, depth)?;
        if found.is_wide(WIDE, name.text()) {
            let map = widened(alloc, found, name, member)?;
            return read_wide(alloc, reader, rooms, depth, map);
        }
        found.add(name, member)?;
    }
    rooms.keep_object(depth, found.pairs.len());
    Ok(found)
}

/// A copy of the name.
fn name_of(alloc: Global, name: &str) -> Result<Text, AllocError>
    ensures value { IfOk result (λ t. t ≡ name.now) }
    ensures utf8 { IfOk result (λ t. IsUtf8 t) }
{
    Text::from_str(alloc, name)
}

/// The rest of an object's members, in a map with those before them.
#[cycle(straight)]
fn read_wide(
    alloc: Global,
    reader: &mut Reader<'_>,
    rooms: &mut Rooms,
    depth: usize,
    map: BTreeMap<Text, Tree>,
) -> Result<Pairs, Halt>
    requires { AreFormedMembers (entries_data map.entries) }
    ensures value { IfOk result
        (λ ms. (n : ℕ) → length reader.old ≤ n
        → converted (λ js. of_members js (entries_data map.entries)) (members (value depth) n reader.old)
        ≡ Some (ms, reader.new)) }
    ensures keys { IfOk result
        (λ ms. members_of_pairs (entries_data map.entries) + keys_in reader.old
        ≡ members_of_pairs ms + keys_in reader.new) }
    ensures formed { IfOk result (λ ms. AreFormedMembers ms) }
    ensures shorter { OnOk result (length reader.new < length reader.old) }
{
    let mut found = map;
    'members: while let Some(key) = reader.next_key()? {
        let name = name_of(alloc, key)?;
        let member = read(alloc, reader, rooms, depth)?;
        add_new(&mut found, name, member)?;
    }
    Ok(pairs_of_map(alloc, found)?)
}
