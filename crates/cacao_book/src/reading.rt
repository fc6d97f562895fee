// Reading a tree as a playbook.
ghost use Rattle.std.specs.Prelude.{◌≡◌, ◌++◌, OnOk, IfOk, IfErr, map};
ghost use Rattle.cacao_ids.specs.Stamps.{IsStamp};
ghost use Rattle.cacao_json.specs.Tree.{data_of, pair_data};
ghost use Rattle.cacao_book.specs.Books.{book, agents_of};
ghost use Rattle.cacao_book_shape.specs.Shape.{IsWellShaped};
ghost use Rattle.cacao_book_shape.specs.Refusals.{RefusesTree};

use crate::books::Book;
use crate::dictionaries::read_vars;
use crate::step_reading::{known_id, read_steps};
use crate::text_reading::{read_some_text, read_text};
use crate::texts::Texts;
use cacao_book_shape::{BookError, members_at, some_text, test_shape};
use cacao_ids::Stamp;
use cacao_json::{Pair, Text, Tree};
use std::alloc::{AllocError, Global};

// The stamp that a text is.
fn known_stamp(alloc: Global, text: &str) -> Result<Stamp, AllocError>
    requires { IsStamp text.now }
    ensures { IfOk result (λ stamp. stamp ≡ text.now) }
{
    let stamp = Stamp::read(alloc, text)?;
    Ok(stamp.unwrap())
}

fn read_name(alloc: Global, pair: &Pair) -> Result<Text, AllocError>
    ensures { IfOk result (λ name. name ≡ (pair_data pair.now).0) }
{
    let name = Text::from_str(alloc, pair.name.text())?;
    Ok(name)
}

// Adds the names of members to a list.
fn push_names(alloc: Global, names: &mut Vec<Text>, members: &[Pair]) -> Result<(), AllocError>
    ensures { OnOk result (names.new.items ≡ names.old.items ++ map (λ m. m.0) (map pair_data members.now)) }
{
    for pair in members {
        names.push(read_name(alloc, pair)?)?;
    }
    Ok(())
}

// The names of agents, and behind them those of targets.
fn read_agents(alloc: Global, book: &Tree) -> Result<Texts, AllocError>
    ensures { IfOk result (λ agents. agents ≡ agents_of (data_of book.now)) }
{
    let mut names = Vec::new(alloc);
    push_names(alloc, &mut names, members_at(book, "agent_definitions"))?;
    push_names(alloc, &mut names, members_at(book, "target_definitions"))?;
    Ok(Texts::from_vec(names))
}

// The playbook of a tree that breaks no rule of shape.
fn read_shaped(alloc: Global, tree: &Tree) -> Result<Book, AllocError>
    requires { IsWellShaped (data_of tree.now) }
    ensures { IfOk result (λ b. b ≡ book (data_of tree.now)) }
{
    let id = known_id(alloc, some_text(tree, "id"))?;
    let modified = known_stamp(alloc, some_text(tree, "modified"))?;
    let start = read_some_text(alloc, tree, "workflow_start")?;
    let exception = read_text(alloc, tree, "workflow_exception")?;
    let variables = read_vars(alloc, tree, "playbook_variables")?;
    let agents = read_agents(alloc, tree)?;
    let steps = read_steps(alloc, tree)?;
    Ok(Book {
        id,
        modified,
        start,
        exception,
        variables,
        agents,
        steps,
    })
}

/// Reads a tree as a playbook. It is refused exactly where one of the rules K1 to K12 is broken, and then the first
/// break is named: those of the book before those of its steps, steps in the order of their keys, then by the
/// number of the rule.
pub fn read_book(alloc: Global, tree: &Tree) -> Result<Book, BookError>
    ensures book { IfOk result (λ b. b ≡ book (data_of tree.now)) }
    ensures shaped { OnOk result (IsWellShaped (data_of tree.now)) }
    ensures broken { IfErr result (RefusesTree (data_of tree.now)) }
{
    match test_shape(alloc, tree) {
        Ok(()) => {}
        Err(refusal) => return Err(refusal),
    }
    let book = read_shaped(alloc, tree)?;
    Ok(book)
}
