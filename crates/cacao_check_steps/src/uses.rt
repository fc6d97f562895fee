// The names that a step uses.
ghost use Rattle.std.specs.Prelude.{◌≡◌, ℕ, [], ◌++◌, List, map, Contains, IfOk, OnOk, ◌↔◌, option_map, option_to_list};
ghost use Rattle.std.specs.List.{flat_map};
ghost use Rattle.cacao_json.specs.Tree.{data_of};
ghost use Rattle.cacao_check_steps.specs.Uses.{referred, referred_in, referred_in_object, content_tree, sent_names, Uses, commands_of as commands_in};
ghost use Rattle.cacao_check_steps.specs.UsedNames.{condition_names, used_names as used_names_of};
ghost use Rattle.cacao_check_steps.specs.Parts.{ReadsStep};
ghost use Rattle.std.specs.Option.{option_map_or};

use crate::parts::Parts;
use crate::step_parts::{commands_of, in_args_of, is_manual, out_args_of};
use cacao_book::{Book, Step, StepCommand};
use cacao_cond::{Cond, names, spells_at_most_one};
use cacao_json::{Pair, Tree};
use cacao_vars::{Name, find_reference, references_go_on};
use std::alloc::{AllocError, Global};

// Adds the names of a text's references.
fn add_references(alloc: Global, text: &str, all: &mut Vec<Name>) -> Result<(), AllocError>
    ensures { OnOk result (all.new.items ≡ all.old.items ++ referred text.now) }
{
    references_go_on();
    let mut rest = text;
    while let Some(found) = find_reference(rest) {
        let name = Name::new(alloc, found.name)?;
        all.push(name)?;
        rest = found.rest;
    }
    Ok(())
}

// Adds the names of the references in the texts of a tree.
#[cycle(referred)]
fn add_tree(alloc: Global, tree: &Tree, all: &mut Vec<Name>) -> Result<(), AllocError>
    ensures { OnOk result (all.new.items ≡ all.old.items ++ referred_in (data_of tree.now)) }
{
    match tree {
        Tree::Text(text) => {
            add_references(alloc, text.text(), all)?;
            Ok(())
        }
        Tree::List(items) => {
            add_items(alloc, items.as_slice(), all)?;
            Ok(())
        }
        Tree::Members(pairs) => {
            add_members(alloc, pairs.as_slice(), all)?;
            Ok(())
        }
        Tree::Null => Ok(()),
        Tree::Flag(_) => Ok(()),
        Tree::Whole(_) => Ok(()),
    }
}

#[cycle(referred)]
fn add_items(alloc: Global, items: &[Tree], all: &mut Vec<Name>) -> Result<(), AllocError>
    ensures { OnOk result (all.new.items ≡ all.old.items ++ flat_map (λ tree. referred_in (data_of tree)) items.now) }
{
    for tree in items {
        add_tree(alloc, tree, all)?;
    }
    Ok(())
}

#[cycle(referred)]
fn add_members(alloc: Global, pairs: &[Pair], all: &mut Vec<Name>) -> Result<(), AllocError>
    ensures { OnOk result (all.new.items ≡ all.old.items ++ flat_map (λ pair. referred_in (data_of pair.tree)) pairs.now) }
{
    for pair in pairs {
        add_tree(alloc, &pair.tree, all)?;
    }
    Ok(())
}

// Adds the names in a content, if it is an object.
fn add_object(alloc: Global, content: &Option<Tree>, all: &mut Vec<Name>) -> Result<(), AllocError>
    ensures { OnOk result (all.new.items ≡ all.old.items ++ option_map_or referred_in_object (option_map data_of content.now) []) }
{
    let Some(tree) = content else {
        return Ok(());
    };
    match tree {
        Tree::Members(_) => {
            add_tree(alloc, tree, all)?;
            Ok(())
        }
        Tree::Null => Ok(()),
        Tree::Flag(_) => Ok(()),
        Tree::Whole(_) => Ok(()),
        Tree::Text(_) => Ok(()),
        Tree::List(_) => Ok(()),
    }
}

// Adds the names in what a command sends, whose content has this tree.
fn add_command(
    alloc: Global,
    command: &StepCommand,
    content: &Option<Tree>,
    all: &mut Vec<Name>,
) -> Result<(), AllocError>
    requires { option_map data_of content.now ≡ content_tree command.now }
    ensures { OnOk result (all.new.items ≡ all.old.items ++ sent_names command.now) }
{
    if !is_manual(command) {
        add_object(alloc, content, all)?;
        return Ok(());
    }
    if let Some(text) = &command.content {
        add_references(alloc, text.text(), all)?;
        return Ok(());
    }
    Ok(())
}

fn add_commands(
    alloc: Global,
    commands: &[StepCommand],
    contents: &[Option<Tree>],
    all: &mut Vec<Name>,
) -> Result<(), AllocError>
    requires { map (option_map data_of) contents.now ≡ map content_tree commands.now }
    ensures { OnOk result (all.new.items ≡ all.old.items ++ flat_map sent_names commands.now) }
{
    for (at, command) in commands.iter().enumerate() {
        add_command(alloc, command, &contents[at], all)?;
    }
    Ok(())
}

fn add_names(names: &[Name], all: &mut Vec<Name>) -> Result<(), AllocError>
    ensures { OnOk result (all.new.items ≡ all.old.items ++ names.now) }
{
    for name in names {
        all.push(name.clone()?)?;
    }
    Ok(())
}

fn add_condition(alloc: Global, cond: &Option<Cond>, all: &mut Vec<Name>) -> Result<(), AllocError>
    ensures { OnOk result (all.new.items ≡ all.old.items ++ condition_names cond.now) }
{
    let Some(cond) = cond else {
        return Ok(());
    };
    let more = names(alloc, cond)?;
    add_names(more.as_slice(), all)?;
    Ok(())
}

fn add_subject(subject: &Option<Name>, all: &mut Vec<Name>) -> Result<(), AllocError>
    ensures { OnOk result (all.new.items ≡ all.old.items ++ option_to_list subject.now) }
{
    let Some(name) = subject else {
        return Ok(());
    };
    all.push(name.clone()?)?;
    Ok(())
}

// The names in the order in which the step has them.
fn list_names(alloc: Global, step: &Step, parts: &Parts) -> Result<Vec<Name>, AllocError>
    requires { map (option_map data_of) parts.now.contents.items ≡ map content_tree (commands_in step.now.kind) }
    ensures { IfOk result (λ all. all.items ≡ used_names_of step.now parts.now) }
{
    let mut all = Vec::new(alloc);
    add_condition(alloc, &parts.condition, &mut all)?;
    add_subject(&parts.subject, &mut all)?;
    add_names(in_args_of(&step.kind), &mut all)?;
    add_names(out_args_of(&step.kind), &mut all)?;
    add_commands(alloc, commands_of(&step.kind), &parts.contents, &mut all)?;
    Ok(all)
}

/// The names that a step uses, each perhaps more than once.
pub fn used_names(
    alloc: Global,
    books: &[Book],
    book: &Book,
    step: &Step,
    parts: &Parts,
) -> Result<Vec<Name>, AllocError>
    requires { ReadsStep books.now book.now step.now parts.now }
    ensures { IfOk result (λ all. (name : List ℕ) → Contains all.items name ↔ Uses step.now name) }
{
    let _ = books;
    let _ = book;
    spells_at_most_one();
    let all = list_names(alloc, step, parts)?;
    Ok(all)
}
