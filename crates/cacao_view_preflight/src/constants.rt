// Constants of which a step has the text before any run, and commands in which these texts stand.
ghost use Rattle.std.specs.Prelude.{◌≡◌, ◌++◌, ◌&&◌, [], List, Some, IfOk, IfSome, OnOk, filter, map, not, unwrap_or};
ghost use Rattle.std.specs.List.{flat_map};
ghost use Rattle.std.specs.Option.{option_copied, option_map_or};
ghost use Rattle.cacao_json.specs.Tree.{data_of};
ghost use Rattle.cacao_vars.specs.Names.{IsName};
ghost use Rattle.flow_core_rules.specs.Values.{has_numbers};
ghost use Rattle.cacao_view_preflight.specs.Constants.{constant_in, constant_items, constant_members, is_fixed, is_plain, known_text, nearest_fixed, outer_constants, whole_name, with_constants};
ghost use Rattle.cacao_view_preflight.specs.NameSets.{HasJust, holds};
ghost use Rattle.cacao_view_preflight.specs.Names.{Text as AText};

use crate::name_set::NameSet;
use crate::opens::has_reference;
use cacao_book::{Book, Step};
use cacao_json::{Items, Pairs, Text, Tree};
use cacao_vars::{Kind, Name, Var, Vars, Word, find_reference};
use std::alloc::{AllocError, Global};

/// Whether the values of this kind can be numbers of JSON.
fn has_numbers(kind: &Kind) -> bool
    ensures { result ≡ has_numbers kind.now }
{
    matches!(kind, Kind::Integer | Kind::Long)
}

/// Whether there is a text, and it has no reference.
fn is_plain(worth: &Option<Word>) -> bool
    ensures { result ≡ is_plain worth.now }
{
    match worth {
        Some(text) => !has_reference(text.text()),
        None => false,
    }
}

/// Whether nothing writes the variable, and it has a text that no value of another changes.
fn is_fixed(var: &Var) -> bool
    ensures { result ≡ is_fixed var.now }
{
    var.constant && !var.external && !has_numbers(&var.kind) && is_plain(&var.worth)
}

// ---- those of a playbook

/// Adds the names of these variables.
fn add_names(alloc: Global, vars: &[Var], names: &mut NameSet) -> Result<(), AllocError>
    ensures { OnOk result ((all : List AText) → HasJust names.old all → HasJust names.new (all ++ map (λ var. var.name) vars.now)) }
{
    for var in vars {
        names.add(alloc, var.name.text())?;
    }
    Ok(())
}

/// Adds those of a step.
fn add_step(alloc: Global, step: &Step, names: &mut NameSet) -> Result<(), AllocError>
    ensures { OnOk result ((all : List AText) → HasJust names.old all → HasJust names.new (all ++ map (λ var. var.name) step.now.variables)) }
{
    add_names(alloc, step.variables.as_slice(), names)?;
    Ok(())
}

/// The names that these steps declare.
fn names_of(alloc: Global, steps: &[Step]) -> Result<NameSet, AllocError>
    ensures { IfOk result (λ set. HasJust set (flat_map (λ step. map (λ var. var.name) step.variables) steps.now)) }
{
    let mut names = NameSet::new(alloc);
    for step in steps {
        add_step(alloc, step, &mut names)?;
    }
    Ok(names)
}

/// Whether the variable of a playbook is such a one, and no step declares its name.
fn is_outer(inner: &NameSet, var: &Var) -> bool
    ensures { result ≡ (is_fixed var.now && not (holds inner.now var.now.name)) }
{
    is_fixed(var) && !inner.has(var.name.text())
}

/// Those of these that are.
fn kept(inner: &NameSet, vars: Vec<Var>) -> Vec<Var>
    ensures { result.items ≡ filter (λ var. is_fixed var && not (holds inner.now var.name)) vars.items }
{
    let mut vars = vars;
    vars.retain(|var| is_outer(inner, var));
    vars
}

/// The constants of a playbook that each of its steps sees.
pub(crate) fn outer_constants(alloc: Global, book: &Book) -> Result<Vars, AllocError>
    ensures { IfOk result (λ vars. vars ≡ outer_constants book.now) }
{
    let inner = names_of(alloc, book.steps.as_slice())?;
    let vars = book.variables.clone()?.into_vec();
    Ok(Vars::from_vec(kept(&inner, vars)))
}

// ---- that of a step

fn fixed(var: &Var) -> Option<&Var>
    ensures { option_copied result ≡ nearest_fixed (Some var.now) (Some var.now) }
{
    if is_fixed(var) { Some(var) } else { None }
}

/// The constant of this name that a step with these variables sees.
fn constant_in<'v>(own: &'v Vars, outer: &'v Vars, name: &Name) -> Option<&'v Var>
    ensures { option_copied result ≡ constant_in own.entry.now outer.entry.now name.now }
{
    match own.find(name) {
        Some(var) => fixed(var),
        None => outer.find(name),
    }
}

// ---- a command in which their texts stand

/// The name, where nothing stands around a reference.
fn whole_name(text: &str) -> Option<&str>
    ensures value { option_copied result ≡ whole_name text.now }
    ensures fits { IfSome result (λ name. IsName name.now) }
{
    let Some(found) = find_reference(text) else {
        return None;
    };
    if found.before.is_empty() && found.rest.is_empty() {
        Some(found.name)
    } else {
        None
    }
}

/// The text of a variable; the empty text where it has none.
fn text_of(alloc: Global, worth: &Option<Word>) -> Result<Text, AllocError>
    ensures { IfOk result (λ text. text ≡ unwrap_or worth.now []) }
{
    match worth {
        Some(word) => Text::from_str(alloc, word.text()),
        None => Text::from_str(alloc, ""),
    }
}

/// The text of the constant of this name; this text where there is none.
fn named_text(
    alloc: Global,
    own: &Vars,
    outer: &Vars,
    name: &str,
    text: &Text,
) -> Result<Text, AllocError>
    requires { IsName name.now }
    ensures { IfOk result (λ new. new ≡ option_map_or (λ var. unwrap_or var.worth []) (constant_in own.now outer.now name.now) text.now) }
{
    let name = Name::new(alloc, name)?;
    match constant_in(own, outer, &name) {
        Some(var) => text_of(alloc, &var.worth),
        None => text.clone(),
    }
}

/// The text with that of a constant in its place, where it is a reference to one and nothing else.
fn known_text(alloc: Global, own: &Vars, outer: &Vars, text: &Text) -> Result<Text, AllocError>
    ensures { IfOk result (λ new. new ≡ known_text (constant_in own.now outer.now) text.now) }
{
    match whole_name(text.text()) {
        Some(name) => named_text(alloc, own, outer, name, text),
        None => text.clone(),
    }
}

/// The tree with the text of each constant in the place of a reference to it.
#[cycle(constants)]
pub(crate) fn with_constants(
    alloc: Global,
    own: &Vars,
    outer: &Vars,
    tree: &Tree,
) -> Result<Tree, AllocError>
    ensures { IfOk result (λ new. data_of new ≡ with_constants (constant_in own.now outer.now) (data_of tree.now)) }
{
    match tree {
        Tree::Null => Ok(Tree::Null),
        Tree::Flag(flag) => Ok(Tree::Flag(*flag)),
        Tree::Whole(number) => Ok(Tree::Whole(*number)),
        Tree::Text(text) => {
            let text = known_text(alloc, own, outer, text)?;
            Ok(Tree::Text(text))
        }
        Tree::List(items) => {
            let items = constant_items(alloc, own, outer, items)?;
            Ok(Tree::List(items))
        }
        Tree::Members(pairs) => {
            let pairs = constant_pairs(alloc, own, outer, pairs)?;
            Ok(Tree::Members(pairs))
        }
    }
}

#[cycle(constants)]
fn constant_items(
    alloc: Global,
    own: &Vars,
    outer: &Vars,
    items: &Items,
) -> Result<Items, AllocError>
    ensures { IfOk result (λ new. new ≡ constant_items (constant_in own.now outer.now) items.now) }
{
    let trees = items.as_slice();
    let mut made = Vec::with_capacity(alloc, trees.len())?;
    for tree in trees {
        made.push(with_constants(alloc, own, outer, tree)?)?;
    }
    Ok(Items::from_vec(made))
}

#[cycle(constants)]
fn constant_pairs(
    alloc: Global,
    own: &Vars,
    outer: &Vars,
    pairs: &Pairs,
) -> Result<Pairs, AllocError>
    ensures { IfOk result (λ new. new ≡ constant_members (constant_in own.now outer.now) pairs.now) }
{
    let members = pairs.as_slice();
    let mut made = Pairs::new(alloc);
    for pair in members {
        let name = pair.name.clone()?;
        let tree = with_constants(alloc, own, outer, &pair.tree)?;
        made.put(name, tree)?;
    }
    Ok(made)
}
