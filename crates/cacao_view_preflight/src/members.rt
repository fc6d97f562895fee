// Warnings of members of steps that CACAO does not name.
ghost use Rattle.std.specs.Prelude.{◌≡◌, ◌++◌, IfOk, OnOk, map, not, option_map};
ghost use Rattle.std.specs.List.{flat_map};
ghost use Rattle.serde_json.specs.Find.{as_object};
ghost use Rattle.cacao_json.specs.Tree.{data_of, pair_data};
ghost use Rattle.cacao_book_shape.specs.Members.{members_in};
ghost use Rattle.cacao_view_preflight.specs.Warnings.{each, is_step_member, member_line, member_words, members_of, of_members, of_step_members, step_front, warn_if};

use crate::step_members::is_step_member;
use cacao_book_shape::{members_at, some_text};
use cacao_json::{Pair, Pairs, Tree};
use cacao_text::canonical_string;
use cacao_view_words::Lines;
use std::alloc::{AllocError, Global};

/// The members as they stand in the tree.
fn pairs(members: &Pairs) -> &[Pair]
    ensures { members_in members.now ≡ map pair_data result.now }
{
    members.as_slice()
}

fn object_of(tree: &Tree) -> Option<&Pairs>
    ensures { option_map (λ members. members.now) result ≡ as_object (data_of tree.now) }
{
    match tree {
        Tree::Members(members) => Some(members),
        _ => None,
    }
}

/// The members of an object; none where the value is none.
fn members_of(tree: &Tree) -> &[Pair]
    ensures { map pair_data result.now ≡ members_of (data_of tree.now) }
{
    match object_of(tree) {
        Some(members) => pairs(members),
        None => &[],
    }
}

/// The words that a warning of a step begins with.
pub(crate) fn step_front(alloc: Global, n: usize, key: &str) -> Result<Vec<u8>, AllocError>
    ensures { IfOk result (λ front. front.items ≡ step_front n key.now) }
{
    let front = format!(in alloc; "warning: book {n} step {key}")?;
    Ok(front.into_bytes())
}

fn member_words(alloc: Global, name: &str) -> Result<Vec<u8>, AllocError>
    ensures { IfOk result (λ words. words.items ≡ member_words name.now) }
{
    let name = canonical_string(alloc, name)?;
    let mut words = Vec::from_slice(alloc, b": CACAO names no member ")?;
    words.extend_from_slice(name.as_slice())?;
    words.extend_from_slice(b" of such a step\n")?;
    Ok(words)
}

/// The line that warns of a member of this name.
fn member_line(alloc: Global, n: usize, key: &str, name: &str) -> Result<Vec<u8>, AllocError>
    ensures { IfOk result (λ line. line.items ≡ member_line n key.now name.now) }
{
    let words = member_words(alloc, name)?;
    let mut line = step_front(alloc, n, key)?;
    line.extend_from_slice(words.as_slice())?;
    Ok(line)
}

fn add_member(
    alloc: Global,
    n: usize,
    key: &str,
    kind: &str,
    name: &str,
    lines: &mut Lines,
) -> Result<(), AllocError>
    ensures { OnOk result (lines.new ≡ lines.old ++ warn_if (not (is_step_member kind.now name.now)) (member_line n key.now name.now)) }
{
    if is_step_member(kind, name) {
        return Ok(());
    }
    let line = member_line(alloc, n, key, name)?;
    lines.push(line)?;
    Ok(())
}

fn add_members(
    alloc: Global,
    n: usize,
    key: &str,
    kind: &str,
    members: &[Pair],
    lines: &mut Lines,
) -> Result<(), AllocError>
    ensures { OnOk result (lines.new ≡ lines.old ++ flat_map (λ m. warn_if (not (is_step_member kind.now m.0)) (member_line n key.now m.0)) (map pair_data members.now)) }
{
    for member in members {
        add_member(alloc, n, key, kind, member.name.text(), lines)?;
    }
    Ok(())
}

fn add_step(alloc: Global, n: usize, step: &Pair, lines: &mut Lines) -> Result<(), AllocError>
    ensures { OnOk result (lines.new ≡ lines.old ++ of_step_members n (pair_data step.now)) }
{
    let kind = some_text(&step.tree, "type");
    add_members(
        alloc,
        n,
        step.name.text(),
        kind,
        members_of(&step.tree),
        lines,
    )?;
    Ok(())
}

fn add_steps(alloc: Global, n: usize, steps: &[Pair], lines: &mut Lines) -> Result<(), AllocError>
    ensures { OnOk result (lines.new ≡ lines.old ++ flat_map (of_step_members n) (map pair_data steps.now)) }
{
    for step in steps {
        add_step(alloc, n, step, lines)?;
    }
    Ok(())
}

fn add_tree(alloc: Global, n: usize, tree: &Tree, lines: &mut Lines) -> Result<(), AllocError>
    ensures { OnOk result (lines.new ≡ lines.old ++ of_members n (data_of tree.now)) }
{
    add_steps(alloc, n, members_at(tree, "workflow"), lines)?;
    Ok(())
}

/// Warns of members of steps of playbooks with these trees that CACAO does not name.
pub(crate) fn warn_of_members(
    alloc: Global,
    trees: &[Tree],
    lines: &mut Lines,
) -> Result<(), AllocError>
    ensures { OnOk result (lines.new ≡ lines.old ++ each of_members 0 (map data_of trees.now)) }
{
    for n in 0..trees.len() {
        add_tree(alloc, n, &trees[n], lines)?;
    }
    Ok(())
}
