// Which parts of a command are texts with a reference.
ghost use Rattle.std.specs.Prelude.{◌≡◌, codes, false, map, option_map};
ghost use Rattle.std.specs.List.{list_any};
ghost use Rattle.std.specs.Option.{option_map_or};
ghost use Rattle.serde_json.specs.Find.{get};
ghost use Rattle.cacao_json.specs.Tree.{data_of, items_of};
ghost use Rattle.oc2_msg_targets.specs.declared.kinds.TargetKind.TheVariants.{Features};
ghost use Rattle.oc2_msg_targets.specs.Targets.{connection_parts};
ghost use Rattle.oc2_msg.specs.Commands.{target_part};
ghost use Rattle.cacao_view_preflight.specs.Settled.{are_open_at, has_open, has_reference, is_open, is_open_at, opens_args, opens_named, opens_slpf, opens_target, opens_times, opens_value, opens_values};

use cacao_json::{Tree, member, text_of};
use cacao_vars::find_reference;
use oc2_msg_targets::{TargetKind, single};

/// Whether a text has a reference.
pub(crate) fn has_reference(text: &str) -> bool
    ensures { result ≡ has_reference text.now }
{
    match find_reference(text) {
        Some(_) => true,
        None => false,
    }
}

/// Whether a value is a text with a reference.
pub(crate) fn is_open(tree: &Tree) -> bool
    ensures { result ≡ is_open (data_of tree.now) }
{
    match text_of(tree) {
        Some(text) => has_reference(text.text()),
        None => false,
    }
}

/// Whether the value under a name is.
pub(crate) fn is_open_at(tree: &Tree, name: &str) -> bool
    ensures { result ≡ is_open_at name.now (data_of tree.now) }
{
    match member(tree, name) {
        Some(value) => is_open(value),
        None => false,
    }
}

fn is_any_open_at(tree: &Tree, names: &[&str]) -> bool
    ensures { result ≡ list_any (λ name. is_open_at name.now (data_of tree.now)) names.now }
{
    names.iter().any(|name| is_open_at(tree, name))
}

/// Whether the value under one of these names is.
fn are_open_at(tree: &Tree, names: &[&str]) -> bool
    ensures { result ≡ are_open_at (map (λ name. name.now) names.now) (data_of tree.now) }
{
    is_any_open_at(tree, names)
}

fn is_any_open(items: &[Tree]) -> bool
    ensures { result ≡ list_any (λ item. is_open (data_of item)) items.now }
{
    items.iter().any(|item| is_open(item))
}

/// Whether an item is.
fn has_open(items: &[Tree]) -> bool
    ensures { result ≡ has_open (items_of (map data_of items.now)) }
{
    is_any_open(items)
}

// ---- the target

fn opens_connection(tree: &Tree) -> bool
    ensures { result ≡ are_open_at connection_parts (data_of tree.now) }
{
    are_open_at(
        tree,
        &["dst_addr", "dst_port", "protocol", "src_addr", "src_port"],
    )
}

fn opens_features(tree: &Tree) -> bool
    ensures { result ≡ opens_value Features (data_of tree.now) }
{
    match tree {
        Tree::List(items) => has_open(items.as_slice()),
        _ => false,
    }
}

/// Whether a target of this kind has an open text where it is looked at.
fn opens_value(kind: TargetKind, tree: &Tree) -> bool
    ensures { result ≡ opens_value kind (data_of tree.now) }
{
    match kind {
        TargetKind::Ipv4Net | TargetKind::Ipv6Net | TargetKind::RuleNumber => is_open(tree),
        TargetKind::Ipv4Connection | TargetKind::Ipv6Connection => opens_connection(tree),
        TargetKind::File => is_open_at(tree, "name"),
        TargetKind::Features => opens_features(tree),
    }
}

fn opens_named(name: &str, tree: &Tree) -> bool
    ensures { result ≡ opens_named name.now (data_of tree.now) }
{
    match TargetKind::read(name) {
        Some(kind) => opens_value(kind, tree),
        None => false,
    }
}

/// The name and the value of the one member of the target.
pub(crate) fn target_part(tree: &Tree) -> Option<(&str, &Tree)>
    ensures { option_map (λ p. (p.0.now, data_of p.1.now)) result ≡ target_part (data_of tree.now) }
{
    single(member(tree, "target")?)
}

/// Whether the target of a command has an open text where it is looked at.
pub(crate) fn opens_target(tree: &Tree) -> bool
    ensures { result ≡ opens_target (data_of tree.now) }
{
    match target_part(tree) {
        Some((name, value)) => opens_named(name, value),
        None => false,
    }
}

// ---- the arguments

fn opens_times(tree: &Tree) -> bool
    ensures { result ≡ opens_times (data_of tree.now) }
{
    are_open_at(tree, &["start_time", "stop_time", "duration"])
}

fn opens_slpf(tree: &Tree) -> bool
    ensures { result ≡ opens_slpf (data_of tree.now) }
{
    are_open_at(tree, &["drop_process", "direction", "insert_rule"])
}

fn opens_filter(tree: &Tree) -> bool
    ensures { result ≡ option_map_or opens_slpf (get (codes "slpf") (data_of tree.now)) false }
{
    match member(tree, "slpf") {
        Some(value) => opens_slpf(value),
        None => false,
    }
}

fn opens_values(tree: &Tree) -> bool
    ensures { result ≡ opens_values (data_of tree.now) }
{
    opens_times(tree) || opens_filter(tree)
}

/// Whether the arguments of a command have an open text where they are looked at.
pub(crate) fn opens_args(tree: &Tree) -> bool
    ensures { result ≡ opens_args (data_of tree.now) }
{
    match member(tree, "args") {
        Some(value) => opens_values(value),
        None => false,
    }
}
