// Commands, before their parts are read.
ghost use Rattle.std.specs.Prelude.{◌≡◌, MatchOption, length, false, option_map};
ghost use Rattle.std.specs.List.{list_any};
ghost use Rattle.std.specs.Char.{is_whitespace};
ghost use Rattle.std.specs.Str.{chars};
ghost use Rattle.serde_json.specs.Find.{get};
ghost use Rattle.cacao_json.specs.Tree.{data_of};
ghost use Rattle.oc2_msg_targets.specs.Parts.{has_only, is_absent_or};
ghost use Rattle.oc2_msg.specs.Commands.{is_identifier, is_command_id, is_command, command_parts, action_text, target_part};
ghost use Rattle.oc2_msg.specs.Messages.{IsMessageOf};

use cacao_json::{Tree, member};
use oc2_msg_targets::{has_only, is_absent_or_object, single, str_of};

/// A command (OpenC2 Language 1.0, section 3.3.1), its parts not yet read.
#[derive(Clone, Copy)]
pub struct Message<'a> {
    /// The name of the action.
    pub action: &'a str,
    /// The name of the target's one member.
    pub target: &'a str,
    /// The value of that member.
    pub value: &'a Tree,
    pub args: Option<&'a Tree>,
}

fn has_command_parts(tree: &Tree) -> bool
    ensures { result ≡ has_only command_parts (data_of tree.now) }
{
    has_only(
        tree,
        &["action", "actuator", "args", "command_id", "target"],
    )
}

/// How many characters the text has.
fn character_count(text: &str) -> usize
    ensures { result ≡ length (chars text.now) }
{
    text.chars().count()
}

fn has_white_space(text: &str) -> bool
    ensures { result ≡ list_any is_whitespace (chars text.now) }
{
    text.chars().any(|c| c.is_whitespace())
}

fn is_identifier(text: &str) -> bool
    ensures { result ≡ is_identifier text.now }
{
    character_count(text) <= 36 && !has_white_space(text)
}

fn is_command_id(tree: &Tree) -> bool
    ensures { result ≡ is_command_id (data_of tree.now) }
{
    match str_of(tree) {
        Some(text) => is_identifier(text),
        None => false,
    }
}

fn is_absent_or_command_id(tree: &Tree, name: &str) -> bool
    ensures { result ≡ is_absent_or is_command_id (get name.now (data_of tree.now)) }
{
    match member(tree, name) {
        Some(part) => is_command_id(part),
        None => true,
    }
}

fn action_text(tree: &Tree) -> Option<&str>
    ensures { option_map (λ text. text.now) result ≡ action_text (data_of tree.now) }
{
    str_of(member(tree, "action")?)
}

fn target_part(tree: &Tree) -> Option<(&str, &Tree)>
    ensures { option_map (λ p. (p.0.now, data_of p.1.now)) result ≡ target_part (data_of tree.now) }
{
    single(member(tree, "target")?)
}

impl<'a> Message<'a> {
    /// The command that the tree is; None where it is none, whatever its parts ask for.
    pub fn read(tree: &'a Tree) -> Option<Message<'a>>
        ensures { MatchOption result (is_command (data_of tree.now) ≡ false) (IsMessageOf (data_of tree.now)) }
    {
        if !has_command_parts(tree)
            || !is_absent_or_object(tree, "args")
            || !is_absent_or_object(tree, "actuator")
            || !is_absent_or_command_id(tree, "command_id")
        {
            return None;
        }
        let action = action_text(tree)?;
        let (target, value) = target_part(tree)?;
        Some(Message {
            action,
            target,
            value,
            args: member(tree, "args"),
        })
    }
}
