// The places of an action: what it sends and asks, one after another.
ghost use Rattle.std.specs.Prelude.{◌≡◌, ◌≤◌, ℕ, List, suc, Some, None, IfSome, is_some, length, option_map, slice_get, if◌then◌else◌};
ghost use Rattle.std.specs.Option.{option_copied};
ghost use Rattle.std.specs.List.{flat_map};
ghost use Rattle.flow_core_rules.specs.Places.{addressees, places_of, places};
ghost use Rattle.cacao_check_steps.specs.Uses.{commands_of};
ghost use Rattle.flow_core_values.specs.PlaceViews.{place_view, IsPlaceOf, IsOfCommand};

use cacao_book::{StepCommand, StepKind};
use cacao_json::Text;
use flow_core_texts::is_manual;

/// A place of an action.
#[derive(Clone, Copy)]
pub enum Place<'a> {
    /// The content of the command with this number, for the filter that is bound to an agent or a target.
    Filter {
        command: u32,
        content: Option<&'a Text>,
        to: &'a Text,
    },
    /// The text of the command with this number, for an operator.
    Operator {
        command: u32,
        content: Option<&'a Text>,
    },
}

// How many addressees there are: the targets, or the agent alone.
fn addressee_count(targets: &[Text]) -> usize
    ensures { (agent : List ℕ) → result ≡ length (addressees agent targets.now) }
{
    if targets.is_empty() { 1 } else { targets.len() }
}

// The addressee with this number.
fn addressee<'a>(agent: &'a Text, targets: &'a [Text], n: usize) -> Option<&'a Text>
    ensures { option_copied result ≡ slice_get (addressees agent.now targets.now) n }
{
    if !targets.is_empty() {
        return targets.get(n);
    }
    if n == 0 { Some(agent) } else { None }
}

// How many places a command has.
fn place_count(command: &StepCommand, targets: &[Text]) -> usize
    ensures { (agent : List ℕ) → result ≡ length (places_of (addressees agent targets.now) command.now) }
{
    if is_manual(command) {
        return 1;
    }
    addressee_count(targets)
}

// A place of the command with this number.
fn place_of<'a>(
    command: &'a StepCommand,
    number: u32,
    agent: &'a Text,
    targets: &'a [Text],
    n: usize,
) -> Option<Place<'a>>
    ensures place { option_map place_view result ≡ slice_get (places_of (addressees agent.now targets.now) command.now) n }
    ensures command { IfSome result (IsPlaceOf command.now number) }
{
    let content = command.content.as_ref();
    if is_manual(command) {
        if n != 0 {
            return None;
        }
        return Some(Place::Operator {
            command: number,
            content,
        });
    }
    let to = addressee(agent, targets, n)?;
    Some(Place::Filter {
        command: number,
        content,
        to,
    })
}

// A place of the commands.
fn place_among<'a>(
    commands: &'a [StepCommand],
    agent: &'a Text,
    targets: &'a [Text],
    n: u32,
) -> Option<Place<'a>>
    ensures place { option_map place_view result ≡ slice_get (flat_map (places_of (addressees agent.now targets.now)) commands.now) n }
    ensures command { IfSome result (IsOfCommand commands.now) }
{
    let mut left = n as usize;
    for number in 0..commands.len() {
        let command = &commands[number];
        let count = place_count(command, targets);
        if left < count {
            return place_of(command, number as u32, agent, targets, left);
        }
        left -= count;
    }
    None
}

/// The place of an action with this number, counted from 0. It takes no memory.
pub fn place_in(kind: &StepKind, n: u32) -> Option<Place<'_>>
    ensures place { option_map place_view result ≡ slice_get (places kind.now) n }
    ensures command { IfSome result (IsOfCommand (commands_of kind.now)) }
{
    match kind {
        StepKind::Action {
            commands,
            agent,
            targets,
            ..
        } => place_among(commands.as_slice(), agent, targets.as_slice(), n),
        _ => None,
    }
}

// Whether there is a place with this number.
fn has_place(kind: &StepKind, n: u32) -> bool
    ensures { result ≡ is_some (slice_get (places kind.now) n) }
{
    place_in(kind, n).is_some()
}

/// The place behind this one, if there is one. It takes no memory.
pub fn next_place(kind: &StepKind, n: u32) -> Option<u32>
    requires { length (places kind.now) ≤ 4096 }
    ensures { result ≡ (if is_some (slice_get (places kind.now) (suc n)) then Some (suc n) else None) }
{
    let next = n.checked_add(1)?;
    if has_place(kind, next) {
        Some(next)
    } else {
        None
    }
}
