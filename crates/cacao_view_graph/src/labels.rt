// The words of steps.
ghost use Rattle.std.specs.Prelude.{◌≡◌, ◌++◌, [], IfOk, OnOk, codes, flat_map, option_and_then};
ghost use Rattle.std.specs.Option.{option_map_or};
ghost use Rattle.serde_json.specs.Find.{get};
ghost use Rattle.cacao_json.specs.Reading.{tree as tree_of_text};
ghost use Rattle.cacao_json.specs.Tree.{data_of};
ghost use Rattle.cacao_view_graph.specs.Labels.{command_text, content_text, kind_text, label_text, sent_text, shape, spaced, target_text, title, told_text, version_text};

use base_lines::add;
use cacao_book::{StepCommand, StepKind};
use cacao_book_shape::{some_text, text_at};
use cacao_check_steps::is_manual;
use cacao_json::{Text, Tree, find_tree, member};
use cacao_text::canonical;
use std::alloc::{AllocError, Global};

/// The name of a step or of a playbook; where it has none, its key.
pub(crate) fn title<'a>(key: &'a str, tree: &'a Tree) -> &'a str
    ensures { result.now ≡ title (key.now, data_of tree.now) }
{
    match text_at(tree, "name") {
        Some(name) => name,
        None => key,
    }
}

// ---- commands

/// Adds the target of what is sent to a filter, as it is sent, if it has one.
fn add_sent_target(alloc: Global, out: &mut Vec<u8>, sent: &Tree) -> Result<(), AllocError>
    ensures { OnOk result (out.new.items ≡ out.old.items ++ option_map_or spaced (get (codes "target") (data_of sent.now)) []) }
{
    let Some(target) = member(sent, "target") else {
        return Ok(());
    };
    let text = canonical(alloc, target)?;
    add(out, b" ")?;
    add(out, text.as_slice())
}

/// Adds what is sent to a filter.
fn add_sent(alloc: Global, out: &mut Vec<u8>, sent: &Tree) -> Result<(), AllocError>
    ensures { OnOk result (out.new.items ≡ out.old.items ++ sent_text (data_of sent.now)) }
{
    add(out, b": ")?;
    add(out, some_text(sent, "action").as_bytes())?;
    add_sent_target(alloc, out, sent)
}

/// Adds what a text sends to a filter, if it has a tree.
fn add_sent_text(alloc: Global, out: &mut Vec<u8>, text: &Option<Text>) -> Result<(), AllocError>
    ensures { OnOk result (out.new.items ≡ out.old.items ++ option_map_or sent_text (option_and_then tree_of_text text.now) []) }
{
    let Some(text) = text else {
        return Ok(());
    };
    match find_tree(alloc, text.text().as_bytes())? {
        Some(sent) => add_sent(alloc, out, &sent),
        None => Ok(()),
    }
}

/// Adds what is told to an operator.
fn add_told(out: &mut Vec<u8>, text: &Option<Text>) -> Result<(), AllocError>
    ensures { OnOk result (out.new.items ≡ out.old.items ++ option_map_or told_text text.now []) }
{
    let Some(text) = text else {
        return Ok(());
    };
    add(out, b": ")?;
    add(out, text.text().as_bytes())
}

/// Adds what a command says.
fn add_content(alloc: Global, out: &mut Vec<u8>, command: &StepCommand) -> Result<(), AllocError>
    ensures { OnOk result (out.new.items ≡ out.old.items ++ content_text command.now) }
{
    if is_manual(command) {
        return add_told(out, &command.content);
    }
    add_sent_text(alloc, out, &command.content)
}

/// Adds a command, on a line of its own.
fn add_command(alloc: Global, out: &mut Vec<u8>, command: &StepCommand) -> Result<(), AllocError>
    ensures { OnOk result (out.new.items ≡ out.old.items ++ command_text command.now) }
{
    add(out, b"\n")?;
    add(out, command.kind.text().as_bytes())?;
    add_content(alloc, out, command)
}

fn add_commands(
    alloc: Global,
    out: &mut Vec<u8>,
    commands: &[StepCommand],
) -> Result<(), AllocError>
    ensures { OnOk result (out.new.items ≡ out.old.items ++ flat_map command_text commands.now) }
{
    for command in commands {
        add_command(alloc, out, command)?;
    }
    Ok(())
}

// ---- steps

/// Adds the targets of an action, each on a line of its own.
fn add_targets(out: &mut Vec<u8>, targets: &[Text]) -> Result<(), AllocError>
    ensures { OnOk result (out.new.items ≡ out.old.items ++ flat_map target_text targets.now) }
{
    for target in targets {
        add(out, b"\ntarget ")?;
        add(out, target.text().as_bytes())?;
    }
    Ok(())
}

/// Adds what an action does.
fn add_action(
    alloc: Global,
    out: &mut Vec<u8>,
    commands: &[StepCommand],
    agent: &Text,
    targets: &[Text],
) -> Result<(), AllocError>
    ensures { OnOk result (out.new.items ≡ out.old.items
        ++ (codes "action" ++ (flat_map command_text commands.now ++ (codes "\nagent " ++ (agent.now ++ flat_map target_text targets.now))))) }
{
    add(out, b"action")?;
    add_commands(alloc, out, commands)?;
    add(out, b"\nagent ")?;
    add(out, agent.text().as_bytes())?;
    add_targets(out, targets)
}

/// Adds the version that a playbook-action asks for, if it asks for one.
fn add_version(out: &mut Vec<u8>, version: &Option<Text>) -> Result<(), AllocError>
    ensures { OnOk result (out.new.items ≡ out.old.items ++ option_map_or version_text version.now []) }
{
    let Some(version) = version else {
        return Ok(());
    };
    add(out, b" of ")?;
    add(out, version.text().as_bytes())
}

/// Adds a type, with its line feed, and the playbook that is called.
fn add_call(
    out: &mut Vec<u8>,
    kind: &[u8],
    playbook: &Text,
    version: &Option<Text>,
) -> Result<(), AllocError>
    ensures { OnOk result (out.new.items ≡ out.old.items
        ++ (kind.now ++ (playbook.now ++ option_map_or version_text version.now []))) }
{
    add(out, kind)?;
    add(out, playbook.text().as_bytes())?;
    add_version(out, version)
}

/// Adds a type, with its line feed, and a text.
fn add_typed(out: &mut Vec<u8>, kind: &[u8], text: &Text) -> Result<(), AllocError>
    ensures { OnOk result (out.new.items ≡ out.old.items ++ (kind.now ++ text.now)) }
{
    add(out, kind)?;
    add(out, text.text().as_bytes())
}

/// Adds the type of a step and what it has.
fn add_kind(alloc: Global, out: &mut Vec<u8>, kind: &StepKind) -> Result<(), AllocError>
    ensures { OnOk result (out.new.items ≡ out.old.items ++ kind_text kind.now) }
{
    match kind {
        StepKind::Start => add(out, b"start"),
        StepKind::End => add(out, b"end"),
        StepKind::Action {
            commands,
            agent,
            targets,
            ..
        } => add_action(alloc, out, commands.as_slice(), agent, targets.as_slice()),
        StepKind::PlaybookAction {
            playbook,
            version,
            ..
        } => add_call(out, b"playbook-action\n", playbook, version),
        StepKind::Parallel { .. } => add(out, b"parallel"),
        StepKind::If { condition, .. } => add_typed(out, b"if-condition\n", condition),
        StepKind::While { condition, .. } => add_typed(out, b"while-condition\n", condition),
        StepKind::Switch { subject, .. } => add_typed(out, b"switch-condition\n", subject),
    }
}

/// The words of a step with this title.
pub(crate) fn label(alloc: Global, title: &str, kind: &StepKind) -> Result<Vec<u8>, AllocError>
    ensures { IfOk result (λ text. text.items ≡ label_text title.now kind.now) }
{
    let mut text = Vec::new(alloc);
    add(&mut text, title.as_bytes())?;
    add(&mut text, b"\n")?;
    add_kind(alloc, &mut text, kind)?;
    Ok(text)
}

/// The shape of a step.
pub(crate) fn shape(kind: &StepKind) -> &'static [u8]
    ensures { result.now ≡ shape kind.now }
{
    match kind {
        StepKind::Start => b"ellipse",
        StepKind::End => b"doubleoctagon",
        StepKind::Action { .. } => b"box",
        StepKind::PlaybookAction { .. } => b"folder",
        StepKind::Parallel { .. } => b"trapezium",
        StepKind::If { .. } => b"diamond",
        StepKind::While { .. } => b"hexagon",
        StepKind::Switch { .. } => b"invhouse",
    }
}
