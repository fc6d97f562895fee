// Reading commands of actions, and their contents.
ghost use Rattle.std.specs.Prelude.{◌≡◌, All, IfOk, codes};
ghost use Rattle.cacao_json.specs.Tree.{data_of};
ghost use Rattle.cacao_book_shape.specs.Members.{MayHave, TextFits, items_at};
ghost use Rattle.cacao_book_shape.specs.Shape.{IsEncodedText, HasContent, OnType};
ghost use Rattle.cacao_book.specs.Books.{sent_of, content_of, command_of, commands_at};

use crate::commands::{StepCommand, StepCommands};
use crate::text_reading::read_text;
use cacao_book_shape::{decoded, has_type, items_at, some_text, text_at};
use cacao_json::{Text, Tree};
use std::alloc::{AllocError, Global};

// The content of an OpenC2 command.
fn read_sent(alloc: Global, command: &Tree) -> Result<Option<Text>, AllocError>
    requires { MayHave (codes "content_b64") (TextFits IsEncodedText) (data_of command.now) }
    ensures { IfOk result (λ content. content ≡ sent_of (data_of command.now)) }
{
    if let Some(text) = text_at(command, "content") {
        let text = Text::from_str(alloc, text)?;
        return Ok(Some(text));
    }
    let Some(text) = text_at(command, "content_b64") else {
        return Ok(None);
    };
    let content = decoded(alloc, text)?;
    Ok(content)
}

// The content of a command.
fn read_content(alloc: Global, command: &Tree) -> Result<Option<Text>, AllocError>
    requires { OnType (codes "openc2-http") (HasContent (data_of command.now)) (data_of command.now) }
    ensures { IfOk result (λ content. content ≡ content_of (data_of command.now)) }
{
    if has_type(command, "openc2-http") {
        let content = read_sent(alloc, command)?;
        return Ok(content);
    }
    if has_type(command, "manual") {
        let content = read_text(alloc, command, "command")?;
        return Ok(content);
    }
    Ok(None)
}

fn read_command(alloc: Global, command: &Tree) -> Result<StepCommand, AllocError>
    requires { OnType (codes "openc2-http") (HasContent (data_of command.now)) (data_of command.now) }
    ensures { IfOk result (λ read. read ≡ command_of (data_of command.now)) }
{
    let kind = Text::from_str(alloc, some_text(command, "type"))?;
    let content = read_content(alloc, command)?;
    Ok(StepCommand { kind, content })
}

/// The commands of the list under a name; none where there is no list.
pub(crate) fn read_commands(alloc: Global, tree: &Tree) -> Result<StepCommands, AllocError>
    requires { All (λ c. OnType (codes "openc2-http") (HasContent c) c) (items_at (codes "commands") (data_of tree.now)) }
    ensures { IfOk result (λ commands. commands ≡ commands_at (codes "commands") (data_of tree.now)) }
{
    let mut commands = Vec::new(alloc);
    for item in items_at(tree, "commands") {
        commands.push(read_command(alloc, item)?)?;
    }
    Ok(StepCommands::from_vec(commands))
}
