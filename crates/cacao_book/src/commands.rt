// Commands of actions.
use cacao_json::Text;
use std::marker::Model;

/// A command of an action (CACAO 2.0, section 5).
#[derive(Drop)]
pub struct StepCommand {
    /// Its type, as the playbook names it.
    pub kind: Text,
    /// Of an `openc2-http` command the text that is sent, a `content_b64` decoded. Of a `manual` command what the
    /// operator is told. None for commands of other types, or without such a text.
    pub content: Option<Text>,
}

/// Commands in order.
#[derive(Drop)]
pub struct StepCommands {
    items: Vec<StepCommand>,
}

impl Model for StepCommands {
    ghost use Rattle.std.specs.Prelude.{List};
    ghost use Rattle.cacao_book.specs.declared.commands.StepCommand.{StepCommand};

    ghost Value = { List StepCommand };

    ghost view = { λ commands. commands.items.items };
}

impl StepCommands {
    ghost use Rattle.std.specs.Prelude.{◌≡◌};

    /// The list over these commands, which it keeps. It takes no memory.
    pub fn from_vec(items: Vec<StepCommand>) -> StepCommands
        ensures { result ≡ items.items }
    {
        StepCommands { items }
    }

    /// Gives the commands back. It takes no memory.
    pub fn into_vec(self) -> Vec<StepCommand>
        ensures { result.items ≡ self }
    {
        let StepCommands { items } = self;
        items
    }

    /// The commands in order. It takes no memory.
    pub fn as_slice(&self) -> &[StepCommand]
        ensures { result.now ≡ self.now }
    {
        self.items.as_slice()
    }
}
