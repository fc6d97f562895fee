// Whether the command that a task sends next, or what it asks an operator next, has so many bytes or more. It is told
// before memory is taken for them.
ghost use Rattle.std.specs.Prelude.{◌≡◌};
ghost use Rattle.flow_core_rules.specs.Changes.{command_at, question_at, next_command, next_question};
ghost use Rattle.cacao_check_steps.specs.Uses.{commands_of};
ghost use Rattle.flow_core_values.specs.PlaceViews.{place_view, IsOfCommand};
ghost use Rattle.flow_core_values.specs.RunFacts.{shown_of, here_of, IsWell};
ghost use Rattle.flow_core_values.specs.Stands.{StandsThere};
ghost use Rattle.flow_core_values.specs.Sizes.{reaches, next_reaches, is_long_move};

use crate::places::{Place, place_in};
use crate::run::{Run, Stand};
use flow_core_rules::{Move, Phase};

/// The most bytes of a command, or of what an operator is asked.
pub const MOST_COMMAND: usize = 1_048_576;

impl Run {
    // Whether the command of a filter's place has so many bytes or more.
    fn command_reaches(&self, stand: Stand<'_>, place: Place<'_>, bytes: usize) -> bool
        requires well { IsWell self.now }
        requires stands { StandsThere self.now stand }
        requires command { IsOfCommand (commands_of stand.step.now.kind) place }
        ensures { result ≡ reaches bytes (command_at (here_of (shown_of self.now) stand.entry) (place_view place.entry)) }
    {
        let Place::Filter { command, .. } = place else {
            return false;
        };
        let Some(scope) = stand.task.step_scope else {
            return false;
        };
        let Some(content) = self
            .setup
            .content(stand.task.book, stand.task.step, command)
        else {
            return false;
        };
        let mut left = bytes;
        self.take_command(&mut left, scope, content);
        left == 0
    }

    // Whether the question of an operator's place has so many bytes or more.
    fn question_reaches(&self, stand: Stand<'_>, place: Place<'_>, bytes: usize) -> bool
        requires well { IsWell self.now }
        requires stands { StandsThere self.now stand }
        requires command { IsOfCommand (commands_of stand.step.now.kind) place }
        ensures { result ≡ reaches bytes (question_at (here_of (shown_of self.now) stand.entry) (place_view place.entry)) }
    {
        let Place::Operator { command, .. } = place else {
            return false;
        };
        let Some(scope) = stand.task.step_scope else {
            return false;
        };
        let Some(phrase) = self
            .setup
            .question(stand.task.book, stand.task.step, command)
        else {
            return false;
        };
        let mut left = bytes;
        self.take_replaced(&mut left, scope, phrase, false);
        left == 0
    }

    /// Whether the command that a task sends next has so many bytes or more. It takes no memory.
    pub fn next_command_reaches(&self, now: u64, t: u32, bytes: usize) -> bool
        requires { IsWell self.now }
        ensures { result ≡ next_reaches bytes (next_command (shown_of self.now) now t) }
    {
        let Some(stand) = self.stand(now, t) else {
            return false;
        };
        let Phase::Sending { place } = stand.task.phase else {
            return false;
        };
        let Some(found) = place_in(&stand.step.kind, place) else {
            return false;
        };
        self.command_reaches(stand, found, bytes)
    }

    /// Whether what a task asks an operator next has so many bytes or more. It takes no memory.
    pub fn next_question_reaches(&self, now: u64, t: u32, bytes: usize) -> bool
        requires { IsWell self.now }
        ensures { result ≡ next_reaches bytes (next_question (shown_of self.now) now t) }
    {
        let Some(stand) = self.stand(now, t) else {
            return false;
        };
        let Phase::Sending { place } = stand.task.phase else {
            return false;
        };
        let Some(found) = place_in(&stand.step.kind, place) else {
            return false;
        };
        self.question_reaches(stand, found, bytes)
    }

    /// Whether a move's command, or what it asks an operator, is longer than 1,048,576 bytes. It takes no memory.
    pub fn is_long(&self, step: Move, moment: u64) -> bool
        requires { IsWell self.now }
        ensures { result ≡ is_long_move (shown_of self.now) moment step }
    {
        match step {
            Move::Walk { .. } => false,
            Move::Upgrade => false,
            Move::Send { task } => self.next_command_reaches(moment, task, MOST_COMMAND + 1),
            Move::Ask { task } => self.next_question_reaches(moment, task, MOST_COMMAND + 1),
        }
    }
}
