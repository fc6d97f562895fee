// What a flow tells of its run. No call here takes memory.
ghost use Rattle.std.specs.Prelude.{◌≡◌, ◌≢◌, ◌<◌, Some, true, false, length, slice_get, option_map};
ghost use Rattle.std.specs.Option.{option_map_or};
ghost use Rattle.flow_core_rules.specs.declared.issues.Issue.{Issue};
ghost use Rattle.flow_core_rules.specs.Changes.{outcome, is_waiting};
ghost use Rattle.flow_core_rules.specs.Lines.{key_of};
ghost use Rattle.flow_core_rules.specs.Moves.{deadline_of};

use crate::flow::Flow;
use cacao_vars::{Name, Word};
use flow_core_plans::Setup;
use flow_core_rules::IssuePhase;
use std::collections::BTreeMap;

impl Flow {
    /// How the run has ended: well or not; None while it goes on.
    pub fn outcome(&self) -> Option<bool>
        ensures { result ≡ outcome self.now.seen.lists }
    {
        self.run.outcome()
    }

    /// Whether the run goes on with operators.
    pub fn is_upgraded(&self) -> bool
        ensures { result ≡ self.now.seen.lists.is_upgraded }
    {
        self.run.tables.is_upgraded
    }

    /// How many issues there are.
    pub fn issues(&self) -> u32
        ensures { result ≡ length self.now.seen.lists.issues }
    {
        self.run.tables.issues.len() as u32
    }

    /// Whether an issue is there and waits.
    pub fn is_waiting(&self, issue: u32) -> bool
        ensures { result ≡ option_map_or (λ one. is_waiting one.phase) (slice_get self.now.seen.lists.issues issue) false }
    {
        match self.run.tables.issues.get(issue as usize) {
            Some(found) => matches!(found.phase, IssuePhase::Waiting),
            None => false,
        }
    }

    /// The filter of an issue, from 1 to 16; 0 for an operator.
    pub fn agent_of(&self, issue: u32) -> u8
        requires { issue < length self.now.seen.lists.issues }
        ensures { option_map (λ one. one.agent) (slice_get self.now.seen.lists.issues issue) ≡ Some result }
    {
        self.run.tables.issues[issue as usize].agent
    }

    /// The bytes of a command that was sent, or of a text by which an operator was asked.
    pub fn bytes_of(&self, issue: u32) -> &[u8]
        requires { issue < length self.now.seen.lists.issues }
        ensures { option_map (λ one. one.bytes) (slice_get self.now.seen.lists.issues issue) ≡ Some result.now }
    {
        self.run.tables.issues[issue as usize].bytes.as_slice()
    }

    /// The deadline of an issue of a filter that waits: its moment and its step's timeout, in milliseconds.
    pub fn deadline(&self, issue: u32) -> u64
        requires exists { issue < length self.now.seen.lists.issues }
        requires waits { option_map_or (λ one. is_waiting one.phase) (slice_get self.now.seen.lists.issues issue) false ≡ true }
        requires filter { option_map (λ one. one.agent) (slice_get self.now.seen.lists.issues issue) ≢ Some 0 }
        ensures { (one : Issue) → slice_get self.now.seen.lists.issues issue ≡ Some one → result ≡ deadline_of self.now.seen one }
    {
        match self.run.tables.deadlines.get(issue) {
            Some(moment) => moment,
            None => unreachable!(),
        }
    }

    /// The number of the run.
    pub fn run(&self) -> u64
        ensures { result ≡ self.now.seen.run }
    {
        self.run.number
    }

    /// The moment of the last record, in milliseconds; 0 where there is none.
    pub fn moment(&self) -> u64
        ensures { result ≡ self.now.seen.moment }
    {
        self.run.moment
    }

    /// What the run is given.
    pub fn setup(&self) -> &Setup
        ensures { result.now ≡ self.now.seen.given }
    {
        &self.run.setup
    }

    /// The numbers of the playbook and of the step at which a task stands; None where there is no such task.
    pub fn stand_of(&self, task: u32) -> Option<(u32, u32)>
        ensures { result ≡ option_map (λ one. (one.book, one.step)) (slice_get self.now.seen.lists.tasks task) }
    {
        match self.run.tables.tasks.get(task as usize) {
            Some(found) => Some((found.book, found.step)),
            None => None,
        }
    }

    /// The key of the step at which a task stands.
    pub fn step_of(&self, task: u32) -> &str
        requires { task < length self.now.seen.lists.tasks }
        ensures { result.now ≡ key_of self.now.seen task }
    {
        let found = &self.run.tables.tasks[task as usize];
        self.run.key_of(found)
    }

    /// The names that a scope declares, each with its present text; None where it has none.
    pub fn texts(&self, scope: u32) -> &BTreeMap<Name, Option<Word>>
        requires { scope < length self.now.seen.lists.scopes }
        ensures { slice_get self.now.seen.lists.texts scope ≡ Some result.now.entries }
    {
        match self.run.tables.opened.texts(scope) {
            Some(texts) => texts.as_map(),
            None => unreachable!(),
        }
    }
}
