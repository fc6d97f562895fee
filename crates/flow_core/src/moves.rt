// The moves that a flow makes by itself, and what it waits for. No call here takes memory.
ghost use Rattle.std.specs.Prelude.{◌≡◌, true, is_some, slice_get, option_map};
ghost use Rattle.flow_core_rules.specs.Moves.{enabled_move, due, asks, ready_set, deadlines, move_at};
ghost use Rattle.flow_core_rules.specs.Places.{places};
ghost use Rattle.flow_core_rules.specs.Sane.{IsNotStuck};
ghost use Rattle.flow_core_rules.specs.Waiting.{AlwaysWaits};
ghost use Rattle.flow_core.specs.MoveKinds.{is_operators};
ghost use Rattle.base_dues.specs.Pairs.{IsQueue, rising};
ghost use Rattle.base_dues.specs.Least.{sooner};
ghost use Rattle.flow_core_plans.specs.RunFacts.{shown_of};
ghost use Rattle.flow_core.specs.Views.{has_begun};

use crate::flow::Flow;
use base_dues::Dues;
use cacao_book::StepKind;
use flow_core_plans::{Place, Run, place_in, setup_law};
use flow_core_rules::{Move, Phase};

/// The lesser of two moments, where there are any.
fn sooner(one: Option<u64>, other: Option<u64>) -> Option<u64>
    ensures { result ≡ sooner one other }
{
    match (one, other) {
        (None, _) => other,
        (_, None) => one,
        (Some(one), Some(other)) => Some(one.min(other)),
    }
}

/// The least moment of a table.
fn least_moment(dues: &Dues) -> Option<u64>
    ensures moment { result ≡ option_map (λ due. due.0) (slice_get dues.now.pairs 0) }
    ensures queue { IsQueue dues.now.pairs }
{
    dues.law();
    match dues.first() {
        Some((moment, _)) => Some(moment),
        None => None,
    }
}

/// Whether the place with this number is an operator's.
fn is_operators_place(kind: &StepKind, place: u32) -> bool
    ensures { result ≡ is_operators (slice_get (places kind.now) place) }
{
    match place_in(kind, place) {
        Some(Place::Operator { .. }) => true,
        _ => false,
    }
}

/// The move of a task that can go on at a moment.
fn move_of(run: &Run, now: u64, t: u32) -> Option<Move>
    ensures { is_some (move_at (shown_of run.now) now t) ≡ true → result ≡ move_at (shown_of run.now) now t }
{
    let stand = run.here(now, t)?;
    match stand.task.phase {
        Phase::Sending { place } => {
            if !is_operators_place(&stand.step.kind, place) {
                Some(Move::Send { task: t })
            } else if run.tables.is_upgraded {
                Some(Move::Ask { task: t })
            } else {
                Some(Move::Upgrade)
            }
        }
        _ => Some(Move::Walk { task: t }),
    }
}

impl Flow {
    /// The move of the least-numbered task that has one at a moment, in milliseconds.
    pub fn enabled(&self, moment: u64) -> Option<Move>
        ensures { result ≡ enabled_move self.now.seen moment }
    {
        if self.count == 0 || !self.run.is_in_time(moment) {
            return None;
        }
        setup_law(&self.run.setup);
        match self.run.tables.ready.least_by(moment) {
            Some(t) => move_of(&self.run, moment, t),
            None => None,
        }
    }

    /// The least moment, in milliseconds, at which a delay or a deadline that stands runs out. A run that goes on and has no
    /// move waits for one, or for an operator; so does one in which no task walks, sends or asks at a moment, nor asks once
    /// the run is upgraded then.
    pub fn due(&self) -> Option<u64>
        ensures due { result ≡ due self.now.seen }
        ensures never_stuck { has_begun self.now ≡ true → IsNotStuck self.now.seen }
        ensures always_waits { has_begun self.now ≡ true → AlwaysWaits self.now.seen }
    {
        setup_law(&self.run.setup);
        sooner(
            least_moment(&self.run.tables.delays),
            least_moment(&self.run.tables.deadlines),
        )
    }

    /// The least issue that waits for an operator.
    pub fn asks(&self) -> Option<u32>
        ensures { result ≡ asks self.now.seen }
    {
        self.run.tables.questions.least_by(0)
    }

    /// The tasks that can go on, each with the moment from which it can, in milliseconds.
    pub fn ready_set(&self) -> &Dues
        ensures { result.now.pairs ≡ rising (ready_set self.now.seen) }
    {
        self.run.tables.ready.law();
        &self.run.tables.ready
    }

    /// The issues of filters that wait, each with its deadline, in milliseconds.
    pub fn deadlines(&self) -> &Dues
        ensures { result.now.pairs ≡ rising (deadlines self.now.seen) }
    {
        self.run.tables.deadlines.law();
        &self.run.tables.deadlines
    }
}
