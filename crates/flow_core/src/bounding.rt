// Moves whose command, or question, is too long: they are told before memory is taken for them.
ghost use Rattle.std.specs.Prelude.{◌≡◌, IfOk, true};
ghost use Rattle.flow_core_plans.specs.Sizes.{is_long_move};
ghost use Rattle.flow_core.specs.Views.{taken_by, Refuses};

use crate::flow::Flow;
use crate::flow_errors::{FlowError, LimitKind};
use flow_core_plans::setup_law;
use flow_core_rules::Move;
use std::alloc::AllocError;

impl Flow {
    /// Whether a move's command, or what it asks an operator, is longer than 1,048,576 bytes.
    pub(crate) fn is_long(&self, step: Move, moment: u64) -> Result<bool, AllocError>
        ensures { IfOk result (λ long. long ≡ is_long_move self.now.seen moment step) }
    {
        if self.count == 0 {
            return Ok(false);
        }
        if !self.run.has_numbers() {
            return Err(AllocError);
        }
        setup_law(&self.run.setup);
        Ok(self.run.is_long(step, moment))
    }

    /// Why such a move is refused: it may not come next, or its command is too long.
    pub(crate) fn why_long(&self, step: Move, moment: u64) -> FlowError
        requires { is_long_move self.now.seen moment step ≡ true }
        ensures { Refuses self.now result (taken_by self.now moment step) }
    {
        if self.count == 0 {
            return FlowError::NotEnabled;
        }
        if !self.run.is_in_time(moment) {
            return FlowError::NotEnabled;
        }
        match step {
            Move::Ask { .. } => {
                if self.run.tables.is_upgraded {
                    FlowError::Limit {
                        what: LimitKind::Command,
                    }
                } else {
                    FlowError::NotEnabled
                }
            }
            _ => FlowError::Limit {
                what: LimitKind::Command,
            },
        }
    }
}
