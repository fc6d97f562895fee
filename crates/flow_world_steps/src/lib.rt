//! What happens in a session, call by call, and what it adds up to.
#![tactic(auto)]

ghost use Rattle.flow_world_steps.specs.Agreement.{StepsKeepAgreement};
ghost use Rattle.flow_world_steps.specs.Causes.{EachActed, EachCause, EachEnded, EachSteady};
ghost use Rattle.flow_world_steps.specs.Complete.{EachComplete, EachReplyActed};
ghost use Rattle.flow_world_steps.specs.Grown.{EachFiltersGrow};
ghost use Rattle.flow_world_steps.specs.Handled.{DropsUnaddressed, EachHandles};
ghost use Rattle.flow_world_steps.specs.Link.{EachCountsFew, EachPutsFew, EachPutsInTime, EachPutsOrLost, EachRepliesFew};
ghost use Rattle.flow_world_steps.specs.Ready.{EachFilterReady, EachLooked, EachReady};
ghost use Rattle.flow_world_steps.specs.Sums.{EachAdds, EachAsksOnly, EachCame, EachCosts, EachSameGiven, EachSpeaks, IgnoresFew};
ghost use Rattle.flow_world_steps.specs.Unbroken.{EachUnbroken};
ghost use Rattle.flow_world_steps.specs.Unsure.{EachUnsure, EachUnsureAct};
ghost use Rattle.flow_world_steps.specs.UnderWay.{EachUnderWay, NoExpiry};
ghost use Rattle.flow_world_steps.specs.Whole.{EachAddsUp};
ghost use Rattle.flow_world_steps.specs.Written.{EachWritesFew};

mod going;

pub use flow_core_setup::{Setup, accepted_is_runnable};
pub use flow_engine::{Engine, EngineError, LimitKind};
pub use going::{going_laws, spending_laws};

/// What holds of all that happens in a session, whatever it answers. The function does nothing; its contract is the law.
pub fn steps_laws()
    ensures agreement { StepsKeepAgreement }
    ensures adds { EachAdds }
    ensures given { EachSameGiven }
    ensures came { EachCame }
    ensures asks { EachAsksOnly }
    ensures ignored { IgnoresFew }
    ensures speaks { EachSpeaks }
    ensures costs { EachCosts }
    ensures ready { EachReady }
    ensures filters { EachFilterReady }
    ensures found { EachLooked }
    ensures puts_few { EachPutsFew }
    ensures replies_few { EachRepliesFew }
    ensures counts { EachCountsFew }
    ensures handles { EachHandles }
    ensures drops { DropsUnaddressed }
    ensures puts_or_lost { EachPutsOrLost }
    ensures puts_in_time { EachPutsInTime }
    ensures under_way { EachUnderWay }
    ensures no_expiry { NoExpiry }
    ensures causes { EachCause }
    ensures steady { EachSteady }
    ensures acted { EachActed }
    ensures written { EachWritesFew }
    ensures ended { EachEnded }
    ensures unsure { EachUnsure }
    ensures unsure_act { EachUnsureAct }
    ensures grow { EachFiltersGrow }
    ensures unbroken { EachUnbroken }
    ensures complete { EachComplete }
    ensures replies_acted { EachReplyActed }
    ensures adds_up { EachAddsUp }
{}
