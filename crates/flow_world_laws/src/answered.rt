// What was answered in a session.
ghost use Rattle.flow_world_laws.specs.Answered.{EachReplyHasItsAct, EachSendIsActedOn, EachSendIsAnswered, NoTold, NoToldOfFilters};

/// What was answered in a session that lost no parcel. The function does nothing; its contract is the law.
pub fn answered_laws()
    ensures no_told { NoTold }
    ensures no_told_of_filters { NoToldOfFilters }
    ensures sends_answered { EachSendIsAnswered }
    ensures replies_acted { EachReplyHasItsAct }
    ensures sends_acted { EachSendIsActedOn }
{}
