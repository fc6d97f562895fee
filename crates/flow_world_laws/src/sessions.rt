// What a session did, told of its site alone: to its run, to its link, and with the replies that it took.
ghost use Rattle.flow_world_laws.specs.Puts.{EachClosePutsFew, EachRefusalPutsFew, EachSessionPutsFew};
ghost use Rattle.flow_world_laws.specs.Replies.{EachCloseRecords, EachSessionRecords};
ghost use Rattle.flow_world_laws.specs.Returns.{EachCloseReturns, EachLaterRefusalReturns, EachRefusalReturns, EachSessionAddsInTime};

/// From a start where all agrees, and whatever a session answers: the engine's file goes on from a run to a run that has it as its
/// front; each record that it has more is of a moment from the clock's at the start to the clock's on return; and the greatest
/// moment that the clock was asked for is no later than it was, than that of the last record at the start, or than what was due
/// for the run at the start with some of these records. So it is of any session, wherever its filters stand. The function does
/// nothing; its contract is the law.
pub fn session_returns_law()
    ensures closes { EachCloseReturns }
    ensures refuses { EachRefusalReturns }
    ensures refuses_later { EachLaterRefusalReturns }
    ensures anywhere { EachSessionAddsInTime }
{}

/// From a start where all agrees, and whatever a session answers: each parcel that it put is a command of the run, behind its
/// Send, or a reply; at most nine are the command of one issue, and the replies are at most as many as the commands that it took.
/// The function does nothing; its contract is the law.
pub fn session_puts_law()
    ensures closes { EachClosePutsFew }
    ensures refuses { EachRefusalPutsFew }
    ensures anywhere { EachSessionPutsFew }
{}

/// Of any session, wherever its filters stand, on a site that tells its files and which parcels were taken: each final reply that
/// it took, whose issue waited for it then, has its Reply in each image of the engine's file; where the session did not close, all
/// but the last parcel. The function does nothing; its contract is the law.
pub fn session_replies_law()
    ensures closes { EachCloseRecords }
    ensures anywhere { EachSessionRecords }
{}
