//! Laws of a session: what it does to its run, how its records and acts came, and what became of the parcels that it took; what was
//! answered, how it stands where it ends, and how far it comes where nothing disturbs it.
#![tactic(auto)]

ghost use Rattle.flow_world_laws.specs.Prefixes.{EachCloseGoesOn, EachLaterRefusalGoesOn, EachRefusalGoesOn, EachRefusedOpeningAddsNothing, EachSecondRefusalGoesOn};
ghost use Rattle.flow_world_laws.specs.Parcels.{EachCloseHandles, EachRefusalHandles};
ghost use Rattle.flow_world_laws.specs.Acts.{EachActCame, EachOfferedActCame};
ghost use Rattle.flow_world_laws.specs.AllCame.{EachAloneCame, EachWentOn};
ghost use Rattle.flow_world_laws.specs.Came.{EachOfferedCame, EachRecordCame, EachRecordInTime};
ghost use Rattle.flow_world_laws.specs.Expires.{EachExpiryWasPut};

mod answered;
mod complete;
mod ends;
mod returned;
mod sessions;

pub use answered::answered_laws;
pub use complete::complete_laws;
pub use ends::ends_laws;
pub use returned::returned_laws;
pub use sessions::{session_puts_law, session_replies_law, session_returns_law};

/// From a start where all agrees, and whatever a session answers: some image of the engine's file at the start stands for a
/// run, and on return that file reads as a run which has it as its front, with at most as many records more as the session may
/// append. Once that file was open, it is the run that the file read as at the start, and where no call of the disk failed,
/// each image that a crash may leave on return stands for the run of then. Until all files were open nothing was added. The
/// function does nothing; its contract is the law.
pub fn prefix_law()
    ensures closes { EachCloseGoesOn }
    ensures refuses { EachRefusalGoesOn }
    ensures refuses_later { EachLaterRefusalGoesOn }
    ensures refuses_second { EachSecondRefusalGoesOn }
    ensures refuses_opening { EachRefusedOpeningAddsNothing }
{}

/// From a start where all agrees, on a site that tells which parcels were taken: on return each command that the session took
/// has its act in each image of its agent's file, and each final reply, whose issue waited for it when it was taken, its Reply
/// in each image of file 0; where the session refused, all but the last parcel. And each act and each Reply that was appended
/// is of a parcel that it took. The function does nothing; its contract is the law.
pub fn parcels_law()
    ensures closes { EachCloseHandles }
    ensures refuses { EachRefusalHandles }
{}

/// Of each session that opened its files, whether it closed or refused: each record that it appended came by one call, at
/// the clock's moment, to the journal of its own run, which was empty or began with the number and the texts that were
/// given, and for the reason of its kind. A Begin is that of the asked run, with these texts; a Walk, a Send and an Ask are
/// the enabled move's; a Reply is of the parcel in hand; and an Expire is of the least issue at or past its deadline, where
/// the take before it had found no parcel, no move was enabled, and no issue that waits had an answer of an operator. The
/// moments lie between those of the clock at the start and on return, and never fall. Each act came by one call, in which
/// the filter of its agent acted on the command in hand, at the clock's moment, or at that of the filter's last act, if
/// that is later. The issues that expired were put in the session, but for as many as mishaps were counted. The same holds
/// of a record or an act that may stand behind the others, since a call failed while it was appended. And all this holds of
/// whatever goes on from open files by a session's calls, beside any number of filters, so where the journal alone was
/// opened. The function does nothing; its contract is the law.
pub fn records_law()
    ensures came { EachRecordCame }
    ensures moments { EachRecordInTime }
    ensures offered { EachOfferedCame }
    ensures acts { EachActCame }
    ensures offered_acts { EachOfferedActCame }
    ensures expires { EachExpiryWasPut }
    ensures went_on { EachWentOn }
    ensures alone { EachAloneCame }
{}
