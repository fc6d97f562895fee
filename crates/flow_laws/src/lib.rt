//! When a site's files, parcels and lines agree, and what keeps them so from beat to beat and from session to session. The
//! definitions stand in `specs/`; here are the laws. A law is the contract of a function that does nothing.
#![tactic(auto)]

ghost use Rattle.flow_laws.specs.Beats.{ImagesShrink, RecordIsGained, ActIsGained};
ghost use Rattle.flow_laws.specs.Beats.{CommandIsPut, ForeignIsPut, ReplyIsPut, LineIsSaid};
ghost use Rattle.flow_laws.specs.Sessions.{BeginsOnBlankFiles, GoesOnAfterACrash, BeginsAnew};
ghost use Rattle.flow_laws.specs.Sessions.{CrashesAreRestarts, SessionPutsArePast};

/// Agreement is kept from beat to beat, for all sites and beats: where images only shrink, where the journal gains a record or a
/// filter's file an act, where a command or a reply is put, also a command of another run over the same link, and where a
/// record's line is said.
pub fn beat_laws()
    ensures images_shrink { ImagesShrink }
    ensures record_gained { RecordIsGained }
    ensures act_gained { ActIsGained }
    ensures command_put { CommandIsPut }
    ensures foreign_put { ForeignIsPut }
    ensures reply_put { ReplyIsPut }
    ensures line_said { LineIsSaid }
{}

/// A session may begin on blank files and where another ended or was cut off, for all sites and beats. A crash of a site in
/// memory leaves such a site. And which puts are a session's.
pub fn sessions_law()
    ensures blank_files { BeginsOnBlankFiles }
    ensures after_a_crash { GoesOnAfterACrash }
    ensures new_run { BeginsAnew }
    ensures crash { CrashesAreRestarts }
    ensures session_puts { SessionPutsArePast }
{}
