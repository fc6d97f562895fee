//! Two processes over a socket: what each end keeps on its own files for any bytes that arrive, and that the two keep agreement
//! for each list of deliveries of what was sent. The law stands over the definitions alone, in `specs/`.
#![tactic(auto)]

ghost use Rattle.oc2_wire_laws.specs.FilterBeats.{ActIsKept, MoreForFilters, ReplyIsKept, ShrunkAreKept};
ghost use Rattle.oc2_wire_laws.specs.EngineBeats.{CommandIsKept, LineIsKept, MoreIsGot, RecordIsKept, ShrunkIsKept};
ghost use Rattle.oc2_wire_laws.specs.Deliveries.{BlankEndsAreStarts, DeliveriesKeepAgreement, RestartsAreStarts};
ghost use Rattle.oc2_wire_laws.specs.OneSite.{DeliveriesLeaveStarts, NewRunsAreStarts, StartsAreOfBoth};

/// What the two ends keep on their own, each for any bytes, comes to agreement of the files of both, whatever of what was sent is
/// lost, repeated or reordered, and whenever an end crashes; and where an end begins again, what it asks of its start holds. Two
/// ends whose files no session used are such a start, and so are two on what one site has, if a session of both may begin there.
/// Behind each list a session of both may begin on one site, under its number or under another that was fresh when it began; and, where
/// the journal is taken away, a list of another number.
pub fn deliveries_law()
    ensures agreement { DeliveriesKeepAgreement }
    ensures restarts { RestartsAreStarts }
    ensures blank { BlankEndsAreStarts }
    ensures one_site { StartsAreOfBoth }
    ensures leave { DeliveriesLeaveStarts }
    ensures new_run { NewRunsAreStarts }
{}

/// What the engine's end promises is kept from beat to beat: where images only shrink, the journal gains a record,
/// a command is put, or a record's line is said; and at a beat, where more was got.
pub fn engine_laws()
    ensures shrunk { ShrunkIsKept }
    ensures record_kept { RecordIsKept }
    ensures command { CommandIsKept }
    ensures line { LineIsKept }
    ensures got { MoreIsGot }
{}

/// And what the filters' end promises: where images only shrink, a file gains an act, a reply is put, or more was got.
pub fn filter_laws()
    ensures shrunk { ShrunkAreKept }
    ensures act { ActIsKept }
    ensures reply { ReplyIsKept }
    ensures got { MoreForFilters }
{}
