//! Pair safety, over the definitions in specs/ alone.

ghost use Rattle.pair_world.specs.UnitSafe.{OneHolder, PartnerDownLaws};
ghost use Rattle.pair_world.specs.PairSafe.{BooksKeep, StepStays, RunStays, OneHolderNow};
ghost use Rattle.pair_world.specs.PairSafe.{WorldIsRun, AddressSafe, LeaseSafe};
ghost use Rattle.pair_world.specs.PairSafe.{PartnerStandsBack, AckWasTold, EndsInTime};

/// In a world of one unit: whatever the two servers, the clocks and the link do, no two bindings have the unit at one
/// moment.
pub fn one_holder_ever()
    ensures { OneHolder }
{}

/// In a world of one unit: while a server takes its partner for down or has the unit marked, the partner is stopped or
/// waits unanswered; what the partner has acknowledged was told; and its grants end in time.
pub fn partner_down_laws()
    ensures { PartnerDownLaws }
{}

/// What happened in a world is a run of the pair, with all clocks within the skew, and its journals are the lines of
/// the two servers.
pub fn world_is_run()
    ensures run { WorldIsRun }
    // And what `step` and `run` lead to is such a world again.
    ensures step { StepStays }
    ensures steps { RunStays }
{}

/// Pair safety: after any list of events no address is held by two clients at any moment, nor by two identity
/// associations of one client.
pub fn address_safe()
    ensures clients { AddressSafe }
    ensures bindings { LeaseSafe }
    // So `holders` of a unit are at most one.
    ensures now { OneHolderNow }
{}

/// While a server takes its partner for down, or has a unit marked: the partner is stopped, or it waits and nothing
/// that was sent so far answers it; the ends that it has acknowledged were told here; and its delegations end in time.
pub fn partner_stands_back()
    ensures waits { PartnerStandsBack }
    ensures told { AckWasTold }
    ensures ends { EndsInTime }
{}

/// The invariant between the two books, at each unit: what the two servers' units, all that they ever said, and the
/// grants that still run keep of each other. Each clause stands with a sentence in specs/Phases, specs/Acks,
/// specs/Marked and specs/Kept.
pub fn books_keep()
    ensures { BooksKeep }
{}
