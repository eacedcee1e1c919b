//! The laws that carry the headline, over the definitions in specs/ alone.

ghost use Rattle.attribution.specs.Acceptance.{AcceptedIsTrue};
ghost use Rattle.attribution.specs.FirstRefusal.{AcceptsTheAccepted, OneVerdict};
ghost use Rattle.attribution.specs.Laws.{ChainsStandInOrder, BoundsHold, LateAfterClose, PiecesMeetEveryMoment};
ghost use Rattle.attribution.specs.Laws.{EndPointsDecide};
ghost use Rattle.attribution.specs.Listing.{ListedIsEnough};
ghost use Rattle.attribution.specs.TestLaws.{OpenDecided, EndsDecided, ClearsDecided, NamesDecided};
ghost use Rattle.attribution.specs.Lawful.{Lawful, LegalIsLawful};
ghost use Rattle.attribution.specs.Snapshot.{SnapshotsAreTrue, SnapshotsAreTrueInRuns, ClosesBehindTheLast};
ghost use Rattle.attribution.specs.Clocks.{EarlyByFirstSend, EarlyFitsNoClocks, FirstVolumesFit, VolumesFit};
ghost use Rattle.attribution.specs.Clocks.{FittingNameOne, TimelyNameOne};
ghost use Rattle.book_rules.specs.NextHead.{AreLegal};

/// What is accepted is true in every run of the pair that leaves the journals, whatever volumes came before, with
/// clocks within the skew and answers within the transit.
pub fn accepted_is_true()
    ensures { AcceptedIsTrue AreLegal }
{}

/// Of all that servers may write that needs three facts alone: a serial of the journal is sent once, no lease is for
/// ever, and each volume accounts for what earlier ones granted. What the pair's rules allow has them.
pub fn lawful_is_enough()
    ensures enough { AcceptedIsTrue (λ side volumes. Lawful volumes) }
    ensures legal { LegalIsLawful }
{}

/// What is accepted over snapshots of two journals, each closed behind the last line that was read of it, is true in
/// every run whose volumes begin so: any lines may follow, and a volume need never be closed. Of what the servers wrote
/// only the lines that were read need keep rules, their clocks and the order of letters; behind them all is free.
pub fn snapshots_are_true()
    ensures enough { SnapshotsAreTrue (λ side volumes. Lawful volumes) }
    ensures legal { SnapshotsAreTrue AreLegal }
    ensures in_runs { SnapshotsAreTrueInRuns AreLegal }
    ensures closes { ClosesBehindTheLast }
{}

/// A certificate has at most one verdict, which is that it is accepted exactly where it is.
pub fn verdict_is_one()
    ensures accepts { AcceptsTheAccepted }
    ensures one { OneVerdict }
{}

/// The lines of a chain were written in its order, in every run.
pub fn chains_stand_in_order()
    ensures { ChainsStandInOrder AreLegal }
{}

/// A line's bounds hold under all clocks that are within the skew of true time.
pub fn bounds_hold()
    ensures { BoundsHold AreLegal }
{}

/// What a side wrote behind the volume that is its journal was written at or after the end of the interval.
pub fn late_after_close()
    ensures { LateAfterClose AreLegal }
{}

/// Pieces that lie end to end meet every moment.
pub fn pieces_meet_every_moment()
    ensures { PiecesMeetEveryMoment }
{}

/// End points meet exactly where sets of addresses meet.
pub fn end_points_decide()
    ensures { EndPointsDecide }
{}

/// An auditor may look at the listed lines alone, which concern the prefix asked of.
pub fn listed_is_enough()
    ensures { ListedIsEnough }
{}

/// The tests of earlier volumes, of ends, of clear entries and of names decide what they are for.
pub fn tests_decide()
    ensures opened { OpenDecided }
    ensures ends { EndsDecided }
    ensures clears { ClearsDecided }
    ensures names { NamesDecided }
{}

/// Clocks within the skew fit two journals, closed and as `check_pair` of `auditor` asks, where no take is early: of
/// first volumes in runs that keep all rules, and of any in runs whose earlier volumes are lawful; of these exactly so.
pub fn run_exists()
    ensures first { FirstVolumesFit }
    ensures exact { VolumesFit }
{}

/// No clocks within the skew fit journals in which a take is early.
pub fn early_fits_no_clocks()
    ensures { EarlyFitsNoClocks (λ side volumes. Lawful volumes) }
{}

/// Two certificates that are accepted over one pair of journals name the same client, where their prefixes share an
/// address and their intervals a moment: if clocks fit the journals, or no take is early.
pub fn no_two_holders()
    ensures fitting { FittingNameOne (λ side volumes. Lawful volumes) }
    ensures timely { TimelyNameOne }
{}

/// In journals as `check_pair` asks one comparison tells of each take whether it is early.
pub fn early_by_first_send()
    ensures { EarlyByFirstSend }
{}
