//! The laws of runs that leave volumes, over joined journals.

ghost use Rattle.joined_runs.specs.Laws.{JoinedCouldBeLeft, JoinedCouldBeLeftSoFar, AcceptedIsTrueOverVolumes};
ghost use Rattle.joined_runs.specs.Laws.{SnapshotsAreTrueOverVolumes, TrueOfJoinedIsTrueOverVolumes};
ghost use Rattle.joined_runs.specs.PutTogether.{PutTogetherIsJoined};
ghost use Rattle.book_rules.specs.NextHead.{AreLegal};

use attribution::{accepted_is_true, snapshots_are_true};
use volume_join::joined_is_legal;

/// Volumes that `JoinedVolumes` puts together, one after the other, are the joined journal, and it has room.
#[tactic(auto, using(crate::proofs::PutTogether::put_together))]
pub fn put_together_is_joined()
    ensures { PutTogetherIsJoined }
{}

/// A pair that left volumes of both servers could as well have left the two journals that these are together, with the
/// same clients holding the same at each moment; and so of volumes whose last ones are still being written.
pub fn joined_could_be_left()
    ensures closed { JoinedCouldBeLeft AreLegal }
    ensures so_far { JoinedCouldBeLeftSoFar AreLegal }
{
    joined_is_legal();
}

/// The headline over joined journals: what is accepted over them is true in every run of the pair that leaves the
/// volumes, whatever volumes came before and behind, with clocks within the skew and answers within the transit. And
/// over snapshots of journals whose last volumes are still being written: in every run that began so, whatever follows.
/// A law; nothing calls it.
pub fn accepted_is_true_over_volumes()
    ensures headline { AcceptedIsTrueOverVolumes AreLegal }
    ensures snapshots { SnapshotsAreTrueOverVolumes AreLegal }
    // What is true in every run that leaves the joined journals, as the audit's own headline has it, is true over them.
    ensures every_run { TrueOfJoinedIsTrueOverVolumes AreLegal }
{
    joined_could_be_left();
    accepted_is_true();
    snapshots_are_true();
}
