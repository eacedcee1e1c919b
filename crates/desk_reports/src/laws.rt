//! What a report that accepts a certificate says of the world.

ghost use Rattle.desk_reports.specs.Laws.{AcceptedReportsAreTrue, VolumeReportsAreTrue};
ghost use Rattle.desk_reports.specs.WhoLaws.{WhoObjectsAreTrue};

use answer_data::holder_objects_are_true;
use attribution::verdict_is_one;
use attribution_desk::accepted_rulings_are_true;
use joined_answers::named_is_true;
use volume_spans::accepted_over_spans_is_true;

/// A certificate that a report accepts is true in every run of the pair that leaves the journals, with clocks within the
/// skew and answers within the transit, however both servers went on.
pub fn accepted_reports_are_true()
    ensures { AcceptedReportsAreTrue }
{
    accepted_rulings_are_true();
}

/// A certificate that a report over volumes accepts, with status 0, is true in every run of the pair that leaves these
/// volumes, with clocks within the skew and answers within the transit, however both servers went on.
pub fn volume_reports_are_true()
    ensures { VolumeReportsAreTrue }
{
    verdict_is_one();
    accepted_over_spans_is_true();
}

/// The object of an answer over volumes that names who held a prefix is read as one that names the client of the
/// certificate that was found, its interval and its text; and what the certificate says is true in every run of the pair
/// that leaves these volumes, with clocks within the skew and answers within the transit, however both servers went on.
pub fn who_objects_are_true()
    ensures { WhoObjectsAreTrue }
{
    named_is_true();
    holder_objects_are_true();
}
