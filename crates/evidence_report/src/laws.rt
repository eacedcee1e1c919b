//! What is so of reports.

ghost use Rattle.evidence_report.specs.Whole.{AcceptedIsWhole, RefusalIsTold};

/// Where a certificate is accepted, its report lacks nothing: each piece has its grant and both marks and is carried,
/// each release is told of and discharged, and each foreign entry's reason holds. So no `fault` is found in it.
pub fn accepted_is_whole()
    ensures { AcceptedIsWhole }
{}

/// Where a certificate is refused for a release that cuts a piece short, the report of that piece tells of it.
pub fn refusal_is_told()
    ensures { RefusalIsTold }
{}
