//! What an archive's answers have to do with certificates.

ghost use Rattle.archive_files.specs.Laws.{ShowsWhatIsAsked};

/// A volume shows an interval exactly where a certificate for it finds the side's journal open and closed in time: of
/// what acceptance asks, these are the conditions on an open line and on a close line.
pub fn what_is_shown_is_what_is_asked()
    ensures { ShowsWhatIsAsked }
{}
