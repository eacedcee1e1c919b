//! Which IA_PDs of a message may be ordered.

ghost use Rattle.std.specs.Prelude.{◌≡◌};
ghost use Rattle.client_service.specs.Answering.{permit_at};

use crate::permit::Permit;

/// Whether the IA_PD at a place may be ordered, counted from 0: behind the end of the list all may.
pub(crate) fn permit_at(permits: &[Permit], place: usize) -> Permit
    ensures { result ≡ permit_at permits.now place }
{
    match permits.get(place) {
        Some(permit) => *permit,
        None => Permit::Allowed,
    }
}
