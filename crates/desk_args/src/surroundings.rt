//! What stands around the words of a command line.

use crate::bounds::HeadBounds;
use zone_times::ZoneFile;

/// What stands around the words of a command line, and was read before they are judged.
#[derive(Clone, Copy)]
pub struct Surroundings<'a> {
    /// The zone that the words name: times without an offset are those of its clocks.
    pub zone: Option<&'a ZoneFile>,
    /// The bounds that the heads of the journals say, where they are asked ([`Outline`](crate::Outline)).
    pub heads: Option<HeadBounds>,
}
