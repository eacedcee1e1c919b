//! The parts of both sides.

ghost use Rattle.std.specs.Prelude.{◌≡◌, ◌<◌, ◌⊎◌, ◌↔◌, IsTrue, IfOk, length};
ghost use Rattle.volume_spans.specs.Reading.{AreWritten};
ghost use Rattle.line_origins.specs.Parts.{AreTogether};
ghost use Rattle.line_origins.specs.Spans.{AreOriginsOf, origin_over, HasSeveral};

use crate::finding::{LineOrigin, origin_of};
use crate::parts::{VolumePart, parts_of};
use binding_rules::Role;
use std::alloc::{AllocError, Global};
use volume_spans::ReadSpans;

/// Which volumes of both sides have the lines of the joined journals.
#[derive(Debug, Drop)]
pub struct SpanOrigins {
    pub primary: Vec<VolumePart>,
    pub secondary: Vec<VolumePart>,
}

impl SpanOrigins {
    /// Those of volumes that were read. `AllocError` where a growth was refused.
    pub fn of(alloc: Global, read: &ReadSpans) -> Result<SpanOrigins, AllocError>
        requires primary_written { AreWritten read.now.primary.volumes.items }
        requires secondary_written { AreWritten read.now.secondary.volumes.items }
        requires primary { AreTogether read.now.primary.volumes.items }
        requires secondary { AreTogether read.now.secondary.volumes.items }
        ensures { IfOk result (AreOriginsOf read.now) }
    {
        let primary = parts_of(alloc, &read.primary.volumes)?;
        let secondary = parts_of(alloc, &read.secondary.volumes)?;
        Ok(SpanOrigins { primary, secondary })
    }

    /// The volume of a side's joined line of this number, counted from 1, and its own number there. `None` where no
    /// volume has it.
    pub fn origin_of(&self, side: Role, number: u32) -> Option<LineOrigin>
        ensures { result ≡ origin_over self.now side number }
    {
        match side {
            Role::Primary => origin_of(&self.primary, number),
            Role::Secondary => origin_of(&self.secondary, number),
        }
    }

    /// Returns whether a side has several volumes.
    pub fn has_several(&self) -> bool
        ensures { IsTrue result ↔ HasSeveral self.now }
    {
        self.primary.len() > 1 || self.secondary.len() > 1
    }
}
