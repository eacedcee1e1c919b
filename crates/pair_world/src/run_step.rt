//! What happened in a world.

use binding_rules::Role;
use journal_lines::Line;
use lead_time::Reading;
use std::marker::Model;

/// One line that a server wrote, and the moment of true time at which it did.
#[derive(Clone, Copy, Debug, PartialEq, Eq)]
pub struct Step {
    pub side: Role,
    /// Milliseconds of true time, which no server reads.
    pub moment: Reading,
    pub line: Line,
}

impl Model for Step {
    ghost use Rattle.attribution.specs.Run.{Step as RunStep};

    ghost Value = { RunStep };

    ghost view = { λ s. record { side = s.side; moment = s.moment; line = s.line } };

    ghost inverse = { λ s. record { side = s.side; moment = s.moment; line = s.line } };
}
