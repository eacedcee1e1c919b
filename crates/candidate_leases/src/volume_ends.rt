//! Which of two journals are still being written.

ghost use Rattle.std.specs.Prelude.{◌≡◌};
ghost use Rattle.candidate_leases.specs.Conditions.{end_of};

use binding_rules::Role;

/// Whether a journal's volume was closed by its server. One that is still being written reaches the desk closed behind
/// the last line that was read of it.
#[derive(Clone, Copy, Debug, PartialEq, Eq)]
pub enum VolumeEnd {
    /// Its server closed it: what came later stands in its next volume.
    Closed,
    /// Its server goes on with it: lines may follow the last that was read.
    Open,
}

/// How both volumes end.
#[derive(Clone, Copy, Debug, PartialEq, Eq)]
pub struct VolumeEnds {
    pub primary: VolumeEnd,
    pub secondary: VolumeEnd,
}

impl VolumeEnds {
    /// Both servers closed theirs.
    pub const CLOSED: VolumeEnds = VolumeEnds {
        primary: VolumeEnd::Closed,
        secondary: VolumeEnd::Closed,
    };

    /// How the side's volume ends.
    pub fn of(&self, side: Role) -> VolumeEnd
        ensures { result ≡ end_of self.now side }
    {
        match side {
            Role::Primary => self.primary,
            Role::Secondary => self.secondary,
        }
    }
}
