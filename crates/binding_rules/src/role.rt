//! The two servers of a pair.

ghost use Rattle.std.specs.Prelude.{◌≡◌};
ghost use Rattle.binding_rules.specs.Role.{partner_of};

/// What a server of the pair is (RFC 8156, section 4). It names the server's side in references too: the
/// primary is side A, the secondary is side B.
#[derive(Clone, Copy, Debug, PartialEq, Eq, PartialOrd, Ord)]
pub enum Role {
    Primary,
    Secondary,
}

impl Role {
    /// The other server of the pair.
    pub fn partner(self) -> Role
        ensures { result ≡ partner_of self }
    {
        match self {
            Role::Primary => Role::Secondary,
            Role::Secondary => Role::Primary,
        }
    }
}
