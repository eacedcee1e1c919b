//! The limits of a server's settings.

/// Whether an identity association belongs to the relay port that it was given a unit by.
#[derive(Clone, Copy, Debug, PartialEq, Eq)]
pub enum PortRule {
    /// It may come from any port.
    Free,
    /// While it has a unit, it is denied from any other port.
    Bound,
}

/// How much clients may take. 0 lifts a limit.
#[derive(Clone, Copy, Debug, PartialEq, Eq)]
pub struct Limits {
    /// How many IA_PDs of a message may ask for a unit that their client doesn't have: those from this place on are
    /// denied.
    pub ias_per_message: u32,
    /// How many units a client may have.
    pub units_per_client: u32,
    /// How many units the clients behind one relay port may have.
    pub units_per_port: u32,
    /// How many messages of a client behind one relay port are heard in a second.
    pub client_rate: u32,
    pub ports: PortRule,
}

impl Limits {
    /// No limit.
    pub const NONE: Limits = Limits {
        ias_per_message: 0,
        units_per_client: 0,
        units_per_port: 0,
        client_rate: 0,
        ports: PortRule::Free,
    };
}
