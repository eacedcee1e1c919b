//! The codes of frames' fields: what each value is written as, and the value that a code stands for.

ghost use Rattle.std.specs.Prelude.{◌≡◌};
ghost use Rattle.failover_message.specs.Frames.{status_code, acknowledgement_code, role_code, state_code};
ghost use Rattle.text_fields.specs.Parsing.{Moves};
ghost use Rattle.failover_message.specs.Parsing.{coded_at};

use crate::octets::Octets;
use binding_rules::{Acknowledgement, Role, ServerState, Status};

/// Whatever a unit may have become.
const STATUSES: [Status; 6] = [
    Status::Active,
    Status::Expired,
    Status::Released,
    Status::Backup,
    Status::Free,
    Status::Seized,
];

/// Whatever a reply may say.
const ACKNOWLEDGEMENTS: [Acknowledgement; 2] = [Acknowledgement::Accept, Acknowledgement::Reject];

/// Whatever a server may be.
const ROLES: [Role; 2] = [Role::Primary, Role::Secondary];

/// Whatever a server may take its partner for.
const STATES: [ServerState; 3] = [
    ServerState::Normal,
    ServerState::Interrupted,
    ServerState::Down,
];

/// Returns what stands for this status.
pub fn status_code(status: Status) -> u8
    ensures { result ≡ status_code status }
{
    match status {
        Status::Active => 1,
        Status::Expired => 2,
        Status::Released => 3,
        Status::Backup => 4,
        Status::Free => 5,
        Status::Seized => 6,
    }
}

/// Returns what stands for this acknowledgement.
pub fn acknowledgement_code(acknowledgement: Acknowledgement) -> u8
    ensures { result ≡ acknowledgement_code acknowledgement }
{
    match acknowledgement {
        Acknowledgement::Accept => 1,
        Acknowledgement::Reject => 2,
    }
}

/// Returns what stands for this role.
pub fn role_code(role: Role) -> u8
    ensures { result ≡ role_code role }
{
    match role {
        Role::Primary => 1,
        Role::Secondary => 2,
    }
}

/// Returns what stands for this state.
pub fn state_code(state: ServerState) -> u8
    ensures { result ≡ state_code state }
{
    match state {
        ServerState::Normal => 1,
        ServerState::Interrupted => 2,
        ServerState::Down => 3,
    }
}

/// The status whose code stands in front.
#[tactic(auto, unfolding(crate::specs::Parsing::coded_at))]
pub fn status(octets: &mut Octets<'_>) -> Option<Status>
    ensures { Moves (λ s. s) result octets.new (coded_at status_code STATUSES octets.old) }
{
    let code = octets.octet()?;
    STATUSES.iter().copied().find(|s| status_code(*s) == code)
}

/// The acknowledgement whose code stands in front.
#[tactic(auto, unfolding(crate::specs::Parsing::coded_at))]
pub fn acknowledgement(octets: &mut Octets<'_>) -> Option<Acknowledgement>
    ensures { Moves (λ a. a) result octets.new (coded_at acknowledgement_code ACKNOWLEDGEMENTS octets.old) }
{
    let code = octets.octet()?;
    ACKNOWLEDGEMENTS
        .into_iter()
        .find(|a| acknowledgement_code(*a) == code)
}

/// The role whose code stands in front.
#[tactic(auto, unfolding(crate::specs::Parsing::coded_at))]
pub fn role(octets: &mut Octets<'_>) -> Option<Role>
    ensures { Moves (λ r. r) result octets.new (coded_at role_code ROLES octets.old) }
{
    let code = octets.octet()?;
    ROLES.into_iter().find(|r| role_code(*r) == code)
}

/// The state whose code stands in front.
#[tactic(auto, unfolding(crate::specs::Parsing::coded_at))]
pub fn state(octets: &mut Octets<'_>) -> Option<ServerState>
    ensures { Moves (λ s. s) result octets.new (coded_at state_code STATES octets.old) }
{
    let code = octets.octet()?;
    STATES.into_iter().find(|s| state_code(*s) == code)
}
