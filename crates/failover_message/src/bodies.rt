//! The bodies of frames, taken from their octets.

ghost use Rattle.std.specs.Prelude.{◌≡◌};
ghost use Rattle.text_fields.specs.Parsing.{Moves, within};
ghost use Rattle.failover_message.specs.Parsing.{update_at, reply_at, greeting_at, contact_at, kind_at};

use crate::frame::FrameKind;
use crate::octets::Octets;
use crate::{codes, fields};
use binding_rules::{BindReply, Counter, Role, Update};

/// Returns what a unit became.
#[tactic(auto, unfolding(crate::specs::Parsing::update_at))]
fn update(octets: &mut Octets<'_>) -> Option<Update>
    ensures { Moves (λ u. u) result octets.new (update_at octets.old) }
{
    let status = codes::status(octets)?;
    let prefix = octets.prefix()?;
    let mine = octets.count()?;
    let seen = octets.count()?;
    let end = fields::end(octets, status)?;
    let (iaid, client) = fields::holder(octets, status)?;
    Some(Update {
        status,
        prefix,
        mine,
        seen,
        end,
        iaid,
        client,
    })
}

/// Returns whether an update was taken over.
#[tactic(auto, unfolding(crate::specs::Parsing::reply_at))]
fn reply(octets: &mut Octets<'_>) -> Option<BindReply>
    ensures { Moves (λ r. r) result octets.new (reply_at octets.old) }
{
    let acknowledgement = codes::acknowledgement(octets)?;
    let prefix = octets.prefix()?;
    let of = octets.count()?;
    let mine = octets.count()?;
    let seen = octets.count()?;
    Some(BindReply {
        acknowledgement,
        prefix,
        of,
        mine,
        seen,
    })
}

/// A role and the serial of the last frame taken.
#[tactic(auto, unfolding(crate::specs::Parsing::greeting_at))]
fn greeting(octets: &mut Octets<'_>) -> Option<(Role, Counter)>
    ensures { Moves (λ g. g) result octets.new (greeting_at octets.old) }
{
    let role = codes::role(octets)?;
    let last = octets.count()?;
    Some((role, last))
}

/// The numbers of a contact: that which is to be answered, and the answer.
#[tactic(auto, unfolding(crate::specs::Parsing::contact_at))]
fn contact(octets: &mut Octets<'_>) -> Option<(Counter, Counter)>
    ensures { Moves (λ c. c) result octets.new (contact_at octets.old) }
{
    let ask = octets.count()?;
    let answer = octets.count()?;
    Some((ask, answer))
}

/// CONNECT.
fn connect(octets: &mut Octets<'_>) -> Option<FrameKind>
    ensures { Moves (λ k. k) result octets.new (within (λ g. FrameKind.Connect g.0 g.1) (greeting_at octets.old)) }
{
    let (role, last) = greeting(octets)?;
    Some(FrameKind::Connect { role, last })
}

/// CONNECTREPLY.
fn connect_reply(octets: &mut Octets<'_>) -> Option<FrameKind>
    ensures { Moves (λ k. k) result octets.new (within (λ g. FrameKind.ConnectReply g.0 g.1) (greeting_at octets.old)) }
{
    let (role, last) = greeting(octets)?;
    Some(FrameKind::ConnectReply { role, last })
}

/// CONTACT.
fn contact_kind(octets: &mut Octets<'_>) -> Option<FrameKind>
    ensures { Moves (λ k. k) result octets.new (within (λ c. FrameKind.Contact c.0 c.1) (contact_at octets.old)) }
{
    let (ask, answer) = contact(octets)?;
    Some(FrameKind::Contact { ask, answer })
}

/// The body of this kind.
#[tactic(auto, unfolding(crate::specs::Parsing::kind_at))]
pub fn kind(octets: &mut Octets<'_>, code: u8) -> Option<FrameKind>
    ensures { Moves (λ k. k) result octets.new (kind_at code octets.old) }
{
    match code {
        1 => Some(FrameKind::BindingUpdate(update(octets)?)),
        2 => Some(FrameKind::BindingReply(reply(octets)?)),
        3 => Some(FrameKind::PoolRequest),
        4 => Some(FrameKind::PoolResponse {
            moved: octets.u32()?,
        }),
        5 => Some(FrameKind::UpdateRequest),
        6 => Some(FrameKind::UpdateRequestAll),
        7 => Some(FrameKind::UpdateDone),
        8 => connect(octets),
        9 => connect_reply(octets),
        10 => Some(FrameKind::Disconnect),
        11 => Some(FrameKind::State(codes::state(octets)?)),
        12 => contact_kind(octets),
        _ => None,
    }
}
