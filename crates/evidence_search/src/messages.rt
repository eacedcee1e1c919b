//! Messages between the partners, as ways from one journal to the other.

ghost use Rattle.std.specs.Prelude.{◌≡◌, [], ◌∷◌, ◌≤◌, ◌<◌, All, IfOk, IfSome, MatchOption, Contains as Has};
ghost use Rattle.std.specs.Prelude.{nat_lt, nat_le};
ghost use Rattle.binding_rules.specs.Role.{partner_of};
ghost use Rattle.causal_order.specs.Order.{IsChain};
ghost use Rattle.evidence_search.specs.DeliveredMessages.{IsDeliveredMessage, AreRising};

use binding_rules::{Counter, Role};
use causal_order::{Lines, Ref, is_chain};
use journal_lines::Event;
use std::alloc::{AllocError, Global};

/// A message: the number of the line that sends it, and of the partner's that takes it.
#[derive(Clone, Copy, Debug, PartialEq, Eq)]
pub struct DeliveredMessage {
    pub send: u32,
    pub take: u32,
}

/// A line that sends a message, and the message's number.
#[derive(Clone, Copy, Debug)]
struct Sending {
    serial: Counter,
    line: u32,
}

/// The messages of either server that lead forward: each next one was sent later and taken later. A message that was
/// sent before another and taken after it shows nothing that the other doesn't.
#[derive(Drop)]
pub struct DeliveredMessages {
    primary: Vec<DeliveredMessage>,
    secondary: Vec<DeliveredMessage>,
    ghost primary_rise: { AreRising primary.items },
    ghost secondary_rise: { AreRising secondary.items },
}

/// The lines of a side that send messages, in their order.
fn sendings<L: Lines>(alloc: Global, lines: &L, side: Role) -> Result<Vec<Sending>, AllocError> {
    let mut sendings = Vec::new(alloc);
    for number in 1..u32::MAX {
        let Some(line) = lines.line(Ref { side, number }) else {
            return Ok(sendings);
        };
        if let Event::Send(message) = line.event {
            let serial = message.serial;
            sendings.push(Sending {
                serial,
                line: number,
            })?;
        }
    }
    Ok(sendings)
}

/// The line that sends the message of this number. A server counts its messages.
fn sent_as(sendings: &[Sending], serial: Counter) -> Option<u32> {
    let place = sendings.partition_point(|sending| sending.serial < serial);
    let sending = sendings.get(place)?;
    if sending.serial != serial {
        return None;
    }
    Some(sending.line)
}

/// The line of the partner that sends what this line takes.
fn sending_of<L: Lines>(lines: &L, sendings: &[Sending], take: Ref) -> Option<u32>
    ensures { IfSome result (λ number. IsChain (L.journals lines.now)
        (record { side = partner_of take.side; number = number } ∷ take ∷ [])) }
{
    let line = lines.line(take)?;
    let Event::Take(message) = line.event else {
        return None;
    };
    let number = sent_as(sendings, message.serial)?;
    let send = Ref {
        side: take.side.partner(),
        number,
    };
    if !is_chain(lines, &[send, take]) {
        return None;
    }
    Some(number)
}

/// The messages that this side sent and its partner took, but those that show nothing that another doesn't.
fn passages<L: Lines>(
    alloc: Global,
    lines: &L,
    side: Role,
) -> Result<Vec<DeliveredMessage>, AllocError>
    ensures each { IfOk result (λ ps. All (IsDeliveredMessage (L.journals lines.now) side) ps.items) }
    ensures rising { IfOk result (λ ps. AreRising ps.items) }
{
    let sendings = sendings(alloc, lines, side)?;
    let mut passages = Vec::new(alloc);
    let mut last = 0;
    for take in 1..u32::MAX {
        let at = Ref {
            side: side.partner(),
            number: take,
        };
        if lines.line(at).is_none() {
            return Ok(passages);
        }
        let Some(send) = sending_of(lines, &sendings, at) else {
            continue;
        };
        if send <= last {
            continue;
        }
        passages.push(DeliveredMessage { send, take })?;
        last = send;
    }
    Ok(passages)
}

impl DeliveredMessages {
    ghost use Rattle.evidence_search.specs.Chains.{AreMessages, messages_of};

    /// The messages between two journals.
    pub fn between<L: Lines>(alloc: Global, lines: &L) -> Result<DeliveredMessages, AllocError>
        ensures { IfOk result (AreMessages (L.journals lines.now)) }
    {
        let primary = passages(alloc, lines, Role::Primary)?;
        let secondary = passages(alloc, lines, Role::Secondary)?;
        Ok(DeliveredMessages { primary, secondary })
    }

    fn sent_by(&self, side: Role) -> &[DeliveredMessage]
        ensures messages { result.now ≡ messages_of self.now side }
        ensures rising { AreRising result.now }
    {
        match side {
            Role::Primary => &self.primary,
            Role::Secondary => &self.secondary,
        }
    }

    /// The first message that the line's server sent at the line or behind it.
    pub fn sent_behind(&self, at: Ref) -> Option<DeliveredMessage>
        ensures { MatchOption result (All (λ p. p.send < at.number) (messages_of self.now at.side))
            (λ p. Has (messages_of self.now at.side) p × (at.number ≤ p.send)) }
    {
        let passages = self.sent_by(at.side);
        let place = passages.partition_point(
            |passage|
                ensures { result ≡ nat_lt passage.now.send at.number }
            { passage.send < at.number },
        );
        if place == passages.len() {
            return None;
        }
        Some(passages[place])
    }

    /// The last message that the line's server took at the line or before it.
    pub fn taken_before(&self, at: Ref) -> Option<DeliveredMessage>
        ensures { MatchOption result (All (λ p. at.number < p.take) (messages_of self.now (partner_of at.side)))
            (λ p. Has (messages_of self.now (partner_of at.side)) p × (p.take ≤ at.number)) }
    {
        let passages = self.sent_by(at.side.partner());
        let behind = passages.partition_point(
            |passage|
                ensures { result ≡ nat_le passage.now.take at.number }
            { passage.take <= at.number },
        );
        if behind == 0 {
            return None;
        }
        Some(passages[behind - 1])
    }
}
