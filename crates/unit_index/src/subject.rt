//! The unit that a line is about.

ghost use Rattle.std.specs.Prelude.{◌≡◌};
ghost use Rattle.unit_index.specs.Subjects.{subject_of, subject_sent, subject_taken};

use binding_rules::Body;
use journal_lines::Event;
use prefix_range::Prefix;

/// The unit that a message changes once it is sent: to tell of a unit changes nothing, and a reply leaves its unit.
fn subject_sent(body: &Body) -> Option<Prefix>
    ensures { result ≡ subject_sent body.now }
{
    match body {
        Body::Reply(reply) => Some(reply.prefix),
        _ => None,
    }
}

/// The unit that a message of the partner's is about.
fn subject_taken(body: &Body) -> Option<Prefix>
    ensures { result ≡ subject_taken body.now }
{
    match body {
        Body::Update(update) => Some(update.prefix),
        Body::Reply(reply) => Some(reply.prefix),
        Body::Contact { .. } => None,
    }
}

/// The unit that a line is about: it changes no other.
pub fn subject_of(event: &Event) -> Option<Prefix>
    ensures { result ≡ subject_of event.now }
{
    match event {
        Event::Unit(kept) => Some(kept.prefix),
        Event::Grant(lease) => Some(lease.prefix),
        Event::Release { prefix, .. } => Some(*prefix),
        Event::Expire(prefix) => Some(*prefix),
        Event::Backup(prefix) => Some(*prefix),
        Event::Reclaim(prefix) => Some(*prefix),
        Event::Seize(prefix) => Some(*prefix),
        Event::Send(message) => subject_sent(&message.body),
        Event::Take(message) => subject_taken(&message.body),
        _ => None,
    }
}
