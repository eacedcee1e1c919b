//! When a server told its partner anything last.

ghost use Rattle.std.specs.Prelude.{◌≡◌};
ghost use Rattle.service_state.specs.Speaking.{is_contact, spoken_in, last_spoken};

use binding_rules::{Body, PartnerMessage};
use journal_lines::{Event, Line};
use lead_time::Reading;

/// Returns whether a message is a contact.
fn is_contact(message: &PartnerMessage) -> bool
    ensures { result ≡ is_contact message.now.body }
{
    match &message.body {
        Body::Contact { .. } => true,
        Body::Update(_) | Body::Reply(_) => false,
    }
}

/// The reading of a line; none where it takes a contact of the partner's, and so tells the partner nothing.
fn spoken_in(line: &Line) -> Option<Reading>
    ensures { result ≡ spoken_in line.now.reading line.now.event }
{
    match &line.event {
        Event::Take(message) if is_contact(message) => None,
        _ => Some(line.reading),
    }
}

/// The reading of the last line that isn't the take of a contact; `now` where there is none. It looks at the lines
/// behind that one alone.
pub fn last_spoken(lines: &[Line], now: Reading) -> Reading
    ensures { result ≡ last_spoken now lines.now }
{
    for index in (0..lines.len()).rev() {
        match spoken_in(&lines[index]) {
            Some(reading) => return reading,
            None => {}
        }
    }
    now
}
