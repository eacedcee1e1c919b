//! A server whose disk failed tells who asks, for a while, that it did.

use daemon_endpoints::ControlServer;
use daemon_io::{Control, Poller};
use server_clocks::{Clocks, Moment};
use server_status::{ControlRequest, failed_status};
use service_state::RequestRefusal;
use std::alloc::Global;
use std::time::Duration;

/// For how many seconds it tells it: as long as it would be started again behind that.
const LINGER: u64 = 5;

/// How many milliseconds it rests at most where nobody asks.
const LONGEST_REST: u64 = 50;

/// How often it looks for one who asks, at most.
const MOST_LOOKS: u32 = 1000;

/// Hears one request, if one has come: `status` is answered, `stop` heard, and all else refused. Returns whether it was
/// told to stop; none where nothing had come.
fn hear_request<K: Control>(
    alloc: Global,
    desk: &mut ControlServer<K>,
    now: &Moment,
) -> Option<bool> {
    let request = desk.next_request(now.instant)?;
    match request {
        ControlRequest::Status(form) => match failed_status(alloc, form) {
            Ok(text) => desk.accept_request(text.as_str()),
            Err(_) => desk.refuse("out of memory"),
        },
        ControlRequest::Stop(_) => desk.accept_request(""),
        ControlRequest::Roll
        | ControlRequest::PartnerDown
        | ControlRequest::PartnerNormal
        | ControlRequest::AcceptClock => match format!(in alloc; "{}", RequestRefusal::DiskFailed) {
            Ok(words) => desk.refuse(words.as_str()),
            Err(_) => desk.refuse("out of memory"),
        },
    }
    desk.send_replies(now.instant);
    Some(matches!(request, ControlRequest::Stop(_)))
}

/// Tells for a while, to who asks at the control socket, that the disk failed. It ends when it is told to stop, and
/// where a clock tells no time or nothing can be waited for.
pub(crate) fn linger<K: Control, C: Clocks, T: Poller>(
    alloc: Global,
    desk: &mut ControlServer<K>,
    clocks: &C,
    rest: &mut T,
) {
    let Some(begun) = clocks.now() else {
        return;
    };
    for _look in 0..MOST_LOOKS {
        let Some(now) = clocks.now() else {
            return;
        };
        if now.instant.duration_since(begun.instant) >= Duration::from_secs(LINGER) {
            return;
        }
        match hear_request(alloc, desk, &now) {
            Some(true) => return,
            Some(false) => {}
            None if rest.wait(Duration::from_millis(LONGEST_REST)).is_err() => return,
            None => {}
        }
    }
}
