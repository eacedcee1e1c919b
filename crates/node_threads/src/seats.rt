//! Workers at one book, each in a seat of its own.

ghost use Rattle.std.specs.Prelude.{◌≡◌, ◌<◌, ◌≤◌, ◌+◌, ◌++◌, length, map, slice_index_or};
ghost use Rattle.std.specs.Prelude.{vec_len, vec_capacity, Ok, IfOk, IsOk};
ghost use Rattle.failover_session.specs.Receipts.{Goes};
ghost use Rattle.node_threads.specs.Seats.{with_next, received_after};
ghost use Rattle.node_threads.specs.Sending.{IsServed};

use crate::clock::Clock;
use crate::error::NodeError;
use crate::mailbox::Mailbox;
use crate::notices::Notices;
use crate::turns::Turns;
use crate::workers::serve_datagrams;
use client_id::Duid;
use client_service::PartnerAvailability;
use locked_book::{BookName, Pass, SharedBook};
use std::alloc::{AllocError, Global};
use std::sync::Wait;
use std::thread;
use std::thread::Threads;

/// A worker's seat: its pass and its mailbox, and what came of its work.
#[derive(Drop)]
pub struct WorkerSeat<N: BookName, M> {
    /// The worker's pass.
    pub pass: Pass<N>,
    /// The worker's mailbox.
    pub mailbox: M,
    /// How many datagrams it received, or why it ended. Before it begins: none.
    pub received: Result<u32, NodeError>,
}

/// A seat for each pass and its mailbox, in their order; an error where memory was refused.
pub fn seats_of<N: BookName, M: Drop>(
    alloc: Global,
    passes: Vec<Pass<N>>,
    mailboxes: Vec<M>,
) -> Result<Vec<WorkerSeat<N, M>>, AllocError>
    requires { vec_len passes ≡ vec_len mailboxes }
    ensures passes { IfOk result (λ seats. map (λ seat. seat.pass) seats.items ≡ passes.items) }
    ensures mailboxes { IfOk result (λ seats. map (λ seat. seat.mailbox) seats.items ≡ mailboxes.items) }
{
    let mut seats = Vec::with_capacity(alloc, passes.len())?;
    let mut mailboxes = mailboxes.into_iter();
    for pass in passes {
        let Some(mailbox) = mailboxes.next() else {
            unreachable!()
        };
        let received = Ok(0);
        seats.push(WorkerSeat {
            pass,
            mailbox,
            received,
        })?;
    }
    Ok(seats)
}

/// Has a worker in each seat answer datagrams while there are turns, each as [`serve_datagrams`] does, and leaves in
/// its seat what it received or why it ended. A worker that ends doesn't stop the others. It takes no memory beside
/// theirs.
pub fn serve_seats<
    N: BookName + Send + Sync,
    R: Threads + Wait + Sync,
    M: Mailbox + Send,
    C: Clock + Sync,
    V: Notices + Sync,
>(
    rt: &R,
    alloc: Global,
    shared: &SharedBook<N>,
    seats: &mut [WorkerSeat<N, M>],
    own: &Duid,
    clock: &C,
    turns: &Turns,
    partner: PartnerAvailability,
    notices: &V,
)
    ensures seats { length seats.new ≡ length seats.old }
    ensures goes { (k d : _) → k < length seats.old
        → Goes (slice_index_or seats.old k d).pass.receipts (slice_index_or seats.new k d).pass.receipts }
    ensures few { (k d : _) → k < length seats.old
        → IfOk (slice_index_or seats.new k d).received (λ received. received ≤ 1000000) }
    ensures served { (k d : _) → k < length seats.old
        → IsServed M.receives M.sends M.fails partner own.now (slice_index_or seats.old k d).mailbox
        (slice_index_or seats.new k d).mailbox (slice_index_or seats.old k d).pass.receipts
        (slice_index_or seats.new k d).pass.receipts (slice_index_or seats.new k d).received }
{
    let workers = seats.len().max(1);
    let work = |_place: usize, seat: &mut WorkerSeat<N, M>|
        ensures { Goes seat.entry.now.pass.receipts seat.exit.now.pass.receipts
            × (IfOk seat.exit.now.received (λ received. received ≤ 1000000)
            × IsServed M.receives M.sends M.fails partner own.exit.now seat.entry.now.mailbox seat.exit.now.mailbox
            seat.entry.now.pass.receipts seat.exit.now.pass.receipts seat.exit.now.received) }
    {
        seat.received = serve_datagrams(
            rt,
            alloc,
            shared,
            &mut seat.pass,
            own,
            &mut seat.mailbox,
            clock,
            turns,
            partner,
            notices,
        );
    };
    thread::for_each_mut(rt, seats, workers, &work);
}

/// Returns what both have received, or why the first of those that failed did.
fn added(one: Result<u32, NodeError>, other: Result<u32, NodeError>) -> Result<u32, NodeError>
    ensures { result ≡ with_next one other }
{
    match (one, other) {
        (Ok(one), Ok(other)) => Ok(one.saturating_add(other)),
        (Err(why), _) | (Ok(_), Err(why)) => Err(why),
    }
}

/// Takes the passes out of their seats, behind those that stand in `passes`, and gives how many datagrams were received
/// in all, or why the first of the workers that failed did. An error where memory was refused: never where `passes` had
/// room for all.
pub fn leave_seats<N: BookName, M: Drop>(
    seats: Vec<WorkerSeat<N, M>>,
    passes: &mut Vec<Pass<N>>,
) -> Result<Result<u32, NodeError>, AllocError>
    ensures passes { IfOk result (λ _. passes.new.items ≡ passes.old.items ++ map (λ seat. seat.pass) seats.items) }
    ensures received { IfOk result (λ all. all ≡ received_after (Ok 0) (map (λ seat. seat.received) seats.items)) }
    ensures room { vec_len passes.old + vec_len seats ≤ vec_capacity passes.old → IsOk result }
{
    let mut received = Ok(0);
    for seat in seats {
        received = added(received, seat.received);
        passes.push(seat.pass)?;
    }
    Ok(received)
}
