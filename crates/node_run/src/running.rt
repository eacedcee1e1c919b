//! Serving clients beside the link to the partner, and the journal that comes of it.

ghost use Rattle.std.specs.Prelude.{◌≡◌, ◌≤◌, ◌+◌, length, IfSome};

use crate::error::RunError;
use crate::linking::keep_link;
use crate::telling::NoticeLines;
use binding_rules::ServerState;
use journal_text::write;
use locked_book::{BookName, Pass, SharedBook};
use node_threads::{
    Clock, EachOnce, NodeError, NodeSettings, Notices, PartnerAvailability, SystemClock, Turns,
    UdpMailbox, leave_seats, seats_of, serve_seats,
};
use server_book::{Book, Order};
use std::alloc::Global;
use std::marker::Brand;
use std::net::{Net, SocketAddr, UdpSocket};
use std::sync::Wait;
use std::sync::ledger::Blank;
use std::thread;
use std::thread::Threads;
use std::time::Clock as Handle;

/// The return of the workers: their passes, and how many datagrams they received in all or why one of them ended.
struct WorkersDone<N: BookName> {
    passes: Vec<Pass<N>>,
    received: Result<u32, NodeError>,
}

/// The return of a node: the text of its closed journal, and how many datagrams it received or why a worker ended.
#[derive(Drop)]
pub struct RunResult {
    pub journal: Vec<u8>,
    pub received: Result<u32, NodeError>,
}

/// The parts that the workers of a node and its end of the link have in common.
#[derive(Drop)]
struct Node<'a, R, C, P, V> {
    rt: &'a R,
    alloc: Global,
    settings: &'a NodeSettings,
    partner: PartnerAvailability,
    socket: &'a UdpSocket,
    clock: &'a C,
    turns: &'a Turns,
    notes: &'a P,
    notices: &'a V,
}

impl<
    R: Threads + Wait + Sync + Net + Handle,
    C: Clock + Sync,
    P: Print + Sync,
    V: Notices + Sync,
> Node<'_, R, C, P, V>
where
    R::Stream: Send + Drop,
    R::Listener: Send + Drop,
{
    /// A mailbox at the socket for each of so many workers.
    fn mailboxes(&self, workers: usize) -> Option<Vec<UdpMailbox<'_>>>
        ensures { IfSome result (λ mailboxes. length mailboxes.items ≡ workers) }
    {
        let mut mailboxes = Vec::with_capacity(self.alloc, workers).ok()?;
        for _ in 0..workers {
            mailboxes.push(UdpMailbox::new(self.socket)).ok()?;
        }
        Some(mailboxes)
    }

    /// Lets a worker for each pass answer datagrams while there are turns. `None` where a growth was refused, before
    /// any did: what they leave has its room already, and room for the link's pass.
    fn by_workers<N: BookName + Send + Sync>(
        &self,
        shared: &SharedBook<N>,
        passes: Vec<Pass<N>>,
    ) -> Option<WorkersDone<N>> {
        let mut left = Vec::with_capacity(self.alloc, passes.len() + 1).ok()?;
        let mailboxes = self.mailboxes(passes.len())?;
        let mut seats = seats_of(self.alloc, passes, mailboxes).ok()?;
        serve_seats(
            self.rt,
            self.alloc,
            shared,
            &mut seats,
            self.settings.server.duid(),
            self.clock,
            self.turns,
            self.partner,
            self.notices,
        );
        match leave_seats(seats, &mut left) {
            Ok(received) => Some(WorkersDone {
                passes: left,
                received,
            }),
            Err(_) => None,
        }
    }

    /// Where the link is, unless the partner is down: then that is said.
    fn link_address(&self) -> Option<SocketAddr> {
        let address = self.settings.ways.link?;
        match self.partner {
            PartnerAvailability::Up => Some(address),
            PartnerAvailability::Down => {
                let _ = println!(self.notes;
                    "node: takes its partner for down, and passes over the link"
                );
                None
            }
        }
    }

    /// Keeps the link to the partner, if there is to be one.
    fn by_link<N: BookName>(&self, shared: &SharedBook<N>, pass: &mut Pass<N>) {
        if let Some(address) = self.link_address() {
            keep_link(
                self.rt,
                self.alloc,
                shared,
                pass,
                &self.settings.server,
                address,
                self.clock,
                self.turns,
                self.notes,
                self.notices,
            );
        }
    }

    /// Shares a book among so many passes, the link's and the workers', and closes it once no worker goes on. Gives the
    /// book, and how many datagrams were received or why a worker ended.
    fn serve<N: BookName + Send + Sync>(
        &self,
        blank: Blank,
        book: Book,
        passes: usize,
    ) -> Result<(Book, Result<u32, NodeError>), RunError>
        requires name { blank.name ≡ N.name }
        requires passes { (blank.parts ≡ N.parts) × (N.parts ≡ passes) × (N.passes ≡ passes) }
        requires lines { N.opened ≡ length book.lines }
    {
        let Ok((shared, mut passes)) = SharedBook::<N>::open(self.alloc, blank, book, passes) else {
            return Err(RunError::Memory);
        };
        let Some(mut link) = passes.pop() else {
            return Err(RunError::Book);
        };
        let lent = &shared;
        let (link, done) = thread::join(
            self.rt,
            move || {
                self.by_link(lent, &mut link);
                link
            },
            move || {
                let done = self.by_workers(lent, passes);
                self.turns.end(self.rt);
                done
            },
        );
        let Some(done) = done else {
            return Err(RunError::Memory);
        };
        let WorkersDone {
            mut passes,
            received,
        } = done;
        passes.push(link)?;
        match shared.close(passes) {
            Ok(book) => Ok((book, received)),
            Err(_) => Err(RunError::Book),
        }
    }
}

/// Closes a book, if it may be closed.
fn closes<C: Clock>(book: &mut Book, clock: &C) -> Result<(), RunError> {
    let Ok(now) = clock.now() else {
        return Err(RunError::Net);
    };
    match book.apply(now, &Order::Close) {
        Ok(_) => Ok(()),
        Err(_) => Err(RunError::Book),
    }
}

/// The book of a server whose partner is taken for up or down from now on.
fn opened<C: Clock>(
    alloc: Global,
    settings: &NodeSettings,
    partner: PartnerAvailability,
    clock: &C,
) -> Result<Book, RunError> {
    let Ok(now) = clock.now() else {
        return Err(RunError::Net);
    };
    let Ok(mut book) = Book::open(alloc, now, &settings.server) else {
        return Err(RunError::Memory);
    };
    match partner {
        PartnerAvailability::Up => Ok(book),
        PartnerAvailability::Down => match book.apply(now, &Order::State(ServerState::Down)) {
            Ok(_) => Ok(book),
            Err(_) => Err(RunError::Memory),
        },
    }
}

/// Answers so many datagrams that come where the settings say, beside the link to the partner, and gives the text of
/// the closed journal, also where a worker has failed. Where it listens, what becomes of the link, each notice of its
/// engines once, and how many datagrams came is said in notes, a line each.
pub fn run_node<R: Threads + Wait + Sync + Net + Handle, P: Print + Sync>(
    rt: &R,
    alloc: Global,
    settings: &NodeSettings,
    count: u32,
    partner: PartnerAvailability,
    notes: &P,
) -> Result<RunResult, RunError>
where
    R::Stream: Send + Drop,
    R::Listener: Send + Drop,
{
    let listen = settings.ways.listen;
    let Ok(socket) = UdpSocket::bind(rt, listen) else {
        return Err(RunError::Net);
    };
    let _ = println!(notes; "node: listens for clients and relays at {listen}");
    let clock = SystemClock::new(rt);
    let turns = Turns::new(count);
    let lines = NoticeLines { notes };
    let notices = EachOnce::new(&lines);
    let book = opened(alloc, settings, partner, &clock)?;
    let passes = settings.ways.workers() + 1;
    let node = Node {
        rt,
        alloc,
        settings,
        partner,
        socket: &socket,
        clock: &clock,
        turns: &turns,
        notes,
        notices: &notices,
    };
    let served = node.serve::<Brand>(Blank::new(passes as u64), book, passes);
    let (mut book, received) = match served {
        Ok(served) => served,
        Err(fault) => return Err(fault),
    };
    if let Ok(received) = received {
        let _ = println!(notes; "node: received {received} datagrams");
    }
    closes(&mut book, &clock)?;
    match write(alloc, book.role(), book.head(), book.journal()) {
        Ok(journal) => Ok(RunResult { journal, received }),
        Err(_) => Err(RunError::Memory),
    }
}
