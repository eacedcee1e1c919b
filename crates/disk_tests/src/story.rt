//! A book of a thousand requests, in three volumes.

ghost use Rattle.std.specs.Prelude.{◌≡◌, OnOk};
ghost use Rattle.journal_lines.specs.declared.line.Line.{Line as LineValue};
ghost use Rattle.order_book.specs.Replayed.{with_line};

use client_id::{Duid, Iaid};
use journal_lines::Line;
use journal_text::write;
use lead_time::Reading;
use server_book::{Book, LeaseRequest, Order, Settings, read_settings};
use std::alloc::Global;
use std::test::Fail;

const PRIMARY: &[u8] = b"role = \"primary\"
duid = \"00030001020000000009\"
skew_ms = 2000
mclt = 3600
life = 3600
[[pool]]
prefix = \"2001:db8::/48\"
unit = 56
";

/// When the first volume is opened.
const OPENED: u64 = 500;

/// How many clients ask in turn.
const CLIENTS: u64 = 12;

/// What comes while a volume is open: so many requests, one a second, the first one at a reading; and behind them the
/// order to close.
#[derive(Clone, Copy)]
pub(crate) struct Requests {
    pub first: u64,
    pub count: u64,
}

/// The requests of each volume.
pub(crate) const VOLUMES: [Requests; 3] = [
    Requests {
        first: 1_000,
        count: 334,
    },
    Requests {
        first: 335_000,
        count: 333,
    },
    Requests {
        first: 668_000,
        count: 333,
    },
];

impl Requests {
    /// The reading at which the request of a turn comes.
    fn reading(&self, turn: u64) -> Result<Reading, Fail> {
        let behind = turn.saturating_mul(1000);
        Ok(Reading::new(self.first.saturating_add(behind))?)
    }

    /// The reading at which the volume is closed.
    pub(crate) fn end(&self) -> Result<Reading, Fail> {
        self.reading(self.count)
    }
}

/// By which settings the server begins, and when.
pub(crate) fn opening(alloc: Global) -> Result<(Settings, Reading), Fail> {
    Ok((read_settings(alloc, PRIMARY)?, Reading::new(OPENED)?))
}

/// A Request of one of the clients.
fn request(turn: u64) -> Option<Order> {
    let octets = [0, 3, 0, 1, 2, 0, 0, 0, 0, (turn % CLIENTS) as u8];
    match Duid::from_bytes(&octets) {
        Ok(client) => Some(Order::Request(LeaseRequest {
            client,
            iaid: Iaid(1),
            hint: None,
        })),
        Err(_) => None,
    }
}

/// Has a book do what is ordered.
fn apply(book: &mut Book, now: Reading, order: &Order) -> Result<(), Fail>
    ensures { OnOk result ((l : LineValue) × (book.new ≡ with_line book.old l)) }
{
    match book.apply(now, order) {
        Ok(_) => Ok(()),
        Err(_) => Err(Fail::from("an order was refused")),
    }
}

/// Has a book answer the request of a turn.
pub(crate) fn ask(book: &mut Book, requests: Requests, turn: u64) -> Result<(), Fail>
    ensures { OnOk result ((l : LineValue) × (book.new ≡ with_line book.old l)) }
{
    let Some(order) = request(turn) else {
        return Err(Fail::from("no client"));
    };
    apply(book, requests.reading(turn)?, &order)
}

/// Has a book close behind these requests.
pub(crate) fn close(book: &mut Book, requests: Requests) -> Result<(), Fail>
    ensures { OnOk result ((l : LineValue) × (book.new ≡ with_line book.old l)) }
{
    apply(book, requests.end()?, &Order::Close)
}

/// Has a book answer all of these requests, and closes it.
fn serve(book: &mut Book, requests: Requests) -> Result<(), Fail> {
    for turn in 0..requests.count {
        ask(book, requests, turn)?;
    }
    close(book, requests)
}

/// A volume as it is to be found again: its lines, and its text to the end line.
#[derive(Drop)]
pub(crate) struct Written {
    pub lines: Vec<Line>,
    pub text: Vec<u8>,
}

/// What a closed book is to be written as.
fn as_written(alloc: Global, book: &Book) -> Result<Written, Fail> {
    Ok(Written {
        lines: book.journal().to_vec(alloc)?,
        text: write(alloc, book.role(), book.head(), book.journal())?,
    })
}

/// The book of the first volume.
fn first_book(alloc: Global) -> Result<Book, Fail> {
    let (settings, now) = opening(alloc)?;
    Ok(Book::open(alloc, now, &settings)?)
}

/// The volume behind a book that closed behind these requests.
fn next_volume(book: &Book, requests: Requests) -> Result<Book, Fail> {
    if !book.can_roll() {
        return Err(Fail::from("it doesn't roll"));
    }
    Ok(book.next_volume(requests.end()?)?)
}

/// What three volumes of a book are to be written as.
pub(crate) fn three_volumes(alloc: Global) -> Result<Vec<Written>, Fail> {
    let mut book = first_book(alloc)?;
    let mut volumes = Vec::new(alloc);
    for requests in VOLUMES {
        serve(&mut book, requests)?;
        volumes.push(as_written(alloc, &book)?)?;
        book = next_volume(&book, requests)?;
    }
    Ok(volumes)
}
