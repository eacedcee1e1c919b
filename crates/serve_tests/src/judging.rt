//! What the disks of a pair show in the end.

use crate::clients::PromisedLease;
use crate::server::Server;
use binding_rules::{PartnerMessage, Role};
use journal_lines::{Event, Head, Volume};
use order_book::Book;
use std::alloc::Global;
use std::test::Fail;
use volume_store::{RecoveredBook, recover};

/// How the volume at a place begins.
fn head_at(place: usize) -> Option<Head> {
    if place == 0 {
        return Some(Head::One);
    }
    Some(Head::Two(Volume::new(u32::try_from(place).ok()?.checked_add(1)?)?))
}

/// Sees that a volume begins as the one before it says.
fn check_follows(before: &Book, book: &Book) -> Result<(), Fail> {
    let opened = book.journal().first().ok_or("no line")?.reading;
    if !before.can_roll() {
        return Err(Fail::from("a volume that none may follow"));
    }
    let next = before.next_volume(opened)?;
    if book.head() == next.head() && book.journal().starts_with(next.journal()) {
        Ok(())
    } else {
        Err(Fail::from("a volume begins otherwise"))
    }
}

/// Returns whether a line of the volumes grants what a client was told.
fn is_granted(books: &[Book], told: &PromisedLease) -> bool {
    let Some(book) = books.get((told.volume as usize).wrapping_sub(1)) else {
        return false;
    };
    let Some(line) = book.journal().get((told.line as usize).wrapping_sub(1)) else {
        return false;
    };
    match line.event {
        Event::Grant(lease) => {
            lease.client.as_bytes().last() == Some(&told.client)
                && lease.prefix.first() == told.address
                && u64::from(lease.valid).saturating_mul(1000) == told.valid
        }
        _ => false,
    }
}

/// Returns whether one of these messages has a serial.
fn is_among(messages: &[PartnerMessage], serial: u64) -> bool {
    messages
        .iter()
        .any(|message| message.serial.number() == serial)
}

/// Returns whether no client was told of a prefix while another one might use it.
fn are_apart(one: &[PromisedLease], other: &[PromisedLease]) -> bool {
    !one.iter()
        .any(|told| other.iter().any(|later| told.collides(later)))
}

/// The messages between the partners that a server's books show, in their order.
#[derive(Drop)]
struct Messages {
    sent: Vec<PartnerMessage>,
    taken: Vec<PartnerMessage>,
}

/// The messages of a server's books.
fn messages_of(alloc: Global, books: &[Book]) -> Result<Messages, Fail> {
    let mut sent = Vec::new(alloc);
    let mut taken = Vec::new(alloc);
    for line in books.iter().flat_map(|book| book.journal()) {
        match line.event {
            Event::Send(message) => sent.push(message)?,
            Event::Take(message) => taken.push(message)?,
            _ => {}
        }
    }
    Ok(Messages { sent, taken })
}

/// Returns whether one server has taken exactly what the other one sent.
fn is_taken(sender: &Messages, taker: &Messages) -> bool {
    sender.sent.as_slice() == taker.taken.as_slice()
}

/// Adds the book of a volume, which begins as the one before it says.
fn add(books: &mut Vec<Book>, book: Book) -> Result<(), Fail> {
    if let Some(before) = books.last() {
        check_follows(before, &book)?;
    }
    books.push(book)?;
    Ok(())
}

/// Adds what was found of a volume, which is legal: one that hasn't ended is the last one, as is one that was told to
/// nobody.
fn add_found(books: &mut Vec<Book>, found: RecoveredBook, is_last: bool) -> Result<(), Fail> {
    match found {
        RecoveredBook::Ended(book) => add(books, book),
        RecoveredBook::Open(book) if is_last => add(books, book),
        RecoveredBook::Unpublished if is_last => Ok(()),
        _ => Err(Fail::from("a volume behind one that hasn't ended")),
    }
}

/// The books of a server's volumes.
fn books_of(alloc: Global, role: Role, contents: &[Vec<u8>]) -> Result<Vec<Book>, Fail> {
    let mut books = Vec::new(alloc);
    for (place, content) in contents.iter().enumerate() {
        let head = head_at(place).ok_or("too many volumes")?;
        let is_last = place.saturating_add(1) == contents.len();
        add_found(&mut books, recover(alloc, role, head, content)?, is_last)?;
    }
    Ok(books)
}

/// What a server's volumes show: their books, and the messages between the partners.
#[derive(Drop)]
struct Shown {
    books: Vec<Book>,
    messages: Messages,
}

impl Shown {
    /// Returns whether it has all that a server told its clients and said to its partner.
    fn has_all(&self, server: &Server) -> bool {
        let sent = &self.messages.sent;
        server.told.iter().all(|told| is_granted(&self.books, told))
            && server.said.iter().all(|serial| is_among(sent, *serial))
    }
}

/// What the disk of a server shows, which is all that it told.
fn shown_by(alloc: Global, role: Role, server: &Server) -> Result<Shown, Fail> {
    let contents = server.contents()?;
    let books = books_of(alloc, role, &contents)?;
    let messages = messages_of(alloc, &books)?;
    let shown = Shown { books, messages };
    if shown.has_all(server) {
        Ok(shown)
    } else {
        Err(Fail::from("something was told that no line shows"))
    }
}

/// Judges the disks of two servers that have nothing left to say: the volumes of each are legal and have all that it
/// told, each has taken exactly what the other one sent, and no prefix was two clients' at once. Returns how many
/// volumes there are.
pub(crate) fn judge(alloc: Global, primary: &Server, secondary: &Server) -> Result<usize, Fail> {
    let a = shown_by(alloc, Role::Primary, primary)?;
    let b = shown_by(alloc, Role::Secondary, secondary)?;
    if !is_taken(&a.messages, &b.messages) || !is_taken(&b.messages, &a.messages) {
        return Err(Fail::from("one hasn't taken what the other sent"));
    }
    let (told, other) = (&primary.told, &secondary.told);
    if are_apart(told, told) && are_apart(other, other) && are_apart(told, other) {
        Ok(a.books.len().saturating_add(b.books.len()))
    } else {
        Err(Fail::from("a prefix is two clients'"))
    }
}
