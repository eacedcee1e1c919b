//! The book of a server, and what clients ask of it.

use client_id::{Duid, Iaid};
use lead_time::Reading;
use server_book::{Book, LeaseRequest, Order, read_settings};
use std::alloc::Global;
use std::test::Fail;

const PRIMARY: &[u8] =
    b"role = \"primary\"\nduid = \"00030001020000000009\"\nskew_ms = 2000\nmclt = 3600\nlife = 3600\n[[pool]]\n\
    prefix = \"2001:db8::/48\"\nunit = 56\n";

/// The primary's book, opened at 500: it has two lines.
pub fn opened(alloc: Global) -> Result<Book, Fail> {
    let settings = read_settings(alloc, PRIMARY)?;
    Ok(Book::open(alloc, Reading::new(500)?, &settings)?)
}

/// A reading of the server's clock, in milliseconds.
pub fn at(milliseconds: u64) -> Result<Reading, Fail> {
    Ok(Reading::new(milliseconds)?)
}

/// A Request, for any prefix, of the client whose identifier ends in these two octets.
pub fn request(thread: u8, client: u8) -> Option<Order> {
    let octets = [0, 3, 0, 1, 2, 0, 0, 0, thread, client];
    match Duid::from_bytes(&octets) {
        Ok(client) => Some(Order::Request(LeaseRequest {
            client,
            iaid: Iaid(1),
            hint: None,
        })),
        Err(_) => None,
    }
}
