//! What a worker tells where the journal is full.

ghost use Rattle.std.specs.Prelude.{IfOk, OnErr};

use crate::noted::{Counts, NONE, Noted};
use crate::notice_books::{FULL, NOW, fill, octets, opened, settings_of};
use crate::quiet_wires::Still;
use binding_rules::Role;
use client_service::ClientReply;
use lead_time::Reading;
use node_threads::{Mailbox, NetFault, PartnerAvailability, Turns, serve_all};
use std::alloc::Global;
use std::marker::Brand;
use std::sync::Wait;
use std::sync::ledger::Blank;
use std::test::Fail;
use std::thread::Threads;

/// A client's REQUEST.
const REQUEST: &[u8] =
    b"030a0b0c0001000a000300010200000000010002000a000300010200000000090019000c000000010000000000000000";

/// A mailbox to which the same datagram comes again and again. What is sent is dropped.
#[derive(Drop)]
struct Same<'a> {
    datagram: &'a [u8],
}

impl Mailbox for Same<'_> {
    type Peer = ();

    ghost receives = { λ old peer octets new. Unit };

    ghost sends = { λ old peer octets new. Unit };

    ghost fails = { λ old new. Unit };

    fn receive(&mut self, buffer: &mut [u8]) -> Result<(usize, ()), NetFault> {
        let Some(front) = buffer.get_mut(..self.datagram.len()) else {
            return Err(NetFault);
        };
        front.copy_from_slice(self.datagram);
        Ok((self.datagram.len(), ()))
    }

    fn send(&mut self, _answer: ClientReply<()>) -> Result<(), NetFault>
        ensures sent { IfOk result (λ _. Unit) }
        ensures failed { OnErr result Unit }
    {
        Ok(())
    }
}

/// Returns what a worker of the primary tells, to which two REQUESTs come, where its book had so many lines.
fn told(rt: &(impl Threads + Wait + Sync), alloc: Global, lines: usize) -> Result<Counts, Fail> {
    let settings = settings_of(alloc, Role::Primary)?;
    let now = Reading::new(NOW)?;
    let mut book = opened(alloc, &settings)?;
    fill(&mut book, now, lines)?;
    let datagram = octets(alloc, REQUEST)?;
    let mut mailboxes = Vec::new(alloc);
    mailboxes.push(Same {
        datagram: &datagram,
    })?;
    let noted = Noted::new();
    let blank = Blank::new(mailboxes.len() as u64);
    match serve_all::<Brand, _, _, _, _>(
        rt,
        alloc,
        blank,
        book,
        mailboxes,
        settings.duid(),
        &Still { reading: now },
        &Turns::new(2),
        PartnerAvailability::Up,
        &noted,
    ) {
        Ok(_) => Ok(noted.counts()),
        Err(_) => Err(Fail::from("not closed")),
    }
}

#[test]
fn a_message_without_an_answer_shows_that_the_journal_is_full(rt: HostRuntime) -> Result<(), Fail> {
    let alloc = rt.alloc();
    let full = Counts {
        journal_full: 2,
        ..NONE
    };
    assert_eq!(rt; told(&rt, alloc, FULL)?, full);
    // The first of the two gets the last line.
    let last = Counts {
        journal_full: 1,
        ..NONE
    };
    assert_eq!(rt; told(&rt, alloc, FULL - 1)?, last);
    assert_eq!(rt; told(&rt, alloc, 2)?, NONE);
    Ok(())
}
