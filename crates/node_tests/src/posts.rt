//! Mailboxes and a clock in memory, whose first calls wait for others.

ghost use Rattle.std.specs.Prelude.{IfOk, OnErr};

use crate::books::octets;
use client_service::ClientReply;
use lead_time::Reading;
use node_threads::{Clock, Mailbox, NetFault};
use std::alloc::Global;
use std::sync::atomic::{AtomicBool, AtomicUsize, Ordering};
use std::thread;
use text_fields::push_octets;

/// How often a first caller looks for the others.
const LOOKS: usize = 1_000_000;

/// A call whose first caller waits until so many have begun it.
#[derive(Drop)]
pub struct Meeting {
    callers: usize,
    pub begun: AtomicUsize,
    pub has_met: AtomicBool,
}

impl Meeting {
    pub fn of(callers: usize) -> Meeting {
        Meeting {
            callers,
            begun: AtomicUsize::new(0),
            has_met: AtomicBool::new(false),
        }
    }

    /// Begins a call.
    pub fn begin(&self) {
        if self.begun.fetch_add(1, Ordering::SeqCst) > 0 {
            return;
        }
        for _ in 0..LOOKS {
            if self.begun.load(Ordering::SeqCst) >= self.callers {
                self.has_met.store(true, Ordering::SeqCst);
                return;
            }
            thread::yield_now();
        }
    }
}

/// A datagram and the answer that it should get, as digits.
pub type Letter = (&'static str, &'static str);

/// What the mailboxes of a test have in common, and its clock.
#[derive(Drop)]
pub struct Scene {
    pub alloc: Global,
    pub letters: &'static [Letter],
    /// What the clock always shows; none where it fails.
    at: Option<u64>,
    /// Whether what is sent goes out, or the call fails.
    pub sends: bool,
    pub receiving: Meeting,
    pub asking: Meeting,
    pub sending: Meeting,
    /// Whether an answer was sent that wasn't the one wanted.
    pub is_other: AtomicBool,
}

impl Scene {
    /// Letters to so many mailboxes at once. What is sent goes out.
    pub fn of(
        alloc: Global,
        letters: &'static [Letter],
        at: Option<u64>,
        mailboxes: usize,
    ) -> Scene {
        Scene {
            alloc,
            letters,
            at,
            sends: true,
            receiving: Meeting::of(mailboxes),
            asking: Meeting::of(mailboxes),
            sending: Meeting::of(mailboxes),
            is_other: AtomicBool::new(false),
        }
    }
}

/// A worker's mailbox: letters come one after another from the `next` on. Behind the last every receive fails.
#[derive(Drop)]
pub struct Post<'a> {
    pub scene: &'a Scene,
    pub next: usize,
}

impl Mailbox for Post<'_> {
    type Peer = usize;

    ghost receives = { λ old peer octets new. Unit };

    ghost sends = { λ old peer octets new. Unit };

    ghost fails = { λ old new. Unit };

    fn receive(&mut self, buffer: &mut [u8]) -> Result<(usize, usize), NetFault> {
        self.scene.receiving.begin();
        let number = self.next;
        let Some((datagram, _)) = self.scene.letters.get(number) else {
            return Err(NetFault);
        };
        self.next = number.saturating_add(1);
        let Some(octets) = octets(self.scene.alloc, datagram) else {
            return Err(NetFault);
        };
        let Some(front) = buffer.get_mut(..octets.len()) else {
            return Err(NetFault);
        };
        front.copy_from_slice(&octets);
        Ok((octets.len(), number))
    }

    fn send(&mut self, answer: ClientReply<usize>) -> Result<(), NetFault>
        ensures sent { IfOk result (λ _. Unit) }
        ensures failed { OnErr result Unit }
    {
        if !self.scene.sends {
            return Err(NetFault);
        }
        self.scene.sending.begin();
        let wanted = self.scene.letters.get(*answer.peer());
        let mut digits = Vec::new(self.scene.alloc);
        match (push_octets(&mut digits, answer.octets()), wanted) {
            (Ok(()), Some((_, wanted))) if wanted.as_bytes() == digits.as_slice() => {}
            _ => self.scene.is_other.store(true, Ordering::SeqCst),
        }
        Ok(())
    }
}

impl Clock for Scene {
    fn now(&self) -> Result<Reading, NetFault> {
        self.asking.begin();
        let Some(at) = self.at else {
            return Err(NetFault);
        };
        match Reading::new(at) {
            Ok(reading) => Ok(reading),
            Err(_) => Err(NetFault),
        }
    }
}
