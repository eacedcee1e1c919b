//! A server of the pair, and its end of the link.

use client_service::{
    PartnerAvailability, ReuseTerms, answer_to, find_reusable_lease, is_early_release,
};
use dhcp6_pd::decode;
use exclusive_book::{ExclusiveBook, ExclusivePairBook};
use failover_message::encode;
use failover_session::{FailoverSession, LinkInput, PairBook, SessionPolicy, SessionStage};
use journal_lines::Event;
use lead_time::Reading;
use prefix_range::Prefix;
use server_book::{Book, LeaseRequest, Order, Reply, ReplyPolicy, Settings, read_settings};
use std::alloc::Global;
use std::test::Fail;

/// A server's book, its end of the link, and the octets that are under way to it.
#[derive(Drop)]
pub(crate) struct Server {
    pub own: ExclusiveBook,
    settings: Settings,
    talk: FailoverSession,
    pub coming: Vec<u8>,
}

/// A grant that is younger, in seconds, is told again.
const FLOOR: u32 = 360;

/// Appends the octets of the frames that a talk hands out.
fn carry(alloc: Global, talk: &mut FailoverSession, wire: &mut Vec<u8>) -> Result<(), Fail> {
    for handed in &talk.take_frames() {
        let Ok(octets) = encode(alloc, &handed.frame) else {
            return Err(Fail::from("out of memory"));
        };
        wire.extend_from_slice(octets.as_slice())?;
    }
    Ok(())
}

impl Server {
    /// A server with a new book, whose end hasn't said anything.
    pub fn open(alloc: Global, settings: &[u8], now: Reading) -> Result<Server, Fail> {
        let settings = read_settings(alloc, settings)?;
        let book = Book::open(alloc, now, &settings)?;
        Ok(Server {
            own: ExclusiveBook::new(alloc, book),
            settings,
            talk: FailoverSession::new(alloc, SessionPolicy::Serve),
            coming: Vec::new(alloc),
        })
    }

    /// Gives its book an order, which may be refused. Says whether it wasn't.
    pub fn order(&mut self, now: Reading, order: &Order) -> bool {
        ExclusivePairBook.serve(&mut self.own, now, order).is_ok()
    }

    /// By what it tells again.
    fn terms(&self) -> ReuseTerms {
        ReuseTerms {
            floor: FLOOR,
            skew: self.settings.skew(),
            transit: self.settings.transit(),
        }
    }

    /// What a client is told again that it has, by an earlier line: a prefix for so many seconds.
    pub fn told_again(&self, now: Reading, order: &Order) -> Option<(Prefix, u32)> {
        match find_reusable_lease(&self.own.book, &self.terms(), now, order) {
            Ok(Some(lease)) => Some((lease.prefix, lease.valid)),
            _ => None,
        }
    }

    /// Returns whether a client gives back what the partner may tell it again.
    pub fn is_early_release(&self, now: Reading, asked: &LeaseRequest) -> bool {
        is_early_release(&self.own.book, &self.terms(), now, asked)
    }

    /// What its book grants by an order, if it grants anything: a prefix for so many seconds.
    pub fn granted(&mut self, now: Reading, order: &Order) -> Option<(Prefix, u32)> {
        let granted = match &self.own.book.apply(now, order) {
            Ok(Reply::Granted { prefix, valid }) => Some((*prefix, *valid)),
            _ => None,
        };
        if granted.is_some() {
            self.keep_grant()?;
        }
        granted
    }

    /// Answers a client's datagram, and says whether it gets these octets.
    pub fn answers(
        &mut self,
        alloc: Global,
        now: Reading,
        datagram: &[u8],
        answer: &[u8],
    ) -> Result<bool, Fail> {
        let own = self.settings.duid();
        let message = decode(alloc, datagram, own)?;
        let lines = self.own.book.journal().len();
        let told = answer_to(
            alloc,
            &client_service::ExclusiveService,
            &mut self.own.book,
            own,
            &ReplyPolicy::plain(alloc),
            PartnerAvailability::Up,
            &[],
            now,
            &message,
            (),
        );
        if self.own.book.journal().len() > lines {
            self.keep_grant().ok_or("no grant")?;
        }
        match told {
            Ok(told) => Ok(told.octets() == answer),
            Err(_) => Ok(false),
        }
    }

    /// Keeps the receipt of the grant that is the book's last line: its talk goes by receipts. None where that is none.
    fn keep_grant(&mut self) -> Option<()> {
        let Event::Grant(lease) = self.own.book.journal().last()?.event else {
            return None;
        };
        let reply = Reply::Granted {
            prefix: lease.prefix,
            valid: lease.valid,
        };
        self.own.keep_last(reply).ok()
    }

    /// Begins another connection; what was under way on the last one is lost.
    pub fn connect(&mut self, alloc: Global, wire: &mut Vec<u8>) -> Result<(), Fail> {
        self.talk = FailoverSession::new(alloc, SessionPolicy::Serve);
        self.coming = Vec::new(alloc);
        if self.talk.send_greeting(&self.own, &self.settings).is_err() {
            return Err(Fail::from("out of memory"));
        }
        carry(alloc, &mut self.talk, wire)
    }

    /// Ends the lowest lease that has ended, as a daemon does: none that the partner may have renewed.
    fn end_lease(&mut self, now: Reading) {
        let has_joined = matches!(self.talk.stage(), SessionStage::Joined { .. });
        if !has_joined || !self.talk.partner_told_all() || self.own.book.waiting() {
            return;
        }
        if let Some(prefix) = self.own.book.first_to_expire(now) {
            let _is_done = self.order(now, &Order::Expire(prefix));
        }
    }

    /// One turn of its end, whose frames go on their way. Says whether the connection goes on.
    pub fn turn(
        &mut self,
        alloc: Global,
        now: Reading,
        came: &LinkInput<'_>,
        wire: &mut Vec<u8>,
    ) -> Result<bool, Fail> {
        self.end_lease(now);
        let done = self.talk.poll(&ExclusivePairBook, &mut self.own, &self.settings, now, came);
        carry(alloc, &mut self.talk, wire)?;
        Ok(done.is_ok() && !self.talk.stage().has_ended())
    }

    /// A turn to which the first octets come that are under way, so many at most.
    pub fn hear(
        &mut self,
        alloc: Global,
        now: Reading,
        most: usize,
        wire: &mut Vec<u8>,
    ) -> Result<bool, Fail> {
        let (front, rest) = self.coming.split_at(most.min(self.coming.len()));
        let front = front.to_vec(alloc)?;
        self.coming = rest.to_vec(alloc)?;
        self.turn(alloc, now, &LinkInput::Octets(&front), wire)
    }
}
