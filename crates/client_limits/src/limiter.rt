//! What a server lets its clients order.

ghost use Rattle.std.specs.Prelude.{◌≡◌, IfOk};
ghost use Rattle.client_limits.specs.Origins.{port_of, name_by, named};
ghost use Rattle.client_limits.specs.Limiting.{MayAdmit, MayDrop};

use crate::grant_records::GrantRecords;
use crate::holders::Holders;
use crate::limits::Limits;
use crate::origin::{name_by, port_named, port_of, port_words};
use crate::partner_reach::PartnerReach;
use crate::quotas::{LimitContext, is_left_to_partner, moved_clients_in, permits_by, refused_in};
use crate::rates::Rates;
use access_records::{AccessRecord, Address, RelayPort};
use binding_rules::{Body, Status, UnitStatus};
use client_id::Duid;
use client_service::{Admission, DropReason, Permit};
use dhcp6_pd::ClientMessage;
use journal_lines::{Event, Line};
use lead_time::{End, Reading};
use order_book::Book;
use prefix_range::Prefix;
use std::alloc::{AllocError, Global};
use std::{mem, str};

/// The relay port of the message that was asked about last, and the octets that name it.
#[derive(Drop)]
struct RelayOrigin {
    port: RelayPort,
    /// None where its relay doesn't tell its clients apart.
    name: Option<Vec<u8>>,
}

/// How far a book's journal was looked through.
#[derive(Clone, Copy)]
struct ScanPosition {
    volume: u32,
    lines: usize,
}

/// What a server lets its clients order, by its limits; and the access records of what it granted them.
///
/// It knows a book by the lines that it has looked through: whom each unit was given to, and by which relay port. What
/// it counts of them is asked of the book.
#[derive(Drop)]
pub struct Limiter {
    alloc: Global,
    limits: Limits,
    /// How far the partner is.
    reach: PartnerReach,
    rates: Rates,
    /// Whom units were given to.
    clients: Holders,
    /// By which relay ports units were given.
    ports: Holders,
    /// Of which of its last grants there are access records.
    recorded: GrantRecords,
    seen: ScanPosition,
    origin: Option<RelayOrigin>,
    source: Option<Address>,
    records: Vec<AccessRecord>,
    moved_clients: u64,
    refused: u64,
}

/// The client and the unit that an event gives it, if it does.
fn given_by(event: &Event) -> Option<(Duid, Prefix)> {
    match event {
        Event::Grant(lease) => Some((lease.client, lease.prefix)),
        Event::Unit(kept) => match &kept.status {
            UnitStatus::Active(binding) => Some((binding.client, kept.prefix)),
            _ => None,
        },
        Event::Take(message) => match &message.body {
            Body::Update(update) if update.status == Status::Active => {
                update.client.map(|client| (client, update.prefix))
            }
            _ => None,
        },
        _ => None,
    }
}

/// Returns whether a line that a volume began with stands for a grant of this server by which somebody may have the unit
/// still.
fn stands_for_grant(event: &Event) -> bool {
    match event {
        Event::Unit(kept) => kept.out_end > End::ZERO,
        _ => false,
    }
}

/// Returns whether the line at an index of a book, which gives a unit, is of this server's last grant of it. Where its
/// volume has none, a unit line stands for one of an earlier volume.
fn is_last_grant(book: &Book, index: usize, event: &Event, unit: &Prefix) -> bool {
    match book.last_grant(unit) {
        Some(place) => place == index,
        None => stands_for_grant(event),
    }
}

/// Notes that a unit was given by a port, unless that is known.
fn give_to(ports: &mut Holders, unit: Prefix, name: &[u8]) -> Result<(), AllocError> {
    if ports.holder(unit.first()) == Some(name) {
        return Ok(());
    }
    ports.give(unit, name)
}

impl Limiter {
    /// Nothing was granted yet.
    pub fn new(alloc: Global, limits: Limits) -> Limiter
        ensures { result.limits ≡ limits }
    {
        Limiter {
            alloc,
            limits,
            reach: PartnerReach::Near,
            rates: Rates::new(alloc),
            clients: Holders::new(alloc),
            ports: Holders::new(alloc),
            recorded: GrantRecords::new(alloc),
            seen: ScanPosition {
                volume: 0,
                lines: 0,
            },
            origin: None,
            source: None,
            records: Vec::new(alloc),
            moved_clients: 0,
            refused: 0,
        }
    }

    /// Says how far the partner is from now on.
    pub fn set_partner_reach(&mut self, reach: PartnerReach)
        ensures { self.new ≡ record self.old { reach = reach } }
    {
        self.reach = reach;
    }

    /// Says which address the next message comes from, if that is known.
    pub fn comes_from(&mut self, source: Option<Address>) {
        self.source = source;
    }

    /// Takes the access records of what was granted since the last time: their numbers are those of lines of the open
    /// volume.
    pub fn take_records(&mut self) -> Vec<AccessRecord> {
        mem::replace(&mut self.records, Vec::new(self.alloc))
    }

    /// Returns how many IA_PDs came from another relay port than their unit was given by.
    pub fn moved_clients(&self) -> u64 {
        self.moved_clients
    }

    /// Returns how many IA_PDs quotas refused.
    pub fn refused(&self) -> u64 {
        self.refused
    }

    /// The words that name the relay port of the message that was asked about last, as an access record has them; none
    /// where nothing names it.
    pub fn port_words(&self) -> Option<&str> {
        let name = self.origin.as_ref()?.name.as_ref()?;
        str::from_utf8(port_words(name)).ok()
    }

    /// Notes that a unit was given to a client.
    fn give(&mut self, client: &Duid, unit: Prefix) -> Result<(), AllocError>
        ensures limits { self.new.limits ≡ self.old.limits }
        ensures reach { self.new.reach ≡ self.old.reach }
    {
        if self.clients.holder(unit.first()) == Some(client.as_bytes()) {
            return Ok(());
        }
        self.ports.forget(&unit)?;
        self.clients.give(unit, client.as_bytes())
    }

    /// Notes that a unit was given by the port of the message that was asked about last.
    fn give_by_port(&mut self, unit: Prefix) -> Result<(), AllocError> {
        match &self.origin {
            Some(
                RelayOrigin {
                    name: Some(name),
                    ..
                },
            ) => { give_to(&mut self.ports, unit, name) }
            _ => self.ports.forget(&unit),
        }
    }

    /// Keeps a record.
    fn keep(
        &mut self,
        number: u32,
        port: Option<RelayPort>,
        source: Option<Address>,
    ) -> Result<(), AllocError>
        ensures limits { self.new.limits ≡ self.old.limits }
        ensures reach { self.new.reach ≡ self.old.reach }
    {
        self.records.push(AccessRecord {
            number,
            port,
            source,
        })?;
        Ok(())
    }

    /// Keeps a record of a unit that a volume began with by the line of this number, where there was one of its last
    /// grant.
    fn carry_record(&mut self, number: u32, unit: &Prefix) -> Result<(), AllocError>
        ensures limits { self.new.limits ≡ self.old.limits }
        ensures reach { self.new.reach ≡ self.old.reach }
    {
        let named = match self.ports.holder(unit.first()) {
            Some(name) => port_named(self.alloc, name),
            None => None,
        };
        let port = match named {
            Some(port) => Some(Some(port)),
            None => self.recorded.unnamed_port(unit.first()),
        };
        match port {
            Some(port) => self.keep(number, port, None),
            None => Ok(()),
        }
    }

    /// Notes a line that no message's orders added. Of a grant there is no record, and of a unit that a volume began
    /// with one is kept.
    fn enter(&mut self, line: &Line) -> Result<(), AllocError>
        ensures limits { self.new.limits ≡ self.old.limits }
        ensures reach { self.new.reach ≡ self.old.reach }
    {
        let Some((client, unit)) = given_by(&line.event) else {
            return Ok(());
        };
        self.give(&client, unit)?;
        match &line.event {
            Event::Grant(_) => {
                self.recorded.forget(unit.first());
                Ok(())
            }
            event if stands_for_grant(event) => self.carry_record(line.number, &unit),
            _ => Ok(()),
        }
    }

    /// Looks through the lines of a book that it hasn't seen yet, which no message's orders added.
    pub fn scan_book(&mut self, book: &Book) -> Result<(), AllocError>
        ensures limits { self.new.limits ≡ self.old.limits }
        ensures reach { self.new.reach ≡ self.old.reach }
    {
        let volume = book.head().volume();
        if self.seen.volume != volume {
            self.seen = ScanPosition { volume, lines: 0 };
        }
        let lines = book.journal();
        for index in self.seen.lines..lines.len() {
            self.enter(&lines[index])?;
        }
        self.seen.lines = lines.len();
        Ok(())
    }

    /// Notes a line that the orders of the message added which was asked about last: of a grant a record is kept.
    fn enter_grant(&mut self, line: &Line) -> Result<(), AllocError> {
        let Event::Grant(lease) = &line.event else {
            return Ok(());
        };
        self.recorded.forget(lease.prefix.first());
        self.give(&lease.client, lease.prefix)?;
        self.give_by_port(lease.prefix)?;
        let port = match &self.origin {
            Some(origin) => Some(origin.port.clone()?),
            None => None,
        };
        self.recorded.note(lease.prefix.first(), port.as_ref())?;
        self.keep(line.number, port, self.source)
    }

    /// Notes the lines that the orders of a message added.
    fn enter_grants(&mut self, book: &Book) -> Result<(), AllocError> {
        let lines = book.journal();
        for index in self.seen.lines..lines.len() {
            self.enter_grant(&lines[index])?;
        }
        self.seen.lines = lines.len();
        Ok(())
    }

    /// Notes by which port the unit of a record's line was given, where that is the unit's last grant: by none where the
    /// record names none.
    fn enter_record(&mut self, book: &Book, record: &AccessRecord) -> Result<(), AllocError> {
        let Some(index) = record.number.checked_sub(1) else {
            return Ok(());
        };
        let Some(line) = book.journal().get(index as usize) else {
            return Ok(());
        };
        let Some((_, unit)) = given_by(&line.event) else {
            return Ok(());
        };
        if !is_last_grant(book, index as usize, &line.event, &unit) {
            return Ok(());
        }
        let name = match &record.port {
            Some(port) => name_by(self.alloc, port)?,
            None => None,
        };
        match name {
            Some(name) => give_to(&mut self.ports, unit, &name)?,
            None => self.ports.forget(&unit)?,
        }
        self.recorded.note(unit.first(), record.port.as_ref())
    }

    /// Looks through the book of a start, and notes what the access records of its volume say.
    pub fn restore(&mut self, book: &Book, records: Vec<AccessRecord>) -> Result<(), AllocError> {
        self.scan_book(book)?;
        for record in records {
            self.enter_record(book, &record)?;
        }
        Ok(())
    }

    /// Returns whether a message of a client, behind the port of its origin, is heard now.
    fn is_within_rate(&mut self, now: Reading, client: &Duid) -> Result<bool, AllocError>
        ensures limits { self.new.limits ≡ self.old.limits }
        ensures reach { self.new.reach ≡ self.old.reach }
        ensures origin { self.new.origin ≡ self.old.origin }
    {
        if self.limits.client_rate == 0 {
            return Ok(true);
        }
        let mut name = Vec::new(self.alloc);
        name.push(client.as_bytes().len() as u8)?;
        name.extend_from_slice(client.as_bytes())?;
        if let Some(
            RelayOrigin {
                name: Some(port),
                ..
            },
        ) = &self.origin
        {
            name.extend_from_slice(port)?;
        }
        self.rates.allows(self.limits.client_rate, now, &name)
    }

    /// The origin of a message.
    fn origin_of(&self, message: &ClientMessage) -> Result<Option<RelayOrigin>, AllocError>
        ensures { IfOk result (λ o. named o ≡ name_by (port_of message.now.relays)) }
    {
        let Some(port) = port_of(self.alloc, message)? else {
            return Ok(None);
        };
        let name = name_by(self.alloc, &port)?;
        Ok(Some(RelayOrigin { port, name }))
    }
}

impl Admission for Limiter {
    ghost lets = { MayAdmit };

    ghost drops = { MayDrop };

    fn permits(
        &mut self,
        book: &Book,
        now: Reading,
        message: &ClientMessage,
    ) -> Result<Vec<Permit>, DropReason> {
        self.scan_book(book)?;
        self.origin = self.origin_of(message)?;
        if !self.is_within_rate(now, &message.client)? {
            return Err(DropReason::TooMany);
        }
        let port = match &self.origin {
            Some(origin) => match &origin.name {
                Some(name) => Some(name.as_slice()),
                None => None,
            },
            None => None,
        };
        let known = LimitContext {
            limits: &self.limits,
            reach: self.reach,
            book,
            clients: &self.clients,
            ports: &self.ports,
            records: &self.recorded,
            reading: now,
        };
        let strays = moved_clients_in(&known, port, message);
        let permits = permits_by(self.alloc, &known, port, message)?;
        let refused = refused_in(&known, port, message, &permits);
        self.moved_clients = self.moved_clients.saturating_add(strays);
        self.refused = self.refused.saturating_add(refused);
        if is_left_to_partner(message.kind, &permits) {
            return Err(DropReason::LeftToPartner);
        }
        Ok(permits)
    }

    fn record_outcome(&mut self, book: &Book, _message: &ClientMessage) {
        // for want of memory a unit goes uncounted, and its grant has no record
        let _ = self.enter_grants(book);
    }
}
