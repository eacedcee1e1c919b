//! One server of the pair: its disk, which stays, and what runs over it until the disk fails.

use crate::clients::{PromisedLease, request};
use crate::clocks::StillClocks;
use crate::disk::{Disk, Loss};
use crate::folder::{DiskFolder, SharedDisk};
use client_service::AllowAll;
use disk_model::Folder;
use failover_message::encode;
use failover_session::{LinkInput, OutboundFrame, SessionStage};
use folder_start::{Pairing, RollFailure, StartFailure, Started, read_folder, start};
use lead_time::Reading;
use order_book::Order;
use server_book::ReplyPolicy;
use server_core::{Committed, CommittedOutput, DatagramOutcome, HeldAnswer, RollFault, ServerCore};
use server_settings::{Settings, read_settings};
use server_start::StartError;
use std::alloc::Global;
use std::cell::RefCell;
use std::mem;
use std::rc::Rc;
use std::test::Fail;

/// How many units the pool has.
const UNITS: usize = 16;

/// The age in seconds from which on a grant isn't told again: each order has its own line.
const RENEW_FLOOR: u32 = 0;

/// A server over its disk.
#[derive(Drop)]
pub(crate) struct Server {
    alloc: Global,
    settings: Settings,
    disk: SharedDisk,
    running: Option<ServerCore<DiskFolder, u8>>,
    /// The octets that are under way to it.
    pub coming: Vec<u8>,
    /// What it told clients by its lines.
    pub told: Vec<PromisedLease>,
    /// The serials of the messages that it said.
    pub said: Vec<u64>,
}

/// Returns whether a start failed since the disk did.
fn is_of_disk(failure: &StartFailure) -> bool {
    matches!(
        failure,
        StartFailure::Unread(_)
            | StartFailure::NotRemoved(_)
            | StartFailure::NotReopened(_)
            | StartFailure::NotBegun
            | StartFailure::NotRolled(RollFailure::NotEnded(_) | RollFailure::NotBegun)
    )
}

/// Returns whether a talk that has come so far goes on, and all that the partner lacks can be told.
fn goes_on<F: Folder + Drop, P: Drop>(running: &ServerCore<F, P>, stage: &SessionStage) -> bool
where
    F::File: Drop,
{
    match stage {
        SessionStage::Joined { last } => running.can_resend_above(*last),
        SessionStage::Greeting => true,
        SessionStage::Refused | SessionStage::Ended { .. } | SessionStage::Short { .. } => false,
    }
}

/// Has a running server hear a client's request, which has an answer.
fn hear<F: Folder + Drop>(
    alloc: Global,
    running: &mut ServerCore<F, u8>,
    now: Reading,
    client: u8,
) -> Result<(), Fail>
where
    F::File: Drop,
{
    let heard = running.handle_datagram(
        &mut AllowAll { alloc },
        &ReplyPolicy::plain(alloc),
        now,
        &request(client),
        client,
    );
    match heard {
        DatagramOutcome::Answered(_) => Ok(()),
        other => Err(Fail::from(other)),
    }
}

/// Has a running server begin another connection.
fn connect<F: Folder + Drop, P: Drop>(
    running: &mut ServerCore<F, P>,
    settings: &Settings,
) -> Result<(), Fail>
where
    F::File: Drop,
{
    running.disconnect_partner();
    match running.connect_partner(settings) {
        Ok(()) => Ok(()),
        Err(error) => Err(Fail::from(error)),
    }
}

/// Has a running server take octets that came, or that nothing came.
fn heed<F: Folder + Drop, P: Drop>(
    running: &mut ServerCore<F, P>,
    settings: &Settings,
    now: Reading,
    octets: &[u8],
) -> Result<(), Fail>
where
    F::File: Drop,
{
    let outcome = if octets.is_empty() {
        running.handle_input(settings, now, &LinkInput::Idle)
    } else {
        running.handle_input(settings, now, &LinkInput::Octets(octets))
    };
    if let Err(error) = outcome {
        return Err(Fail::from(error));
    }
    match running.stage() {
        Some(stage) if !goes_on(running, &stage) => Err(Fail::from("the talk doesn't go on")),
        _ => Ok(()),
    }
}

/// Has a running server end the leases that have ended.
fn end_leases<F: Folder + Drop, P: Drop>(
    running: &mut ServerCore<F, P>,
    now: Reading,
) -> Result<(), Fail>
where
    F::File: Drop,
{
    for _ in 0..UNITS {
        let Some(prefix) = running.book().first_to_expire(now) else {
            return Ok(());
        };
        if let Err(refusal) = running.serve(now, &Order::Expire(prefix)) {
            return Err(Fail::from(refusal));
        }
    }
    Ok(())
}

/// What became of a start.
#[derive(Drop)]
enum Beginning {
    Runs(ServerCore<DiskFolder, u8>),
    DiskFails,
    ClockBehind,
}

/// What became of a start that failed, where its disk or its clock is the reason.
fn beginning_of(failure: StartFailure) -> Result<Beginning, Fail> {
    if is_of_disk(&failure) {
        return Ok(Beginning::DiskFails);
    }
    match failure {
        StartFailure::Start(StartError::ClockBehind { .. }) => Ok(Beginning::ClockBehind),
        other => Err(Fail::from(other)),
    }
}

impl Server {
    /// A server of these settings that doesn't run, over an empty disk of which so many calls are answered.
    pub fn new(alloc: Global, settings: &str, calls: usize) -> Result<Server, Fail> {
        Ok(Server {
            alloc,
            settings: read_settings(alloc, settings.as_bytes())?,
            disk: Rc::new(alloc, RefCell::new(Disk::new(alloc, calls)))?,
            running: None,
            coming: Vec::new(alloc),
            told: Vec::new(alloc),
            said: Vec::new(alloc),
        })
    }

    /// Returns whether it runs.
    pub fn is_up(&self) -> bool {
        self.running.is_some()
    }

    /// What the last line of its book reads, in milliseconds.
    pub fn last_reading(&self) -> Option<u64> {
        let line = self.running.as_ref()?.book().journal().last()?;
        Some(line.reading.milliseconds())
    }

    /// What becomes of a start with what its disk has.
    #[tactic(auto, using(crate::proofs::Opened::held_is_settled, crate::proofs::Opened::held_count))]
    fn begin(&self, now: Reading) -> Result<Beginning, Fail> {
        let folder = DiskFolder::open(self.alloc, &self.disk)?;
        let (count, clocks) = (folder.count, StillClocks(now));
        let (settings, pairing) = (&self.settings, Pairing::Paired);
        let read = match read_folder(self.alloc, folder, count, settings, pairing, &clocks) {
            Ok(read) => read,
            Err(failure) => return beginning_of(failure),
        };
        match start(self.alloc, read, settings, RENEW_FLOOR, pairing, &clocks) {
            Ok(Started { running, .. }) => Ok(Beginning::Runs(running)),
            Err(failure) => beginning_of(failure),
        }
    }

    /// Starts it with what its disk has. Where the disk fails it doesn't run.
    pub fn start(&mut self, now: Reading) -> Result<(), Fail> {
        match self.begin(now)? {
            Beginning::Runs(running) => self.running = Some(running),
            Beginning::DiskFails => {}
            Beginning::ClockBehind => return Err(Fail::from("its clock is behind")),
        }
        Ok(())
    }

    /// Sees that it doesn't start by a clock that reads so.
    pub fn refuse_clock(&self, now: Reading) -> Result<(), Fail> {
        match self.begin(now)? {
            Beginning::ClockBehind => Ok(()),
            _ => Err(Fail::from("it isn't its clock that refuses it")),
        }
    }

    /// Ends, and loses what the loss takes from its disk, of which so many calls are answered then.
    pub fn lose(&mut self, loss: Loss, calls: usize) -> Result<(), Fail> {
        self.running = None;
        match self.disk.try_borrow_mut() {
            Ok(mut disk) => Ok(disk.lose(loss, calls)?),
            Err(_) => Err(Fail::from("the disk is lent")),
        }
    }

    /// Has its disk answer so many calls from now on. Returns how many it would have.
    pub fn answer_only(&mut self, calls: usize) -> Result<usize, Fail> {
        match self.disk.try_borrow_mut() {
            Ok(mut disk) => Ok(mem::replace(&mut disk.calls_left, calls)),
            Err(_) => Err(Fail::from("the disk is lent")),
        }
    }

    /// What its disk held after the last loss.
    pub fn contents(&self) -> Result<Vec<Vec<u8>>, Fail> {
        match self.disk.try_borrow() {
            Ok(disk) => Ok(disk.contents.clone()?),
            Err(_) => Err(Fail::from("the disk is lent")),
        }
    }

    /// Hears a client's request, which has an answer.
    pub fn hear(&mut self, now: Reading, client: u8) -> Result<(), Fail> {
        match &mut self.running {
            Some(running) => hear(self.alloc, running, now, client),
            None => Ok(()),
        }
    }

    /// Ends the leases that have ended.
    fn end_leases(&mut self, now: Reading) -> Result<(), Fail> {
        match &mut self.running {
            Some(running) => end_leases(running, now),
            None => Ok(()),
        }
    }

    /// Begins the next volume. Where the disk fails it doesn't run any more.
    pub fn roll(&mut self, now: Reading) -> Result<(), Fail> {
        let Some(running) = self.running.take() else {
            return Ok(());
        };
        match running.roll(now) {
            Ok(running) => {
                self.running = Some(running);
                Ok(())
            }
            Err(RollFault::NotRolled(_)) => Ok(()),
            Err(_) => Err(Fail::from("it doesn't roll")),
        }
    }

    /// A connection with the partner begins. What was under way over the last one is lost.
    pub fn meet(&mut self) -> Result<(), Fail> {
        self.coming.clear();
        if let Some(running) = &mut self.running {
            connect(running, &self.settings)?;
        }
        Ok(())
    }

    /// Takes all that is under way to it, or that nothing came for a while.
    fn heed(&mut self, now: Reading) -> Result<(), Fail> {
        if let Some(running) = &mut self.running {
            heed(running, &self.settings, now, self.coming.as_slice())?;
        }
        self.coming.clear();
        Ok(())
    }

    /// Puts its lines to the disk, and gives what leaves. Where the disk fails nothing does, and it runs no more.
    fn leaving(&mut self) -> Option<CommittedOutput<u8>> {
        let Ok(Committed { running, leaving }) = self.running.take()?.commit() else {
            return None;
        };
        self.running = Some(running);
        Some(leaving)
    }

    /// The number of the volume that it writes.
    fn volume(&self) -> Option<u32> {
        Some(self.running.as_ref()?.book().head().volume())
    }

    /// Notes an answer that leaves at a moment.
    fn note(&mut self, held: &HeldAnswer<u8>, moment: u64, volume: u32) -> Result<(), Fail> {
        let answer = &held.answer;
        let line = answer.line().ok_or("an answer tells of no line")?;
        let told = PromisedLease::new(answer.octets(), *answer.peer(), moment, volume, line);
        self.told.push(told.ok_or("an answer has no lease")?)?;
        Ok(())
    }

    /// Notes a frame that leaves, and puts its octets on the way.
    fn say(&mut self, handed: &OutboundFrame, way: &mut Vec<u8>) -> Result<(), Fail> {
        way.extend_from_slice(encode(self.alloc, &handed.frame)?.as_slice())?;
        if handed.number.is_some() {
            self.said.push(handed.frame.serial.number())?;
        }
        Ok(())
    }

    /// Tells what leaves at a moment: the answers to clients, and the octets on the way to the partner.
    fn tell(
        &mut self,
        leaving: CommittedOutput<u8>,
        moment: u64,
        way: &mut Vec<u8>,
    ) -> Result<(), Fail> {
        let volume = self.volume().ok_or("it doesn't run")?;
        let (answers, frames) = leaving.into_parts();
        for held in &answers {
            self.note(held, moment, volume)?;
        }
        for handed in &frames {
            self.say(handed, way)?;
        }
        Ok(())
    }

    /// Its turn: it hears its partner, ends leases, and puts its lines to the disk before anything leaves at a moment.
    /// Where the disk fails nothing leaves, and it doesn't run any more.
    pub fn turn(&mut self, now: Reading, moment: u64, way: &mut Vec<u8>) -> Result<(), Fail> {
        self.heed(now)?;
        self.end_leases(now)?;
        match self.leaving() {
            Some(leaving) => self.tell(leaving, moment, way),
            None => Ok(()),
        }
    }
}
