//! The daemon of a folder that was read, over any devices: it waits until its clock lets it begin, starts the server, and
//! runs.

ghost use Rattle.std.specs.Prelude.{◌≡◌, ℕ, List, None, Ok, IfOk, OnOk, is_none};
ghost use Rattle.disk_model.specs.Names.{names_after, AreSettled};
ghost use Rattle.volume_store.specs.Folder.{ResumesAsTold};
ghost use Rattle.server_clocks.specs.declared.clocks.Moment.{Moment as MomentValue};
ghost use Rattle.folder_start.specs.Keeping.{StartsWith};
ghost use Rattle.folder_start.specs.Pairing.{StepCanBeAnswered};
ghost use Rattle.folder_start.specs.Reading.{IsOpened};
ghost use Rattle.folder_start.specs.Started.{HasBegun};
ghost use Rattle.node_daemon.specs.Turning.{ways};
ghost use Rattle.service_state.specs.Service.{IsAfterStart};
ghost use Rattle.node_daemon.specs.Beginning.{pairing_by, link_by, Meets, HasRun};
ghost use Rattle.node_daemon.specs.Beginning.{HasBegunAndRun, HasServed};
ghost use Rattle.daemon_endpoints.specs.Receiving.{MayReceive};

use crate::clock_wait::WaitEnd;
use crate::daemon::Daemon;
use crate::error::{DaemonError, ServeFailure};
use crate::lingering::linger;
use binding_rules::Role;
use client_limits::{Limiter, Limits};
use clock_watch::{ClockStore, ClockWatch, PartnerLink};
use daemon_endpoints::{Arrival, ClientEndpoint, ControlServer, PartnerContact, PartnerEndpoint};
use daemon_io::{ConnectionSource, Control, Datagrams, Poller};
use disk_files::{AccessRecordStore, VolumeWatch};
use disk_model::Folder;
use folder_start::{FolderRead, Pairing, StartMode, Started, start};
use lead_time::Transit;
use link_auth::{HandshakeRole, LinkKey, PeerAuthenticator};
use order_book::Book;
use serve_settings::ServeSettings;
use server_clocks::{Clocks, Moment};
use server_core::ServerCore;
use server_log::{Log, LogEvent, StateWatch};
use server_status::SyncTimes;
use server_timers::OperatorRequest;
use service_state::{ServiceState, head_lines_of, service_of};
use std::alloc::{AllocError, Global};
use std::net::SocketAddr;
use std::sync::Wait;
use std::time::Instant;

/// What a daemon hears and tells by, and rests by.
#[derive(Drop)]
pub(crate) struct Devices<G: Datagrams, D: ConnectionSource, K: Control, T: Poller> {
    pub(crate) datagrams: G,
    pub(crate) door: D,
    pub(crate) control: K,
    pub(crate) rest: T,
}

/// Whether a server has a partner, by where its link is.
pub(crate) fn pairing_of(link: Option<SocketAddr>) -> Pairing
    ensures { result ≡ pairing_by link }
{
    match link {
        Some(_) => Pairing::Paired,
        None => Pairing::Alone,
    }
}

/// What a server lets its clients order, by its limits, the book of the last volume, if there is one, and what was kept
/// beside that volume. Where the start begins the next one, the records of its units are kept beside it.
fn limiter_of<A: AccessRecordStore, L: Print>(
    alloc: Global,
    limits: Limits,
    keeper: &A,
    book: Option<&Book>,
    log: &Log<'_, L>,
) -> Limiter {
    let mut limiter = Limiter::new(alloc, limits);
    let Some(book) = book else {
        return limiter;
    };
    let records = match keeper.read_records(book.head().volume()) {
        Ok(records) => records,
        Err(_) => {
            log.log(&LogEvent::AccessUnread);
            Vec::new(alloc)
        }
    };
    if limiter.restore(book, records).is_err() {
        log.log(&LogEvent::AccessUnread);
    }
    limiter
}

/// Tells with what a server has started.
fn tell_start<F: Folder + Drop, P: Drop, L: Print>(
    log: &Log<'_, L>,
    settings: &ServeSettings,
    link: PartnerLink,
    started: &Started<F, P>,
)
where
    F::File: Drop,
{
    if started.torn > 0 {
        log.log(&LogEvent::Cut {
            octets: started.torn,
        });
    }
    let volume = started.running.book().head().volume();
    log.log(&match started.began {
        StartMode::First | StartMode::Next => LogEvent::Begins { volume },
        StartMode::Again => LogEvent::GoesOn {
            volume,
            lines: started.running.kept(),
        },
    });
    if settings.node.server.transit() == Transit::ZERO {
        log.log(&LogEvent::HasNoTransit);
    }
    if settings.node.ways.link.is_some() && link == PartnerLink::None {
        log.log(&LogEvent::HasNoKey);
    }
}

/// Tells that a server holds off, where it does.
fn tell_hold_off<L: Print>(log: &Log<'_, L>, service: &ServiceState, now: Instant) {
    if let Some(seconds) = service.seconds_left(now) {
        log.log(&LogEvent::HoldsOff { seconds });
    }
}

/// How a server lets its partner in: the primary calls, and the secondary is called.
fn keeper_of(role: Role, key: Option<LinkKey>) -> PeerAuthenticator {
    let side = match role {
        Role::Primary => HandshakeRole::Initiator,
        Role::Secondary => HandshakeRole::Responder,
    };
    PeerAuthenticator { side, key }
}

/// Whether there is a partner whose clock can be asked: nobody else could answer over a link that has a key.
fn link_of(address: Option<SocketAddr>, key: &Option<LinkKey>) -> PartnerLink
    ensures { result ≡ link_by address key.now }
{
    match (address, key) {
        (Some(_), Some(_)) => PartnerLink::Linked,
        (None, _) | (_, None) => PartnerLink::None,
    }
}

/// What the clocks read: `Ended` where one tells no time.
fn now_of<C: Clocks>(clocks: &C) -> Result<Moment, ServeFailure>
    ensures { IfOk result C.gives }
{
    match clocks.now() {
        Some(now) => Ok(now),
        None => Err(ServeFailure::no_time()),
    }
}

/// The daemon of settings and devices at a moment, for a server that has yet to begin.
fn daemon_of<
    'a,
    G: Datagrams,
    D: ConnectionSource,
    K: Control,
    C: Clocks,
    T: Poller,
    A: AccessRecordStore + ClockStore + VolumeWatch,
    L: Print,
>(
    alloc: Global,
    settings: &'a ServeSettings,
    key: Option<LinkKey>,
    devices: Devices<G, D, K, T>,
    clocks: C,
    keeper: A,
    now: &Moment,
    log: Log<'a, L>,
) -> Result<Daemon<'a, G, D, K, C, T, A, L>, AllocError>
    ensures datagrams { IfOk result (λ d. d.clients.datagrams ≡ devices.datagrams) }
    ensures transit { IfOk result (λ d. d.clients.transit ≡ settings.now.node.server.transit) }
    ensures link { IfOk result (λ d. d.partner ≡ None) }
{
    let server = &settings.node.server;
    let limiter = Limiter::new(alloc, settings.quotas);
    let Devices {
        datagrams,
        door,
        control,
        rest,
    } = devices;
    Ok(Daemon {
        alloc,
        settings: server,
        manner: &settings.reply_policy,
        upkeep: settings.upkeep,
        clients: ClientEndpoint::new(alloc, datagrams, server.transit(), limiter)?,
        partner: PartnerEndpoint::new(alloc, door, keeper_of(server.role(), key))?,
        contact: PartnerContact::new(now.instant),
        desk: ControlServer::new(alloc, control),
        clocks,
        clock: ClockWatch::new(now),
        beaten: None,
        seen_linked: None,
        rest,
        keeper,
        log,
        watch: StateWatch::new(),
        syncs: SyncTimes::new(alloc),
        told: OperatorRequest::Nothing,
        service: ServiceState::Open,
        is_alone: settings.node.ways.link.is_none(),
        leave: None,
        head_lines: 0,
        is_idle: false,
    })
}

impl<
    G: Datagrams,
    D: ConnectionSource,
    K: Control,
    C: Clocks,
    T: Poller,
    A: AccessRecordStore + ClockStore + VolumeWatch,
    L: Print,
> Daemon<'_, G, D, K, C, T, A, L> {
    /// Begins with this book at a moment, and lets clients order what this lets them.
    fn begin(&mut self, settings: &ServeSettings, limiter: Limiter, book: &Book, now: &Moment)
        ensures datagrams { self.new.clients.datagrams ≡ self.old.clients.datagrams }
        ensures transit { self.new.clients.transit ≡ self.old.clients.transit }
        ensures link { self.new.partner ≡ self.old.partner }
        ensures service { IsAfterStart book.now (is_none settings.now.node.ways.link) now.now.instant
            self.new.service }
    {
        self.clients.limit_by(limiter);
        self.keep_records(book, now.reading);
        self.service = service_of(book, settings.node.ways.link.is_none(), now.instant);
        tell_hold_off(&self.log, &self.service, now.instant);
        self.head_lines = head_lines_of(book);
    }

    /// Waits until the clock lets a server begin. `Ended` where nobody can be heard any more.
    fn wait_for_clock<R: Wait>(
        &mut self,
        rt: &R,
        book: Option<&Book>,
        link: PartnerLink,
    ) -> Result<WaitEnd, ServeFailure>
        ensures hears { OnOk result (MayReceive G.listens self.old.clients.datagrams self.new.clients.datagrams) }
        ensures meets { OnOk result (Meets self.old.partner self.new.partner) }
        ensures transit { self.new.clients.transit ≡ self.old.clients.transit }
    {
        match self.await_clock(rt, book, link) {
            Ok(end) => Ok(end),
            Err(error) => Err(ServeFailure::Ended(error)),
        }
    }
}

/// Starts the server of a folder that was read, by what the clocks read now.
fn start_server<F: Folder + Drop, P: Drop, C: Clocks>(
    alloc: Global,
    read: FolderRead<F>,
    settings: &ServeSettings,
    clocks: &C,
) -> Result<Started<F, P>, ServeFailure>
where
    F::File: Drop,
    requires names { AreSettled (F.calls read.folder) }
    requires files { (names_after (F.calls read.folder)).files ≡ read.found.volumes }
    requires opened { IsOpened F.File.calls read.last }
    ensures begun { IfOk result (λ s. (now : MomentValue) × C.gives now
        × HasBegun settings.now.node.server settings.now.renew_floor (pairing_by settings.now.node.ways.link)
        now.reading read.found.step s.running) }
    ensures answered { OnOk result (StepCanBeAnswered (pairing_by settings.now.node.ways.link) read.found.step) }
    ensures keeps { IfOk result (λ s. (contents : List (List ℕ))
        → ResumesAsTold settings.now.node.server.role contents (Ok read.found)
        → StartsWith (λ x. x ≡ contents) settings.now.node.server.role s.running.names s.running.volume) }
{
    let pairing = pairing_of(settings.node.ways.link);
    match start(
        alloc,
        read,
        &settings.node.server,
        settings.renew_floor,
        pairing,
        clocks,
    ) {
        Ok(started) => Ok(started),
        Err(error) => Err(ServeFailure::of_start(alloc, error)),
    }
}

/// Hears clients and the partner no more, and tells for a while that the disk failed.
fn tell_failed<
    G: Datagrams,
    D: ConnectionSource,
    K: Control,
    C: Clocks,
    T: Poller,
    A: AccessRecordStore + ClockStore + VolumeWatch,
    L: Print,
>(daemon: Daemon<'_, G, D, K, C, T, A, L>) {
    let Daemon {
        alloc,
        clients,
        partner,
        mut desk,
        clocks,
        mut rest,
        log,
        ..
    } = daemon;
    drop(clients);
    drop(partner);
    log.log(&LogEvent::DiskFailed);
    linger(alloc, &mut desk, &clocks, &mut rest);
}

/// Runs a daemon until it is told to stop.
#[tactic(auto, using(crate::proofs::Begun::has_run))]
fn run_daemon<
    F: Folder + Drop,
    G: Datagrams,
    D: ConnectionSource,
    K: Control,
    C: Clocks,
    T: Poller,
    A: AccessRecordStore + ClockStore + VolumeWatch,
    R: Wait,
    L: Print,
>(
    rt: &R,
    mut daemon: Daemon<'_, G, D, K, C, T, A, L>,
    running: ServerCore<F, Arrival<G::Peer>>,
) -> Result<(), ServeFailure>
where
    F::File: Drop,
    ensures { IfOk result (λ _. HasRun C.gives C.fails G.listens G.sends daemon.entry.clients.transit
        (ways daemon.entry.clients.datagrams daemon.entry.partner) running) }
{
    match daemon.run(rt, running) {
        Ok(()) => Ok(()),
        Err(error) => {
            if error.is_disk() {
                tell_failed(daemon);
            }
            Err(ServeFailure::Ended(error))
        }
    }
}

/// Starts the server of a folder that was read, by what the clocks read now, and runs it by a daemon until a person tells
/// it to stop.
fn start_and_run<
    F: Folder + Drop,
    G: Datagrams,
    D: ConnectionSource,
    K: Control,
    C: Clocks,
    T: Poller,
    A: AccessRecordStore + ClockStore + VolumeWatch,
    R: Wait,
    L: Print,
>(
    rt: &R,
    alloc: Global,
    read: FolderRead<F>,
    settings: &ServeSettings,
    link: PartnerLink,
    mut daemon: Daemon<'_, G, D, K, C, T, A, L>,
) -> Result<(), ServeFailure>
where
    F::File: Drop,
    requires names { AreSettled (F.calls read.folder) }
    requires files { (names_after (F.calls read.folder)).files ≡ read.found.volumes }
    requires opened { IsOpened F.File.calls read.last }
    ensures ran { IfOk result (λ _. HasBegunAndRun C.gives C.fails G.listens G.sends settings.now.node.server
        settings.now.renew_floor (pairing_by settings.now.node.ways.link) read.found.step
        daemon.entry.clients.transit (ways daemon.entry.clients.datagrams daemon.entry.partner)) }
{
    let limiter = limiter_of(
        alloc,
        settings.quotas,
        &daemon.keeper,
        read.book(),
        &daemon.log,
    );
    let started: Started<F, Arrival<G::Peer>> = start_server(
        alloc,
        read,
        settings,
        &daemon.clocks,
    )?;
    tell_start(&daemon.log, settings, link, &started);
    let Started { running, .. } = started;
    let now = now_of(&daemon.clocks)?;
    daemon.begin(settings, limiter, running.book(), &now);
    match run_daemon(rt, daemon, running) {
        Ok(()) => Ok(()),
        Err(failure) => Err(failure),
    }
}

/// Serves with what was read of a folder until a person tells it to stop: it waits until its clock lets it begin, starts
/// by what the clocks read then, and runs, a turn after another. Told to stop while it waits it has written no line. The
/// refusals are `Start` and `Ended` of [`ServeFailure`].
pub(crate) fn serve_folder<
    F: Folder + Drop,
    G: Datagrams,
    D: ConnectionSource,
    K: Control,
    C: Clocks,
    T: Poller,
    A: AccessRecordStore + ClockStore + VolumeWatch,
    R: Wait,
    L: Print,
>(
    rt: &R,
    alloc: Global,
    read: FolderRead<F>,
    settings: &ServeSettings,
    key: Option<LinkKey>,
    devices: Devices<G, D, K, T>,
    clocks: C,
    keeper: A,
    log: Log<'_, L>,
) -> Result<WaitEnd, ServeFailure>
where
    F::File: Drop,
    requires names { AreSettled (F.calls read.folder) }
    requires files { (names_after (F.calls read.folder)).files ≡ read.found.volumes }
    requires opened { IsOpened F.File.calls read.last }
    ensures served { IfOk result (λ end. end ≡ WaitEnd.Begins → HasServed C.gives C.fails G.listens G.sends
        settings.now.node.server settings.now.renew_floor (pairing_by settings.now.node.ways.link) read.found.step
        devices.datagrams) }
{
    let link = link_of(settings.node.ways.link, &key);
    let now = now_of(&clocks)?;
    let Ok(mut daemon) = daemon_of(alloc, settings, key, devices, clocks, keeper, &now, log) else {
        return Err(ServeFailure::Ended(DaemonError::Memory));
    };
    let end = daemon.wait_for_clock(rt, read.book(), link)?;
    if let WaitEnd::Stops = end {
        return Ok(WaitEnd::Stops);
    }
    match start_and_run(rt, alloc, read, settings, link, daemon) {
        Ok(()) => Ok(WaitEnd::Begins),
        Err(failure) => Err(failure),
    }
}
