//! The daemon of a directory: the system's files, sockets and clocks.

ghost use Rattle.std.specs.Prelude.{◌≡◌, [], ◌∷◌, IfOk};
ghost use Rattle.disk_model.specs.Names.{held, names_after, AreSettled};
ghost use Rattle.disk_files.specs.declared.file.RealFile.{RealFile as FileValue};
ghost use Rattle.folder_start.specs.Reading.{IsOpened};

use crate::beginning::{Devices, pairing_of, serve_folder};
use crate::error::{DaemonError, ServeFailure};
use crate::side_files::SideFiles;
use binding_rules::Role;
use clock_file::ClockFile;
use daemon_endpoints::ReceiveError;
use daemon_io::{ControlSocket, PollRegistry, Readiness, SystemConnectionSource, UdpDatagrams};
use disk_files::{AccessRecordFolder, FolderError, RealFolder, RealVolumes, VolumeLinks};
use folder_start::{FolderRead, read_folder};
use link_auth::LinkKey;
use serve_settings::ServeSettings;
use server_clocks::{Clocks, Moment, SystemClocks};
use server_log::{Log, LogEvent};
use std::alloc::Global;
use std::fs;
use std::fs::Files;
use std::net::{Net, SocketAddr};
use std::path::Path;
use std::random::RandomSource;
use std::sync::Wait;
use std::time::Clock as Handle;

/// The name of the control socket in its directory.
pub const CONTROL: &str = "control";

/// The system's sockets of a daemon.
type SystemDevices<'a, R> = Devices<
    UdpDatagrams,
    SystemConnectionSource<'a, R>,
    ControlSocket,
    Readiness,
>;

/// The directory of a server, which this process alone writes to.
fn folder_of(rt: &HostRuntime, directory: &str) -> Result<RealFolder, ServeFailure> {
    match RealFolder::open(rt, directory) {
        Ok(folder) => Ok(folder),
        Err(error) => Err(ServeFailure::Folder(error)),
    }
}

/// The volumes of a server in its directory.
fn opened(rt: &HostRuntime, folder: RealFolder, role: Role) -> Result<RealVolumes, ServeFailure>
    ensures { IfOk result (λ v. v.noted.calls ≡ held v.count ∷ []) }
{
    match RealVolumes::open(*rt, folder, role) {
        Ok(volumes) => Ok(volumes),
        Err(error) => Err(ServeFailure::Folder(error)),
    }
}

/// What keeps a server's access records in its directory, and what both clocks showed, and sees its volumes.
fn side_files_in(
    rt: &HostRuntime,
    folder: &RealFolder,
    directory: &str,
    role: Role,
) -> Result<SideFiles, ServeFailure> {
    let (folder, seen) = match (folder.shared(rt), folder.shared(rt)) {
        (Ok(folder), Ok(seen)) => (folder, seen),
        (Err(error), _) | (_, Err(error)) => {
            return Err(ServeFailure::Folder(FolderError::System(error)));
        }
    };
    match ClockFile::new(rt, directory) {
        Some(clock) => Ok(SideFiles {
            access: AccessRecordFolder::new(*rt, folder, role),
            clock,
            volumes: VolumeLinks::new(*rt, seen, role),
        }),
        None => Err(ServeFailure::Ended(DaemonError::Memory)),
    }
}

/// What the clocks read, or that they tell no time.
fn moment<R: Handle>(clocks: &SystemClocks<'_, R>) -> Result<Moment, ServeFailure> {
    clocks.now().ok_or(ServeFailure::Ended(DaemonError::Hearing(ReceiveError::Clock)))
}

/// The door by which the partner comes, by a server's role; shut where it has none.
fn door_of<'a, R: Net + RandomSource, L: Print>(
    system: &'a R,
    role: Role,
    link: Option<SocketAddr>,
    watched: PollRegistry,
    now: &Moment,
    log: &Log<'_, L>,
) -> Result<SystemConnectionSource<'a, R>, ServeFailure> {
    let Some(address) = link else {
        log.log(&LogEvent::IsAlone);
        return Ok(SystemConnectionSource::shut(system, watched));
    };
    match role {
        Role::Primary => {
            log.log(&LogEvent::Calls(address));
            Ok(SystemConnectionSource::call(system, address, watched, now.instant))
        }
        Role::Secondary => match SystemConnectionSource::listen(system, address, watched) {
            Ok(door) => {
                log.log(&LogEvent::ListensForPartner(address));
                Ok(door)
            }
            Err(error) => Err(ServeFailure::Listen { address, error }),
        },
    }
}

/// What a daemon rests by.
fn readiness(net: &impl Net, alloc: Global) -> Result<Readiness, ServeFailure> {
    match Readiness::new(net, alloc) {
        Ok(rest) => Ok(rest),
        Err(error) => Err(ServeFailure::Ended(DaemonError::Rest(error))),
    }
}

/// The sockets that end a rest.
fn watched_by(rest: &Readiness) -> Result<PollRegistry, ServeFailure> {
    match rest.registry() {
        Ok(watched) => Ok(watched),
        Err(error) => Err(ServeFailure::Ended(DaemonError::Rest(error))),
    }
}

/// The control socket of a directory, `control`.
fn control_of<R: Files + Net>(
    rt: &R,
    alloc: Global,
    directory: &str,
    watched: PollRegistry,
) -> Result<ControlSocket, ServeFailure> {
    let Ok(path) = Path::new(directory).join(alloc, CONTROL) else {
        return Err(ServeFailure::Ended(DaemonError::Memory));
    };
    match ControlSocket::bind(rt, alloc, path.as_path().as_str(), watched) {
        Ok(control) => Ok(control),
        Err(error) => Err(ServeFailure::Control(error)),
    }
}

/// Opens the sockets of a daemon.
fn open_sockets<'a, R: Files + Net + RandomSource, L: Print>(
    rt: &'a R,
    alloc: Global,
    directory: &str,
    settings: &ServeSettings,
    now: &Moment,
    log: &Log<'_, L>,
) -> Result<SystemDevices<'a, R>, ServeFailure> {
    let rest = readiness(rt, alloc)?;
    let node = &settings.node;
    let address = node.ways.listen;
    let datagrams = match UdpDatagrams::bind(rt, address, &watched_by(&rest)?) {
        Ok(datagrams) => datagrams,
        Err(error) => return Err(ServeFailure::Listen { address, error }),
    };
    log.log(&LogEvent::Listens(address));
    let door = door_of(
        rt,
        node.server.role(),
        node.ways.link,
        watched_by(&rest)?,
        now,
        log,
    )?;
    let control = control_of(rt, alloc, directory, watched_by(&rest)?)?;
    Ok(Devices {
        datagrams,
        door,
        control,
        rest,
    })
}

/// Reads all that a start needs of a server's volumes.
#[tactic(auto, using(crate::proofs::Opened::held_is_settled, crate::proofs::Opened::held_count))]
fn read_volumes<C: Clocks>(
    alloc: Global,
    volumes: RealVolumes,
    settings: &ServeSettings,
    clocks: &C,
) -> Result<FolderRead<RealVolumes>, ServeFailure>
    requires { volumes.noted.calls ≡ held volumes.count ∷ [] }
    ensures names { IfOk result (λ r. AreSettled r.folder.noted.calls) }
    ensures files { IfOk result (λ r. (names_after r.folder.noted.calls).files ≡ r.found.volumes) }
    ensures opened { IfOk result (λ r. IsOpened (λ (f : FileValue). f.noted.calls) r.last) }
{
    let count = volumes.count();
    let pairing = pairing_of(settings.node.ways.link);
    match read_folder(
        alloc,
        volumes,
        count,
        &settings.node.server,
        pairing,
        clocks,
    ) {
        Ok(read) => Ok(read),
        Err(error) => Err(ServeFailure::of_start(alloc, error)),
    }
}

/// Removes the control socket of a server that stopped as it was told: all that it wrote is on the disk, and a socket
/// at which nobody answers would say that it may not be. The caller still has the lock on the directory.
fn remove_control<R: Files>(rt: &R, alloc: Global, directory: &str) {
    if let Ok(path) = Path::new(directory).join(alloc, CONTROL) {
        let _ = fs::remove_file(rt, path.as_path());
    }
}

/// Serves a directory by settings until a person tells it to stop. Where there is a key of the link, nobody is taken
/// for the partner who hasn't it. What happens meanwhile is told in notes, a line each. The refusals are those of
/// [`ServeFailure`]: where the server may not start, nothing was made. Both handles are of one runtime. What is done
/// behind that is [`serve_folder`]'s.
pub fn serve<R: Wait + Files + Net + RandomSource + Handle, L: Print>(
    rt: &HostRuntime,
    handles: &R,
    directory: &str,
    settings: &ServeSettings,
    key: Option<LinkKey>,
    notes: &L,
) -> Result<(), ServeFailure> {
    let role = settings.node.server.role();
    let alloc = rt.alloc();
    let log = Log::new(alloc, notes);
    let folder = folder_of(rt, directory)?;
    let keeper = side_files_in(rt, &folder, directory, role)?;
    let volumes = opened(rt, folder, role)?;
    let clocks = SystemClocks::new(handles);
    let read = read_volumes(alloc, volumes, settings, &clocks)?;
    let now = moment(&clocks)?;
    let devices = open_sockets(handles, alloc, directory, settings, &now, &log)?;
    serve_folder(
        handles, alloc, read, settings, key, devices, clocks, keeper, log,
    )?;
    remove_control(handles, alloc, directory);
    Ok(())
}
