//! The control socket: a file of a directory, by which a person gives the daemon a command and hears what it says.

use crate::control_client::ControlClient;
use crate::polling::PollRegistry;
use mio::net::UnixListener;
use std::alloc::Global;
use std::fs::{Files, Permissions};
use std::io::ErrorKind;
use std::net::Net;
use std::os::unix::fs::PermissionsExt;
use std::time::Instant;
use std::{fs, io};

/// How many may have the socket at once.
const MOST_CALLERS: usize = 8;

/// Who asks the daemon: each gives one line, and hears one answer.
pub trait Control: Drop {
    /// The line of one whose request has come whole, without its line feed; no other is heard before it is answered.
    fn next_request(&mut self, now: Instant) -> Option<Vec<u8>>;

    /// Answers the one that was heard, and ends its connection behind that.
    fn send_reply(&mut self, text: &[u8], now: Instant);
}

/// A control socket of the system's. Only the user that runs the daemon may connect to it.
#[derive(Drop)]
pub struct ControlSocket {
    alloc: Global,
    watched: PollRegistry,
    listener: UnixListener,
    callers: Vec<ControlClient>,
}

/// Removes a socket that an earlier daemon left.
fn remove_old<R: Files>(rt: &R, path: &str) -> io::Result<()> {
    match fs::remove_file(rt, path) {
        Ok(()) => Ok(()),
        Err(error) if error.kind() == ErrorKind::NotFound => Ok(()),
        Err(error) => Err(error),
    }
}

impl ControlSocket {
    /// Listens at a path, in the place of what has this name. The caller has the lock on its directory, so that no
    /// other daemon listens there.
    pub fn bind<R: Files + Net>(
        rt: &R,
        alloc: Global,
        path: &str,
        watched: PollRegistry,
    ) -> io::Result<ControlSocket> {
        remove_old(rt, path)?;
        let mut listener = UnixListener::bind(rt, path)?;
        fs::set_permissions(rt, path, Permissions::from_mode(0o600))?;
        watched.add_reads(&mut listener)?;
        Ok(ControlSocket {
            alloc,
            watched,
            listener,
            callers: Vec::new(alloc),
        })
    }

    /// Makes room for one more: where all seats are taken, the one is put out that has waited longest and not asked
    /// yet. Returns whether there is room.
    fn make_room(&mut self) -> bool {
        if self.callers.len() < MOST_CALLERS {
            return true;
        }
        for index in 0..self.callers.len() {
            if self.callers[index].is_asking() {
                let _silent = self.callers.remove(index);
                return true;
            }
        }
        false
    }

    /// Admits one who has come, where there is room: otherwise its connection is closed.
    fn admit(&mut self, now: Instant) {
        let Ok((mut stream, _)) = self.listener.accept() else {
            return;
        };
        if !self.make_room() || self.watched.add_both(&mut stream).is_err() {
            return;
        }
        let _ = self
            .callers
            .push(ControlClient::new(self.alloc, stream, now));
    }
}

impl Control for ControlSocket {
    fn next_request(&mut self, now: Instant) -> Option<Vec<u8>> {
        self.admit(now);
        for caller in self.callers.iter_mut() {
            caller.go_on(now);
        }
        self.callers.retain(|caller| !caller.is_over());
        if self.callers.iter().any(|caller| caller.waits()) {
            return None;
        }
        self.callers
            .iter_mut()
            .find_map(|caller| caller.line(self.alloc))
    }

    fn send_reply(&mut self, text: &[u8], now: Instant) {
        for caller in self.callers.iter_mut() {
            if caller.waits() {
                caller.tell(text, now);
            }
        }
    }
}
