//! A connection to the partner, and what became of it.

use node_threads::{Got, IdleTimer, NetFault, TcpWire, Wire};
use std::io::{Read, Write};
use std::net::{OpenListener, OpenStream};
use std::time::{Clock as Handle, Duration};

/// The most seconds that a write waits for a partner that doesn't read.
const LONGEST_WRITE: u64 = 10;

/// After how many seconds without a first octet it is given up.
const MOST_SILENCE: u32 = 10;

/// After how many seconds without an octet it is given up where a second connection comes.
const LONG_SILENCE: u32 = 60;

/// How many reads that bring octets are many.
const MUCH: u32 = 10;

/// The only connection to the partner while it stands: a second one to the same listener is closed at once. It is given
/// up where nothing comes over it at first, and where a second one comes after a minute of silence: its other end may
/// have lost it without a word.
#[derive(Drop)]
pub struct PartnerWire<'a, R: Handle, S: Read + Write + OpenStream + Drop, L: OpenListener> {
    wire: TcpWire<'a, R, S>,
    listener: Option<&'a L>,
    /// How many reads brought octets.
    heard: u32,
    /// The pauses that make up the next second without octets.
    pauses: IdleTimer,
    /// How many seconds brought none, since the last octet.
    silence: u32,
    has_rested: bool,
    has_ended: bool,
    has_failed: bool,
    others: u32,
}

impl<'a, R: Handle, S: Read + Write + OpenStream + Drop, L: OpenListener> PartnerWire<'a, R, S, L> {
    /// A connection by a stream, whose partner came to the listener, if there is one. A fault where the stream can't be
    /// told how long to wait.
    pub fn new(
        handle: &'a R,
        stream: S,
        listener: Option<&'a L>,
    ) -> Result<PartnerWire<'a, R, S, L>, NetFault> {
        let longest = Some(Duration::from_secs(LONGEST_WRITE));
        if stream.set_write_timeout(longest).is_err() || stream.set_nodelay(true).is_err() {
            return Err(NetFault);
        }
        Ok(PartnerWire {
            wire: TcpWire::new(handle, stream),
            listener,
            heard: 0,
            pauses: IdleTimer::new(),
            silence: 0,
            has_rested: false,
            has_ended: false,
            has_failed: false,
            others: 0,
        })
    }

    /// Returns whether it stood for a while: much came over it, or something and then nothing for a second.
    pub fn has_stood(&self) -> bool {
        self.has_rested || self.heard >= MUCH
    }

    /// Returns whether the partner closed it, or it was given up.
    pub fn has_ended(&self) -> bool {
        self.has_ended
    }

    /// Returns whether it couldn't be read.
    pub fn has_failed(&self) -> bool {
        self.has_failed
    }

    /// Returns how many others were closed meanwhile.
    pub fn others(&self) -> u32 {
        self.others
    }

    /// Closes another connection, if one has come.
    fn turns_away(&mut self) -> bool {
        let Some(listener) = self.listener else {
            return false;
        };
        let has_come = listener.accept().is_ok();
        if has_come {
            self.others = self.others.saturating_add(1);
        }
        has_come
    }

    /// Returns whether a pause more fills a second of silence that is one too many.
    fn is_given_up(&mut self) -> bool {
        if !self.pauses.fills_a_second() {
            return false;
        }
        self.silence = self.silence.saturating_add(1);
        let has_come = self.turns_away();
        if self.heard == 0 {
            return self.silence >= MOST_SILENCE;
        }
        self.has_rested = true;
        has_come && self.silence >= LONG_SILENCE
    }

    fn hear(&mut self) {
        self.heard = self.heard.saturating_add(1);
        self.pauses.begin();
        self.silence = 0;
    }
}

impl<R: Handle, S: Read + Write + OpenStream + Drop, L: OpenListener> Wire
    for PartnerWire<'_, R, S, L> {
    ghost brings = { λ old octets new. Unit };

    ghost writes = { λ old octets new. Unit };

    ghost fails = { λ old new. Unit };

    fn read(&mut self, buffer: &mut [u8]) -> Result<Got, NetFault> {
        let got = self.wire.read(buffer);
        match got {
            Ok(Got::Octets(_)) => {
                self.turns_away();
                self.hear();
            }
            Ok(Got::Idle) => {
                if self.is_given_up() {
                    self.has_ended = true;
                    return Ok(Got::End);
                }
            }
            Ok(Got::End) => self.has_ended = true,
            Err(_) => self.has_failed = true,
        }
        got
    }

    fn write(&mut self, octets: &[u8]) -> Result<(), NetFault> {
        self.wire.write(octets)
    }
}
