//! Readers and writers that fail.

use crate::inputs::{CHAINED, CHAINED_IN_ORDER, SKEW, WHOLE_HOUR};
use attribution_desk::{Command, DeskError, Watched, run};
use lead_time::{Skew, Transit};
use std::io;
use std::io::{ErrorKind, Read, Write};
use std::test::Fail;

/// Gives so many octets at a time, and fails at the call of this number, counted from 1.
#[derive(Drop)]
struct Failing<'a> {
    rest: &'a [u8],
    length: usize,
    calls: u32,
    fails_at: u32,
}

impl Read for Failing<'_> {
    fn read(&mut self, buffer: &mut [u8]) -> io::Result<usize> {
        self.calls = self.calls.saturating_add(1);
        if self.calls == self.fails_at {
            return Err(io::Error::from(ErrorKind::Other));
        }
        let length = self.length.min(buffer.len());
        self.rest.read(&mut buffer[..length])
    }
}

fn audit() -> Result<Command, Fail> {
    Ok(Command::Audit {
        skew: Skew::new(SKEW)?,
        transit: Transit::ZERO,
    })
}

#[test]
fn tells_a_read_that_fails(rt: HostRuntime) -> Result<(), Fail> {
    // 64 octets at a time: the end is the last call
    for (command, input) in [(audit()?, WHOLE_HOUR), (Command::Timeline, CHAINED)] {
        let calls = input.len().div_ceil(64) as u32 + 1;
        for fails_at in 1..calls + 2 {
            let mut reader = Watched::new(Failing {
                rest: input.as_bytes(),
                length: 64,
                calls: 0,
                fails_at,
            });
            let mut writer = Watched::new(Vec::new(rt.alloc()));
            let outcome = run(&rt, rt.alloc(), &command, &mut reader, &mut writer);
            let wanted = if fails_at <= calls {
                Err(DeskError::Read)
            } else {
                Ok(0)
            };
            assert_eq!(rt;
                outcome.map(|it| it.status),
                wanted,
                "failing at {fails_at}"
            );
            assert_eq!(rt; reader.has_failed(), fails_at <= calls);
            assert!(rt; !writer.has_failed());
            assert_eq!(rt; writer.into_device().is_empty(), fails_at <= calls);
        }
    }
    Ok(())
}

/// Fails at the call of this number, counted from 1, or takes nothing there.
#[derive(Drop)]
struct Broken {
    taken: Vec<u8>,
    calls: u32,
    fails_at: u32,
    tells: bool,
}

impl Write for Broken {
    fn write(&mut self, octets: &[u8]) -> io::Result<usize> {
        self.calls = self.calls.saturating_add(1);
        if self.calls == self.fails_at {
            return if self.tells {
                Err(io::Error::from(ErrorKind::Other))
            } else {
                Ok(0)
            };
        }
        let length = octets.len().min(512);
        self.taken.write(&octets[..length])
    }

    fn flush(&mut self) -> io::Result<()> {
        Ok(())
    }
}

#[test]
fn tells_a_write_that_fails(rt: HostRuntime) -> Result<(), Fail> {
    for tells in [true, false] {
        // the timeline has less than four times 512 octets
        for fails_at in 1..6u32 {
            let mut reader = Watched::new(CHAINED.as_bytes());
            let mut writer = Watched::new(Broken {
                taken: Vec::new(rt.alloc()),
                calls: 0,
                fails_at,
                tells,
            });
            let outcome = run(
                &rt,
                rt.alloc(),
                &Command::Timeline,
                &mut reader,
                &mut writer,
            );
            let calls = CHAINED_IN_ORDER.len().div_ceil(512) as u32;
            let wanted = if fails_at <= calls {
                Err(DeskError::Write)
            } else {
                Ok(0)
            };
            assert_eq!(rt;
                outcome.map(|it| it.status),
                wanted,
                "failing at {fails_at}"
            );
            assert_eq!(rt; writer.has_failed(), fails_at <= calls);
            assert!(rt; !reader.has_failed());
        }
    }
    Ok(())
}
