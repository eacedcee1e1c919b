//! Inputs of the desk that come in chunks.

use crate::inputs::{SKEW, WHOLE_HOUR};
use attribution_desk::{Command, DeskError, Watched, judge, run};
use lead_time::{Skew, Transit};
use std::alloc::Global;
use std::io;
use std::io::Read;
use std::sync::Wait;
use std::test::Fail;
use std::thread::Threads;

/// Gives at most so many octets at a time.
#[derive(Drop)]
struct Trickle<'a> {
    rest: &'a [u8],
    length: usize,
}

impl Read for Trickle<'_> {
    fn read(&mut self, buffer: &mut [u8]) -> io::Result<usize> {
        let length = self.length.min(buffer.len());
        self.rest.read(&mut buffer[..length])
    }
}

/// The command of these tests.
fn audit(skew: Skew) -> Command {
    Command::Audit {
        skew,
        transit: Transit::ZERO,
    }
}

/// Returns what the desk writes for an input that is read in chunks of this length.
fn line_in_chunks(
    rt: &(impl Threads + Wait + Sync),
    alloc: Global,
    input: &str,
    length: usize,
    skew: Skew,
) -> Result<Vec<u8>, DeskError> {
    let mut reader = Watched::new(Trickle {
        rest: input.as_bytes(),
        length,
    });
    let mut writer = Watched::new(Vec::new(alloc));
    run(rt, alloc, &audit(skew), &mut reader, &mut writer)?;
    Ok(writer.into_device())
}

/// More octets than a line of these inputs has.
const MOST: usize = 128;

/// Journals that begin with their close lines.
const NOTHING_OPENED: &str = "pd-journal 1 A
1 5 close
end 1
pd-journal 1 B
1 5 close
end 1
pd-certificate 1
holder 000300
prefix 0000:0000:0000:0000:0000:0000:0000:0000/0
interval 0 0
end
";

/// Inputs that are accepted or have a fault, in the journals or behind them, each with what the desk writes.
const INPUTS: [(&str, &str); 6] = [
    (WHOLE_HOUR, "accepted\n"),
    (NOTHING_OPENED, "refused L1 Rule A1 2\n"),
    ("pd-journal 1 A\n1 5 close\nend 1", "refused J2 Form A2\n"),
    (
        "pd-journal 1 A\n1 5 ending\nend 2\nendless\nend\n",
        "refused J2 Form A1\n",
    ),
    (
        "pd-journal 1 A\n1 5 close\nend 1\npd-journal 1 A\n1 5 close\nend 1\n",
        "refused J1 Head B\n",
    ),
    (
        "pd-journal 1 A\n1 5 close\nend 1\npd-journal 1 B\n1 5 close\nend 1\npd-certificate 1\nholder 00\n",
        "refused C2 Form 2\n",
    ),
];

#[test]
fn judges_chunks_of_each_length(rt: HostRuntime) -> Result<(), Fail> {
    let skew = Skew::new(SKEW)?;
    for (input, wanted) in INPUTS {
        let whole = judge(&rt, rt.alloc(), input.as_bytes(), skew, Transit::ZERO)?;
        assert_eq!(rt; whole.line.as_slice(), wanted.as_bytes());
        for length in 1..input.len().min(MOST) {
            let line = line_in_chunks(&rt, rt.alloc(), input, length, skew)?;
            assert_eq!(rt; line.as_slice(), wanted.as_bytes(), "in chunks of {length}");
        }
    }
    Ok(())
}
