//! A program that asks the crates of DHCPv6 messages: each line is a call and its arguments (`probe_lines`), and the
//! function that answers it says what it takes.
#![tactic(auto)]

mod messages;
mod router;

use probe_lines::{Arguments, Calls, answer_lines};
use std::alloc::{AllocError, Global};
use std::io;
use std::io::BufReader;

/// The calls of the crates of DHCPv6 messages.
struct Dhcp;

impl Calls for Dhcp {
    fn ask(
        &self,
        alloc: Global,
        name: &[u8],
        arguments: &mut Arguments<'_>,
        out: &mut Vec<u8>,
    ) -> Result<bool, AllocError> {
        match name {
            b"datagram" => messages::datagram(alloc, arguments, out)?,
            b"answer" => messages::answer(alloc, arguments, out)?,
            b"fronts" => messages::fronts(alloc, arguments, out)?,
            b"altered" => messages::altered(alloc, arguments, out)?,
            b"wishes" => router::wishes(alloc, arguments, out)?,
            b"information" => router::information(alloc, arguments, out)?,
            b"informed" => router::informed(alloc, arguments, out)?,
            b"advertised" => router::advertised(alloc, arguments, out)?,
            _ => return Ok(false),
        }
        Ok(true)
    }
}

fn main(rt: HostRuntime) -> io::Result<()> {
    let input = BufReader::new(rt.alloc(), rt.reader())?;
    answer_lines(rt.alloc(), &Dhcp, input, io::writer(&rt))
}
