//! A server's book by lines: each line of standard input is a call with its words, and the line of standard output in
//! its place is what it answers. Empty lines and those that begin with `#` are written as they stand.
//!
//! A call that begins a book gives it a letter, by which later ones speak of it. Each module says how its calls are
//! spelled; numbers, identifiers, prefixes and journal lines are spelled as docs/FORMATS.md says.
//!
//! ```text
//! settings role = "primary"\nduid = "00030001020000000009"\n..
//! open A 9000
//! order A 10000 request 00030001020000000001 00000001 -
//! ask A lines
//! ```
#![tactic(auto)]

mod datagrams;
mod fault;
mod links;
mod orders;
mod questions;
mod replies;
mod settings;
mod shelf;
mod visits;
mod volumes;
mod words;

use datagrams::Orders;
use fault::Fault;
use shelf::Shelf;
use std::alloc::Global;
use std::io;
use std::io::{BufRead, BufReader, BufWriter, Write};
use words::Words;

/// What lines leave for later ones.
#[derive(Drop)]
struct Probe {
    /// The text of the last settings.
    settings: String,
    /// The text of the last journal.
    journal: String,
    shelf: Shelf,
}

impl Probe {
    fn new(alloc: Global) -> Probe {
        Probe {
            settings: String::new(alloc),
            journal: String::new(alloc),
            shelf: Shelf::new(alloc),
        }
    }

    /// The answer to a call that is about texts or begins a book.
    fn begin(
        &mut self,
        alloc: Global,
        call: &str,
        words: &mut Words<'_>,
        out: &mut Vec<u8>,
    ) -> Result<(), Fault> {
        match call {
            "settings" => settings::add_settings(alloc, &mut self.settings, words, out),
            "more" => settings::add_more(alloc, &mut self.settings, words, out),
            "change" => settings::add_changed(alloc, self.settings.as_str(), words, out),
            "octets" => settings::add_octets(alloc, words, out),
            "head" => volumes::add_head(&mut self.journal, words, out),
            "line" => volumes::add_line(&mut self.journal, words, out),
            "open" => {
                volumes::add_opened(alloc, &mut self.shelf, self.settings.as_str(), words, out)
            }
            "link" => {
                links::add_begun(alloc, &mut self.shelf, self.settings.as_str(), words, out)
            }
            "replay" => {
                volumes::add_replayed(alloc, &mut self.shelf, self.journal.as_str(), words, out)
            }
            _ => Err(Fault::Words),
        }
    }

    /// The answer to a call.
    fn answer(
        &mut self,
        alloc: Global,
        words: &mut Words<'_>,
        out: &mut Vec<u8>,
    ) -> Result<(), Fault> {
        match words.next() {
            "order" => orders::add_ordered(alloc, &mut self.shelf, words, out),
            "offer" => orders::add_offered(alloc, &self.shelf, words, out),
            "again" => orders::add_again(alloc, &self.shelf, words, out),
            "tell" => orders::add_told(alloc, &mut self.shelf, words, out),
            "ask" => questions::add_answer(alloc, &self.shelf, words, out),
            "datagram" => datagrams::add_answered(alloc, &mut self.shelf, words, out),
            "told" => datagrams::add_told(alloc, &mut self.shelf, words, Orders::First, out),
            "each" => datagrams::add_told(alloc, &mut self.shelf, words, Orders::EachPrefix, out),
            "copy" => volumes::add_copied(alloc, &mut self.shelf, words, out),
            "next" => volumes::add_next(alloc, &mut self.shelf, words, out),
            "quiet" => links::add_quiet(alloc, &mut self.shelf, words, out),
            "beat" => links::add_beat(alloc, &mut self.shelf, words, out),
            "over" => links::add_over(alloc, &mut self.shelf, words, out),
            "hear" => links::add_heard(alloc, &mut self.shelf, words, out),
            "carry" => links::add_carried(alloc, &mut self.shelf, words, out),
            "front" => links::add_front(alloc, &mut self.shelf, words, out),
            "lose" => links::add_lost(alloc, &mut self.shelf, words, out),
            "visits" => visits::add_visits(&mut self.shelf, words, out),
            "same" => visits::add_same(alloc, &self.shelf, words, out),
            call => self.begin(alloc, call, words, out),
        }
    }
}

/// Returns what stands in a line's place.
fn answered(alloc: Global, probe: &mut Probe, line: &str) -> io::Result<Vec<u8>> {
    let mut out = Vec::new(alloc);
    if line.is_empty() || line.starts_with('#') {
        out.extend_from_slice(line.as_bytes())?;
        return Ok(out);
    }
    match probe.answer(alloc, &mut Words::new(line), &mut out) {
        Ok(()) => Ok(out),
        Err(Fault::Memory) => Err(io::Error::from(io::ErrorKind::OutOfMemory)),
        Err(Fault::NoBook) => Ok(Vec::from_slice(alloc, b" no such book")?),
        Err(Fault::Words) => Ok(Vec::from_slice(alloc, b" not understood")?),
    }
}

fn main(rt: HostRuntime) -> io::Result<()> {
    let mut probe = Probe::new(rt.alloc());
    let mut out = BufWriter::new(rt.alloc(), io::writer(&rt))?;
    for line in BufReader::new(rt.alloc(), rt.reader())?.lines(rt.alloc()) {
        let line = line?;
        let answer = answered(rt.alloc(), &mut probe, line.as_str())?;
        // Each word is written behind a space.
        out.write_all(answer.strip_prefix(b" ").unwrap_or(&answer))?;
        out.write_all(b"\n")?;
    }
    out.flush()
}
