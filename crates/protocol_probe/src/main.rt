//! A program that asks the protocol's crates but for DHCPv6: each line is a call and its arguments (`probe_lines`), and
//! the function that answers it says what it takes.
#![tactic(auto)]

mod balance;
mod binding;
mod call;
mod frames;
mod prefixes;
mod table;
mod texts;
mod times;
mod unit_words;

use call::Call;
use probe_lines::{Arguments, Calls, answer_lines};
use std::alloc::{AllocError, Global};
use std::io;
use std::io::BufReader;

/// The calls of the protocol's crates.
struct Protocol;

/// Asks what a call says, and appends the answer, with a space before each word.
fn ask(
    alloc: Global,
    call: Call,
    arguments: &mut Arguments<'_>,
    out: &mut Vec<u8>,
) -> Result<(), AllocError> {
    match call {
        Call::Cuts => texts::cuts(arguments, out),
        Call::Number => texts::number(arguments, out),
        Call::Octets => texts::octets(alloc, arguments, out),
        Call::Digits => texts::digits(alloc, arguments, out),
        Call::Words => texts::words(arguments, out),
        Call::Prefix => prefixes::prefix(alloc, arguments, out),
        Call::Canonical => prefixes::canonical(alloc, arguments, out),
        Call::Unit => prefixes::unit_of(alloc, arguments, out),
        Call::Compare => prefixes::compare(arguments, out),
        Call::Duid => prefixes::duid(alloc, arguments, out),
        Call::DuidText => prefixes::duid_text(alloc, arguments, out),
        Call::IaidText => prefixes::iaid_text(alloc, arguments, out),
        Call::Limits => times::limits(alloc, arguments, out),
        Call::Bounds => times::bounds(alloc, arguments, out),
        Call::ToldEnd => times::told(arguments, out),
        Call::OwnEnd => times::own(arguments, out),
        Call::Ended => times::is_over(arguments, out),
        Call::Allowed => times::allowed(arguments, out),
        Call::Takeover => times::taken_over(arguments, out),
        Call::Target => balance::share(arguments, out),
        Call::Choose => balance::moved(alloc, arguments, out),
        Call::Partner => binding::other_server(arguments, out),
        Call::Update => binding::update(arguments, out),
        Call::Reply => binding::reply(arguments, out),
        Call::Grantable => binding::may_grant(arguments, out),
        Call::Renewable => binding::may_renew(arguments, out),
        Call::Table => table::rows(arguments, out),
        Call::Frame => frames::frame(alloc, arguments, out),
        Call::Feed => frames::feed(alloc, arguments, out),
        Call::Pieces => frames::pieces(alloc, arguments, out),
    }
}

impl Calls for Protocol {
    fn ask(
        &self,
        alloc: Global,
        name: &[u8],
        arguments: &mut Arguments<'_>,
        out: &mut Vec<u8>,
    ) -> Result<bool, AllocError> {
        match Call::named(name) {
            Some(call) => {
                ask(alloc, call, arguments, out)?;
                Ok(true)
            }
            None => Ok(false),
        }
    }
}

fn main(rt: HostRuntime) -> io::Result<()> {
    let input = BufReader::new(rt.alloc(), rt.reader())?;
    answer_lines(rt.alloc(), &Protocol, input, io::writer(&rt))
}
