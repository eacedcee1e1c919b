//! Programs that answer a call a line: each line of the input is a call and its arguments, and the line of the output
//! in its place is the answer. A line that is empty or begins with `#` is written as it stands, so that the two texts
//! go line by line, and a further case is a further line of both.
//!
//! Arguments stand between single spaces, and values are spelled as in a journal. Octets are pairs of hexadecimal
//! digits: `07*130` is 130 octets, `00+07*130` those behind another, and `-` none. A line that spells no call is
//! answered with `no such call`, one whose arguments are none of the call's with `no such arguments`.
//!
//! ```text
//! answer_lines(rt.alloc(), &Protocol, BufReader::new(rt.alloc(), rt.reader())?, io::writer(&rt))
//! ```
#![tactic(auto)]

mod arguments;
mod lines;
mod octets;

pub use arguments::Arguments;
pub use lines::{Calls, answer_lines};
pub use octets::octets_in;
