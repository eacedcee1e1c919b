//! A server's book as its clients use it: what a message of theirs orders, and the message that answers it.
//!
//! `order_of` takes the order of each IA_PD out of a client's message, and `answer_of` makes the message that answers
//! it in a server's [`ReplyPolicy`], of what became of each (specs/Messages, specs/ReplyPolicy); `information_answer`
//! answers a request for options alone. The book that does what is ordered is that of `order_book`, its settings are
//! those of `server_settings`: this crate hands their items on, so that who serves clients names one crate.
//!
//! ```text
//! let mut book = Book::open(alloc, now, &read_settings(alloc, text)?)?;
//! let order = order_of(&message, 0); // that of the message's first IA_PD
//! ```
#![tactic(auto)]

mod messages;
mod reply_policy;

pub use messages::{IaAnswer, answer_of, information_answer, order_of};
pub use order_book::{
    Book, BookError, LeaseRequest, Order, Reply, answer_is_one, opening_is_legal,
};
pub use reply_policy::{AddressRule, RebindUnknown, ReplyPolicy};
pub use server_settings::{OpenError, Settings, read_settings};
