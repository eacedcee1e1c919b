//! One DHCPv6 client message, from request to reply. `answer_to` turns each IA_PD into an order, applies it to any
//! `BookService`, and encodes one `ClientReply`; `resend_lease` answers from the journal without writing a line where
//! a recent lease may be repeated. It has no socket, clock or thread, and an `Admission` decides which IA_PDs may be
//! served.
//!
//! [`answer_to`] gives a book the order of each IA_PD, and tells the client what came of it: it goes over any
//! [`BookService`], which [`ExclusiveService`] is for a book that nobody else serves, and [`SharedService`] for one
//! behind a lock. It has no input, clock or thread of its own.
//!
//! What is told stands in the journal. By the clause `told` of that call a [`ClientReply`]'s octets are the message
//! which tells each IA_PD, in its order, what the receipt of its own line says: the prefix and the lifetime that it
//! granted, or that it was released; or its first refusal; or of a SOLICIT what would be granted (specs/Telling for one
//! IA_PD, specs/Answering for the message). An IA_PD that may not be ordered is told what its `crate::permit::Permit`
//! says: that there is no prefix, or no binding, or nothing. By `silent` there is no answer but for a reason
//! ([`NoReplyReason`]) that is so.
//!
//! ```text
//! let message = decode(alloc, datagram, &own)?;
//! let service = SharedService { rt, book: &shared };
//! let now = clock.now()?;
//! let told = answer_to(alloc, &service, &mut pass, &own, &manner, PartnerAvailability::Up, &permits, now, &message, peer);
//! if let Ok(answer) = told { socket.send(answer.peer(), answer.octets())?; }
//! ```
//!
//! What a client's message may order of a server's book, as those decide who keep clients from taking too much.
//!
//! A server asks its [`Admission`] before it orders anything: of each IA_PD whether it may be ordered ([`Permit`]), or
//! that the message isn't heard at all ([`DropReason`]). An IA_PD that is denied is told NoPrefixAvail, one that is
//! unbound NoBinding, and of one that is omitted the answer says nothing; no line is written for any of them.
//! [`AllowAll`] lets all be ordered.
//!
//! ```text
//! let permits = admission.permits(&book, now, &message)?;  // by place; behind the end all may be ordered
//! let told = answer_to(alloc, &service, &mut pass, &own, partner, &permits, now, &message, peer);
//! admission.note(&book, &message);                       // which lines came of it
//! ```
//!
//! What a client has by a line of its server's journal, as it may be told again without another line.
//!
//! A client that asks again for what it was just given needs no new line: its grant stands in the journal, and it is
//! told the seconds that remain of it. [`find_reusable_lease`] says of an order what its client has so, by
//! [`ReuseTerms`]: how young the grant has to be, and by which margins the seconds are less. It is the last grant line of
//! the unit, and no line after it ended the lease (`Book::last_grant`).
//!
//! The definitions stand in specs/ReusableLeases. That whoever is told again has no prefix a moment longer than the
//! line gives it, and none past the end that the book has for it, is a law (`reuse_is_within_its_line`).
//!
//! What one server tells again its partner doesn't hear of. So a RELEASE that comes while the partner may tell the lease
//! again is early ([`has_early_release`]), where it may be ordered at all: a server orders nothing for it, and it has no
//! answer. After that the partner
//! tells nothing again that it granted before (`nothing_is_told_again`).
//!
//! ```text
//! let terms = ReuseTerms { floor: 360, skew, transit };
//! match find_reusable_lease(&book, &terms, now, &order)? {
//!     Some(standing) => tell(standing.prefix, standing.valid), // once line `reusable_lease.number` is on the disk
//!     None => book.apply(now, &order)?,
//! }
//! ```
#![tactic(auto)]

mod allow_all;
mod alone;
mod client_reply;
mod early_release;
mod grants;
mod ia_outcome;
mod lease_laws;
mod no_reply_reason;
mod ordering;
mod partner_availability;
mod permit;
mod permits;
mod remaining;
mod reusable_lease;
mod reusing;
mod service;
mod serving_ias;
mod shared;
mod terms;

pub use allow_all::AllowAll;
pub use alone::ExclusiveService;
pub use client_reply::{ClientReply, answer_information, answer_to, resend_lease};
pub use early_release::{has_early_release, is_early_release};
pub use lease_laws::{nothing_is_told_again, reuse_is_within_its_line};
pub use no_reply_reason::NoReplyReason;
pub use partner_availability::PartnerAvailability;
pub use permit::{Admission, DropReason, Permit};
pub use reusable_lease::{ReusableLease, find_reusable_lease};
pub use service::BookService;
pub use shared::SharedService;
pub use terms::ReuseTerms;
