//! What two servers tell each other by notices over one connection, and whether that keeps them apart.
//!
//! Each end says its settings and asks what the partner's clock shows. The two may join once both the partner's settings
//! and its first answer have come, and neither keeps them apart ([`NoticeExchange::stage`], specs/Exchanges.antt).
//!
//! A [`NoticeTalk`] is one end of such a connection: it parts what comes, and gives the notices that are due. The session
//! of frames begins with [`LinkEvent::Begins`].
//!
//! ```text
//! let mut talk = NoticeTalk::new(alloc, &settings)?;
//! talk.take(&octets, now.reading, &mut events)?;
//! for notice in talk.due(&now)? { write(&encode_notice(alloc, &notice)?); }
//! ```
#![tactic(auto)]

mod exchange;
mod own_settings;
mod stage;
mod talk;

pub use exchange::{ClockQuestion, NoticeExchange, PartnerProgram, PartnerSettings};
pub use own_settings::pair_settings;
pub use stage::{ExchangeStage, KeptApart};
pub use talk::{LinkEvent, NoticeTalk, Overdue, TalkEnd};
