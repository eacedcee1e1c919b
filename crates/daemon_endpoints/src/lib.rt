//! The three parties that a daemon talks to, each over its socket: clients (`ClientEndpoint`), the partner
//! (`PartnerEndpoint`) and the operator (`ControlServer`). They pass what arrives to `ServerCore` and send only what a
//! commit released. They don't wait; the daemon's loop calls them in turn.
//!
//! Each party is heard in a turn, and told what was held back for it once the lines that this tells of are on the disk.
//! They stand on devices that don't wait (`daemon_io`), and on a server that runs (`server_core`).
//!
//! ```text
//! clients.receive(&mut running, &manner, reach, &clocks, &mut log)?;
//! contact.note(partner.receive(&mut running, &settings, &now, &clocks, &mut log)?);
//! let Committed { mut running, leaving } = running.commit()?;
//! send_committed(&mut clients, &mut partner, &mut running, &answers, &frames, &clocks, &now, &mut log);
//! desk.send_replies(now.instant);
//! ```
#![tactic(auto)]

mod arrival;
mod clients;
mod control_server;
mod handing;
mod parting;
mod partner;
mod partner_arrival;
mod partner_contact;
mod partner_view;
mod peer_connection;
mod peer_notices;
mod receiving;
mod sending;

pub use arrival::Arrival;
pub use clients::ClientEndpoint;
pub use control_server::ControlServer;
pub use partner::PartnerEndpoint;
pub use partner_arrival::PartnerArrival;
pub use partner_contact::PartnerContact;
pub use receiving::ReceiveError;
pub use sending::send_committed;
