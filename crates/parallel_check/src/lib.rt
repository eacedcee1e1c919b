//! Many audits over one source of lines, by many workers. The answer is the list that one worker gives.
//!
//! [`audit_all`] judges a list of certificates: the n-th verdict is `audit`'s on the n-th certificate. Its workers draw
//! indexes from one word by `fetch_add`; `word` has the four kinds of step, and specs/Drawing the rule that each keeps:
//! all workers together have drawn the numbers below the word, each once. A [`Gate`] is called round each audit, which
//! is how a test sees two at a time; [`OpenGate`] is one that holds nobody.
//!
//! specs/Verdicts is what it promises. specs/Counting, Drawing and Findings are for bodies only.
//!
//! ```text
//! let verdicts = audit_all(rt, alloc, &index, &certificates, skew, transit, 4, &OpenGate)?;
//! ```
#![tactic(auto)]

mod auditing;
mod batch;
mod drawing;
mod error;
mod gate;
mod settling;
mod sharing;
mod word;

pub use auditing::audit_all;
pub use error::CheckError;
pub use gate::{Gate, OpenGate};
