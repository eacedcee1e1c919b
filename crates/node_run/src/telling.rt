//! What the node's engines tell a person, a line each.

use node_threads::{Notice, Notices};

/// Prints a line for each notice.
#[derive(Drop)]
pub struct NoticeLines<'a, P: Print> {
    pub notes: &'a P,
}

impl<P: Print> Notices for NoticeLines<'_, P> {
    fn tell(&self, notice: Notice) {
        let _ = match notice {
            Notice::JournalFull => println!(self.notes;
                "node: its journal is full: it answers no client and takes nothing of its partner's"
            ),
            Notice::PartnerSilent => println!(self.notes;
                "node: heard nothing of its partner for 10 s: it has nothing to tell, or the link is broken"
            ),
            Notice::SettingsDiffer => println!(self.notes;
                "node: its partner refused a unit, or told of one that isn't there: compare the settings of both"
            ),
        };
    }
}
