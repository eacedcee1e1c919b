//! Notices that are counted.

use node_threads::{EachOnce, Notice, Notices};
use std::sync::atomic::{AtomicUsize, Ordering};

/// How often each notice was told.
#[derive(Clone, Copy, Debug, PartialEq, Eq)]
pub struct Counts {
    pub journal_full: usize,
    pub partner_silent: usize,
    pub settings_differ: usize,
}

/// None was told.
pub const NONE: Counts = Counts {
    journal_full: 0,
    partner_silent: 0,
    settings_differ: 0,
};

/// Counts how often each notice is told.
#[derive(Drop)]
pub struct Noted {
    journal_full: AtomicUsize,
    partner_silent: AtomicUsize,
    settings_differ: AtomicUsize,
}

impl Noted {
    pub fn new() -> Noted {
        Noted {
            journal_full: AtomicUsize::new(0),
            partner_silent: AtomicUsize::new(0),
            settings_differ: AtomicUsize::new(0),
        }
    }

    /// Returns how often each was told.
    pub fn counts(&self) -> Counts {
        Counts {
            journal_full: self.journal_full.load(Ordering::SeqCst),
            partner_silent: self.partner_silent.load(Ordering::SeqCst),
            settings_differ: self.settings_differ.load(Ordering::SeqCst),
        }
    }
}

impl Notices for Noted {
    fn tell(&self, notice: Notice) {
        let count = match notice {
            Notice::JournalFull => &self.journal_full,
            Notice::PartnerSilent => &self.partner_silent,
            Notice::SettingsDiffer => &self.settings_differ,
        };
        count.fetch_add(1, Ordering::SeqCst);
    }
}

fn tell_each(notices: &impl Notices) {
    notices.tell(Notice::PartnerSilent);
    notices.tell(Notice::JournalFull);
    notices.tell(Notice::SettingsDiffer);
}

#[test]
fn each_notice_is_handed_on_once(rt: HostRuntime) {
    let noted = Noted::new();
    let once = EachOnce::new(&noted);
    assert_eq!(rt; noted.counts(), NONE);
    once.tell(Notice::JournalFull);
    once.tell(Notice::JournalFull);
    assert_eq!(rt;
        noted.counts(),
        Counts {
            journal_full: 1,
            ..NONE
        }
    );
    tell_each(&once);
    tell_each(&once);
    assert_eq!(rt;
        noted.counts(),
        Counts {
            journal_full: 1,
            partner_silent: 1,
            settings_differ: 1,
        }
    );
}
