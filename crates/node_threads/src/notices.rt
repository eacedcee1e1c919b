//! What an engine tells the person who runs a node.

use std::sync::atomic::{AtomicBool, Ordering};

/// What a person who runs a node is to know.
#[derive(Clone, Copy, Debug, PartialEq, Eq)]
pub enum Notice {
    /// The journal has room for its close line alone: what a client or the partner asks is refused.
    JournalFull,
    /// A connection to the partner stands, and for 10 s no octets came over it.
    PartnerSilent,
    /// The partner refused a unit that was moved to it, or told of a prefix that is no unit here.
    SettingsDiffer,
}

/// Where an engine tells the person who runs it. It may tell the same again and again.
pub trait Notices {
    fn tell(&self, notice: Notice);
}

/// Tells a notice, if there is one.
pub(crate) fn tell_any<V: Notices>(notices: &V, notice: Option<Notice>) {
    if let Some(notice) = notice {
        notices.tell(notice);
    }
}

/// Tells nobody.
#[derive(Clone, Copy)]
pub struct NoNotices;

impl Notices for NoNotices {
    fn tell(&self, _notice: Notice) {}
}

/// Hands each notice on once: the first time that it is told, by whichever thread.
#[derive(Drop)]
pub struct EachOnce<'a, V: Notices> {
    to: &'a V,
    /// Whether that was told; the same of the others.
    journal_full: AtomicBool,
    partner_silent: AtomicBool,
    settings_differ: AtomicBool,
}

impl<'a, V: Notices> EachOnce<'a, V> {
    /// Hands them on there. None was told yet.
    pub fn new(to: &'a V) -> EachOnce<'a, V> {
        EachOnce {
            to,
            journal_full: AtomicBool::new(false),
            partner_silent: AtomicBool::new(false),
            settings_differ: AtomicBool::new(false),
        }
    }
}

impl<V: Notices> Notices for EachOnce<'_, V> {
    fn tell(&self, notice: Notice) {
        let was_told = match notice {
            Notice::JournalFull => &self.journal_full,
            Notice::PartnerSilent => &self.partner_silent,
            Notice::SettingsDiffer => &self.settings_differ,
        };
        if !was_told.swap(true, Ordering::SeqCst) {
            self.to.tell(notice);
        }
    }
}
