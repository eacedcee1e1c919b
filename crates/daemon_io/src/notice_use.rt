//! Whether notices go over a connection.

ghost use Rattle.daemon_io.specs.NoticeUses.{IsNoticeUse};

use link_auth::PeerNonces;
use link_notices::understand_notices;

/// Whether notices go over a connection, beside the frames.
#[derive(Clone, Copy, Debug, PartialEq, Eq)]
pub enum NoticeUse {
    /// They do: both ends understand them.
    Understood,
    /// They don't: one end's program is of an older version.
    OlderPartner,
    /// They don't: the link has no key.
    NoKey,
}

impl NoticeUse {
    /// Whether they go over a connection whose ends drew these nonces; a link without a key has none.
    pub fn of(nonces: &Option<PeerNonces>) -> NoticeUse
        ensures { IsNoticeUse nonces.now result }
    {
        match nonces {
            None => NoticeUse::NoKey,
            Some(both) => {
                if understand_notices(&both.own, &both.other) {
                    NoticeUse::Understood
                } else {
                    NoticeUse::OlderPartner
                }
            }
        }
    }
}
