//! How many datagrams came, and what became of them.

ghost use Rattle.std.specs.Prelude.{◌≡◌};
ghost use Rattle.server_status.specs.Counts.{with_message, with_answer, with_fault};

use crate::units::one_more;
use dhcp6_pd::{ClientKind, PdFault, ServerKind};

/// What came of clients and relays, and what was sent to them, since the server began.
#[derive(Clone, Copy, Debug, PartialEq, Eq)]
pub struct Traffic {
    /// Messages that were read.
    pub messages: MessageCounts,
    /// Datagrams that are no message to the server.
    pub faults: FaultCounts,
    /// Answers that were sent.
    pub answers: AnswerCounts,
    /// IA_PDs that asked for a prefix which a quota refused.
    pub over_quota: u64,
    /// Messages that were read and have no answer.
    pub unanswered: u64,
    /// Answers whose lines were on the disk too late for the transit: they weren't sent.
    pub late: u64,
    /// Answers that are held back now, until their lines are on the disk.
    pub held: u64,
}

/// How many messages were read, by their types.
#[derive(Clone, Copy, Debug, PartialEq, Eq)]
pub struct MessageCounts {
    pub solicit: u64,
    pub request: u64,
    pub renew: u64,
    pub rebind: u64,
    pub release: u64,
}

/// How many answers were sent, by their types.
#[derive(Clone, Copy, Debug, PartialEq, Eq)]
pub struct AnswerCounts {
    pub advertise: u64,
    pub reply: u64,
}

/// How many datagrams were no message to the server, by their faults.
#[derive(Clone, Copy, Debug, PartialEq, Eq)]
pub struct FaultCounts {
    pub short: u64,
    pub option_length: u64,
    pub duplicate_id: u64,
    pub no_client_id: u64,
    pub server_id_present: u64,
    pub server_id_missing: u64,
    pub not_ours: u64,
    pub too_deep: u64,
    pub too_many_ias: u64,
    pub ignored: u64,
    pub bad_prefix_length: u64,
}

impl Traffic {
    /// Nothing came yet.
    pub const NONE: Traffic = Traffic {
        messages: MessageCounts {
            solicit: 0,
            request: 0,
            renew: 0,
            rebind: 0,
            release: 0,
        },
        faults: FaultCounts {
            short: 0,
            option_length: 0,
            duplicate_id: 0,
            no_client_id: 0,
            server_id_present: 0,
            server_id_missing: 0,
            not_ours: 0,
            too_deep: 0,
            too_many_ias: 0,
            ignored: 0,
            bad_prefix_length: 0,
        },
        answers: AnswerCounts {
            advertise: 0,
            reply: 0,
        },
        over_quota: 0,
        unanswered: 0,
        late: 0,
        held: 0,
    };
}

impl MessageCounts {
    /// Counts a message of this type.
    pub fn add(&mut self, kind: ClientKind)
        ensures { self.new ≡ with_message kind self.old }
    {
        match kind {
            ClientKind::Solicit => self.solicit = one_more(self.solicit),
            ClientKind::Request => self.request = one_more(self.request),
            ClientKind::Renew => self.renew = one_more(self.renew),
            ClientKind::Rebind => self.rebind = one_more(self.rebind),
            ClientKind::Release => self.release = one_more(self.release),
        }
    }

    /// The counts with their names.
    pub(crate) fn named(&self) -> [(&'static str, u64); 5] {
        [
            ("solicit", self.solicit),
            ("request", self.request),
            ("renew", self.renew),
            ("rebind", self.rebind),
            ("release", self.release),
        ]
    }
}

impl AnswerCounts {
    /// Counts an answer of this type.
    pub fn add(&mut self, kind: ServerKind)
        ensures { self.new ≡ with_answer kind self.old }
    {
        match kind {
            ServerKind::Advertise => self.advertise = one_more(self.advertise),
            ServerKind::Reply => self.reply = one_more(self.reply),
        }
    }

    /// The counts with their names.
    pub(crate) fn named(&self) -> [(&'static str, u64); 2] {
        [("advertise", self.advertise), ("reply", self.reply)]
    }
}

impl FaultCounts {
    /// Counts a datagram with this fault.
    pub fn add(&mut self, fault: PdFault)
        ensures { self.new ≡ with_fault fault self.old }
    {
        match fault {
            PdFault::Short => self.short = one_more(self.short),
            PdFault::OptionLength => self.option_length = one_more(self.option_length),
            PdFault::DuplicateId => self.duplicate_id = one_more(self.duplicate_id),
            PdFault::NoClientId => self.no_client_id = one_more(self.no_client_id),
            PdFault::ServerIdPresent => self.server_id_present = one_more(self.server_id_present),
            PdFault::ServerIdMissing => self.server_id_missing = one_more(self.server_id_missing),
            PdFault::NotOurs => self.not_ours = one_more(self.not_ours),
            PdFault::TooDeep => self.too_deep = one_more(self.too_deep),
            PdFault::TooManyIas => self.too_many_ias = one_more(self.too_many_ias),
            PdFault::Ignored => self.ignored = one_more(self.ignored),
            PdFault::BadPrefixLength => self.bad_prefix_length = one_more(self.bad_prefix_length),
        }
    }

    /// The counts with their names.
    pub(crate) fn named(&self) -> [(&'static str, u64); 11] {
        [
            ("short", self.short),
            ("option_length", self.option_length),
            ("duplicate_id", self.duplicate_id),
            ("no_client_id", self.no_client_id),
            ("server_id_present", self.server_id_present),
            ("server_id_missing", self.server_id_missing),
            ("not_ours", self.not_ours),
            ("too_deep", self.too_deep),
            ("too_many_ias", self.too_many_ias),
            ("ignored", self.ignored),
            ("bad_prefix_length", self.bad_prefix_length),
        ]
    }
}
