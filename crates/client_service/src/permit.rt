//! Who may order what.

ghost use Rattle.std.specs.Prelude.{◌≡◌, ℕ, List, IfOk, IfErr};
ghost use Rattle.client_service.specs.Answering.{is_ordered};
ghost use Rattle.client_service.specs.declared.permit.DropReason.{DropReason as DropReasonValue};
ghost use Rattle.client_service.specs.declared.permit.DropReason.TheVariants.{Memory};
ghost use Rattle.dhcp6_pd.specs.declared.message.ClientMessage.{ClientMessage as MessageValue};
ghost use Rattle.journal_lines.specs.declared.line.Journal.{Journal};
ghost use Rattle.client_service.specs.declared.permit.Permit.{Permit as PermitValue};

use dhcp6_pd::ClientMessage;
use lead_time::Reading;
use order_book::Book;
use std::alloc::AllocError;
use thiserror::Error;

/// Whether an IA_PD may be ordered, and what its client is told where it may not.
#[derive(Clone, Copy, Debug, PartialEq, Eq)]
pub enum Permit {
    /// It is ordered of the book, or offered; or what its client has is told again.
    Allowed,
    /// It is ordered of the book, or offered: nothing is told again.
    Anew,
    /// Its client is told NoPrefixAvail, and nothing is ordered.
    Denied,
    /// Its client is told NoBinding, and nothing is ordered.
    Unbound,
    /// The answer says nothing of it, and nothing is ordered.
    Omitted,
}

impl Permit {
    /// Returns whether the IA_PD may be ordered.
    pub fn is_ordered(self) -> bool
        ensures { result ≡ is_ordered self }
    {
        match self {
            Permit::Allowed | Permit::Anew => true,
            Permit::Denied | Permit::Unbound | Permit::Omitted => false,
        }
    }
}

/// Why a message isn't heard.
#[derive(Clone, Copy, Debug, PartialEq, Eq, Error)]
pub enum DropReason {
    /// Its client sends too many.
    #[error("too many messages of one client")]
    TooMany,
    /// The partner knows of all that it asks for, and this server doesn't: the partner answers it.
    #[error("it is left to the partner")]
    LeftToPartner,
    /// A growth was refused.
    #[error("out of memory")]
    Memory,
}

/// What decides which IA_PDs of clients' messages may be ordered.
pub trait Admission {
    /// What it lets be ordered of a message, at a book and a reading.
    ghost lets: { Self → Journal → ℕ → MessageValue → List PermitValue → Type 0 };

    /// For which reasons it doesn't hear a message, at a book and a reading.
    ghost drops: { Self → Journal → ℕ → MessageValue → DropReasonValue → Type 0 };

    /// Says of each IA_PD of a message, in its order, whether it may be ordered; those behind the end of the list may.
    /// Or that the message isn't heard.
    fn permits(
        &mut self,
        book: &Book,
        now: Reading,
        message: &ClientMessage,
    ) -> Result<Vec<Permit>, DropReason>
        ensures admitted { IfOk result (λ permits. lets self.old book.now now message.now permits.items) }
        ensures dropped { IfErr result (λ why. drops self.old book.now now message.now why) };

    /// Notes what became of the message that it was asked about last: the book has the lines that its orders added.
    fn record_outcome(&mut self, book: &Book, message: &ClientMessage);
}

impl From<AllocError> for DropReason {
    ghost from_gives = { λ _ e. e ≡ Memory };

    fn from(_error: AllocError) -> DropReason {
        DropReason::Memory
    }
}
