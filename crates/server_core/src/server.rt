//! A server that runs.

ghost use Rattle.std.specs.Prelude.{◌≡◌, ◌+◌, ◌<◌, ◌∷◌, [], ◌++◌, List, length, IfOk, IfErr, OnErr, Err, None, vec_len};
ghost use Rattle.std.specs.Prelude.{vec_capacity};
ghost use Rattle.disk_model.specs.Later.{IsLater, LeavesFirst};
ghost use Rattle.open_volume.specs.Spelling.{text_lines};
ghost use Rattle.volume_store.specs.Volumes.{going_on, HasVolume};
ghost use Rattle.locked_book.specs.declared.receipt.Receipt.{Receipt as ReceiptValue};
ghost use Rattle.disk_model.specs.Names.{AreSettled};
ghost use Rattle.server_core.specs.Going.{CanContinue};
ghost use Rattle.server_core.specs.VolumeWriters.{Grows, IsCommitFailure, IsNotServed};
ghost use Rattle.std.specs.List.{AllByRecursion};
ghost use Rattle.server_core.specs.Served.{receipts_in, IsApplied};
ghost use Rattle.server_core.specs.Owing.{IsOwed};
ghost use Rattle.server_core.specs.Saying.{AreBacked, handed_of};
ghost use Rattle.server_core.specs.DatagramHandling.{IsHandled, IsInformed, Brings, partner_of};
ghost use Rattle.dhcp6_pd.specs.Answers.{Gives};
ghost use Rattle.dhcp6_pd.specs.Faults.{message_of};
ghost use Rattle.dhcp6_pd.specs.declared.message.ClientMessage.{ClientMessage as MessageValue};

use crate::committed_output::{CommittedOutput, HeldAnswer};
use crate::datagram_outcome::DatagramOutcome;
use crate::volume_writer::{CommitFailure, VolumeWriter};
use client_id::Duid;
use client_service::{
    Admission, DropReason, NoReplyReason, PartnerAvailability, ReuseTerms, answer_information,
    has_early_release,
};
use dhcp6_pd::{ClientMessage, PdError, PdFault, decode, decode_information};
use disk_model::Folder;
use failover_session::{FailoverSession, OutboundFrame};
use lead_time::Reading;
use locked_book::{Receipt, ServeError};
use order_book::{Book, Order};
use server_book::ReplyPolicy;
use std::alloc::Global;
use std::marker::Model;

/// A server that runs: its book, the file and the folder that keep it, what it holds back, and the talk with its
/// partner.
#[derive(Drop)]
pub struct ServerCore<F: Folder, P: Drop> {
    pub(crate) alloc: Global,
    pub(crate) own: Duid,
    pub(crate) terms: ReuseTerms,
    pub(crate) folder: F,
    pub(crate) volume: VolumeWriter<F::File>,
    pub(crate) held: Vec<HeldAnswer<P>>,
    pub(crate) talk: Option<FailoverSession>,
}

impl<F: Folder, P: Drop> Model for ServerCore<F, P> {
    ghost use Rattle.server_core.specs.ServerStates.{CoreState, IsServerCore};

    ghost Value = { CoreState P };

    ghost view = { λ r. record {
      own = r.own;
      terms = r.terms;
      names = F.calls r.folder;
      volume = r.volume;
      held = r.held.items;
      talk = r.talk;
    } };

    ghost invariant = { λ r. IsServerCore (record {
      own = r.own;
      terms = r.terms;
      names = F.calls r.folder;
      volume = r.volume;
      held = r.held.items;
      talk = r.talk;
    }) };
}

/// What a server takes its partner for.
fn partner_of(book: &Book) -> PartnerAvailability
    ensures { result ≡ partner_of book.now }
{
    match book.down() {
        Some(_) => PartnerAvailability::Down,
        None => PartnerAvailability::Up,
    }
}

/// A server whose lines are all on the disk, and what may leave now.
#[derive(Drop)]
pub struct Committed<F: Folder, P: Drop> {
    pub running: ServerCore<F, P>,
    pub leaving: CommittedOutput<P>,
}

impl<F: Folder + Drop, P: Drop> ServerCore<F, P>
where
    F::File: Drop,
{
    /// A server of an open volume in a folder, which tells grants again by these terms. It holds nothing back.
    pub fn new(
        alloc: Global,
        own: Duid,
        terms: ReuseTerms,
        folder: F,
        volume: VolumeWriter<F::File>,
    ) -> ServerCore<F, P>
        requires { AreSettled (F.calls folder) }
        ensures { result ≡ record {
          own = own;
          terms = terms;
          names = F.calls folder;
          volume = volume;
          held = [];
          talk = None;
        } }
    {
        ServerCore {
            alloc,
            own,
            terms,
            folder,
            volume,
            held: Vec::new(alloc),
            talk: None,
        }
    }

    /// The book of the open volume.
    pub fn book(&self) -> &Book
        ensures { result.now ≡ self.now.volume.served.journal }
    {
        self.volume.book()
    }

    /// Returns how many lines of the book are on the disk.
    pub fn kept(&self) -> usize
        ensures { result ≡ self.now.volume.kept }
    {
        self.volume.kept()
    }

    /// Hears a datagram that came from a peer at a reading. Where it is a client's message to this server, its orders,
    /// of a RELEASE one for each prefix, are done, those that the admission lets be, or it is told again what it has;
    /// the answer is held back until the next `commit`. Where it is a request for options alone, and the server's
    /// manner has some, so is the answer to that. Of a message that the admission doesn't hear, and of a RELEASE that
    /// comes too early where it may be ordered, nothing is done (`client_service::has_early_release`).
    pub fn handle_datagram<A: Admission>(
        &mut self,
        admission: &mut A,
        manner: &ReplyPolicy,
        read: Reading,
        datagram: &[u8],
        peer: P,
    ) -> DatagramOutcome
        ensures heard { IsHandled (A.lets admission.old) (A.drops admission.old) self.old.own manner.now
            self.old.terms peer datagram.now read self.old.volume self.new.volume self.old.held self.new.held result }
        ensures grows { (added : List ReceiptValue) × Grows self.old.volume self.new.volume added }
        ensures rest { self.new ≡ record self.old { volume = self.new.volume; held = self.new.held } }
    {
        let message = match message_in(self.alloc, datagram, &self.own) {
            Ok(message) => message,
            Err(error) => return self.handle_information(manner, read, datagram, peer, error),
        };
        match self.held.reserve(1) {
            Ok(()) => {}
            Err(_) => return DatagramOutcome::Unanswered(NoReplyReason::Memory),
        }
        let permits = match admission.permits(self.volume.book(), read, &message) {
            Ok(permits) => permits,
            Err(DropReason::TooMany) => return DatagramOutcome::TooMany,
            Err(DropReason::LeftToPartner) => return DatagramOutcome::LeftToPartner,
            Err(DropReason::Memory) => return DatagramOutcome::Unanswered(NoReplyReason::Memory),
        };
        if has_early_release(self.volume.book(), &self.terms, read, &message, &permits) {
            return DatagramOutcome::EarlyRelease;
        }
        let partner = partner_of(self.volume.book());
        let said = self.volume.answer(
            self.alloc,
            &self.own,
            manner,
            partner,
            &self.terms,
            &permits,
            read,
            &message,
            peer,
        );
        admission.record_outcome(self.volume.book(), &message);
        match said {
            Ok(answer) => {
                hold(&mut self.held, HeldAnswer { answer, read });
                DatagramOutcome::Answered(message.kind)
            }
            Err(why) => DatagramOutcome::Unanswered(why),
        }
    }

    /// Hears a datagram that is no message about prefixes, for this error: a request for options alone is answered
    /// where the server's manner has some.
    fn handle_information(
        &mut self,
        manner: &ReplyPolicy,
        read: Reading,
        datagram: &[u8],
        peer: P,
        error: PdError,
    ) -> DatagramOutcome
        requires { Gives (λ (m : MessageValue). m) (Err error) (message_of self.old.own datagram.now) }
        ensures informed { IsInformed self.old.own manner.now peer datagram.now read self.old.held self.new.held
            result }
        ensures rest { self.new ≡ record self.old { held = self.new.held } }
    {
        if error != PdError::Fault(PdFault::Ignored) || !manner.has_options() {
            return DatagramOutcome::Malformed(error);
        }
        let request = match decode_information(self.alloc, datagram, &self.own) {
            Ok(request) => request,
            Err(error) => return DatagramOutcome::Malformed(error),
        };
        match self.held.reserve(1) {
            Ok(()) => {}
            Err(_) => return DatagramOutcome::UnansweredInformation(NoReplyReason::Memory),
        }
        match answer_information(self.alloc, &self.own, manner, request, peer) {
            Ok(answer) => {
                let informs = HeldAnswer { answer, read };
                hold(&mut self.held, informs);
                DatagramOutcome::AnsweredInformation
            }
            Err(why) => DatagramOutcome::UnansweredInformation(why),
        }
    }

    /// Does what is ordered: adds one line to the book. Of a refusal nothing is changed: it is the book's own, or
    /// `Memory`.
    pub fn serve(&mut self, now: Reading, order: &Order) -> Result<Receipt, ServeError>
        ensures applied { IfOk result
            (IsApplied self.old.volume.served self.new.volume.served now order.now) }
        ensures refused { IfErr result (λ e. (self.new.volume ≡ self.old.volume)
            × IsNotServed self.old.volume.served.journal now order.now e) }
        ensures grows { (added : List ReceiptValue) × Grows self.old.volume self.new.volume added }
        ensures rest { self.new ≡ record self.old { volume = self.new.volume } }
    {
        self.volume.serve(now, order)
    }

    /// Puts all lines that the file lacks to it, by one write and one sync, and only then gives what was held back.
    pub fn commit(self) -> Result<Committed<F, P>, CommitFailure<F::File>>
        ensures volume { IfOk result (λ s.
            HasVolume s.running.volume.calls (going_on s.running.volume.served.journal)) }
        ensures served { IfOk result (λ s. s.running.volume.served ≡ self.volume.served) }
        ensures all { IfOk result (λ s. s.running.volume.kept ≡ length s.running.volume.served.journal.lines) }
        ensures names { IfOk result (λ s. s.running.names ≡ self.names) }
        ensures goes_on { IfOk result (λ s. CanContinue self.volume) }
        ensures answers { IfOk result (λ s. (s.leaving.answers.items ≡ self.held) × (s.running.held ≡ [])) }
        // All that leaves is what these receipts say, and those that aren't older are of the lines that are on the
        // disk.
        ensures owed { IfOk result (λ s. AllByRecursion (λ h. IsOwed self.own self.terms (receipts_in
            self.volume.served) h.answer)
            s.leaving.answers.items) }
        ensures said { IfOk result (λ s. AreBacked (receipts_in self.volume.served) s.leaving.frames.items) }
        ensures frames { IfOk result (λ s. s.leaving.frames.items ≡ handed_of self.talk) }

        ensures later { IfOk result (λ s. IsLater self.volume.calls s.running.volume.calls) }
        ensures any_moment { IfOk result (λ s. LeavesFirst (text_lines (going_on self.volume.served.journal))
            (self.volume.kept + 1) self.volume.calls s.running.volume.calls) }
        ensures refused { IfErr result (λ e. IsCommitFailure self.volume (F.File.calls e.file.device) e.why) }
    {
        let ServerCore {
            alloc,
            own,
            terms,
            folder,
            volume,
            held,
            mut talk,
        } = self;
        let volume = volume.commit(alloc)?;
        let frames = frames_of(alloc, &mut talk);
        Ok(Committed {
            running: ServerCore {
                alloc,
                own,
                terms,
                folder,
                volume,
                held: Vec::new(alloc),
                talk,
            },
            leaving: CommittedOutput::new(held, frames),
        })
    }
}

/// The client's message to a server that a datagram is; of a RELEASE its IA_PDs stand once for each of their prefixes.
fn message_in(alloc: Global, datagram: &[u8], own: &Duid) -> Result<ClientMessage, PdError>
    ensures brought { IfOk result (λ m. Brings own.now datagram.now m) }
    ensures unread { IfErr result (λ e. Gives (λ (m : MessageValue). m) (Err e) (message_of own.now datagram.now)) }
{
    match decode(alloc, datagram, own) {
        Ok(message) => Ok(message.by_prefix()),
        Err(error) => Err(error),
    }
}

/// Takes the frames that a talk hands out, if there is one.
fn frames_of(alloc: Global, talk: &mut Option<FailoverSession>) -> Vec<OutboundFrame>
    ensures frames { result.items ≡ handed_of talk.old }
    ensures none { handed_of talk.new ≡ [] }
{
    match talk {
        Some(talk) => talk.take_frames(),
        None => Vec::new(alloc),
    }
}

/// Holds an answer back behind the others, where there is room.
fn hold<P: Drop>(held: &mut Vec<HeldAnswer<P>>, answer: HeldAnswer<P>)
    requires { vec_len held.old < vec_capacity held.old }
    ensures { held.new.items ≡ held.old.items ++ answer ∷ [] }
{
    let _in_place = held.push(answer);
}
