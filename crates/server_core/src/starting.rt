//! The start of a server, with what its folder led to.

ghost use Rattle.std.specs.Prelude.{◌≡◌, ◌-◌, ◌≤◌, ◌∷◌, [], length, IfOk, None};
ghost use Rattle.disk_model.specs.Disk.{opened};
ghost use Rattle.disk_model.specs.Names.{names_after, AreSettled};
ghost use Rattle.order_book.specs.NextBook.{MayRoll};
ghost use Rattle.order_book.specs.declared.order.Order.TheVariants.{Restart};
ghost use Rattle.server_settings.specs.Settings.{opening};
ghost use Rattle.locked_book.specs.declared.receipt.Receipt.{Receipt as ReceiptValue};
ghost use Rattle.server_core.specs.Served.{IsApplied};
ghost use Rattle.journal_lines.specs.declared.line.Journal.{Journal};
ghost use Rattle.journal_lines.specs.declared.line.Line.{Line as LineValue};
ghost use Rattle.order_book.specs.Replayed.{with_line};
ghost use Rattle.volume_store.specs.Folder.{AreVolumesSoFar};
ghost use Rattle.server_core.specs.Terms.{terms_of};
ghost use Rattle.server_core.specs.Beginning.{Begins, BeginsBehind, HasBook, HasNextBook, HasSameFiles};
ghost use Rattle.open_volume.specs.Spelling.{IsWrittenSoFar};
ghost use Rattle.volume_store.specs.Volumes.{going_on, HasVolume};

use crate::book::ReceiptBook;
use crate::error::BeginFault;
use crate::rolling::rolled;
use crate::server::ServerCore;
use crate::volume_writer::VolumeWriter;
use client_service::ReuseTerms;
use disk_model::Folder;
use lead_time::Reading;
use locked_book::Receipt;
use order_book::{Book, Order};
use server_settings::Settings;
use std::alloc::Global;
use volume_store::{BegunVolume, begin_first, begin_next, reopen, reopen_ended};

/// What a server begins by: its settings, what its clock reads, and the receipts of volumes before the last one.
#[derive(Drop)]
pub struct StartContext<'a> {
    pub alloc: Global,
    pub settings: &'a Settings,
    pub now: Reading,
    pub older: Vec<Receipt>,
    /// The age, in seconds, from which on a grant isn't told again: with 0 none is.
    pub renew_floor: u32,
}

/// By what a server of these settings tells grants again.
fn terms_of(settings: &Settings, renew_floor: u32) -> ReuseTerms
    ensures { result ≡ terms_of settings.now renew_floor }
{
    ReuseTerms {
        floor: renew_floor,
        skew: settings.skew(),
        transit: settings.transit(),
    }
}

/// A server of an open volume in a folder, by its settings. It holds nothing back.
pub fn server_of<F: Folder + Drop, P: Drop>(
    alloc: Global,
    settings: &Settings,
    renew_floor: u32,
    folder: F,
    volume: VolumeWriter<F::File>,
) -> ServerCore<F, P>
where
    F::File: Drop,
    requires { AreSettled (F.calls folder) }
    ensures { result ≡ record {
      own = settings.now.duid;
      terms = terms_of settings.now renew_floor;
      names = F.calls folder;
      volume = volume;
      held = [];
      talk = None;
    } }
{
    let terms = terms_of(settings, renew_floor);
    ServerCore::new(alloc, *settings.duid(), terms, folder, volume)
}

/// The server of a volume that was begun behind these receipts.
fn begun<F: Folder + Drop, P: Drop>(
    with: StartContext<'_>,
    folder: F,
    begun: BegunVolume<F::File>,
) -> Result<ServerCore<F, P>, BeginFault<F::File>>
where
    F::File: Drop,
    requires names { AreSettled (F.calls folder) }
    requires file { HasVolume (F.File.calls begun.file.device) (going_on begun.book) }
    requires written { IsWrittenSoFar (going_on begun.book) }
    ensures begins { IfOk result (Begins with.entry.settings.now.duid with.entry.older.items begun.book
        (length begun.book.lines)) }
    ensures terms { IfOk result (λ r. r.terms ≡ terms_of with.entry.settings.now with.entry.renew_floor) }
    ensures has { IfOk result (λ r. HasBook begun.book r.names (names_after (F.calls folder)).files r.volume) }
{
    let BegunVolume { book, file } = begun;
    let kept = book.journal().len();
    let served = ReceiptBook::new(with.alloc, book, with.older)?;
    let volume = VolumeWriter::new(served, file, kept);
    Ok(server_of(with.alloc, with.settings, with.renew_floor, folder, volume))
}

/// Opens the first book of a server, and begins its first volume in a folder that has no file.
pub fn first<F: Folder + Drop, P: Drop>(
    with: StartContext<'_>,
    mut folder: F,
) -> Result<ServerCore<F, P>, BeginFault<F::File>>
where
    F::File: Drop,
    requires names { AreSettled (F.calls folder) }
    requires none { (names_after (F.calls folder)).files ≡ 0 }
    ensures begins { IfOk result (Begins with.entry.settings.now.duid with.entry.older.items
        (opening with.entry.settings.now with.entry.now)
        (length (opening with.entry.settings.now with.entry.now).lines)) }
    ensures terms { IfOk result (λ r. r.terms ≡ terms_of with.entry.settings.now with.entry.renew_floor) }
    ensures has { IfOk result (λ r. (j : Journal) × AreVolumesSoFar with.entry.settings.now.role [] (going_on j)
        × HasBook j r.names 1 r.volume) }
{
    match begin_first(with.alloc, &mut folder, with.now, with.settings) {
        Ok(first) => begun(with, folder, first),
        Err(error) => Err(BeginFault::NotBegun(error)),
    }
}

/// Goes on with a book whose last line, `restart`, its file lacks, which was opened and held this content.
pub fn go_on<F: Folder + Drop, P: Drop>(
    with: StartContext<'_>,
    folder: F,
    book: Book,
    file: F::File,
    content: &[u8],
) -> Result<ServerCore<F, P>, BeginFault<F::File>>
where
    F::File: Drop,
    requires names { AreSettled (F.calls folder) }
    requires opened { F.File.calls file ≡ opened content.now ∷ [] }
    requires some { 1 ≤ length book.lines }
    ensures begins { IfOk result
        (Begins with.entry.settings.now.duid with.entry.older.items book (length book.lines - 1)) }
    ensures terms { IfOk result (λ r. r.terms ≡ terms_of with.entry.settings.now with.entry.renew_floor) }
    ensures has { IfOk result (λ r. (j : Journal) (l : LineValue) → book ≡ with_line j l
        → HasBook j r.names (names_after (F.calls folder)).files r.volume) }
{
    let lines = book.journal().len();
    match reopen(with.alloc, file, content, &book, lines) {
        Ok(file) => {
            let served = ReceiptBook::new(with.alloc, book, with.older)?;
            let volume = VolumeWriter::new(served, file, lines - 1);
            Ok(server_of(with.alloc, with.settings, with.renew_floor, folder, volume))
        }
        Err(error) => Err(BeginFault::NotReopened(error)),
    }
}

/// Ends the volume of a closed book, whose file was opened and held this content, and goes on with the next one.
pub fn end<F: Folder + Drop, P: Drop>(
    with: StartContext<'_>,
    mut folder: F,
    book: Book,
    file: F::File,
    content: &[u8],
) -> Result<ServerCore<F, P>, BeginFault<F::File>>
where
    F::File: Drop,
    requires names { AreSettled (F.calls folder) }
    requires opened { F.File.calls file ≡ opened content.now ∷ [] }
    ensures begins { IfOk result
        (BeginsBehind with.entry.settings.now.duid with.entry.older.items book with.entry.now) }
    ensures terms { IfOk result (λ r. r.terms ≡ terms_of with.entry.settings.now with.entry.renew_floor) }
    ensures has { IfOk result (λ r. HasNextBook book (names_after (F.calls folder)).files r.names r.volume) }
{
    let lines = book.journal().len();
    let file = match reopen(with.alloc, file, content, &book, lines + 1) {
        Ok(file) => file,
        Err(error) => return Err(BeginFault::NotReopened(error)),
    };
    let served = ReceiptBook::new(with.alloc, book, with.older)?;
    let volume = VolumeWriter::new(served, file, lines);
    match rolled(with.alloc, &mut folder, volume, with.now) {
        Ok(volume) => Ok(server_of(with.alloc, with.settings, with.renew_floor, folder, volume)),
        Err(fault) => Err(BeginFault::NotRolled(fault)),
    }
}

/// Goes on behind a closed book, whose volume has ended in its file, which was opened and held this content.
pub fn follow<F: Folder + Drop, P: Drop>(
    with: StartContext<'_>,
    mut folder: F,
    book: Book,
    file: F::File,
    content: &[u8],
) -> Result<ServerCore<F, P>, BeginFault<F::File>>
where
    F::File: Drop,
    requires names { AreSettled (F.calls folder) }
    requires opened { F.File.calls file ≡ opened content.now ∷ [] }
    requires rolls { MayRoll book }
    ensures begins { IfOk result
        (BeginsBehind with.entry.settings.now.duid with.entry.older.items book with.entry.now) }
    ensures terms { IfOk result (λ r. r.terms ≡ terms_of with.entry.settings.now with.entry.renew_floor) }
    ensures has { IfOk result (λ r. HasNextBook book (names_after (F.calls folder)).files r.names r.volume) }
{
    let last = match reopen_ended(with.alloc, file, content, &book) {
        Ok(last) => last,
        Err(error) => return Err(BeginFault::NotReopened(error)),
    };
    match begin_next(with.alloc, &mut folder, &last, &book, with.now) {
        Ok(BegunVolume { book: next, file }) => {
            let kept = next.journal().len();
            let served = ReceiptBook::new(with.alloc, book, with.older)?.follow(next)?;
            let volume = VolumeWriter::new(served, file, kept);
            Ok(server_of(with.alloc, with.settings, with.renew_floor, folder, volume))
        }
        Err(error) => Err(BeginFault::NotBegun(error)),
    }
}

/// A server with one line more, `restart`: its partner may have taken it for down meanwhile. It waits for the partner's
/// answer then.
pub fn restarted<F: Folder + Drop, P: Drop>(
    now: Reading,
    mut running: ServerCore<F, P>,
) -> Result<ServerCore<F, P>, BeginFault<F::File>>
where
    F::File: Drop,
    ensures restarts { IfOk result (λ r. (receipt : ReceiptValue)
        × IsApplied running.volume.served r.volume.served now Restart receipt
        × (r ≡ record running { volume = r.volume })) }
    ensures same { IfOk result (λ r. HasSameFiles running r) }
{
    match running.serve(now, &Order::Restart) {
        Ok(_) => Ok(running),
        Err(refusal) => Err(BeginFault::NotRestarted(refusal)),
    }
}
