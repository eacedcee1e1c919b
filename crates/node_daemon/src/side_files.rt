//! What a server keeps beside its volumes, and how it sees that these are there.

ghost use Rattle.disk_files.specs.Open.{lines_of};

use access_records::AccessRecord;
use clock_file::ClockFile;
use clock_watch::{ClockRecord, ClockStore};
use disk_files::{AccessRecordFolder, AccessRecordStore, KeepError, VolumeLinks, VolumeWatch};
use lead_time::Reading;

/// What a server keeps in its directory beside its volumes, and sees of these.
#[derive(Drop)]
pub(crate) struct SideFiles {
    pub(crate) access: AccessRecordFolder,
    pub(crate) clock: ClockFile,
    pub(crate) volumes: VolumeLinks,
}

impl AccessRecordStore for SideFiles {
    ghost lines = { λ files volume. lines_of files.access.open volume };

    fn read_records(&self, volume: u32) -> Result<Vec<AccessRecord>, KeepError> {
        self.access.read_records(volume)
    }

    fn append_records(&mut self, volume: u32, records: &[AccessRecord]) -> Result<(), KeepError> {
        self.access.append_records(volume, records)
    }
}

impl VolumeWatch for SideFiles {
    fn is_unlinked(&mut self, volume: u32) -> bool {
        self.volumes.is_unlinked(volume)
    }
}

impl ClockStore for SideFiles {
    fn recorded(&self) -> Option<ClockRecord> {
        self.clock.recorded()
    }

    fn present(&self, wall: Reading) -> Option<ClockRecord> {
        self.clock.present(wall)
    }

    fn keep(&mut self, record: &ClockRecord) {
        self.clock.keep(record);
    }
}
