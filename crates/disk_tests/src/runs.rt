//! Lines that are put to a file in memory, and what a loss of power leaves of them.

ghost use Rattle.disk_model.specs.Open.{IsOpen};

use crate::texts::{split_lines, whole};
use disk_model::{JournalFile, extent_of};
use std::alloc::Global;
use std::process::Abort;
use std::test::Fail;
use test_support::TestFile;

/// The lines, as a file has all of them.
pub(crate) const WORDS: &[u8] =
    b"aaaaa\nbbbbb\nccccc\nddddd\neeeee\nfffff\nggggg\nhhhhh\niiiii\njjjjj\nkkkkk\nlllll\n";

/// How many they are.
pub(crate) const COUNT: usize = 12;

/// How many of them are put at once.
const BATCH: usize = 3;

/// A file after a run, and how many of its lines are on the disk.
#[derive(Drop)]
pub(crate) struct FileRun {
    pub told: usize,
    pub file: TestFile,
}

/// Puts the words that a file lacks, which has the first so many, until a call fails. Returns how many are on the disk.
fn put_words(file: &mut JournalFile<TestFile>, lines: usize) -> usize
    requires { IsOpen file.old.device }
{
    let mut told = lines;
    let (_, mut rest) = split_lines(WORDS, lines);
    for _batch in 0..COUNT {
        let (batch, behind) = split_lines(rest, BATCH);
        if batch.is_empty() || file.put(whole(batch)).is_err() {
            break;
        }
        told = told.saturating_add(extent_of(batch).lines);
        rest = behind;
    }
    told
}

/// Opens a file over this content, of which so many calls are answered, and puts to it the words that it lacks.
pub(crate) fn run_over(alloc: Global, content: &[u8], calls: usize) -> Result<FileRun, Fail> {
    let file = TestFile::new(alloc, content, calls)?;
    match JournalFile::open(file, content) {
        Ok((mut file, lines)) => {
            let told = put_words(&mut file, lines);
            let file = file.into_device();
            Ok(FileRun { told, file })
        }
        Err((_, file)) => {
            let told = extent_of(content).lines;
            Ok(FileRun { told, file })
        }
    }
}

/// Draws what a loss of power leaves of a run: the first words, and no fewer than were told of.
pub(crate) fn left_of(rt: &impl Abort, run: &FileRun, seed: u64) -> Result<Vec<u8>, Fail> {
    let content = run.file.left(seed)?;
    let whole = extent_of(&content);
    assert!(rt; whole.lines >= run.told);
    assert!(rt; WORDS.starts_with(&content[..whole.octets.min(content.len())]));
    Ok(content)
}
