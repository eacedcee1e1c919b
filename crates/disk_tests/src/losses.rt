//! Losses of power while three volumes are written.

use crate::story::{Written, three_volumes};
use crate::writing::{PublishedState, write_volumes};
use binding_rules::Role;
use disk_model::extent_of;
use order_book::Book;
use std::alloc::Global;
use std::process::Abort;
use std::test::Fail;
use test_support::{Contents, TestFile, TestFolder};
use volume_store::{RecoveredFolder, ResumeStep, recover_folder};

/// More calls than writing the volumes takes: six to begin the first one, eight for each roll, and two for each of 18
/// batches.
const CALLS: usize = 60;

/// How many contents are drawn for each call that fails.
const SEEDS: u64 = 200;

/// A folder whose server has lost its power, its files, and how far it had told.
#[derive(Drop)]
struct Lost {
    folder: TestFolder,
    files: Vec<TestFile>,
    told: PublishedState,
}

/// Writes the volumes to an empty folder, of whose calls, and of whose files', so many are answered. Where a file
/// couldn't be made it may still be there, empty.
fn lose(alloc: Global, calls: usize) -> Result<Lost, Fail> {
    let mut folder = TestFolder::new(alloc, 0, calls)?;
    let mut told = PublishedState::none();
    let mut reached = write_volumes(alloc, &mut folder, &mut told)?;
    if reached.is_unmade {
        reached.files.push(TestFile::new(alloc, &[], 0)?)?;
    }
    Ok(Lost {
        folder,
        files: reached.files,
        told,
    })
}

/// Draws what a loss of power leaves: the volumes as they were written, in order, each whole but the last, which has
/// its first lines, and no fewer than were told of.
fn left_of(rt: &impl Abort, volumes: &[Written], lost: &Lost, seed: u64) -> Result<Contents, Fail> {
    let contents = lost.folder.left(&lost.files, seed)?;
    let count = contents.as_slice().len();
    assert!(rt; count >= lost.told.volumes && count <= volumes.len());
    for (place, (content, volume)) in contents.as_slice().iter().zip(volumes).enumerate() {
        let whole = extent_of(content);
        assert!(rt;
            volume
                .text
                .starts_with(&content[..whole.octets.min(content.len())])
        );
        assert!(rt; place + 1 == count || whole.octets == volume.text.len());
        assert!(rt; place + 1 != lost.told.volumes || whole.lines >= lost.told.lines);
    }
    Ok(contents)
}

/// Returns the book of a step, if there is one.
fn book_of(step: ResumeStep) -> Option<Book> {
    match step {
        ResumeStep::BeginFirst => None,
        ResumeStep::GoOn(book) => Some(book),
        ResumeStep::End(book) => Some(book),
        ResumeStep::BeginNext(book) => Some(book),
    }
}

/// Sees that a server goes on with the book of the first lines of the last volume that has a line behind its head, as
/// many as are left; and with no earlier volume than was told of.
fn goes_on(
    rt: &impl Abort,
    alloc: Global,
    volumes: &[Written],
    lost: &Lost,
    contents: &Contents,
) -> Result<(), Fail> {
    let Ok(
        RecoveredFolder {
            step,
            volumes: count,
        },
    ) = recover_folder(alloc, Role::Primary, contents)
    else {
        return Err(Fail::from("nothing to go on with"));
    };
    assert!(rt; count + usize::from(lost.told.is_head) >= lost.told.volumes);
    let Some(book) = book_of(step) else {
        assert_eq!(rt; count, 0);
        return Ok(());
    };
    let written = &volumes.get(count.wrapping_sub(1)).ok_or("no volume")?.lines;
    let content = contents
        .as_slice()
        .get(count.wrapping_sub(1))
        .ok_or("no file")?;
    assert!(rt; written.starts_with(book.journal()));
    assert_eq!(rt;
        book.journal().len(),
        extent_of(content)
            .lines
            .saturating_sub(1)
            .min(written.len())
    );
    Ok(())
}

#[test]
fn what_was_told_of_is_found(rt: HostRuntime) -> Result<(), Fail> {
    let volumes = three_volumes(rt.alloc())?;
    let mut told = 0;
    for calls in 0..=CALLS {
        let lost = lose(rt.alloc(), calls)?;
        for seed in 0..SEEDS {
            let contents = left_of(&rt, &volumes, &lost, seed)?;
            goes_on(&rt, rt.alloc(), &volumes, &lost, &contents)?;
        }
        told = lost.told.volumes;
    }
    assert_eq!(rt; told, volumes.len());
    Ok(())
}

/// So many calls are answered where the first batch of the last volume is written and its sync fails: six, and eight
/// for each roll, and two for each of 12 batches, and one.
const TO_A_SYNC: usize = 47;

#[test]
fn a_loss_leaves_now_more_and_now_less(rt: HostRuntime) -> Result<(), Fail> {
    let volumes = three_volumes(rt.alloc())?;
    let lost = lose(rt.alloc(), TO_A_SYNC)?;
    assert!(rt; lost.told.volumes == 3 && lost.told.is_head);
    let (mut least, mut most) = (usize::MAX, 0);
    let mut has_zeros = false;
    for seed in 0..SEEDS {
        let contents = left_of(&rt, &volumes, &lost, seed)?;
        let last = contents.as_slice().last().ok_or("no file")?;
        least = least.min(last.len());
        most = most.max(last.len());
        has_zeros = has_zeros || last.contains(&0);
    }
    assert!(rt; least < most);
    assert!(rt; has_zeros);
    Ok(())
}
