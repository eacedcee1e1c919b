//! One end of the link over wires in memory: what it hears, and what is to come of it.

ghost use Rattle.std.specs.Prelude.{◌≡◌, length};

use crate::answers::REQUESTED;
use crate::books::{book_of, closed};
use crate::cases::{CASES, Case};
use crate::posts::{Post, Scene};
use crate::wires::{NEVER, Script, joined};
use locked_book::{BookName, SharedBook};
use node_threads::{NoNotices, NodeError, PartnerAvailability, Turns, serve_datagrams, serve_link};
use server_book::{Book, Settings, read_settings};
use std::alloc::Global;
use std::marker::Brand;
use std::process::Abort;
use std::sync::Wait;
use std::sync::ledger::Blank;
use std::test::Fail;

/// Returns what a node leaves whose worker answers, and whose end of the link then talks, each by a pass of its own:
/// its book, and how the end ended.
fn left<N: BookName, R: Wait>(
    rt: &R,
    alloc: Global,
    blank: Blank,
    book: Book,
    settings: &Settings,
    turns: &Turns,
    scene: &Scene,
    wire: &mut Script,
) -> Option<(Book, Result<(), NodeError>)>
    requires name { blank.name ≡ N.name }
    requires passes { (blank.parts ≡ N.parts) × (N.parts ≡ 2) × (N.passes ≡ 2) }
    requires lines { N.opened ≡ length book.lines }
{
    let Ok((shared, mut passes)) = SharedBook::<N>::open(alloc, blank, book, 2) else {
        return None;
    };
    let mut one = passes.pop()?;
    let mut other = passes.pop()?;
    let mut post = Post { scene, next: 0 };
    let own = settings.duid();
    let received = serve_datagrams(
        rt,
        alloc,
        &shared,
        &mut one,
        own,
        &mut post,
        scene,
        turns,
        PartnerAvailability::Up,
        &NoNotices,
    );
    let ended = serve_link(
        rt, alloc, &shared, &mut other, settings, scene, turns, &NoNotices, wire,
    );
    passes.push(other).ok()?;
    passes.push(one).ok()?;
    match (received, shared.close(passes)) {
        (Ok(_), Ok(book)) => Some((book, ended)),
        _ => None,
    }
}

/// That all comes of a case which is to come of it, over a wire on which so many reads and writes succeed.
fn check(
    rt: &(impl Abort + Wait),
    alloc: Global,
    case: &Case,
    reads: usize,
    writes: usize,
) -> Result<(), Fail> {
    let settings = read_settings(alloc, case.settings.as_bytes())?;
    let scene = Scene::of(alloc, &[REQUESTED], case.at, 1);
    let mut wire = Script::new(alloc, case.heard, case.step)?;
    wire.reads = reads;
    wire.writes = writes;
    let turns = Turns::new(case.datagrams);
    if case.is_over {
        turns.end(rt);
    }
    let book = book_of(alloc, case.begun)?;
    let blank = Blank::new(2);
    let left = left::<Brand, _>(rt, alloc, blank, book, &settings, &turns, &scene, &mut wire);
    let Some((book, ended)) = left else {
        return Err(Fail::from("not closed"));
    };
    let mut book = book;
    let text = closed(alloc, &mut book, 10_000)?;
    let first = case.written.get(..writes).unwrap_or(case.written);
    let written = joined(alloc, first)?;
    assert!(rt; written.starts_with(&wire.written));
    if reads < NEVER {
        assert_eq!(rt; ended, Err(NodeError::Read));
        return Ok(());
    }
    assert_eq!(rt; wire.written.len(), written.len());
    if writes < NEVER {
        assert_eq!(rt; ended, Err(NodeError::Write));
        return Ok(());
    }
    assert_eq!(rt; ended, case.ended);
    assert_eq!(rt; text.as_slice(), case.journal.as_bytes());
    Ok(())
}

#[test]
fn an_end_over_wires_that_fail_at_each_place(rt: HostRuntime) -> Result<(), Fail> {
    for case in &CASES {
        check(&rt, rt.alloc(), case, NEVER, NEVER)?;
        for count in 0..case.failing_writes {
            check(&rt, rt.alloc(), case, NEVER, count)?;
        }
        for count in 0..case.failing_reads {
            check(&rt, rt.alloc(), case, count, NEVER)?;
        }
    }
    Ok(())
}
