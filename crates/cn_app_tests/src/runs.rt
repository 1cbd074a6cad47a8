//! The commands from bytes to bytes, each once, with readers that give a byte at a time.
use crate::streams::{Drip, Page};
use cn_app::{AppFault, Outcome, run_agree, run_check, run_find, run_replay, run_show};
use cn_base_tests::certificates::*;
use cn_base_tests::types::*;
use std::alloc::Global;
use std::process::Abort;
use std::thread::Threads;

/// Whether a command wrote all of its lines, and these lines alone.
fn wrote(ended: Result<Outcome, AppFault>, page: &Page, lines: &str) -> bool {
    ended == Ok(Outcome::Whole) && page.has(lines)
}

/// Whether the number of test-and-set is found over a reader that stays the caller's.
fn finds<T: Threads + Sync>(rt: &T, alloc: Global) -> bool {
    let mut reader = Drip::new(test_and_set());
    let mut page = Page::new(512);
    let ended = run_find(rt, alloc, &mut reader, &mut page, 3);
    wrote(ended, &page, found_test_and_set_at_3()) && reader.bytes.is_empty()
}

/// Whether a writer that fails is told, behind the byte that it takes.
fn tells_the_writer<T: Threads + Sync>(rt: &T, alloc: Global) -> bool {
    let mut page = Page::new(1);
    let ended = run_find(rt, alloc, Drip::new(test_and_set()), &mut page, 3);
    ended == Err(AppFault::Write) && page.written.as_slice() == b"{".as_slice()
}

#[test]
fn find_writes_a_certificate(rt: HostRuntime) {
    assert!(rt; finds(&rt, rt.alloc()) && tells_the_writer(&rt, rt.alloc()));
}

/// Readers of test-and-set and of its certificate.
fn readers() -> (Drip<'static>, Drip<'static>) {
    (Drip::new(test_and_set()), Drip::new(test_and_set_at_3()))
}

fn checks<T>(rt: &T, alloc: Global) -> bool {
    let (table, certificate) = readers();
    let mut page = Page::new(512);
    let ended = run_check(rt, alloc, table, certificate, &mut page);
    wrote(ended, &page, "ok")
}

/// The plan of test-and-set.
fn plan() -> &'static str {
    r#"type test_and_set processes 2 nodes 1 start zero
role 0 A tas judges zero/one
role 1 B tas judges one/one
process 0: node 0 A role 0
process 1: node 0 B role 1"#
}

fn shows<T>(rt: &T, alloc: Global) -> bool {
    let (table, certificate) = readers();
    let mut page = Page::new(512);
    let ended = run_show(rt, alloc, table, certificate, &mut page);
    wrote(ended, &page, plan())
}

/// Process 1 comes first and stops, and process 0 takes its value.
fn agrees<T>(rt: &T, alloc: Global) -> bool {
    let (table, certificate) = readers();
    let mut page = Page::new(512);
    let (inputs, schedule) = ("10,20", "1,1,0,0,0,0");
    let ended = run_agree(rt, alloc, table, certificate, &mut page, inputs, schedule);
    wrote(ended, &page, "0: 20\n1: undecided")
}

/// Process 1 puts the calls of both processes in the first slot.
fn replays<T>(rt: &T, alloc: Global) -> bool {
    let ((table, certificate), object) = (readers(), Drip::new(counter_3()));
    let mut page = Page::new(512);
    let ended = run_replay(
        rt,
        alloc,
        table,
        certificate,
        object,
        &mut page,
        "0",
        "4",
        "i0:0,i1:0,s1,s1,s1,s1,s1,s1,s0,s0,s0,s0,s0,s0",
    );
    let answers = "answer 1 0 1\nanswer 0 0 0\nentry 0 0 inc 0 1\nentry 0 1 inc 1 2";
    wrote(ended, &page, answers)
}

#[test]
fn certificates_are_checked_and_run(rt: HostRuntime) {
    let alloc = rt.alloc();
    assert!(rt; checks(&rt, alloc) && shows(&rt, alloc));
    assert!(rt; agrees(&rt, alloc) && replays(&rt, alloc));
}
