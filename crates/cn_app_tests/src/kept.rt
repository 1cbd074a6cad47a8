//! What a text and an output keep of a reader and a writer that fail.
use crate::streams::{Drip, Page};
use cn_app::{Output, Progress, Text, commands};
use cn_base_tests::certificates::found_test_and_set_at_3;
use cn_base_tests::types::test_and_set;
use std::alloc::Global;
use std::process::Abort;
use std::thread::Threads;

/// How many bytes the text and the output of `find` keep, and the progress of both, if the reader
/// fails after `left` bytes and the writer has this room. None if they keep wrong bytes.
fn kept<T: Threads + Sync>(
    rt: &T,
    alloc: Global,
    left: usize,
    room: usize,
) -> Option<(usize, Progress, usize, Progress)> {
    let bytes = test_and_set().as_bytes();
    let mut table = Text::new(alloc, Drip { bytes, left });
    let mut output = Output::new(alloc, Page::new(room));
    let _ = commands::find(rt, alloc, &mut table, &mut output, Some(3));
    let (read, handed) = (table.bytes.as_slice(), output.bytes.as_slice());
    let is_found = match handed.split_last() {
        Some((last, text)) => *last == b'\n' && text == found_test_and_set_at_3().as_bytes(),
        None => true,
    };
    if !is_found || !bytes.starts_with(read) {
        return None;
    }
    Some((
        read.len(),
        table.progress(),
        handed.len(),
        output.progress(),
    ))
}

#[test]
fn streams_that_fail_are_kept_as_far_as_they_came(rt: HostRuntime) {
    let (open, failed, done) = (Progress::Open, Progress::Failed, Progress::Done);
    let (table, text) = (test_and_set().len(), found_test_and_set_at_3().len());
    for (left, room, expected) in [
        (0, 512, (0, failed, 0, open)),
        (7, 512, (7, failed, 0, open)),
        (table, 512, (table, failed, 0, open)),
        (512, 1, (table, done, text + 1, failed)),
        (512, text, (table, done, text + 1, failed)),
        (512, 512, (table, done, text + 1, done)),
    ] {
        assert!(rt; kept(&rt, rt.alloc(), left, room) == Some(expected));
    }
}
