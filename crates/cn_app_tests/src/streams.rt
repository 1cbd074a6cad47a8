//! A reader and a writer that fail.
use arrayvec::ArrayVec;
use std::io;
use std::io::{ErrorKind, Read, Write};

/// A reader that gives one byte at a time, and fails after `left` bytes.
#[derive(Drop)]
pub(super) struct Drip<'a> {
    pub bytes: &'a [u8],
    pub left: usize,
}

impl<'a> Drip<'a> {
    /// A reader of the text that does not fail.
    pub(super) fn new(text: &'a str) -> Drip<'a> {
        Drip {
            bytes: text.as_bytes(),
            left: usize::MAX,
        }
    }
}

impl<'a> Read for Drip<'a> {
    fn read(&mut self, buffer: &mut [u8]) -> io::Result<usize> {
        if self.left == 0 {
            return Err(io::Error::from(ErrorKind::Other));
        }
        self.left -= 1;
        match (self.bytes.split_first(), buffer.first_mut()) {
            (Some((first, rest)), Some(place)) => {
                *place = *first;
                self.bytes = rest;
                Ok(1)
            }
            _ => Ok(0),
        }
    }
}

/// A writer on a page. It takes `room` bytes, and then fails.
#[derive(Drop)]
pub(super) struct Page {
    pub written: ArrayVec<u8, 512>,
    pub room: usize,
}

impl Page {
    pub(super) fn new(room: usize) -> Page {
        Page {
            written: ArrayVec::new(),
            room,
        }
    }

    /// Whether exactly these lines and a line feed were written.
    pub(super) fn has(&self, lines: &str) -> bool {
        match self.written.as_slice().split_last() {
            Some((last, before)) => *last == b'\n' && before == lines.as_bytes(),
            None => false,
        }
    }
}

impl Write for Page {
    fn write(&mut self, buffer: &[u8]) -> io::Result<usize> {
        let taken = buffer.len().min(self.room);
        if taken == 0 {
            return Err(io::Error::from(ErrorKind::Other));
        }
        self.room -= taken;
        for byte in buffer.iter().take(taken) {
            let _ = self.written.try_push(*byte);
        }
        Ok(taken)
    }

    fn flush(&mut self) -> io::Result<()> {
        Ok(())
    }
}
