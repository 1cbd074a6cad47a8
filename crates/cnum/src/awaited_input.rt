//! Standard input whose first read can be told of.
ghost use Rattle.std.specs.Prelude.{◌≡◌};

use std::alloc::AllocError;
use std::io;
use std::io::Read;
use std::sync::{Condvar, Mutex, Wait};
use std::time::{Clock, Duration};

/// How many seconds the first read may take before it is told.
const PATIENCE: u64 = 1;

/// How far the first read has come.
#[derive(Clone, Copy, PartialEq, Eq)]
enum Stage {
    Ahead,
    Begun,
    Over,
}

/// The first read of an input, which the thread that makes it and the one that tells of it share.
#[derive(Drop)]
pub struct FirstRead {
    stage: Mutex<Stage>,
    changed: Condvar,
}

impl FirstRead {
    /// A first read that is not begun.
    pub fn new() -> FirstRead {
        FirstRead {
            stage: Mutex::new(Stage::Ahead),
            changed: Condvar::new(),
        }
    }

    // Begins the read, if no other began it; whether it is this one.
    fn begin<R: Wait>(&self, rt: &R) -> bool {
        let mut stage = self.stage.lock(rt);
        let is_first = *stage == Stage::Ahead;
        if is_first {
            *stage = Stage::Begun;
            self.changed.notify_one();
        }
        is_first
    }

    /// Ends the read, or says that there will be none.
    pub fn end<R: Wait>(&self, rt: &R) {
        *self.stage.lock(rt) = Stage::Over;
        self.changed.notify_one();
    }

    /// Waits for the end of the read. Says on standard error where it takes more than a second,
    /// since a person who forgot the input sees nothing else. What comes after the read stands
    /// behind that.
    pub fn tell_if_late<R: Wait + Clock + Eprint>(&self, rt: &R) {
        let stage = self.stage.lock(rt);
        let stage = self
            .changed
            .wait_while(rt, stage, |stage| *stage == Stage::Ahead);
        let patience = Duration::from_secs(PATIENCE);
        let (_stage, wait) = self
            .changed
            .wait_timeout_while(rt, stage, patience, |stage| *stage == Stage::Begun);
        if wait.timed_out() {
            let _ = eprintln!(rt; "cnum: waiting for standard input (end it with Ctrl-D)");
        }
    }
}

/// An input that says when its first read begins and ends. Copies of it share that read.
#[derive(Drop)]
pub struct AwaitedInput<'a, R, I> {
    rt: &'a R,
    /// Where the bytes come from.
    pub input: I,
    first_read: &'a FirstRead,
}

impl<'a, R, I: Copy> Copy for AwaitedInput<'a, R, I> {}

impl<'a, R, I: Copy> Clone for AwaitedInput<'a, R, I> {
    ghost use Rattle.std.specs.Prelude.{⊤};

    ghost is_clone = { λ x y. y ≡ x };

    ghost is_infallible = { λ _. ⊤ };

    fn clone(&self) -> Result<Self, AllocError> {
        let AwaitedInput {
            rt,
            input,
            first_read,
        } = self;
        Ok(AwaitedInput {
            rt: *rt,
            input: *input,
            first_read: *first_read,
        })
    }
}

impl<'a, R, I> AwaitedInput<'a, R, I> {
    /// This input, with its first read.
    pub fn new(rt: &'a R, input: I, first_read: &'a FirstRead) -> AwaitedInput<'a, R, I>
        ensures { result.input ≡ input }
    {
        AwaitedInput {
            rt,
            input,
            first_read,
        }
    }
}

impl<'a, R: Wait, I: Read> Read for AwaitedInput<'a, R, I> {
    ghost remaining = { λ awaited. I.remaining awaited.input };

    fn read(&mut self, buffer: &mut [u8]) -> io::Result<usize> {
        let is_first = self.first_read.begin(self.rt);
        let read = self.input.read(buffer);
        if is_first {
            self.first_read.end(self.rt);
        }
        read
    }
}
