//! How far a long search has come, told at a terminal.

use cn_app::reports::Progress;
use std::io;
use std::sync::{Mutex, Wait};
use std::time::{Clock, Duration, Instant};

/// How many seconds a search may take before it is told.
const PATIENCE: u64 = 1;

/// The parts of a search, and what was told of them.
#[derive(Clone, Copy)]
struct Parts {
    all: usize,
    done: usize,
    /// When the search began, if the clock tells.
    begun: Option<Instant>,
    /// The percents that stand on the terminal, if some do.
    told: Option<usize>,
}

impl Parts {
    // How many percents of the parts are done.
    fn percents(self) -> usize {
        self.done.saturating_mul(100) / self.all.max(1)
    }

    // Whether the search has taken so long that it is told.
    fn is_late<R: Clock>(self, rt: &R) -> bool {
        let Some(begun) = self.begun else {
            return false;
        };
        match begun.elapsed(rt) {
            Ok(elapsed) => elapsed >= Duration::from_secs(PATIENCE),
            Err(_) => false,
        }
    }
}

/// Tells on standard error, if that is a terminal, how far a search has come that takes more than a
/// second. The line is gone when the search ends.
#[derive(Drop)]
pub struct SearchProgress<'a, R> {
    rt: &'a R,
    is_at_terminal: bool,
    parts: Mutex<Parts>,
}

impl<'a, R> SearchProgress<'a, R> {
    /// No search has begun.
    pub fn new(rt: &'a R, is_at_terminal: bool) -> SearchProgress<'a, R> {
        let parts = Parts {
            all: 0,
            done: 0,
            begun: None,
            told: None,
        };
        SearchProgress {
            rt,
            is_at_terminal,
            parts: Mutex::new(parts),
        }
    }
}

// Tells the percents, or takes the line away when all is done; what stands on the terminal then.
fn told_of<R: Clock + Eprint>(rt: &R, parts: Parts) -> Option<usize> {
    let percents = parts.percents();
    if parts.done >= parts.all {
        if parts.told.is_some() {
            let _ = eprint!(rt; "\r\x1b[K");
        }
        return None;
    }
    if parts.told == Some(percents) || !parts.is_late(rt) {
        return parts.told;
    }
    let _ = eprint!(rt; "\rcnum: {percents} % of the changes are tried");
    Some(percents)
}

impl<'a, R: Wait + Clock + Eprint> Progress for SearchProgress<'a, R> {
    fn begin(&self, parts: usize) {
        if !self.is_at_terminal {
            return;
        }
        let begun: io::Result<Instant> = Instant::now(self.rt);
        *self.parts.lock(self.rt) = Parts {
            all: parts,
            done: 0,
            begun: begun.ok(),
            told: None,
        };
    }

    fn step(&self) {
        if !self.is_at_terminal {
            return;
        }
        let mut parts = self.parts.lock(self.rt);
        let now = Parts {
            done: parts.done.saturating_add(1),
            ..*parts
        };
        *parts = Parts {
            told: told_of(self.rt, now),
            ..now
        };
    }
}
