//! The number of calls of each process that a process has replayed.
ghost use Rattle.std.specs.Prelude.{◌≡◌, ◌≤◌, ◌<◌, ◌+◌, slice_set};
ghost use Rattle.cn_log.specs.Fields.{count_at, no_calls};
ghost use Rattle.cn_choice.specs.declared.limits.TheConstants.{MOST_PROCESSES};
ghost use Rattle.cn_log.specs.declared.limits.TheConstants.{MOST_ENTRIES};

use cn_choice::MOST_PROCESSES;

/// For each process, the number of its calls in the slots replayed. These are its first calls.
#[derive(Clone, Copy, Debug, PartialEq, Eq)]
pub(crate) struct CallCounts {
    calls: [u16; MOST_PROCESSES],
}

impl CallCounts {
    /// No calls.
    pub fn new() -> CallCounts
        ensures { result ≡ no_calls }
    {
        CallCounts {
            calls: [0; MOST_PROCESSES],
        }
    }

    /// The number of calls of process `p`.
    pub fn of(&self, p: u8) -> u16
        requires { p < MOST_PROCESSES }
        ensures { result ≡ count_at self.now p }
    {
        self.calls[usize::from(p)]
    }

    /// Adds one call of process `p`.
    pub fn add_one(&mut self, p: u8)
        requires process { p < MOST_PROCESSES }
        requires few { count_at self.old p ≤ MOST_ENTRIES }
        ensures { self.new
            ≡ record { calls = slice_set self.old.calls p (count_at self.old p + 1) } }
    {
        self.calls[usize::from(p)] += 1;
    }
}
