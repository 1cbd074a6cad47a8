//! The states in which the runs from each visited point end.
ghost use Rattle.std.specs.Prelude.{◌≡◌, ◌≢◌, ◌<◌, ◌⊎◌, ℕ};
ghost use Rattle.cn_check.specs.WalkedRuns.{ends_at};
ghost use Rattle.cn_table.specs.declared.limits.TheConstants.{MOST_STATES};

use cn_choice::MOST_PROCESSES;
use cn_table::MOST_STATES;
use std::marker::Model;

/// One set for each state, for each set of processes that have moved.
const POINTS: usize = MOST_STATES << MOST_PROCESSES;

/// A set of states for each point: a point is a set of processes that have moved, and a state.
#[derive(Drop)]
pub(crate) struct EndSets {
    sets: [u16; POINTS],
}

impl Model for EndSets {
    ghost use Rattle.std.specs.Prelude.{◌≡◌, List, ℕ, length};
    ghost use Rattle.cn_check.specs.declared.end_sets.TheConstants.{POINTS};

    ghost Value = { List ℕ };

    ghost view = { λ s. s.sets };

    ghost invariant = { λ s. length s.sets ≡ POINTS };
}

impl EndSets {
    /// The empty set for each point.
    pub fn new() -> EndSets
        ensures { (used state : ℕ) → ends_at result used state ≡ 0 }
    {
        EndSets { sets: [0; POINTS] }
    }

    /// The set of the point.
    pub fn at(&self, used: u8, state: u8) -> u16
        requires { state < MOST_STATES }
        ensures { result ≡ ends_at self.now used state }
    {
        self.sets[MOST_STATES * used as usize + state as usize]
    }

    /// Keeps this set for the point.
    pub fn put(&mut self, used: u8, state: u8, set: u16)
        requires { state < MOST_STATES }
        ensures here { ends_at self.new used state ≡ set }
        ensures others { (u s : ℕ) → s < MOST_STATES → (u ≢ used) ⊎ (s ≢ state)
            → ends_at self.new u s ≡ ends_at self.old u s }
    {
        self.sets[MOST_STATES * used as usize + state as usize] = set;
    }
}
