//! The pairs of a response and the last state that each process can get.
ghost use Rattle.std.specs.Prelude.{◌≡◌, ◌<◌, ◌⊎◌, ◌↔◌, ℕ, IsTrue};
ghost use Rattle.cn_choice.specs.declared.limits.TheConstants.{MOST_PROCESSES};
ghost use Rattle.cn_check.specs.Runs.{IsIn};
ghost use Rattle.cn_check.specs.WalkedRuns.{HasPair, HasPairInBoth};
ghost use Rattle.cn_table.specs.declared.limits.TheConstants.{MOST_RESPONSES};

use crate::sets::{share, union};
use cn_choice::MOST_PROCESSES;
use cn_table::MOST_RESPONSES;
use std::marker::Model;

/// For each process a set for each response.
const SETS: usize = MOST_PROCESSES * MOST_RESPONSES;

/// A set of pairs of a response and a state for each process: for each process and response the set
/// of the states.
#[derive(Drop)]
pub(crate) struct Pairs {
    states: [u16; SETS],
}

impl Model for Pairs {
    ghost use Rattle.std.specs.Prelude.{◌≡◌, List, ℕ, length};
    ghost use Rattle.cn_check.specs.declared.pairs.TheConstants.{SETS};

    ghost Value = { List ℕ };

    ghost view = { λ s. s.states };

    ghost invariant = { λ s. length s.states ≡ SETS };
}

impl Pairs {
    /// The sets in which no process has a pair.
    pub fn new() -> Pairs
        ensures { (j r q : ℕ) → ¬ HasPair result j r q }
    {
        Pairs { states: [0; SETS] }
    }

    /// Adds the pairs of this response with each of these states to those of the process.
    pub fn add(&mut self, process: u8, response: u8, states: u16)
        requires process { process < MOST_PROCESSES }
        requires response { response < MOST_RESPONSES }
        ensures { (j r q : ℕ)
            → HasPair self.new j r q
            ↔ (HasPair self.old j r q ⊎ ((j ≡ process) × (r ≡ response) × IsIn states q)) }
    {
        let place = MOST_RESPONSES * process as usize + response as usize;
        self.states[place] = union(self.states[place], states);
    }

    /// Whether the process has some pair in both sets.
    pub fn meets(&self, other: &Pairs, process: u8) -> bool
        requires { process < MOST_PROCESSES }
        ensures { IsTrue result ↔ HasPairInBoth self.now other.now process }
    {
        let first = MOST_RESPONSES * process as usize;
        for response in 0..MOST_RESPONSES {
            if share(
                self.states[first + response],
                other.states[first + response],
            ) {
                return true;
            }
        }
        false
    }
}
