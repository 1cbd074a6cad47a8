//! Sets of pairs of a response and a state.
ghost use Rattle.std.specs.Prelude.{ℕ};

use cn_outcomes::bits::union;
use cn_table::MOST_RESPONSES;

/// A set of pairs of a response and a state.
#[derive(Clone, Copy)]
pub struct PairSet {
    /// For each response the set of the states.
    states: [u16; MOST_RESPONSES],
}

impl PairSet {
    ghost use Rattle.std.specs.Prelude.{◌≡◌, ◌<◌, ◌↔◌, ◌⊎◌, ℕ, IsBitSet, IsTrue};
    ghost use Rattle.cn_table.specs.declared.limits.TheConstants.{MOST_RESPONSES};
    ghost use Rattle.cn_stocks.specs.Pairs.{Has};

    /// The empty set.
    pub fn none() -> PairSet
        ensures { (r q : ℕ) → ¬ Has result r q }
    {
        PairSet {
            states: [0; MOST_RESPONSES],
        }
    }

    /// Puts the pairs of the response and each of the states into the set.
    pub fn add_states(&mut self, response: u8, states: u16)
        requires { response < MOST_RESPONSES }
        ensures { (r q : ℕ) → Has self.new r q
            ↔ (Has self.old r q ⊎ ((r ≡ response) × IsBitSet states q)) }
    {
        let place = response as usize;
        self.states[place] = union(self.states[place], states);
    }

    /// Puts the pairs of another set into the set.
    pub fn add_all(&mut self, other: &PairSet)
        ensures { (r q : ℕ) → Has self.new r q ↔ (Has self.old r q ⊎ Has other.now r q) }
    {
        for response in 0..MOST_RESPONSES {
            self.states[response] = union(self.states[response], other.states[response]);
        }
    }

    /// Whether some pair is in both sets.
    pub fn meets(&self, other: &PairSet) -> bool
        ensures { IsTrue result ↔ ((r : ℕ) × ((q : ℕ) × Has self.now r q × Has other.now r q)) }
    {
        let mut common = 0;
        for response in 0..MOST_RESPONSES {
            common |= self.states[response] & other.states[response];
        }
        common != 0
    }
    /// Whether the response and one of the states are a pair of the set.
    pub fn has_some(&self, response: u8, states: u16) -> bool
        requires { response < MOST_RESPONSES }
        ensures { IsTrue result ↔ ((q : ℕ) × Has self.now response q × IsBitSet states q) }
    {
        self.states[response as usize] & states != 0
    }
}
