//! Sets of small numbers. Bit k of a set says whether the number k is in it.
ghost use Rattle.std.specs.Prelude.{◌≡◌, ◌<◌, ◌↔◌, ◌⊎◌, ℕ, IsBitSet, IsTrue};

use crate::limits::WIDTH;
use std::marker::Model;

/// A set of numbers below [`WIDTH`](crate::WIDTH): of states, of responses, of processes or of
/// operations.
///
/// Contracts see it as a number. Its bit k says whether k is in the set.
#[derive(Clone, Copy, Debug, PartialEq, Eq)]
pub struct Bits(u16);

impl Model for Bits {
    ghost use Rattle.std.specs.Prelude.{ℕ};

    ghost Value = { ℕ };

    ghost view = { λ b. b.0 };

    ghost inverse = { λ n. record { 0 = n } };
}

impl Bits {
    ghost use Rattle.std.specs.Prelude.{◌≡◌, ◌<◌, ◌↔◌, ◌⊎◌, ◌+◌, ℕ, Contains, IsBitSet, IsTrue};
    ghost use Rattle.cn_outcomes.specs.Bits.{members};
    ghost use Rattle.cn_outcomes.specs.Subsets.{IsWithout};
    ghost use Rattle.cn_outcomes.specs.declared.limits.TheConstants.{WIDTH};

    /// The empty set.
    // promise: left-states
    pub fn new() -> Bits
        ensures number { result ≡ 0 }
        ensures none { (q : ℕ) → ¬ IsBitSet result q }
    {
        Bits(0)
    }

    /// Whether the number is in the set.
    pub fn has(self, number: u8) -> bool
        requires { number < WIDTH }
        // promise: left-states
        ensures { IsTrue result ↔ IsBitSet self number }
    {
        self.0 & (1 << number) != 0
    }

    /// Whether the number, however great, is in the set.
    pub fn contains(self, number: u8) -> bool
        ensures found { IsTrue result ↔ IsBitSet self number }
        ensures in_range { IsTrue result → number < WIDTH }
    {
        let bits = self.0;
        if number >= WIDTH {
            return false;
        }
        bits & (1 << number) != 0
    }

    /// Whether no number is in the set.
    pub fn is_empty(self) -> bool
        ensures number { IsTrue result ↔ (self ≡ 0) }
        ensures none { IsTrue result ↔ ((q : ℕ) → ¬ IsBitSet self q) }
    {
        self.0 == 0
    }

    /// The set with the number.
    pub fn with(self, number: u8) -> Bits
        requires { number < WIDTH }
        ensures { (q : ℕ) → IsBitSet result q ↔ (IsBitSet self q ⊎ (q ≡ number)) }
    {
        Bits(self.0 | (1 << number))
    }

    /// Puts the number into the set.
    pub fn insert(&mut self, number: u8)
        requires { number < WIDTH }
        // promise: left-states
        ensures { (q : ℕ) → IsBitSet self.new q ↔ (IsBitSet self.old q ⊎ (q ≡ number)) }
    {
        self.0 |= 1 << number;
    }

    /// The set without the number.
    pub fn without(self, number: u8) -> Bits
        requires { number < WIDTH }
        ensures { IsWithout self number result }
    {
        Bits(self.0 & !(1 << number))
    }

    /// The numbers of both sets together.
    pub fn union(self, other: Bits) -> Bits
        ensures { (q : ℕ) → IsBitSet result q ↔ (IsBitSet self q ⊎ IsBitSet other q) }
    {
        Bits(self.0 | other.0)
    }

    /// The numbers of the set that are not in the other one.
    pub fn difference(self, other: Bits) -> Bits
        ensures { (q : ℕ) → IsBitSet result q ↔ (IsBitSet self q × ¬ IsBitSet other q) }
    {
        Bits(self.0 & !other.0)
    }

    /// Whether the sets have a common number.
    pub fn meets(self, other: Bits) -> bool
        // promise: left-states
        ensures { IsTrue result ↔ ((q : ℕ) × IsBitSet self q × IsBitSet other q) }
    {
        self.0 & other.0 != 0
    }

    /// The numbers of both sets, each less one, without those that would be below 0.
    pub(crate) fn common_predecessors(self, other: Bits) -> Bits
        ensures { (q : ℕ) → IsBitSet result q ↔ (IsBitSet self (q + 1) × IsBitSet other (q + 1)) }
    {
        Bits((self.0 & other.0) >> 1)
    }

    /// The set that is this number.
    pub(crate) fn of_number(number: u16) -> Bits
        ensures { result ≡ number }
    {
        Bits(number)
    }

    /// The number that is this set, as a place of a list with one for each set.
    pub(crate) fn place(self) -> usize
        ensures { result ≡ self }
    {
        self.0 as usize
    }

    /// The members, ascending.
    // promise: left-states
    pub fn iter(self) -> Members
        ensures list { result ≡ members self }
        ensures same { (q : ℕ) → Contains result q ↔ IsBitSet self q }
        ensures below { (q : ℕ) → IsBitSet self q → q < WIDTH }
    {
        Members {
            left: self.0 as u32,
        }
    }
}

/// The members of a set that are left, ascending.
///
/// Contracts see it as the list of these.
#[derive(Drop)]
pub struct Members {
    /// A set as a number of 32 bits, since a processor takes members from these in fewer steps.
    left: u32,
}

impl Model for Members {
    ghost use Rattle.std.specs.Prelude.{◌<◌, ◌^◌, List, ℕ};
    ghost use Rattle.cn_outcomes.specs.Bits.{members};

    ghost Value = { List ℕ };

    ghost view = { λ s. members s.left };

    ghost invariant = { λ s. s.left < 2 ^ 16 };
}

impl Iterator for Members {
    ghost use Rattle.std.specs.Iterator.{YieldsFirst, item_count};

    type Item = u8;

    ghost next_gives = { YieldsFirst (λ left. left) };

    ghost remaining = { item_count (λ left. left) };

    fn next(&mut self) -> Option<u8> {
        let left = self.left;
        if left == 0 {
            return None;
        }
        self.left = left & (left - 1);
        Some(left.trailing_zeros() as u8)
    }
}

/// Whether the number is in the set.
pub fn contains(set: u16, number: u8) -> bool
    requires { number < 16 }
    ensures { IsTrue result ↔ IsBitSet set number }
{
    set & (1 << number) != 0
}

/// The set with the number.
pub fn with(set: u16, number: u8) -> u16
    requires { number < 16 }
    ensures { (q : ℕ) → IsBitSet result q ↔ (IsBitSet set q ⊎ (q ≡ number)) }
{
    set | (1 << number)
}

/// The numbers of both sets.
pub fn union(a: u16, b: u16) -> u16
    ensures { (q : ℕ) → IsBitSet result q ↔ (IsBitSet a q ⊎ IsBitSet b q) }
{
    a | b
}
