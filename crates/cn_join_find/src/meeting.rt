//! Pairs that are shown behind two operations.
ghost use Rattle.std.specs.Prelude.{◌≡◌, ◌<◌, ℕ, IfSome, IsBitSet, None, length};
ghost use Rattle.cn_stocks.specs.Pairs.{Has, set_at};
ghost use Rattle.cn_join_find.specs.Crossing.{IsMeeting, NoCommonPair};

use crate::steps::{Pair, has_pair};
use cn_outcomes::bits::contains;
use cn_stocks::pair_sets::PairSet;
use cn_table::Table;
use cn_telling::joins::FirstPairs;

/// Two operations, and a pair that is shown behind both.
#[derive(Clone, Copy)]
pub(crate) struct Meeting {
    pub first: u8,
    pub second: u8,
    pub pair: Pair,
}

/// A state that is with the response in both sets.
fn common_state(table: &Table, a: &PairSet, b: &PairSet, response: u8) -> Option<u8>
    requires { response < length table.now.responses }
    ensures known { IfSome result (λ state. state < length table.now.states) }
    ensures first { IfSome result (λ state. Has a.now response state) }
    ensures second { IfSome result (λ state. Has b.now response state) }
    ensures none { result ≡ None → (state : ℕ) → state < length table.now.states
        → Has a.now response state → ¬ Has b.now response state }
{
    let _responses = table.responses();
    for state in 0..table.states() {
        if has_pair(a, response, state) && has_pair(b, response, state) {
            return Some(state);
        }
    }
    None
}

/// A pair that is in both sets.
fn common_pair(table: &Table, a: &PairSet, b: &PairSet) -> Option<Pair>
    ensures response { IfSome result (λ pair. pair.response < length table.now.responses) }
    ensures state { IfSome result (λ pair. pair.state < length table.now.states) }
    ensures first { IfSome result (λ pair. Has a.now pair.response pair.state) }
    ensures second { IfSome result (λ pair. Has b.now pair.response pair.state) }
    ensures none { result ≡ None → NoCommonPair table.now a.now b.now }
{
    if !a.meets(b) {
        return None;
    }
    for response in 0..table.responses() {
        if let Some(state) = common_state(table, a, b, response) {
            return Some(Pair { response, state });
        }
    }
    None
}

/// The meeting of the first operation, which is in the set, with another one.
fn meeting_of(table: &Table, pairs: &FirstPairs, set: u16, first: u8) -> Option<Meeting>
    requires known { first < length table.now.operations }
    requires inside { IsBitSet set first }
    ensures some { IfSome result (IsMeeting table.now pairs.now set) }
    ensures none { result ≡ None → (g : ℕ) → g < length table.now.operations → ¬ IsBitSet set g
        → NoCommonPair table.now (set_at pairs.now first) (set_at pairs.now g) }
{
    for second in 0..table.operations() {
        if contains(set, second) {
            continue;
        }
        let found = common_pair(table, &pairs[first as usize], &pairs[second as usize]);
        if let Some(pair) = found {
            return Some(Meeting {
                first,
                second,
                pair,
            });
        }
    }
    None
}

/// The meeting of an operation of the set with another one.
pub(crate) fn find_meeting(table: &Table, pairs: &FirstPairs, set: u16) -> Option<Meeting>
    ensures some { IfSome result (IsMeeting table.now pairs.now set) }
    ensures none { result ≡ None → (f g : ℕ) → f < length table.now.operations
        → g < length table.now.operations → IsBitSet set f → ¬ IsBitSet set g
        → NoCommonPair table.now (set_at pairs.now f) (set_at pairs.now g) }
{
    for first in 0..table.operations() {
        if !contains(set, first) {
            continue;
        }
        if let Some(found) = meeting_of(table, pairs, set, first) {
            return Some(found);
        }
    }
    None
}
