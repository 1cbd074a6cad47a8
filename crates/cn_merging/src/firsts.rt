//! The first state of each class of states that no operations tell apart.
//!
//! Classes are refined, from one class of all states, until each operation leads from the states of
//! a class to states of one class. There are at most as many rounds as states.
ghost use Rattle.std.specs.Prelude.{◌≡◌, ◌<◌, ◌≤◌, ℕ, IsTrue, length, false, replicate};
ghost use Rattle.cn_merging.specs.Alike.{AreFirsts};
ghost use Rattle.cn_merging.specs.Rounds.{Agree, Disagree, IsRound, IsFirstAgreeing};
ghost use Rattle.cn_table.specs.TypeTable.{IsTypeTable, TypeTable};

use arrayvec::ArrayVec;
use cn_table::{MOST_STATES, Operation, State, Table};

/// Whether each operation gives the same response in both states, and leads to states of one class.
fn agree(table: &Table, firsts: &[u8], p: State, q: State) -> bool
    requires long { length firsts.now ≡ length table.now.states }
    requires first { p.0 < length table.now.states }
    requires second { q.0 < length table.now.states }
    ensures yes { IsTrue result → Agree table.now firsts.now p.0 q.0 }
    ensures no { result ≡ false → Disagree table.now firsts.now p.0 q.0 }
{
    for o in 0..table.operations() {
        let (response, next) = table.apply(Operation(o), p);
        let (other, other_next) = table.apply(Operation(o), q);
        if response.0 != other.0 {
            return false;
        }
        if firsts[next.0 as usize] != firsts[other_next.0 as usize] {
            return false;
        }
    }
    true
}

/// The first state of the same class that agrees with this one.
fn first_agreeing(table: &Table, firsts: &[u8], q: State) -> u8
    requires long { length firsts.now ≡ length table.now.states }
    requires known { q.0 < length table.now.states }
    ensures { IsFirstAgreeing table.now firsts.now q.0 result }
{
    for p in 0..q.0 {
        if firsts[p as usize] == firsts[q.0 as usize] && agree(table, firsts, State(p), q) {
            return p;
        }
    }
    q.0
}

/// One round: for each state the first one of its class that agrees with it.
fn refined(table: &Table, firsts: &[u8]) -> ArrayVec<u8, MOST_STATES>
    requires { length firsts.now ≡ length table.now.states }
    ensures { IsRound table.now firsts.now result.items }
{
    let mut finer = ArrayVec::new();
    for q in 0..table.states() {
        finer.push(first_agreeing(table, firsts, State(q)));
    }
    finer
}

/// One class of all states.
fn one_class(states: u8) -> ArrayVec<u8, MOST_STATES>
    requires { states ≤ MOST_STATES }
    ensures { result.items ≡ replicate states 0 }
{
    let mut firsts = ArrayVec::new();
    for _ in 0..states {
        firsts.push(0);
    }
    firsts
}

/// For each state the first one that no operations tell apart from it.
pub(crate) fn first_states(table: &Table) -> ArrayVec<u8, MOST_STATES>
    ensures firsts { AreFirsts table.now result.items }
    ensures table { IsTypeTable table.now }
{
    let mut firsts = one_class(table.states());
    loop {
        let finer = refined(table, firsts.as_slice());
        if finer.as_slice() == firsts.as_slice() {
            return firsts;
        }
        firsts = finer;
    }
}
