//! Joins: evidence that a type is not n-discerning.
//!
//! A *join* is two words from one start state that show one operation the same response and the
//! same last state. Where two processes begin these words, no process can tell which of them was
//! first, so that both are in one team. Joins within a stock of n operations that connect all of
//! these leave no two teams. By [`laws::joins_decide`] a type is not n-discerning exactly if, from
//! each state, joins connect the operations of each stock of n; for n = 2 there is a word more.
//!
//! Some stocks are left out: those with an operation that does in each state what an earlier one of
//! the type does, and those with two different operations that lead from each state to the same one.
//! Where a stock splits and, for n = 2, no operation notices itself, one splits that is not left out.
#![tactic(auto)]

mod join;
pub mod laws;

pub use join::{Join, PlacedWord};
