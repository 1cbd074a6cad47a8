//! Evidence that a type whose objects are not read is not defended: lists of positions of the game
//! on two runs from which the adversary never has to leave.
//!
//! A [`Trap`] is such a list, and [`Trap::refutes`] says whether it shows that a table is not
//! defended for n processes. [`find_trap`] looks for one.
#![tactic(auto)]

mod board;
mod form;
pub mod laws;
mod moves;
mod positions;
mod reached;
mod search;
#[cfg(test)]
mod tests;
mod trap;
mod turns;
mod walk;

pub use board::{Board, Run, Standing};
pub use search::find_trap;
pub use trap::{Trap, Turn};
