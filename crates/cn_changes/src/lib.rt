//! The numbers of a type with each other entry in its table.
//!
//! An *entry* of a table is what one operation does in one state: a response and a next state. A
//! *change* puts another entry in its place. [`changes_of`] answers the number of the type with each
//! of its changes; [`rests_on`] says of an entry whether the number rests on it, and [`raises_of`]
//! lists the changes that raise the number. [`pair_numbers`] goes on to two changes at once.
//!
//! ```text
//! let changes = changes_of(rt, alloc, &table, NumberKind::Consensus, &Untold)?;
//! for raise in raises_of(alloc, changes.number, changes.nexts.as_slice())?.as_slice() {
//!     let target = raise.target;
//!     let operation = table.operation_name(target.operation);
//!     let state = table.state_name(target.state);
//!     let next = table.state_name(target.next);
//!     println!(rt; "{operation} in {state} to {next}: {}", raise.number)?;
//! }
//! ```
#![tactic(auto)]

mod change;
mod changes;
mod greatest;
mod kind;
pub mod laws;
mod less;
mod numbers;
mod pairs;
mod progress;
mod raises;
mod rests;
mod targets;
#[cfg(test)]
mod tests;

pub use change::Change;
pub use changes::{Changes, changes_of};
pub use kind::{NumberKind, number_of};
pub use less::{is_less, is_same};
pub use numbers::{ChangeNumber, NextNumbers, agreed, number_with};
pub use pairs::{ChangePair, MOST_PAIRS, PairNumber, PairNumbers, pair_numbers};
pub use progress::{Progress, Untold};
pub use raises::{Raise, raises_of};
pub use rests::rests_on;
pub use targets::Target;
