//! Operations that interfere, and the numbers of types in which any two do.
//!
//! Two operations *interfere* in a state if they commute there, or one of them wipes out the other:
//! it leaves the same state whether or not the other goes before it. [`interferes`] says whether
//! two operations do in a state, [`interfering`] whether any two do in every state, and
//! [`pairs_apart`] lists the pairs that do not. By [`laws::interference_bounds`] the number of a
//! type in which any two operations interfere in every state is at most 2. It is 1 if no operation
//! answers anything ([`none_answers`]), by [`laws::interference_without_answers`]. On two states any
//! two operations interfere, by [`laws::two_states`]. The number is 1 exactly if, of any two
//! operations, in every state, one tells nothing of the other ([`hiding`]), by
//! [`laws::hidden_operations`]. Each of these facts is a [`Rule`]; [`rule_of`] answers the first one
//! that applies to a type, and by [`laws::rules_bound`] it bounds the number.
//!
//! ```text
//! if interfering(&table) {
//!     println!(rt; "at most 2")?;
//! }
//! for pair in pairs_apart(alloc, &table)?.as_slice() {
//!     let first = table.operation_name(pair.first);
//!     println!(rt; "{first} and {}", table.operation_name(pair.second))?;
//! }
//! ```
#![tactic(auto)]

mod answers;
mod interference;
pub mod laws;
mod pairs;
mod rules;
mod telling;

pub use answers::{answers_nothing, none_answers};
pub use interference::{interferes, interfering};
pub use pairs::{OperationPair, pairs_apart};
pub use rules::{Rule, rule_of};
pub use telling::{hiding, tells_nothing};
