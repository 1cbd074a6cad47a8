//! Whether a type is n-discerning, for n of at least 3, with no choice of teams.
//!
//! [`is_discerning`] looks for a start state and a list of n operations, the stock, that falls into
//! two parts: nothing that a process can see comes both from orders that begin in the one and from
//! orders that begin in the other. By [`laws::splits_decide`] the type is n-discerning exactly
//! where there is such a stock. [`splitting_starts`] answers the start states of the stocks of one
//! number of operations. [`lasting`] has the types that are n-discerning for every n.
//!
//! ```text
//! if is_discerning(rt, alloc, &table, 3, Threading::Many)? {
//!     println!(rt; "three processes can agree")?;
//! }
//! ```
#![tactic(auto)]

mod counts;
mod decision;
pub mod lasting;
pub mod laws;
mod levels;
pub mod limits;
mod meetings;
pub mod pair_sets;
mod question;
mod records;
mod search;
mod splits;
mod starts;
pub mod stocks;
mod threading;
mod word_sets;

pub use decision::{greatest_record, is_discerning, splitting_starts};
pub use threading::Threading;
