//! The exact greatest number of operations of which some stock splits, by the states that words
//! leave.
//!
//! A stock *tells* where its operations fall into two parts and the state alone tells in which of
//! these a word began. A state takes 2 bytes where the pairs of [`cn_stocks::greatest_split`] take
//! hundreds, so that all stocks of 16 operations can be gone over ([`greatest_told`]). By
//! [`laws::states_tell_all_but_one`] no stock of two operations more splits. Of those of one
//! operation more few are left that could, and of each [`splits`] looks at the stocks within it
//! alone. [`exact_split`] puts the two together.
//!
//! ```text
//! let greatest = exact_split(rt, alloc, &table, 16, Threading::Many)?;
//! ```
#![tactic(auto)]

pub mod cells;
pub mod ends;
mod exact;
pub mod joins;
pub mod laws;
pub mod levels;
mod meetings;
pub mod rows;
pub mod search;
pub mod shown;
mod stock_splits;
mod told;

pub use exact::{LastSearch, exact_split, exact_split_by, last_search};
pub use stock_splits::splits;
pub use told::greatest_told;
