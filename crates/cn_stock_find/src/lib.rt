//! The search for certificates by stocks.
//!
//! [`joins_against`] answers joins as evidence that a type is not n-discerning, and
//! [`lasting_sets`] sets of states as evidence that two operations last. [`find_stocks`] answers a
//! whole certificate: the bounds of the number of a type, and evidence for each.
//!
//! ```text
//! let certificate = find_stocks(rt, alloc, &table, Some(3))?;
//! println!(rt; "{}", write_stock_certificate(alloc, &certificate)?)?;
//! ```
#![tactic(auto)]

mod find;
mod joins;
mod lasting;
#[cfg(test)]
mod tests;

pub use find::find_stocks;
pub use joins::joins_against;
pub use lasting::lasting_sets;
