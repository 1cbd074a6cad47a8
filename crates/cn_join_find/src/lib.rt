//! The search for joins of stocks of up to 17 operations, from the stocks within each of them.
//!
//! [`find_joins`] answers joins as evidence that a type is not n-discerning, for n from 2 to 17, and
//! [`find_witness`] a witness that it is, for n from 3 on. Most stocks are connected by smaller ones.
//! Of the others that do not tell the pairs that words within them show are made.
//!
//! The search for joins leaves out operations that are copies of earlier ones. Its joins then get the
//! numbers that their operations have in the whole table. It looks at no stock with two different
//! operations that lead from each state to the same one.
//!
//! ```text
//! let joins = find_joins(rt, alloc, &table, 10, Threading::Many)?;
//! ```
#![tactic(auto)]

mod against;
mod connect;
mod crossing;
mod likely;
mod marks;
mod meeting;
mod notices;
mod reach;
mod renaming;
mod split;
mod steps;
#[cfg(test)]
mod tests;
mod words;

pub use against::{find_joins, find_witness};
pub use split::Split;
