//! The checker of certificates of plan trees, and the certificate of a plan tree.
//!
//! [`check_tree`] makes the plan tree of a certificate, node by node: no search takes part. If it
//! answers a plan, the certificate is right, whoever made it; otherwise a [`TreeCheckFault`] says what
//! is wrong. [`tree_certificate`] answers the certificate of a plan.
//!
//! ```text
//! match check_tree(alloc, &table, &certificate) {
//!     Ok(plan) => println!(rt; "ok, {} steps", plan.cost().steps)?,
//!     Err(fault) => println!(rt; "{fault}")?,
//! }
//! ```
#![tactic(auto)]

mod building;
mod fault;
pub mod laws;
mod maker;
mod meetings;
#[cfg(test)]
mod tests;
mod verdict;

pub use fault::TreeCheckFault;
pub use maker::tree_certificate;
pub use verdict::check_tree;
