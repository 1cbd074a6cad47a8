//! The checker of certificates of numbers without reads.
//!
//! [`check_unread`] merges the states of the table, and goes through the evidence of a certificate
//! by exact tests: no search takes part. If it answers `Ok`, the bounds of the certificate are those
//! of the type, whoever made it; otherwise an [`UnreadCheckFault`] says what is wrong.
//!
//! ```text
//! match check_unread(alloc, &table, &certificate) {
//!     Ok(()) => println!(rt; "ok")?,
//!     Err(fault) => println!(rt; "{fault}")?,
//! }
//! ```
#![tactic(auto)]

mod evidence;
mod fault;
pub mod laws;
#[cfg(test)]
mod tests;
mod verdict;

pub use fault::UnreadCheckFault;
pub use verdict::check_unread;
