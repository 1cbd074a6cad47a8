//! The checker of certificates: it finds out by itself whether a certificate is right.
//!
//! [`check`] goes through the evidence with code of its own. It shares with the search only the
//! definitions, their laws, and the steps of the table. It allocates nothing, so it never fails for
//! want of memory. If it answers `Ok`, the number is that of the type, whoever made the
//! certificate; otherwise a [`CheckFault`] says what is wrong.
//!
//! ```text
//! let table = read_table(alloc, table_bytes)?;
//! let certificate = read_certificate(alloc, certificate_bytes)?;
//! match check(&table, &certificate) {
//!     Ok(()) => println!(rt; "ok")?,
//!     Err(fault) => println!(rt; "{fault}")?,
//! }
//! ```
#![tactic(auto)]

mod acceptance;
mod choice;
mod end_sets;
mod entry;
mod fault;
pub mod laws;
mod line;
mod one_pass;
mod pairs;
mod pieces;
mod refutation;
mod sets;
mod shown_pairs;
mod steps;
mod verdict;
mod witness;

pub use acceptance::accepts;
pub use fault::CheckFault;
pub use verdict::check;
