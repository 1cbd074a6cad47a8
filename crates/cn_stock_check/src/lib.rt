//! The checker of certificates by stocks.
//!
//! [`check_stocks`] goes through the evidence of a certificate by code of its own, and shares with the
//! search only the definitions, their laws, and the steps of the table. If it answers `Ok`, the bounds
//! of the certificate are those of the type, whoever made it; otherwise a [`StockCheckFault`] says
//! what is wrong.
//!
//! ```text
//! let table = read_table(alloc, table_bytes)?;
//! let certificate = read_stock_certificate(alloc, certificate_bytes)?;
//! match check_stocks(alloc, &table, &certificate) {
//!     Ok(()) => println!(rt; "ok")?,
//!     Err(fault) => println!(rt; "{fault}")?,
//! }
//! ```
#![tactic(auto)]

mod copies;
mod evidence;
mod fault;
mod joins;
mod lasting;
pub mod laws;
mod least;
mod needs;
mod parts;
mod rows;
mod seen;
mod sets;
mod stocks;
#[cfg(test)]
mod tests;
mod verdict;
mod witness;
mod words;

pub use fault::StockCheckFault;
pub use verdict::check_stocks;
