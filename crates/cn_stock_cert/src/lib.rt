//! Certificates by stocks, as values and as JSON texts.
//!
//! A certificate has bounds of the number of a type, with no limit, and evidence for each: a witness
//! or operations that last, and [joins](cn_joins). [`write_stock_certificate`] gives the one text of
//! a certificate. A certificate that was read can say anything: `cn_stock_check` tells whether it is
//! right.
//!
//! ```text
//! println!(rt; "{}", write_stock_certificate(alloc, &certificate)?)?;
//! ```
#![tactic(auto)]

mod certificate;
mod fault;
mod kinds;
pub mod laws;
mod part;
mod read;
mod reading;
mod shape;
#[cfg(test)]
mod tests;
mod write;

pub use certificate::{LastingSets, StockCertificate, StockClaim, TeamChoice};
pub use fault::StockCertFault;
pub use read::read_stock_certificate;
pub use write::write_stock_certificate;
