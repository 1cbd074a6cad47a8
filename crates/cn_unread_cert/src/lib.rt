//! Certificates of numbers without reads, as values and as JSON texts.
//!
//! [`write_unread_certificate`] gives the one text of a certificate. A certificate that was read can
//! say anything: `cn_unread_check` tells whether it is right.
//!
//! ```text
//! println!(rt; "{}", write_unread_certificate(alloc, &certificate)?)?;
//! ```
#![tactic(auto)]

mod certificate;
mod fault;
mod kinds;
pub mod laws;
mod limits;
mod maker;
mod part;
mod read;
mod reading;
mod shape;
#[cfg(test)]
mod tests;
mod write;

pub use certificate::{LeastClaim, UnreadCertificate};
pub use fault::UnreadCertFault;
pub use maker::unread_certificate;
pub use read::read_unread_certificate;
pub use write::write_unread_certificate;
