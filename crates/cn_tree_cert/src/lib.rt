//! Certificates of plan trees, as values and as JSON texts.
//!
//! [`write_tree_certificate`] gives the one text of a certificate. A certificate that was read can
//! say anything: `cn_tree_check` tells whether it is right.
//!
//! ```text
//! println!(rt; "{}", write_tree_certificate(alloc, &certificate)?)?;
//! ```
#![tactic(auto)]

mod certificate;
mod fault;
mod kinds;
pub mod laws;
mod part;
mod read;
mod reading;
mod shape;
#[cfg(test)]
mod tests;
mod write;

pub use certificate::{TreeCertificate, TreeNode};
pub use fault::TreeCertFault;
pub use read::read_tree_certificate;
pub use write::write_tree_certificate;
