//! Certificates: the finding of a search with the name of its type, as a value and as a JSON text.
//!
//! [`Certificate::of_finding`] makes a certificate, [`write_certificate`] gives its one text, and
//! [`read_certificate`] reads it back. A [`CertFault`] says what is wrong with a text.
//! [`push_entry`] and [`write_with_entries`] write it entry by entry.
//!
//! ```text
//! let finding = find(rt, alloc, &table, 3)?;
//! if let Ok(certificate) = Certificate::of_finding(alloc, &table, finding) {
//!     println!(rt; "{}", write_certificate(alloc, &certificate)?)?;
//! }
//! ```
//!
//! A certificate that was read can say anything. `cn_check` tells whether it is right.
#![tactic(auto)]

mod array;
mod certificate;
mod document;
mod draft;
mod entries;
mod fault;
mod frame;
mod guess;
mod kind;
pub mod laws;
mod line;
mod number;
mod object;
mod ranges;
mod read;
mod sink;
mod skip;
mod write;

pub use certificate::Certificate;
pub use entries::{push_entry, write_with_entries};
pub use fault::CertFault;
pub use frame::{Frame, read_frame};
pub use read::read_certificate;
pub use write::write_certificate;
