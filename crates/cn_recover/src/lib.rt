//! How many processes can record which team moved first in the state alone, for good.
//!
//! A process that crashes and comes back has lost the response that it got: it has the state of the
//! object alone. [`is_recording_witness`] says of a choice whether the state always tells which
//! team moved first. [`recoverable_consensus_number`] answers the greatest number of processes for
//! which a type has such a choice, or that there is no greatest, and [`recoverable_number`] the
//! greatest one up to a limit. [`first_recording_witness`] answers the first such choice for a
//! number of processes.
//!
//! ```text
//! match recoverable_number(rt, alloc, &table, 8)? {
//!     Some(8) => println!(rt; "at least 8")?,
//!     Some(n) => println!(rt; "{n}")?,
//!     None => println!(rt; "1")?,
//! }
//! ```
#![tactic(auto)]

mod first;
pub mod laws;
mod number;
mod rows;
mod witness;

pub use first::first_recording_witness;
pub use number::{BothNumbers, both_numbers, recoverable_consensus_number, recoverable_number};
pub use witness::is_recording_witness;
