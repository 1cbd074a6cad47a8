//! Threads that make the calls of the processes, one thread for each.
//!
//! [`serve_calls`] opens a hall around a log, makes the calls of each process in a thread of its own,
//! and answers the replies with the log.
//!
//! ```text
//! let served = serve_calls(rt, alloc, |_| AlwaysOn, core, &calls)?;
//! assert!(served.processes.len() == calls.len());
//! ```
#![tactic(auto)]

mod serving;
mod workers;

pub use serving::{ServeFault, ServiceHistory, serve_calls};
pub use workers::ProcessHistory;
