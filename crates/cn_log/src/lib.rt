//! The universal log: a server for any tabulated object, by rounds of consensus among the processes
//! of a plan.
//!
//! An [`Opening`] makes a [`LogCore`]. It has a number of slots, and a round of consensus for each.
//! A process that makes a call announces it and then goes through the slots, one after the other:
//!
//! 1. It looks at the announcement of each process in turn, and gathers the calls that the log does
//!    not have yet, its own among them, in a [`Batch`].
//! 2. It begins in the round of the slot with this batch, and takes steps until it has decided.
//! 3. It replays the decided batch on its copy of the object, call by call in the order of
//!    processes. If its own call is in the batch, this gives the answer.
//!
//! The history of a core is a list of [`Event`]s: a process makes a call, or takes one step. This
//! list determines the core. [`LogCore::take`] does any one event, or says why it cannot come.
//! [`replay`] does a whole list on a new core. For every list, the answers are those of one
//! sequential run of the calls, in the order of the log ([`laws`]).
//!
//! ```text
//! let mut core = LogCore::new(alloc, &plan, &counter, start, 8)?;
//! core.take(Event::Invoke(0, 0))?;
//! for _step in 0..6 {
//!     if let Some(CallEnd::Answered(reply)) = core.take(Event::Step(0))? {
//!         println!(rt; "{}", counter.response_name(reply.response))?;
//!     }
//! }
//! for entry in core.entries() {
//!     // Process entry.process called entry.operation.
//! }
//! ```
#![tactic(auto)]

mod batch;
mod call_counts;
mod caller_state;
mod entry;
mod event;
mod event_list;
mod fault;
pub mod laws;
mod limits;
mod log_core;
mod log_state;
mod next_event;
mod opening;

pub use batch::Batch;
pub use entry::Entry;
pub use event::{CallEnd, Event, Reply, StepAnswer};
pub use event_list::{replay, replay_on};
pub use fault::{EventFault, ReplayFault};
pub use limits::MOST_SLOTS;
pub use log_core::LogCore;
pub use opening::Opening;
