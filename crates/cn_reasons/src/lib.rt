//! Why the number of a type is what it is, as values.
//!
//! An [`Explanation`] has what there is to tell of a consensus number: the [`Witness`] with what
//! each process can see, the [`Way`]s that a certificate refutes, each with two runs step by step,
//! and operations that last with the states that they leave. A [`RecoverableExplanation`] has the
//! same of a recoverable number. [`reason_of`] answers why a choice is no recording witness.
//!
//! Each part is resolved: a text of it, in any form, looks up names in the table and computes
//! nothing. By [`laws::told_sights`] the sights of a process are those of the outcome sets, and by
//! [`laws::like_processes`] those of neighbours with the same operation are the same.
//!
//! ```text
//! check(&table, &certificate)?;
//! let number = TypeNumber::UpTo(certificate.limit, certificate.number);
//! let explanation = Explanation::new(alloc, table, certificate, number, None, false)?;
//! ```
#![tactic(auto)]

mod explanation;
mod first_order;
mod group;
mod lasting;
pub mod laws;
mod numbers;
mod onward;
mod reason;
mod reasons;
mod recording;
mod recoverable;
mod refutation;
mod runs;
mod search;
mod sight;
mod states;
mod way;
mod witness;

pub use explanation::Explanation;
pub use group::{ChoiceGroups, Group, choice_groups};
pub use lasting::LastingWitness;
pub use numbers::TypeNumber;
pub use reason::Reason;
pub use reasons::RecoverableWay;
pub use recording::{Reader, RecordingWitness};
pub use recoverable::RecoverableExplanation;
pub use refutation::Refutation;
pub use runs::{Runs, Step};
pub use search::reason_of;
pub use sight::{Sight, sights};
pub use way::Way;
pub use witness::{View, Witness};
