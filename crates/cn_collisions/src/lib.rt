//! The recorded collision of each choice of a type for one number of processes.
//!
//! [`Sets`] says what words of an exact number of operations lead to, for all stocks of operations.
//! They are made once, and [`examine`] reads the recorded collision of a choice off them, process
//! by process, with no step back.
//!
//! ```text
//! let sets = Sets::new(rt, alloc, &table, 3, Threading::Many)?;
//! match examine(&sets, &choice) {
//!     Examined::Splits => println!(rt; "a witness")?,
//!     Examined::Meets(collision) => println!(rt; "process {} cannot tell", collision.process)?,
//! }
//! ```
#![tactic(auto)]

mod asked;
mod collisions;
mod endings;
mod examination;
mod orders;
mod places;
mod sets;
mod setting;
mod view;
mod ways;
mod word_sets;

pub use examination::{Examined, RecordedOrders, examine, recorded_orders};
pub use sets::Sets;
