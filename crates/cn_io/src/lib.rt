//! What commands read and write: texts, arguments, reports, and the faults of all these.
//!
//! A [`Text`] keeps the bytes that its reader has given, and an [`Output`] those that were handed to
//! its writer. The [`readers`] answer what texts spell, [`read_events`] and others what arguments
//! spell. A [`Report`] is what a command writes, and an [`AppFault`] says why it wrote nothing; a
//! [`Hint`] says what to do then.
//!
//! ```text
//! let mut table = Text::new(alloc, rt.stdin());
//! let table = readers::read_table(alloc, &mut table)?;
//! let mut output = Output::new(alloc, rt.stdout());
//! output.write(&report)?;
//! ```
#![tactic(auto)]

mod arguments;
mod fault;
mod hints;
mod known;
mod limits;
pub mod readers;
mod report;
mod streams;

pub use arguments::calls::{calls_fit, calls_in, read_calls};
pub use arguments::events::{EventList, EventWord, read_capacity, read_events};
pub use arguments::files::read_argument;
pub use arguments::list_text::ListText;
pub use arguments::lists::{RunLists, read_inputs, read_run_lists, read_schedule};
pub use arguments::lives::{LifeLists, check_processes, read_life_lists, read_life_schedule};
pub use arguments::operations::{OperationName, OperationWord};
pub use fault::{AppFault, Argument, Source};
pub use hints::Hint;
pub use known::Known;
pub use limits::{
    MOST_ARGUMENT_BYTES, MOST_CALLS, MOST_CERTIFICATE_BYTES, MOST_DIGITS, MOST_FILE_ITEMS,
    MOST_ITEMS, MOST_TABLE_BYTES,
};
pub use report::{Outcome, Report, with_line_feed};
pub use streams::output::Output;
pub use streams::progress::Progress;
pub use streams::text::Text;
