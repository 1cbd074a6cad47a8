//! The commands of `cnum`, each a function over readers and a writer.
//!
//! A caller begins with these: the readers of a table, of a certificate and of an object, the
//! writer, and then the arguments as on the command line.
//!
//! ```text
//! let (table, certificate) = (table.as_bytes(), certificate.as_bytes());
//! let (object, mut out) = (object.as_bytes(), rt.stdout());
//! run_find(rt, alloc, table, &mut out, 3)?;
//! run_check(rt, alloc, table, certificate, &mut out)?;
//! run_show(rt, alloc, table, certificate, &mut out)?;
//! run_agree(rt, alloc, table, certificate, &mut out, "10,20", "1,1,0,0,0,0")?;
//! run_replay(rt, alloc, table, certificate, object, &mut out, "0", "4", "i0:0,s0,s0,s0")?;
//! let gate = |_| AlwaysOn;
//! run_serve(rt, alloc, table, certificate, object, &mut out, "0", "4", "0,0/none", gate)?;
//! ```
//!
//! [`commands`] has all commands with all their options. There a [`Text`] keeps the bytes read, and
//! an [`Output`] those written. A command has three parts: it reads what it needs ([`readers`],
//! [`arguments`](read_events)), does its work on values ([`reports`]), and hands one report to its
//! output. Each part is public, so that a program can put its own between them.
//!
//! ```text
//! let mut table = Text::new(alloc, rt.stdin());
//! let mut output = Output::new(alloc, rt.stdout());
//! if let Err(fault) = commands::find(rt, alloc, &mut table, &mut output, None) {
//!     eprintln!(rt; "{fault}")?;
//! }
//! ```
#![tactic(auto)]

mod answers;
pub mod commands;
mod lines;
mod plan_style;
pub mod reports;
mod runs;

pub use cn_io::{
    AppFault, Argument, EventList, EventWord, Hint, Known, ListText, MOST_ARGUMENT_BYTES,
    MOST_CALLS, MOST_CERTIFICATE_BYTES, MOST_DIGITS, MOST_FILE_ITEMS, MOST_ITEMS, MOST_TABLE_BYTES,
    OperationName, OperationWord, Outcome, Output, Progress, Report, Source, Text, calls_in,
    read_argument, read_calls, read_events, read_inputs, read_life_schedule, read_schedule,
    readers,
};
pub use plan_style::{PlanStyle, read_prefix};
pub use runs::{run_agree, run_check, run_find, run_replay, run_serve, run_show};
