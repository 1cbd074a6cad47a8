//! The words of the command line of `cnum`, the help on them, and the command that they give.
//!
//! [`parse`] makes an [`Invocation`] of a command line, or a [`Reply`] if there is no command to
//! run. The crate `clap` parses the words by the grammar of [`command`], and [`invocation_of`]
//! reads what `clap` found. The crate knows nothing of what a command does.
//!
//! ```text
//! match parse(alloc, &words) {
//!     Ok(Invocation::Classify { tables, .. }) => println!(rt; "{} tables", tables.len())?,
//!     Ok(_) => println!(rt; "one table")?,
//!     Err(Reply::Help(text) | Reply::Refusal(text)) => println!(rt; "{text}")?,
//!     Err(Reply::Fault(_)) => println!(rt; "no command")?,
//! }
//! ```
#![tactic(auto)]

mod commands;
mod plan_certificates;
mod plan_words;
mod replies;
mod stock_certificates;
mod without_certificate;
mod words;

pub use commands::{Command, CommandFault, Invocation, OpeningWords, TextSource, invocation_of};
pub use plan_words::{ObjectWords, PlanWords, StyleWords};
pub use replies::{Reply, parse};
pub use without_certificate::RunWords;
pub use words::command;
