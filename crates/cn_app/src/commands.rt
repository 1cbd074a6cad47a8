//! The commands: each reads what it needs, does its work, and writes a report.
//!
//! A [`Text`](crate::Text) keeps the bytes that its reader has given. An [`Output`](crate::Output)
//! keeps the bytes that were handed to its writer. So the contract of a command speaks of the bytes
//! read and the bytes written, for any streams. A caller wraps a reader by
//! [`Text::new`](crate::Text::new) and a writer by [`Output::new`](crate::Output::new), and
//! afterwards takes them back by [`Text::into_reader`](crate::Text::into_reader) and
//! [`Output::into_writer`](crate::Output::into_writer).
//!
//! A command that fails has written nothing, unless its writer failed.

mod of_certificates;
mod of_lives;
mod of_logs;
mod of_objects;
mod of_plan_certificates;
mod of_several_tables;
mod of_shortest_plans;
mod of_stocks;
mod of_tables;

pub use of_certificates::{agree, check, check_unread, explain, show};
pub use of_lives::{agree_recoverably, show_recoverable};
pub use of_logs::{replay, serve};
pub use of_objects::{show_object, show_shortest_object};
pub use of_plan_certificates::{check_shortest, find_shortest};
pub use of_several_tables::{NamedTable, Tell, classify_each};
pub use of_shortest_plans::{agree_shortest, show_shortest};
pub use of_stocks::{check_stocks, explain_stocks, find_stocks, why_stocks};
pub use of_tables::{
    changes, classify, draw, find, find_unread, lint, pairs, why, why_recoverable, why_unread,
};
