//! Flaws: every error in the text of a type table, with its place.
//!
//! [`read_table`](cn_table::read_table) answers one fault for refused bytes. A caller who shows
//! people what to mend hands the same bytes to [`flaws`], and writes the text of each [`Flaw`] as a
//! line. UTF-8 has no flaw exactly if it spells a table.
//!
//! ```text
//! for flaw in &flaws(alloc, bytes)? {
//!     println!(rt; "{}", flaw.text.as_str())?;
//! }
//! ```
#![tactic(auto)]

mod all_flaws;
mod document_flaws;
mod draft_flaws;
mod flaw;
mod flaw_text;
mod notes;
mod path;

pub use all_flaws::flaws;
pub use flaw::{Flaw, Position};
pub use notes::{IdleOperation, TableNotes, notes_of};
pub use path::PathPart;
