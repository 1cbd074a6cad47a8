//! The text of the certificate of a type, written while the search goes on.
//!
//! [`find_text`] looks for the number of a type as [`find`](cn_search::find) does. Its threads write
//! the entries of the certificate as they find them.
//!
//! ```text
//! println!(rt; "{}", find_text(rt, alloc, &table, 3)?)?;
//! ```
#![tactic(auto)]

mod entries;
mod text;

pub use text::find_text;
