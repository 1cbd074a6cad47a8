//! Numbers of types, and why they are what they are, in Markdown.
//!
//! [`number_head`] and [`number_row`] answer the head and the rows of a table of types and their
//! numbers. [`explanation_markdown`], [`recoverable_explanation_markdown`] and
//! [`unread_explanation_markdown`] tell why a number is what it is. [`pairs_table`] has the numbers of
//! pairs of operations, and [`changes_table`] those of a type with other entries. Each text is a
//! function of the values that it shows.
//!
//! ```text
//! print!(rt; "{}", number_head(alloc, false, false)?)?;
//! print!(rt; "{}", number_row(alloc, &table, "2", None, None)?)?;
//! print!(rt; "{}", pairs_table(alloc, &table, &pairs)?)?;
//! ```
#![tactic(auto)]

mod changes;
mod explanation;
mod lasting;
mod numbers;
mod pairs;
mod recoverable;
mod rows;
mod type_table;
mod unread;
mod witness;

pub use changes::changes_table;
pub use explanation::explanation_markdown;
pub use numbers::{number_head, number_row};
pub use pairs::pairs_table;
pub use recoverable::recoverable_explanation_markdown;
pub use unread::unread_explanation_markdown;
