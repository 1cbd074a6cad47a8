//! Texts of tables, of numbers, and of why a number is what it is, for people.
//!
//! [`grid_of`] answers the grid of a table, and [`diagram_of`] its picture for Graphviz.
//! [`explanation_of`] tells an [`Explanation`](cn_reasons::Explanation) to people, and
//! [`recoverable_explanation_of`] that of a recoverable number, and [`unread_explanation_of`] that of a
//! number without reads. [`pairs_lines`] has the numbers of pairs of operations as a triangle, and
//! [`changes_lines`] those of a type with other entries. Each text is a function of the values that it
//! shows.
//!
//! ```text
//! print!(rt; "{}", grid_of(alloc, &table)?)?;
//! let explanation = Explanation::new(alloc, table, certificate, number, None, false)?;
//! print!(rt; "{}", explanation_of(alloc, &explanation, None)?)?;
//! ```
#![tactic(auto)]

mod change_lines;
mod columns;
mod diagram;
mod explanation;
mod folded;
mod grid;
mod limits;
mod pair_lines;
mod plays;
mod reasons;
mod recoverable;
mod sides;
mod unread;
mod unread_views;
mod views;
mod ways;

pub use change_lines::changes_lines;
pub use diagram::diagram_of;
pub use explanation::explanation_of;
pub use grid::grid_of;
pub use pair_lines::pairs_lines;
pub use recoverable::recoverable_explanation_of;
pub use unread::unread_explanation_of;
