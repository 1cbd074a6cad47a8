//! What a text for people and a Markdown document say in the same words: the processes of a group,
//! states, numbers, some whole lines, sentences on numbers without reads, changes that raise a number,
//! and the cells of a triangle of pairs of operations.
//!
//! Each function writes behind the text so far, or answers a text, and each text is a function of the
//! values that it shows. By [`laws::cells_tell_numbers`] the cells of a triangle tell the numbers of
//! the type with these operations alone.
//!
//! ```text
//! push_members(&mut text, table, " (team A)", choice.a.as_slice())?;
//! push_states(&mut text, table, witness.a_states.as_slice())?;
//! let rows = triangle_of(alloc, table, pairs, "")?;
//! ```
#![tactic(auto)]

mod changes;
mod groups;
pub mod laws;
mod lines;
mod numbers;
mod shortest;
mod smallest;
mod states;
mod triangle;
mod unread;

pub use changes::{push_change_lines, push_changes_head};
pub use groups::{process_name, push_members, push_processes};
pub use lines::{alone_line, push_limit_line, push_reader};
pub use numbers::number_words;
pub use shortest::{ShortestCost, push_shortest};
pub use smallest::push_smallest;
pub use states::push_states;
pub use triangle::triangle_of;
pub use unread::{
    open_line, push_merged, push_next_steps, push_sign_search, push_undecided, push_unread_sight,
    telling_line,
};
