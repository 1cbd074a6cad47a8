//! Arguments that are read from their texts.

pub mod calls;
pub mod events;
pub mod files;
pub mod list_text;
pub mod lists;
pub mod lives;
pub mod operations;
pub mod short;
