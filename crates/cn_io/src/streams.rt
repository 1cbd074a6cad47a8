//! Readers and writers that keep the bytes that they gave and took.

pub mod output;
pub mod progress;
pub mod text;
