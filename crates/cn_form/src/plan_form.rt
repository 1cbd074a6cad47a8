//! The forms of a plan's text.

/// A form of a plan's text.
#[derive(Clone, Copy, Debug, PartialEq, Eq)]
pub enum PlanForm {
    /// Lines of text for people.
    Text,
    /// One JSON object.
    Json,
    /// The tournament as a picture for Graphviz.
    Dot,
    /// A model in Promela, for the model checker SPIN.
    Promela,
    /// A program in Rust.
    Rust,
    /// A program in C.
    C,
}
