//! What a search asks of each stock and each start state.

/// What a search asks of each stock and each start state.
#[derive(Clone, Copy)]
pub(crate) enum Question {
    /// Whether the stock splits from the state.
    Splitting,
    /// Whether the stock records from the state.
    Recording,
}
