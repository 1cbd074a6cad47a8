//! How far a stream is used.

/// How far a text is read, or an output written.
#[derive(Clone, Copy, Debug, PartialEq, Eq)]
pub enum Progress {
    /// Not to its end, or not at all.
    Open,
    /// To its end.
    Done,
    /// Until the reader or the writer failed.
    Failed,
}
