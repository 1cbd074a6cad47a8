//! How far a search has come.

/// Who is told how far a search has come. The threads of the search tell it.
pub trait Progress {
    /// So many parts are ahead, and none is done.
    fn begin(&self, parts: usize);

    /// One part more is done.
    fn step(&self);
}

/// Nobody is told.
#[derive(Clone, Copy, Debug)]
pub struct Untold;

impl Progress for Untold {
    fn begin(&self, _parts: usize) {}

    fn step(&self) {}
}
