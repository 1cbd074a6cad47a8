//! Places of a path.

/// The place of a process at one node of its path.
#[derive(Clone, Copy, Debug, PartialEq, Eq)]
pub struct Place {
    /// The number of the node; the root is 0.
    pub node: u8,
    /// The number of its team at this node.
    pub team: u8,
}
