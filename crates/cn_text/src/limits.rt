//! The limits of an explanation's text: how wide its lines are, and how many pairs it tells.

/// The greatest width of a line in columns. The lines of a table's cells can be wider.
pub(crate) const WIDEST_LINE: usize = 100;

/// The number of spaces before the rest of a line that goes on in the next one.
pub(crate) const MARGIN: usize = 10;

/// The greatest number of pairs of operations that do not interfere which are told.
pub(crate) const MOST_APART: usize = 3;

/// The version of certificates that list the live choices, as the ways of recoverable numbers do.
pub(crate) const LIVE_VERSION: u8 = 2;
