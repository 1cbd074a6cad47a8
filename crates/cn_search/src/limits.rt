//! How many choices a search takes.

/// The most canonical choices, live or not, for as many processes as the limit, that
/// [`find`](crate::find) searches.
pub const MOST_CHOICES: u64 = 100_000;
