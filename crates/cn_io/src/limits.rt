//! The limits of texts, lists and numbers.
use cn_choice::MOST_PROCESSES;
use cn_log::MOST_SLOTS;

/// The most bytes of the text of a table, be it that of the type or of an object.
pub const MOST_TABLE_BYTES: usize = 65_536;

/// The most bytes of the text of a certificate.
pub const MOST_CERTIFICATE_BYTES: usize = 16_777_216;

/// The most bytes of a file that holds the text of an argument.
pub const MOST_ARGUMENT_BYTES: usize = 1_048_576;

/// The most items of a list on the command line.
pub const MOST_ITEMS: usize = 65_536;

/// The most items of a list in a file. A log of n processes and K slots has fewer than n(K(5n-3)+1)
/// events, so the events of every log fit.
pub const MOST_FILE_ITEMS: usize = MOST_PROCESSES
    * (MOST_SLOTS as usize * (5 * MOST_PROCESSES - 3) + 1);

/// The most digits of a number in an argument.
pub const MOST_DIGITS: usize = 20;

/// The most calls of a process: a slot takes at most one call of each process.
pub const MOST_CALLS: usize = MOST_SLOTS as usize;
