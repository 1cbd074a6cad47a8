//! The text of a list, and how many items the list may have.
ghost use Rattle.std.specs.Prelude.{◌≡◌};
ghost use Rattle.cn_io.specs.Arguments.Lists.{most_items, text_of};

use crate::limits::{MOST_FILE_ITEMS, MOST_ITEMS};

/// The text of an argument that is a list, by where it stands.
#[derive(Debug, Drop)]
pub enum ListText<'a> {
    /// A word of the command line: at most [`MOST_ITEMS`] items.
    Word(&'a str),
    /// What a file holds: at most [`MOST_FILE_ITEMS`] items.
    File(String),
}

impl<'a> ListText<'a> {
    /// The text itself.
    pub(crate) fn text(&self) -> &str
        ensures { result.now ≡ text_of self.now }
    {
        match self {
            ListText::Word(text) => text,
            ListText::File(text) => text.as_str(),
        }
    }

    /// How many items there may be.
    pub(crate) fn most_items(&self) -> usize
        ensures { result ≡ most_items self.now }
    {
        match self {
            ListText::Word(_) => MOST_ITEMS,
            ListText::File(_) => MOST_FILE_ITEMS,
        }
    }
}
