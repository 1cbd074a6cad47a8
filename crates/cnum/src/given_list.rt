//! The lists that the command line gives.
ghost use Rattle.cnum.specs.GivenLists.{GivesList};
ghost use Rattle.cnum.specs.Texts.{left_in};

use crate::disk::Disk;
use crate::lazy_file::file_text;
use cn_app::{AppFault, Argument, ListText, read_argument};
use std::alloc::Global;

/// The list that a word gives: the word itself, or behind an `@` the name of the file that holds
/// it.
pub fn given_list<'a, D: Disk>(
    disk: &D,
    alloc: Global,
    word: &'a str,
    argument: Argument,
) -> Result<ListText<'a>, AppFault>
    // promise: list-of-an-argument (GivesList: NamesFile, IsRead)
    ensures { GivesList (left_in D.contents D.Reader.remaining) (D.contents disk.now)
        word.now argument result }
{
    match word.strip_prefix('@') {
        Some(path) => {
            let mut text = file_text(disk, alloc, path);
            Ok(ListText::File(read_argument(alloc, &mut text, argument)?))
        }
        None => Ok(ListText::Word(word)),
    }
}
