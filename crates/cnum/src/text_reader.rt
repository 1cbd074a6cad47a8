//! The texts that the command line names.
use crate::disk::Disk;
use crate::lazy_file::LazyFile;
use std::io;
use std::io::Read;

/// The reader of a named text: standard input for the name `-`, else the file of the name.
#[derive(Drop)]
pub enum TextReader<'a, S, D: Disk> {
    Standard(S),
    File(LazyFile<'a, D>),
}

impl<'a, S: Read, D: Disk> Read for TextReader<'a, S, D> {
    ghost use Rattle.cnum.specs.Texts.{left_in, left_of};

    ghost remaining = { left_of S.remaining (left_in D.contents D.Reader.remaining) };

    fn read(&mut self, buffer: &mut [u8]) -> io::Result<usize> {
        match self {
            TextReader::Standard(stdin) => stdin.read(buffer),
            TextReader::File(file) => file.read(buffer),
        }
    }
}
