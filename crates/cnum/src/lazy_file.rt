//! Files that are opened late.
ghost use Rattle.std.specs.Prelude.{◌≡◌};
ghost use Rattle.cnum.specs.Texts.{IsTextOf, left_in};
ghost use Rattle.cnum.specs.declared.lazy_file.Progress.TheVariants.{Unopened};

use crate::disk::Disk;
use cn_app::Text;
use std::alloc::Global;
use std::io;
use std::io::Read;

/// How far a file was read.
#[derive(Drop)]
pub enum Progress<F> {
    Unopened,
    Open(F),
    /// It was read to its end, and is closed.
    Ended,
}

/// A file that is opened at its first read: if an earlier text is refused, the file is not touched.
/// A fault of the opening is a fault of that read. It is closed once it was read to its end, so
/// that a command can read any number of files.
#[derive(Drop)]
pub struct LazyFile<'a, D: Disk> {
    /// What opens it.
    pub disk: &'a D,
    /// The name of the file.
    pub path: &'a str,
    pub progress: Progress<D::Reader>,
}

impl<'a, D: Disk> LazyFile<'a, D> {
    /// The file of this name, not yet open.
    pub fn new(disk: &'a D, path: &'a str) -> LazyFile<'a, D>
        ensures disk { result.disk ≡ disk.entry }
        ensures path { result.path ≡ path.entry }
        ensures closed { result.progress ≡ Unopened }
    {
        LazyFile {
            disk,
            path,
            progress: Progress::Unopened,
        }
    }
}

impl<'a, D: Disk> Read for LazyFile<'a, D> {
    ghost use Rattle.cnum.specs.Texts.{left_in};

    ghost remaining = { left_in D.contents D.Reader.remaining };

    fn read(&mut self, buffer: &mut [u8]) -> io::Result<usize> {
        if let Progress::Unopened = &self.progress {
            self.progress = Progress::Open(self.disk.open(self.path)?);
        }
        let count = match &mut self.progress {
            Progress::Open(file) => file.read(buffer)?,
            Progress::Unopened | Progress::Ended => 0,
        };
        if count == 0 && !buffer.is_empty() {
            self.progress = Progress::Ended;
        }
        Ok(count)
    }
}

/// The text of the file of this name, of which nothing was read yet.
pub fn file_text<'a, D: Disk>(disk: &'a D, alloc: Global, path: &'a str) -> Text<LazyFile<'a, D>>
    ensures { IsTextOf (left_in D.contents D.Reader.remaining)
        (D.contents disk.now path.now) result }
{
    Text::new(alloc, LazyFile::new(disk, path))
}
