//! Opening files by name.
use std::fs::File;
use std::io;
use std::io::Read;
use std::rt::Files;

/// Opens files by their names. Every runtime that has files is a disk, and knows the contents of
/// none. So contracts name the bytes of a file by its name.
pub trait Disk {
    ghost use Rattle.std.specs.Prelude.{ℕ, List, Option, IfOk};
    ghost use Rattle.std.specs.Io.KnownBytes.{Keeps};

    /// An open file.
    type Reader: Read + Drop;

    /// The bytes of the file of a name, where they are known.
    ghost contents: { Self → List ℕ → Option (List ℕ) };

    /// Opens the file of this name, to read it.
    fn open(&self, path: &str) -> io::Result<Self::Reader>
        ensures { IfOk result (λ file.
            Keeps (contents self.now path.now) (Self.Reader.remaining file)) };
}

impl<R: Files> Disk for R {
    ghost use Rattle.std.specs.Prelude.{None};

    type Reader = R::File;

    ghost contents = { λ _ _. None };

    fn open(&self, path: &str) -> io::Result<R::File> {
        File::open(self, path)
    }
}
