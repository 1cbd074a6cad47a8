//! A writer that knows whether anybody reads what it writes.
ghost use Rattle.std.specs.Prelude.{◌≡◌};

use std::io;
use std::io::{ErrorKind, Write};

/// A writer, and whether its reader went away, as `head` does once it has its lines.
#[derive(Drop)]
pub struct PipeWriter<W> {
    /// Where the bytes go.
    pub writer: W,
    /// Whether a write failed because nobody reads any more.
    pub is_broken: bool,
}

/// Whether a write failed because nobody reads any more.
pub fn is_broken_pipe<T>(written: &io::Result<T>) -> bool {
    match written {
        Ok(_) => false,
        Err(error) => error.kind() == ErrorKind::BrokenPipe,
    }
}

impl<W: Write> PipeWriter<W> {
    /// This writer, before its first write.
    pub fn new(writer: W) -> PipeWriter<W>
        ensures { result.writer ≡ writer }
    {
        PipeWriter {
            writer,
            is_broken: false,
        }
    }
}

impl<W: Write> Write for PipeWriter<W> {
    ghost contents = { λ pipe. W.contents pipe.writer };

    fn write(&mut self, buf: &[u8]) -> io::Result<usize> {
        let written = self.writer.write(buf);
        self.is_broken = is_broken_pipe(&written);
        written
    }

    fn flush(&mut self) -> io::Result<()> {
        self.writer.flush()
    }

    fn write_all(&mut self, buf: &[u8]) -> io::Result<()> {
        let written = self.writer.write_all(buf);
        self.is_broken = is_broken_pipe(&written);
        written
    }
}
