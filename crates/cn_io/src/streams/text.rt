//! A reader, with the bytes that it gave, up to a limit.
ghost use Rattle.std.specs.Prelude.{◌≡◌, ◌⊎◌, ◌<◌, ◌≤◌, ◌++◌, length, IfErr, OnOk, List, ℕ};
ghost use Rattle.std.specs.Io.KnownBytes.{Consumes, IsAtEnd};
ghost use Rattle.cn_io.specs.Streams.Reading.{EndsText, HasRead, IsUnread};

use crate::fault::{AppFault, Source};
use crate::streams::progress::Progress;
use std::alloc::Global;
use std::io::Read;

/// The most bytes of one read.
const CHUNK: usize = 1024;

/// A reader, the bytes that it has given, and how far it is read.
#[derive(Drop)]
pub struct Text<R> {
    // Where the bytes come from; read here and nowhere else.
    reader: R,
    /// All bytes that the reader has given, in order.
    pub bytes: Vec<u8>,
    // `Done` once the reader said that there is no more.
    progress: Progress,
}

impl<R: Read> Text<R> {
    /// A reader that has given nothing yet.
    pub fn new(alloc: Global, reader: R) -> Text<R>
        // promise: new-streams
        ensures reader { result.reader ≡ reader }
        // promise: new-streams
        ensures unread { IsUnread result }
    {
        Text {
            reader,
            bytes: Vec::new(alloc),
            progress: Progress::Open,
        }
    }

    /// How far the reader is read: `Done` once it said that there is no more.
    pub fn progress(&self) -> Progress
        // promise: new-streams
        ensures { result ≡ self.now.progress }
    {
        self.progress
    }

    /// The reader, with what it has left.
    pub fn into_reader(self) -> R
        // promise: new-streams
        ensures { result ≡ self.reader }
    {
        self.reader
    }

    // Reads at most `most` bytes, once, and appends them.
    fn read_some(&mut self, source: Source, most: usize) -> Result<(), AppFault>
        requires some { 0 < most }
        // promise: no-read-past-the-end
        requires unfinished { self.old.progress ≡ Progress.Open }
        ensures given { (bytes : List ℕ) × (self.new.bytes.items ≡ self.old.bytes.items ++ bytes)
            × (length bytes ≤ most) × Consumes (R.remaining self.old.reader)
            (R.remaining self.new.reader) bytes }
        // promise: no-read-past-the-end
        ensures some { OnOk result (((self.new.progress ≡ Progress.Open)
            × (length self.old.bytes.items < length self.new.bytes.items))
            ⊎ ((self.new.progress ≡ Progress.Done) × (self.new.bytes.items ≡ self.old.bytes.items)
            × IsAtEnd (R.remaining self.new.reader))) }
        ensures failed { IfErr result (λ e. ((e ≡ AppFault.OutOfMemory)
            × (self.new.progress ≡ Progress.Open))
            ⊎ ((e ≡ AppFault.Read source) × (self.new.progress ≡ Progress.Failed))) }
    {
        let mut buffer = [0u8; CHUNK];
        let room = most.min(CHUNK);
        self.bytes.reserve(room)?;
        match self.reader.read(&mut buffer[..room]) {
            Ok(0) => self.progress = Progress::Done,
            Ok(count) => self.bytes.extend_from_slice(&buffer[..count])?,
            Err(_) => {
                self.progress = Progress::Failed;
                return Err(AppFault::Read(source));
            }
        }
        Ok(())
    }

    /// Reads to the end, or to one byte more than the text of this source may have, in at most as
    /// many reads.
    ///
    /// # Errors
    ///
    /// `Read` if the reader fails, which ends the reading; `TooLong` with one byte more than the
    /// text may have; `OutOfMemory`.
    pub fn fill(&mut self, source: Source) -> Result<(), AppFault>
        requires { IsUnread self.old }
        ensures read { HasRead source R.remaining self.old self.new }
        ensures ended { EndsText source self.new result }
    {
        let limit = source.most_bytes();
        for _ in 0..limit + 1 {
            let left = limit + 1 - self.bytes.len();
            self.read_some(source, left)?;
            if self.progress == Progress::Done {
                return Ok(());
            }
            if self.bytes.len() > limit {
                return Err(AppFault::TooLong(source));
            }
        }
        unreachable!()
    }
}
