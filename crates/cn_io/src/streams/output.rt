//! A writer, with the bytes that a command hands to it.
ghost use Rattle.std.specs.Prelude.{◌≡◌, [], Err, MatchResult, Ok};
ghost use Rattle.cn_io.specs.Streams.Writing.{HandsOver, IsUnwritten, IsWritable, Reports};

use crate::fault::AppFault;
use crate::report::{Outcome, Report};
use crate::streams::progress::Progress;
use std::alloc::Global;
use std::io::{self, Write};

/// A writer, the bytes that were handed to it, and whether it took them.
#[derive(Drop)]
pub struct Output<W> {
    // Where the bytes go; written here and nowhere else.
    writer: W,
    /// All bytes that were handed to the writer, in order.
    pub bytes: Vec<u8>,
    // `Open` until bytes are handed over, `Done` once the writer took them all.
    progress: Progress,
}

impl<W: Write> Output<W> {
    /// A writer that was handed nothing yet.
    pub fn new(alloc: Global, writer: W) -> Output<W>
        // promise: new-streams
        ensures writer { result.writer ≡ writer }
        // promise: new-streams
        ensures unwritten { IsUnwritten result }
    {
        Output {
            writer,
            bytes: Vec::new(alloc),
            progress: Progress::Open,
        }
    }

    /// How far the output is written: `Open` until bytes are handed over, `Done` once the writer
    /// took them all.
    pub fn progress(&self) -> Progress
        // promise: new-streams
        ensures { result ≡ self.now.progress }
    {
        self.progress
    }

    /// The writer, with the bytes that it took.
    pub fn into_writer(self) -> W
        // promise: new-streams
        ensures { result ≡ self.writer }
    {
        self.writer
    }

    /// Hands the text of a report to the writer at once, and keeps it. Answers the outcome of the
    /// report.
    ///
    /// # Errors
    ///
    /// `OutOfMemory`, and nothing is handed over, or `Write` if the writer failed.
    pub fn write(&mut self, report: &Report) -> Result<Outcome, AppFault>
        requires { IsWritable self.old }
        // promise: parts-of-commands (HandsOver)
        ensures { HandsOver W.contents report.now self.old self.new result }
    {
        let text = report.text.as_bytes();
        self.bytes.reserve(text.len())?;
        self.bytes.extend_from_slice(text)?;
        let written = self.writer.write_all(text);
        self.end(written, report.outcome)
    }

    // The same with the first report, whose text is kept with no copy of it.
    fn take(&mut self, report: Report) -> Result<Outcome, AppFault>
        requires writable { IsWritable self.old }
        requires first { self.old.bytes.items ≡ [] }
        ensures { HandsOver W.contents report self.old self.new result }
    {
        self.bytes = report.text.into_bytes();
        let written = self.writer.write_all(&self.bytes);
        self.end(written, report.outcome)
    }

    // Notes whether the writer took its bytes.
    fn end(&mut self, written: Result<(), io::Error>, outcome: Outcome) -> Result<Outcome, AppFault>
        ensures writer { self.new.writer ≡ self.old.writer }
        ensures bytes { self.new.bytes.items ≡ self.old.bytes.items }
        ensures result { MatchResult written (λ _. result ≡ Ok outcome)
            (λ _. result ≡ Err AppFault.Write) }
        ensures progress { MatchResult written (λ _. self.new.progress ≡ Progress.Done)
            (λ _. self.new.progress ≡ Progress.Failed) }
    {
        match written {
            Ok(()) => {
                self.progress = Progress::Done;
                Ok(outcome)
            }
            Err(_) => {
                self.progress = Progress::Failed;
                Err(AppFault::Write)
            }
        }
    }

    /// Hands over the report of a command's work, as [`write`](Output::write) does. If the work
    /// failed, answers its fault and hands over nothing.
    pub fn report(&mut self, work: Result<Report, AppFault>) -> Result<Outcome, AppFault>
        requires { IsWritable self.old }
        ensures { Reports W.contents (λ r. r ≡ work) self.old self.new result }
    {
        match work {
            Ok(report) if self.bytes.is_empty() => self.take(report),
            Ok(report) => self.write(&report),
            Err(fault) => Err(fault),
        }
    }
}
