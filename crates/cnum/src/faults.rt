//! Faults, hints and notes on standard error.
use cn_app::commands::Tell;
use cn_app::{AppFault, Known};
use cn_words::{Command, ObjectWords, TextSource};

/// Tells each fault in a line on standard error. The status of the program tells of it too, so that
/// it is not lost where that stream is closed. A failed write is told at the [`end`](Faults::end),
/// when it is known why it failed.
#[derive(Drop)]
pub struct Faults<'a, R: Eprint> {
    pub rt: &'a R,
    /// Whether standard error is a terminal. A hint for a person then stands behind each fault.
    pub is_at_terminal: bool,
    /// Whether a failed write is still to be told.
    pub has_failed: bool,
}

impl<'a, R: Eprint> Faults<'a, R> {
    /// No fault was met yet.
    pub fn new(rt: &'a R, is_at_terminal: bool) -> Faults<'a, R> {
        Faults {
            rt,
            is_at_terminal,
            has_failed: false,
        }
    }

    // The line of a fault.
    fn tell_line(&self, name: Option<&str>, fault: AppFault) {
        let _ = match name {
            Some(name) => eprintln!(self.rt; "cnum: {name}: {fault}"),
            None => eprintln!(self.rt; "cnum: {fault}"),
        };
    }

    // What to do about a fault, if there is something to say.
    fn tell_hint(&self, fault: AppFault, known: &Known<'_>) {
        if let Some(hint) = fault.hint(known) {
            let _ = eprintln!(self.rt; "  hint: {hint}");
        }
    }

    /// Tells a fault, of the table of this name or of no one table, with a hint by what is known.
    pub fn tell_knowing(&mut self, name: Option<&str>, fault: AppFault, known: &Known<'_>) {
        if fault == AppFault::Write {
            self.has_failed = true;
            return;
        }
        self.tell_line(name, fault);
        if self.is_at_terminal {
            self.tell_hint(fault, known);
        }
    }

    /// Tells of a failed write, where somebody still reads what was written.
    pub fn end(self, is_read: bool) {
        if self.has_failed && is_read {
            let _ = eprintln!(self.rt; "cnum: {}", AppFault::Write);
        }
    }
}

impl<'a, R: Eprint> Tell for Faults<'a, R> {
    ghost tells = { λ _ _ _ _. Unit {0} };

    ghost notes = { λ _ _ _ _. Unit {0} };

    fn tell(&mut self, name: Option<&str>, fault: AppFault) {
        self.tell_knowing(name, fault, &Known::of_files(name, None));
    }

    fn note_same_line(&mut self, name: &str, earlier: &str) {
        let _ = eprintln!(self.rt; "cnum: {name}: the same line as {earlier}");
    }
}

// The name of the file of a text, if it has one.
fn file_of<'a>(source: TextSource<'a>) -> Option<&'a str> {
    match source {
        TextSource::StandardInput => None,
        TextSource::File(path) => Some(path),
    }
}

/// The name of the file of the object that a program serves, if it serves one.
pub fn file_of_object<'a>(words: Option<ObjectWords<'a>>) -> Option<&'a str> {
    match words {
        Some(words) => Some(words.object),
        None => None,
    }
}

/// What is known of the texts of a command before they are read.
pub fn known_of<'a>(table: TextSource<'a>, command: &Command<'a>) -> Known<'a> {
    let object = match command {
        Command::Replay { opening, .. } | Command::Serve { opening, .. } => Some(opening.object),
        Command::Show { words, .. } => file_of_object(words.object),
        _ => None,
    };
    let mut known = Known::of_files(file_of(table), object);
    known.is_linted = matches!(command, Command::Lint { .. });
    known
}

/// What is known of a command of a plan without a certificate: how many processes there are, if a
/// number was given.
pub fn known_of_processes<'a>(table: TextSource<'a>, processes: Option<u8>) -> Known<'a> {
    let mut known = Known::of_files(file_of(table), None);
    known.processes = processes;
    known
}

/// What is known of a command of a shortest plan: the same, whether no process is to read, and the
/// name of the file of the object that a program serves.
pub fn known_of_plan<'a>(
    table: TextSource<'a>,
    object: Option<&'a str>,
    processes: Option<u8>,
    without_read: bool,
) -> Known<'a> {
    let mut known = Known::of_files(file_of(table), object);
    known.processes = processes;
    known.without_read = without_read;
    known
}
