//! The commands over readers and a writer of the caller.
//!
//! Each takes the runtime and the allocator, then the readers and the writer, and then the
//! arguments in the order and in the spelling of the command line.
ghost use Rattle.std.specs.Prelude.{◌≡◌, ℕ};
ghost use Rattle.cn_hall.specs.declared.call.Go.TheVariants.{On};
ghost use Rattle.cn_app.specs.Runs.{HandsOn, OfBytes, WritesReport};
ghost use Rattle.cn_app.specs.Runs.{agree_of, check_of, find_of, replay_of, serve_of, show_of};
ghost use Rattle.cn_io.specs.Streams.Writing.{IsUnwritten};
ghost use Rattle.cn_service.specs.Workers.{EachHasOneGate};
ghost use Rattle.cn_io.specs.declared.arguments.list_text.ListText.TheVariants.{Word};

use crate::commands;
use crate::plan_style::PlanStyle;
use crate::reports::AskedRun;
use cn_form::AnswerForm;
use cn_hall::Gate;
use cn_io::readers::OpeningArguments;
use cn_io::{AppFault, ListText, Outcome, Output, Text};
use std::alloc::Global;
use std::io::{self, Read, Sink, Write};
use std::sync::Wait;
use std::thread::Threads;

/// An output that keeps what a command writes.
fn kept(alloc: Global) -> Output<Sink>
    ensures { IsUnwritten result }
{
    Output::new(alloc, io::sink())
}

/// Hands what a command wrote to the writer of the caller, if the command did not fail.
fn hand_over<W: Write>(
    writer: &mut W,
    written: &Output<Sink>,
    ended: Result<Outcome, AppFault>,
) -> Result<Outcome, AppFault>
    ensures { HandsOn W.contents written.now.bytes.items ended writer.old writer.new result }
{
    let outcome = ended?;
    match writer.write_all(&written.bytes) {
        Ok(()) => Ok(outcome),
        Err(_) => Err(AppFault::Write),
    }
}

/// Reads a type table and writes the certificate of its consensus number up to the limit, and a
/// line feed ([`find`](commands::find)).
///
/// # Errors
///
/// The first of these: the table cannot be read or is refused; the limit is refused; the writer
/// fails. Want of memory can stand in place of any answer.
pub fn run_find<T: Threads + Sync, R: Read + Drop, W: Write>(
    rt: &T,
    alloc: Global,
    table: R,
    writer: &mut W,
    limit: u8,
) -> Result<Outcome, AppFault>
    // promise: commands-over-streams (OfBytes, WritesReport, find_of: IsFindReport)
    ensures found { OfBytes (R.remaining table) (λ t. WritesReport W.contents (find_of t limit)
        writer.old writer.new result) }
{
    let mut table = Text::new(alloc, table);
    let mut output = kept(alloc);
    let ended = commands::find(rt, alloc, &mut table, &mut output, Some(limit));
    hand_over(writer, &output, ended)
}

/// Reads a type table and a certificate, checks the certificate against the table, and writes `ok`
/// and a line feed if the check accepts it ([`check`](commands::check)).
///
/// # Errors
///
/// The first of these: the table, then the certificate, cannot be read or is refused; the check
/// refuses the certificate; the writer fails. Want of memory can stand in place of any answer.
pub fn run_check<T, R: Read + Drop, C: Read + Drop, W: Write>(
    _rt: &T,
    alloc: Global,
    table: R,
    certificate: C,
    writer: &mut W,
) -> Result<Outcome, AppFault>
    // promise: commands-over-streams (check_of: IsCheckReport)
    ensures checked { OfBytes (R.remaining table) (λ t. OfBytes (C.remaining certificate)
        (λ c. WritesReport W.contents (check_of t c) writer.old writer.new result)) }
{
    let mut table = Text::new(alloc, table);
    let mut certificate = Text::new(alloc, certificate);
    let mut output = kept(alloc);
    let form = AnswerForm::Text;
    let ended = commands::check(alloc, &mut table, &mut certificate, &mut output, form);
    hand_over(writer, &output, ended)
}

/// Reads a type table and a certificate, checks the certificate against the table, and writes the
/// plan of the certificate's witness ([`show`](commands::show), in the style `PlanStyle::Text`).
///
/// # Errors
///
/// The first of these: those of [`run_check`] but for the writer; the certificate has no witness;
/// the writer fails.
pub fn run_show<T, R: Read + Drop, C: Read + Drop, W: Write>(
    _rt: &T,
    alloc: Global,
    table: R,
    certificate: C,
    writer: &mut W,
) -> Result<Outcome, AppFault>
    // promise: commands-over-streams (show_of: IsShowReport)
    ensures shown { OfBytes (R.remaining table) (λ t. OfBytes (C.remaining certificate)
        (λ c. WritesReport W.contents (show_of t c) writer.old writer.new result)) }
{
    let mut table = Text::new(alloc, table);
    let mut certificate = Text::new(alloc, certificate);
    let mut output = kept(alloc);
    let ended = commands::show(
        alloc,
        &mut table,
        &mut certificate,
        &mut output,
        &PlanStyle::Text,
    );
    hand_over(writer, &output, ended)
}

/// Reads a type table and a certificate, checks the certificate against the table, and runs the
/// plan of the certificate's witness under a schedule. Writes a line for each process: its
/// decision, or that it has none ([`agree`](commands::agree), without the steps).
///
/// `inputs` and `schedule` are written as words of the command line: see
/// [`read_inputs`](crate::read_inputs) and [`read_schedule`](crate::read_schedule).
///
/// # Errors
///
/// The first of these: `inputs`, then `schedule`, is misspelled or has too many items, and nothing
/// is read; those of [`run_show`] but for the writer; the inputs are not as many as the processes,
/// or the schedule names an unknown process; the writer fails. Want of memory can stand in place of
/// any answer.
pub fn run_agree<T, R: Read + Drop, C: Read + Drop, W: Write>(
    _rt: &T,
    alloc: Global,
    table: R,
    certificate: C,
    writer: &mut W,
    inputs: &str,
    schedule: &str,
) -> Result<Outcome, AppFault>
    // promise: commands-over-streams (agree_of: IsAgreeReport)
    ensures agreed { OfBytes (R.remaining table) (λ t. OfBytes (C.remaining certificate)
        (λ c. WritesReport W.contents (agree_of t c (Word inputs.entry) (Word schedule.entry))
        writer.old writer.new result)) }
{
    let mut table = Text::new(alloc, table);
    let mut certificate = Text::new(alloc, certificate);
    let mut output = kept(alloc);
    let (inputs, schedule) = (ListText::Word(inputs), ListText::Word(schedule));
    let asked = AskedRun {
        steps: false,
        form: AnswerForm::Text,
    };
    let ended = commands::agree(
        alloc,
        &mut table,
        &mut certificate,
        &mut output,
        &inputs,
        &schedule,
        asked,
    );
    hand_over(writer, &output, ended)
}

/// Opens a log of `capacity` slots with the plan of a certificate's witness, for an object that
/// starts in the state of the name `start`, and serves the object by the events. Writes a line for
/// each call that is answered or that finds no slot, and then a line for each entry of the log
/// ([`replay`](commands::replay)).
///
/// `capacity` has a number from 1 to [`MOST_SLOTS`](cn_log::MOST_SLOTS). `events` is written as a
/// word of the command line: see [`read_events`](crate::read_events).
///
/// # Errors
///
/// The first of these: `capacity`, then `events`, is misspelled, and nothing is read; the table,
/// then the certificate, then the object cannot be read or is refused; the check refuses the
/// certificate; the certificate has no witness; the object has no state of the name `start`; an
/// event cannot come; the writer fails. Want of memory can stand in place of any answer but that
/// for the capacity.
pub fn run_replay<T, R: Read + Drop, C: Read + Drop, O: Read + Drop, W: Write>(
    _rt: &T,
    alloc: Global,
    table: R,
    certificate: C,
    object: O,
    writer: &mut W,
    start: &str,
    capacity: &str,
    events: &str,
) -> Result<Outcome, AppFault>
    // promise: commands-over-streams (replay_of: IsReplayReport)
    ensures served { OfBytes (R.remaining table) (λ t. OfBytes (C.remaining certificate)
        (λ c. OfBytes (O.remaining object) (λ o. WritesReport W.contents
        (replay_of t c o start.now capacity.now (Word events.entry))
        writer.old writer.new result))) }
{
    let table = Text::new(alloc, table);
    let certificate = Text::new(alloc, certificate);
    let object = Text::new(alloc, object);
    let mut given = OpeningArguments {
        table,
        certificate,
        object,
        start,
        capacity,
    };
    let mut output = kept(alloc);
    let (events, form) = (ListText::Word(events), AnswerForm::Text);
    let ended = commands::replay(alloc, &mut given, &mut output, &events, form);
    hand_over(writer, &output, ended)
}

/// Opens a log as [`run_replay`] does, and serves the object by threads that make the calls. Writes
/// for each process a line for each of its calls, then a line for each entry of the log, and last a
/// line with the events ([`serve`](commands::serve)).
///
/// `calls` is written as a word of the command line: see [`read_calls`](crate::read_calls).
/// `make_gate` makes the gate of each process before the first thread starts. A gate that is new
/// says On.
///
/// # Errors
///
/// The first of these: `capacity`, then `calls`, is misspelled, and nothing is read; those of
/// [`run_replay`] up to `start`; `calls` has not one list for each process, or a call names no
/// operation of the object; a thread could not be started, and those that run have finished; the
/// writer fails. Want of memory can stand in place of any answer but that for the capacity.
pub fn run_serve<T, R: Read + Drop, C: Read + Drop, O: Read + Drop, W: Write, G, F>(
    rt: &T,
    alloc: Global,
    table: R,
    certificate: C,
    object: O,
    writer: &mut W,
    start: &str,
    capacity: &str,
    calls: &str,
    make_gate: F,
) -> Result<Outcome, AppFault>
where
    T: Threads + Wait + Sync,
    G: Gate + Send + Drop,
    F: Fn(u8) -> G,
    requires gates { F.IsAlwaysCallable make_gate }
    requires on { (p : ℕ) (g : _) → F.post make_gate p g → G.says g ≡ On }

    // promise: commands-over-streams (EachHasOneGate, serve_of: IsServeReport)
    ensures served { OfBytes (R.remaining table) (λ t. OfBytes (C.remaining certificate)
        (λ c. OfBytes (O.remaining object) (λ o. WritesReport W.contents
        (serve_of (EachHasOneGate G.asks G.says (λ p g. F.post make_gate p g)) t c o start.now
        capacity.now (Word calls.entry)) writer.old writer.new result))) }
{
    let table = Text::new(alloc, table);
    let certificate = Text::new(alloc, certificate);
    let object = Text::new(alloc, object);
    let mut given = OpeningArguments {
        table,
        certificate,
        object,
        start,
        capacity,
    };
    let mut output = kept(alloc);
    let (calls, form) = (ListText::Word(calls), AnswerForm::Text);
    let ended = commands::serve(rt, alloc, &mut given, &mut output, &calls, form, make_gate);
    hand_over(writer, &output, ended)
}
