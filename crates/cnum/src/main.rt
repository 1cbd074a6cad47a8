//! The program `cnum`: the standard streams, the files and the exit status. What the words of the
//! command line mean stands in the library `cn_words`, and what each command does in `cn_app`.
#![tactic(auto)]

ghost use Rattle.std.specs.Prelude.{◌≡◌};
ghost use Rattle.std.specs.Process.{exit_status};
ghost use Rattle.std.specs.Thread.{IsSync};
ghost use Rattle.cn_io.specs.FaultText.{status_of};
ghost use Rattle.cnum.specs.Exits.{classify_status, command_status};
ghost use Rattle.cn_io.specs.Streams.Writing.{IsWritable};
ghost use Rattle.cnum.specs.Obeying.{Does, Obeys, RunsShortestPlans, ShowsRecoverablePlans, ShowsShortestPlans};
ghost use Rattle.cnum.specs.Texts.{left_in};

mod awaited_input;
mod disk;
mod faults;
mod given_list;
mod lazy_file;
mod lives_run;
mod pipe_writer;
mod runs;
mod search_progress;
mod shortest_runs;
mod style;
mod text_reader;

use awaited_input::{AwaitedInput, FirstRead};
use cn_app::commands::Tell;
use cn_app::reports::{AskedNumbers, AskedPlan};
use cn_app::{AppFault, Known, Outcome, Output};
use cn_form::AnswerForm;
use cn_words::{CommandFault, Invocation, PlanWords, Reply, RunWords, TextSource};
use disk::Disk;
use faults::{Faults, file_of_object, known_of, known_of_plan, known_of_processes};
use lives_run::{run_lives, show_recoverable};
use pipe_writer::{PipeWriter, is_broken_pipe};
use runs::{classify, run};
use search_progress::SearchProgress;
use shortest_runs::{run_shortest, show_shortest};
use std::alloc::Global;
use std::io::{ErrorKind, IsTerminal, Read, Write};
use std::process::ExitCode;
use std::sync::Wait;
use std::thread::{Threads, join};
use std::time::Clock;

// How the program ends after a fault, which it tells.
fn fault_exit<R: Eprint>(faults: &mut Faults<'_, R>, fault: AppFault, known: &Known<'_>) -> ExitCode
    // promise: exit-status (status_of)
    ensures { exit_status result ≡ status_of fault }
{
    faults.tell_knowing(None, fault, known);
    ExitCode::from(fault.status())
}

// The same, where no text was read.
fn early_exit<R: Eprint>(faults: &mut Faults<'_, R>, fault: AppFault) -> ExitCode
    ensures { exit_status result ≡ status_of fault }
{
    fault_exit(faults, fault, &Known::of_files(None, None))
}

// How the program ends where a command has ended so. What a command says of a refused text is
// written, and its fault is told as by every command.
fn command_exit<R: Eprint>(
    faults: &mut Faults<'_, R>,
    end: Result<Outcome, AppFault>,
    known: &Known<'_>,
) -> ExitCode
    // promise: exit-status (command_status)
    ensures { exit_status result ≡ command_status end }
{
    match end {
        Ok(Outcome::Whole) => ExitCode::SUCCESS,
        Ok(Outcome::Cut) => ExitCode::FAILURE,
        Ok(Outcome::Refused(fault)) => fault_exit(faults, fault, known),
        Err(fault) => fault_exit(faults, fault, known),
    }
}

// The same of several tables, of which the first fault is known and each is told.
fn classify_exit<R: Eprint>(
    faults: &mut Faults<'_, R>,
    first: Result<Option<AppFault>, AppFault>,
) -> ExitCode
    // promise: exit-status (classify_status)
    ensures { exit_status result ≡ classify_status first }
{
    match first {
        Ok(None) => ExitCode::SUCCESS,
        Ok(Some(fault)) => ExitCode::from(fault.status()),
        Err(fault) => early_exit(faults, fault),
    }
}

// Runs the shortest plan, and tells its faults; how the program ends.
fn do_shortest_run<T: Disk + Eprint, I: Read + Copy + Drop, O: Write>(
    rt: &T,
    alloc: Global,
    stdin: I,
    output: &mut Output<O>,
    faults: &mut Faults<'_, T>,
    table: TextSource<'_>,
    without_read: bool,
    words: RunWords<'_>,
) -> ExitCode
    requires { IsWritable output.old }
    ensures { RunsShortestPlans I.remaining (left_in T.contents T.Reader.remaining) O.contents
        (T.contents rt.now) stdin table.entry without_read words.entry output.old output.new
        (exit_status result) }
{
    let mut known = known_of_plan(table, None, words.processes, without_read);
    let end = run_shortest(
        rt,
        alloc,
        stdin,
        output,
        table,
        without_read,
        words,
        &mut known,
    );
    command_exit(faults, end, &known)
}

// Writes the shortest plan, and tells its faults; how the program ends.
fn do_shortest_plan<T: Disk + Eprint, I: Read + Copy + Drop, O: Write>(
    rt: &T,
    alloc: Global,
    stdin: I,
    output: &mut Output<O>,
    faults: &mut Faults<'_, T>,
    table: TextSource<'_>,
    asked: AskedPlan,
    words: PlanWords<'_>,
) -> ExitCode
    requires { IsWritable output.old }
    ensures { ShowsShortestPlans I.remaining (left_in T.contents T.Reader.remaining) O.contents
        (T.contents rt.now) stdin table.entry asked words.entry output.old output.new
        (exit_status result) }
{
    let object = file_of_object(words.object);
    let mut known = known_of_plan(table, object, asked.processes, asked.without_read);
    let end = show_shortest(rt, alloc, stdin, output, table, asked, words, &mut known);
    command_exit(faults, end, &known)
}

// Writes the plan of the first recording witness, and tells its faults; how the program ends.
fn do_recoverable_plan<T: Threads + Sync + Disk + Eprint, I: Read + Copy + Drop, O: Write>(
    rt: &T,
    alloc: Global,
    stdin: I,
    output: &mut Output<O>,
    faults: &mut Faults<'_, T>,
    table: TextSource<'_>,
    processes: Option<u8>,
    form: AnswerForm,
) -> ExitCode
    requires { IsWritable output.old }
    ensures { ShowsRecoverablePlans I.remaining (left_in T.contents T.Reader.remaining) O.contents
        (T.contents rt.now) stdin table.entry processes form output.old output.new
        (exit_status result) }
{
    let mut known = known_of_processes(table, processes);
    let end = show_recoverable(rt, alloc, stdin, output, table, processes, form, &mut known);
    command_exit(faults, end, &known)
}

// Does a command, and tells its faults; how the program ends.
fn do_command<T: Threads + Wait + Clock + Sync + Disk + Eprint, I: Read + Copy + Drop, O: Write>(
    rt: &T,
    alloc: Global,
    stdin: I,
    output: &mut Output<O>,
    faults: &mut Faults<'_, T>,
    given: &Invocation<'_>,
) -> ExitCode
    requires { IsWritable output.old }
    ensures { Does I.remaining (left_in T.contents T.Reader.remaining) O.contents
        (T.contents rt.now) stdin given.now output.old output.new (exit_status result) }
{
    match given {
        Invocation::Classify {
            limit,
            recoverable,
            without_read,
            form,
            tables,
        } => {
            let asked = AskedNumbers {
                limit: *limit,
                recoverable: *recoverable,
                without_read: *without_read,
                form: *form,
            };
            let first = classify(rt, alloc, stdin, output, faults, asked, tables);
            classify_exit(faults, first)
        }
        Invocation::OfTable { table, command } => {
            let mut known = known_of(*table, command);
            let progress = SearchProgress::new(rt, faults.is_at_terminal);
            let told = &progress;
            let end = run(rt, alloc, stdin, output, *table, command, told, &mut known);
            command_exit(faults, end, &known)
        }
        Invocation::Lives { table, words } => {
            let mut known = known_of_processes(*table, words.processes);
            let end = run_lives(rt, alloc, stdin, output, *table, *words, &mut known);
            command_exit(faults, end, &known)
        }
        Invocation::ShortestRun {
            table,
            without_read,
            words,
        } => do_shortest_run(
            rt,
            alloc,
            stdin,
            output,
            faults,
            *table,
            *without_read,
            *words,
        ),
        Invocation::ShortestPlan {
            table,
            without_read,
            processes,
            words,
        } => {
            let asked = AskedPlan {
                processes: *processes,
                without_read: *without_read,
            };
            do_shortest_plan(rt, alloc, stdin, output, faults, *table, asked, *words)
        }
        Invocation::RecoverablePlan {
            table,
            processes,
            form,
        } => do_recoverable_plan(rt, alloc, stdin, output, faults, *table, *processes, *form),
    }
}

// Does a command; how the program ends, and the writer as the command left it. It is silent where
// whoever read its output went away.
fn obey<T: Threads + Wait + Clock + Sync + Disk + Eprint, I: Read + Copy + Drop, O: Write + Drop>(
    rt: &T,
    alloc: Global,
    stdin: I,
    first_read: &FirstRead,
    stdout: O,
    is_at_terminal: bool,
    given: &Invocation<'_>,
) -> (ExitCode, PipeWriter<O>)
    // promise: obedience (Obeys: Runs, ClassifiesSources, command_status, classify_status)
    ensures { Obeys I.remaining (left_in T.contents T.Reader.remaining) O.contents
        (T.contents rt.now) stdin stdout given.now (exit_status result.0) result.1 }
{
    let input = AwaitedInput::new(rt, stdin, first_read);
    let mut output = Output::new(alloc, PipeWriter::new(stdout));
    let mut faults = Faults::new(rt, is_at_terminal);
    let exit = do_command(rt, alloc, input, &mut output, &mut faults, given);
    let writer = output.into_writer();
    faults.end(!writer.is_broken);
    (exit, writer)
}

// The same; where standard input is a terminal, another thread tells of a first read that is late.
// Where none can be started, nothing is told.
// promise: obedience (Obeys)
fn obey_and_tell<
    T: Threads + Wait + Clock + Sync + Disk + Eprint,
    I: Read + IsTerminal + Copy + Drop,
    O: Write + Drop,
>(
    rt: &T,
    alloc: Global,
    stdin: I,
    stdout: O,
    is_at_terminal: bool,
    given: &Invocation<'_>,
) -> (ExitCode, PipeWriter<O>)
    ensures { Obeys I.remaining (left_in T.contents T.Reader.remaining) O.contents
        (T.contents rt.now) stdin stdout given.now (exit_status result.0) result.1 }
{
    let first_read = FirstRead::new();
    if !stdin.is_terminal() {
        return obey(rt, alloc, stdin, &first_read, stdout, is_at_terminal, given);
    }
    let (_, done) = join(
        rt,
        ||
            requires { IsSync T.row }
        { first_read.tell_if_late(rt) },
        || -> (ExitCode, PipeWriter<O>)
            requires { IsSync T.row }
            ensures { Obeys I.remaining (left_in T.contents T.Reader.remaining) O.contents
                (T.contents rt.entry.now) stdin stdout given.entry.now
                (exit_status result.0) result.1 }
        {
            let done = obey(rt, alloc, stdin, &first_read, stdout, is_at_terminal, given);
            first_read.end(rt);
            done
        },
    );
    done
}

// The faults of the program on its standard error.
fn faults_of(rt: &HostRuntime) -> Faults<'_, HostRuntime> {
    Faults::new(rt, rt.stderr().is_terminal())
}

// Tells what there is to tell in place of a command; how the program ends.
fn answer(rt: &HostRuntime, reply: Reply) -> ExitCode {
    let mut faults = faults_of(rt);
    match reply {
        Reply::Help(text) => {
            let written = print!(rt; "{text}");
            let exit = match written {
                Ok(()) => ExitCode::SUCCESS,
                Err(_) => early_exit(&mut faults, AppFault::Write),
            };
            faults.end(!is_broken_pipe(&written));
            exit
        }
        Reply::Refusal(text) => {
            let _ = eprint!(rt; "{text}");
            ExitCode::from(AppFault::Words.status())
        }
        Reply::Fault(CommandFault::Words) => early_exit(&mut faults, AppFault::Words),
        Reply::Fault(CommandFault::OutOfMemory) => early_exit(&mut faults, AppFault::OutOfMemory),
    }
}

fn given_words(rt: &HostRuntime) -> Result<Vec<String>, AppFault> {
    match std::env::args(rt) {
        Ok(words) => Ok(words.collect(rt.alloc())?),
        Err(error) if error.kind() == ErrorKind::OutOfMemory => Err(AppFault::OutOfMemory),
        Err(_) => Err(AppFault::Words),
    }
}

fn main(rt: HostRuntime) -> ExitCode {
    let given = match given_words(&rt) {
        Ok(given) => given,
        Err(fault) => return early_exit(&mut faults_of(&rt), fault),
    };
    match cn_words::parse(rt.alloc(), given.as_slice()) {
        Ok(given) => {
            let (stdin, stdout) = (rt.stdin(), rt.stdout());
            let told = rt.stderr().is_terminal();
            let (exit, _) = obey_and_tell(&rt, rt.alloc(), stdin, stdout, told, &given);
            exit
        }
        Err(reply) => answer(&rt, reply),
    }
}
