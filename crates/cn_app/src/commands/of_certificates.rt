//! The commands that read a type table and a certificate, and check the certificate against the
//! table.
ghost use Rattle.std.specs.Prelude.{◌⊎◌};
ghost use Rattle.cn_app.specs.Commands.Agree.{HasAgreeReport, SpellLists};
ghost use Rattle.cn_app.specs.Commands.Check.{HasCheckReport};
ghost use Rattle.cn_app.specs.Commands.CheckUnread.{HasCheckUnreadReport};
ghost use Rattle.cn_app.specs.Commands.Explain.{HasExplainReport};
ghost use Rattle.cn_app.specs.Commands.Show.{HasShowReport};
ghost use Rattle.cn_io.specs.Texts.Checked.{AreUntouched, HaveReadBoth};
ghost use Rattle.cn_io.specs.Streams.Reading.{IsUnread};
ghost use Rattle.cn_io.specs.Streams.Writing.{IsWritable, Reports};

use crate::plan_style::PlanStyle;
use crate::reports::check::verdict_report;
use crate::reports::check_unread::unread_verdict_report;
use crate::reports::{AskedRun, agree_report, explain_report, show_report};
use cn_form::AnswerForm;
use cn_io::readers::{check_certificate, check_unread_certificate, read_checked, read_table};
use cn_io::{AppFault, ListText, Outcome, Output, Text, read_run_lists};
use std::alloc::Global;
use std::io::{Read, Write};

/// Reads a type table and a certificate, checks the certificate against the table, and writes `ok`
/// and a line feed if the check accepts it. As JSON, writes the verdict; of a certificate that is
/// refused it has the fault, and so has the outcome.
///
/// # Errors
///
/// The first of these: those of [`read_checked`], as JSON without those of the text of the
/// certificate and of the check; the writer fails. Want of memory can stand in place of any answer.
pub fn check<R: Read, C: Read, W: Write>(
    alloc: Global,
    table: &mut Text<R>,
    certificate: &mut Text<C>,
    output: &mut Output<W>,
    form: AnswerForm,
) -> Result<Outcome, AppFault>
    requires texts { IsUnread table.old × IsUnread certificate.old }
    requires output { IsWritable output.old }

    // promise: order-of-checks (HaveReadBoth: order)
    ensures read { HaveReadBoth R.remaining C.remaining table.old table.new
        certificate.old certificate.new }
    // promise: ok-by-check (HasCheckReport: HasVerdictReport: GivesCheck, HasItsNumber)
    // promise: verdict-by-check (HasVerdictReport: IsCheckReport, IsFaultReport: fault_told,
    //     IsRefusal)
    ensures checked { Reports W.contents (HasCheckReport table.new certificate.new form)
        output.old output.new result }
{
    let table = read_table(alloc, table)?;
    let verdict = check_certificate(alloc, &table, certificate);
    output.report(verdict_report(alloc, verdict, form))
}

/// Reads a type table and a certificate of its number without reads, checks the certificate against
/// the table, and writes `ok` and a line feed if the check accepts it. As JSON, writes the verdict; of
/// a certificate that is refused it has the fault, and so has the outcome.
///
/// # Errors
///
/// The first of these: those of [`read_table`]; those of [`check_unread_certificate`], as JSON without
/// those of the text of the certificate and of the check; the writer fails. Want of memory can stand
/// in place of any answer.
pub fn check_unread<R: Read, C: Read, W: Write>(
    alloc: Global,
    table: &mut Text<R>,
    certificate: &mut Text<C>,
    output: &mut Output<W>,
    form: AnswerForm,
) -> Result<Outcome, AppFault>
    requires texts { IsUnread table.old × IsUnread certificate.old }
    requires output { IsWritable output.old }

    // promise: order-of-checks (HaveReadBoth: order)
    ensures read { HaveReadBoth R.remaining C.remaining table.old table.new
        certificate.old certificate.new }
    // promise: ok-by-check-without-reads (HasCheckUnreadReport: HasUnreadVerdictReport: IsRight)
    // promise: verdict-by-check-without-reads (HasUnreadVerdictReport: IsUnreadCheckReport,
    //     IsFaultReport: fault_told, IsRefusal)
    ensures checked { Reports W.contents
        (HasCheckUnreadReport table.new certificate.new form) output.old output.new result }
{
    let table = read_table(alloc, table)?;
    let verdict = check_unread_certificate(alloc, &table, certificate);
    output.report(unread_verdict_report(alloc, verdict, form))
}

/// Reads a type table and a certificate, checks the certificate against the table, and writes
/// why its number is what it is, in a form ([`explain_report`]).
///
/// # Errors
///
/// Those of [`check`].
pub fn explain<R: Read, C: Read, W: Write>(
    alloc: Global,
    table: &mut Text<R>,
    certificate: &mut Text<C>,
    output: &mut Output<W>,
    all: bool,
    form: AnswerForm,
) -> Result<Outcome, AppFault>
    requires texts { IsUnread table.old × IsUnread certificate.old }
    requires output { IsWritable output.old }

    // promise: order-of-checks (HaveReadBoth: order)
    ensures read { HaveReadBoth R.remaining C.remaining table.old table.new
        certificate.old certificate.new }
    // promise: explanation-by-explain (HasExplainReport: GivesChecked, ExplainsChecked,
    //     explanation_in, HasItsNumber)
    ensures explained { Reports W.contents (HasExplainReport table.new certificate.new all form)
        output.old output.new result }
{
    let checked = read_checked(alloc, table, certificate)?;
    output.report(explain_report(alloc, checked, all, form.of_document()))
}

/// Reads a type table and a certificate, checks the certificate against the table, and writes the
/// plan of the certificate's witness in a style ([`show_report`]).
///
/// # Errors
///
/// The first of these: those of [`read_checked`]; those of [`show_report`]; the writer fails.
pub fn show<R: Read, C: Read, W: Write>(
    alloc: Global,
    table: &mut Text<R>,
    certificate: &mut Text<C>,
    output: &mut Output<W>,
    style: &PlanStyle,
) -> Result<Outcome, AppFault>
    requires texts { IsUnread table.old × IsUnread certificate.old }
    requires output { IsWritable output.old }

    // promise: order-of-checks (HaveReadBoth: order)
    ensures read { HaveReadBoth R.remaining C.remaining table.old table.new
        certificate.old certificate.new }
    // promise: plan-by-show (HasShowReport: GivesChecked, IsPlanOf; form_text: plan_text,
    //     plan_data, plan_dot, plan_promela, rust_text, c_text, header_text)
    ensures shown { Reports W.contents
        (HasShowReport table.new certificate.new style.now)
        output.old output.new result }
{
    let checked = read_checked(alloc, table, certificate)?;
    output.report(show_report(alloc, &checked, style))
}

/// Reads a type table and a certificate, checks the certificate against the table, and runs the
/// plan of the certificate's witness under a schedule ([`agree_report`]). Writes a line for each
/// process: its decision, or that it has none. With the steps, a line for each step comes first.
///
/// `inputs` are the numbers that the processes begin with. `schedule` has the processes in the
/// order of their steps. Both are written as for [`read_inputs`](crate::read_inputs) and
/// [`read_schedule`](crate::read_schedule).
///
/// # Errors
///
/// The first of these: `inputs`, then `schedule`, is misspelled or has too many items, and no text
/// is touched; those of [`read_checked`]; those of [`agree_report`]; the writer fails. Want of
/// memory can stand in place of any answer.
pub fn agree<R: Read, C: Read, W: Write>(
    alloc: Global,
    table: &mut Text<R>,
    certificate: &mut Text<C>,
    output: &mut Output<W>,
    inputs: &ListText<'_>,
    schedule: &ListText<'_>,
    asked: AskedRun,
) -> Result<Outcome, AppFault>
    requires texts { IsUnread table.old × IsUnread certificate.old }
    requires output { IsWritable output.old }

    // promise: order-of-checks (HaveReadBoth: order)
    ensures read { HaveReadBoth R.remaining C.remaining table.old table.new
        certificate.old certificate.new }
    // promise: order-of-checks
    ensures order { AreUntouched table.old table.new certificate.old certificate.new
        ⊎ SpellLists inputs.now schedule.now }
    // promise: decisions-by-agree (HasAgreeReport: IsAgreed: written, lines_of_steps, step_lines,
    //     records_of, run_text, run_data)
    // promise: list-of-an-argument
    ensures agreed { Reports W.contents
        (HasAgreeReport table.new certificate.new inputs.now schedule.now asked)
        output.old output.new result }
{
    let lists = read_run_lists(alloc, inputs, schedule)?;
    let checked = read_checked(alloc, table, certificate)?;
    output.report(agree_report(alloc, &checked, &lists.inputs, &lists.schedule, asked))
}
