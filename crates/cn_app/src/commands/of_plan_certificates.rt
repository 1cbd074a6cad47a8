//! The commands of certificates of plan trees: one writes the certificate of the shortest plan of a
//! table, the other checks a certificate against a table.
ghost use Rattle.cn_app.specs.Commands.CheckShortest.{HasCheckShortestReport};
ghost use Rattle.cn_app.specs.Commands.FindShortest.{HasFindShortestReport};
ghost use Rattle.cn_io.specs.Texts.Checked.{HaveReadBoth};
ghost use Rattle.cn_io.specs.Streams.Reading.{HasRead, IsUnread};
ghost use Rattle.cn_io.specs.Streams.Writing.{IsWritable, Reports};

use crate::reports::check_shortest::plan_verdict_report;
use crate::reports::find_shortest_report;
use cn_form::AnswerForm;
use cn_io::readers::{check_tree_certificate, read_table};
use cn_io::{AppFault, Outcome, Output, Source, Text};
use std::alloc::Global;
use std::io::{Read, Write};

/// Reads a type table, and writes a certificate of its shortest plan, and a line feed
/// ([`find_shortest_report`]).
///
/// # Errors
///
/// The first of these: those of [`read_table`]; those of [`find_shortest_report`]; the writer fails.
pub fn find_shortest<R: Read, W: Write>(
    alloc: Global,
    table: &mut Text<R>,
    output: &mut Output<W>,
    processes: Option<u8>,
) -> Result<Outcome, AppFault>
    requires table { IsUnread table.old }
    requires output { IsWritable output.old }

    ensures read { HasRead Source.Table R.remaining table.old table.new }
    // promise: certificate-by-find-shortest (HasFindShortestReport: GivesShortestPlan, IsFoundPlan:
    //     IsCertificateOf, IsRight)
    ensures found { Reports W.contents (HasFindShortestReport table.new processes)
        output.old output.new result }
{
    let table = read_table(alloc, table)?;
    output.report(find_shortest_report(alloc, &table, processes))
}

/// Reads a type table and a certificate of a plan tree, checks the certificate against the table,
/// and writes `ok` and a line feed if the check accepts it, and then how short the plan is
/// ([`head_line`](cn_tree_text::head_line)). As JSON, writes the verdict; of a certificate that is
/// refused it has the fault, and so has the outcome.
///
/// # Errors
///
/// The first of these: those of [`read_table`]; those of [`check_tree_certificate`], as JSON without
/// those of the text of the certificate and of the check; the writer fails. Want of memory can stand
/// in place of any answer.
pub fn check_shortest<R: Read, C: Read, W: Write>(
    alloc: Global,
    table: &mut Text<R>,
    certificate: &mut Text<C>,
    output: &mut Output<W>,
    form: AnswerForm,
) -> Result<Outcome, AppFault>
    requires texts { IsUnread table.old × IsUnread certificate.old }
    requires output { IsWritable output.old }

    // promise: order-of-checks (HaveReadBoth: order)
    ensures read { HaveReadBoth R.remaining C.remaining table.old table.new
        certificate.old certificate.new }
    // promise: ok-by-check-shortest (HasCheckShortestReport: HasPlanVerdictReport: EndsTreeCheck:
    //     IsCheckedTree)
    // promise: verdict-by-check-shortest (HasPlanVerdictReport: ok_plan_text, IsFaultReport:
    //     fault_told, IsRefusal)
    ensures checked { Reports W.contents
        (HasCheckShortestReport table.new certificate.new form) output.old output.new result }
{
    let table = read_table(alloc, table)?;
    let verdict = check_tree_certificate(alloc, &table, certificate);
    output.report(plan_verdict_report(alloc, verdict, form))
}
