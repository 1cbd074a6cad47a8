//! The commands that write a program with an object.
ghost use Rattle.cn_app.specs.Commands.Show.{HasShowObjectReport};
ghost use Rattle.cn_app.specs.Commands.ShowShortest.{HasShowShortestObjectReport};
ghost use Rattle.cn_io.specs.Texts.ServedObjects.{HaveReadTableAndObject, HaveReadWithObject};
ghost use Rattle.cn_io.specs.Streams.Reading.{IsUnread};
ghost use Rattle.cn_io.specs.Streams.Writing.{IsWritable, Reports};

use crate::plan_style::PlanStyle;
use crate::reports::{AskedPlan, show_object_report, show_shortest_object_report};
use cn_io::readers::{read_object, read_served_plan, read_table};
use cn_io::{AppFault, Outcome, Output, Text};
use std::alloc::Global;
use std::io::{Read, Write};

/// Reads a type table, a certificate and the table of an object, checks the certificate against the
/// type table, and writes the plan of the certificate's witness in a style, with the object, which
/// starts in the state of this name ([`show_object_report`]).
///
/// # Errors
///
/// The first of these: those of [`read_served_plan`]; the writer fails. Want of memory can stand in
/// place of any answer.
pub fn show_object<R: Read, C: Read, O: Read, W: Write>(
    alloc: Global,
    table: &mut Text<R>,
    certificate: &mut Text<C>,
    object: &mut Text<O>,
    start: &str,
    output: &mut Output<W>,
    style: &PlanStyle,
) -> Result<Outcome, AppFault>
    requires texts { IsUnread table.old × IsUnread certificate.old × IsUnread object.old }
    requires output { IsWritable output.old }

    // promise: order-of-checks (HaveReadWithObject: certificate_order, object_order)
    ensures read { HaveReadWithObject R.remaining C.remaining O.remaining table.old table.new
        certificate.old certificate.new object.old object.new }
    // promise: object-by-show (HasShowObjectReport: GivesServedPlan; form_text: rust_text, c_text,
    //     header_text)
    ensures shown { Reports W.contents (HasShowObjectReport table.new certificate.new object.new
        start.now style.now) output.old output.new result }
{
    let served = read_served_plan(alloc, table, certificate, object, start)?;
    output.report(show_object_report(alloc, &served, style))
}

/// Reads a type table and the table of an object, and writes the shortest plan of the type table in a
/// style, with the object, which starts in the state of this name ([`show_shortest_object_report`]).
///
/// # Errors
///
/// The first of these: those of [`read_table`]; those of [`read_object`]; those of
/// [`show_shortest_object_report`]; the writer fails. Want of memory can stand in place of any answer.
pub fn show_shortest_object<R: Read, O: Read, W: Write>(
    alloc: Global,
    table: &mut Text<R>,
    object: &mut Text<O>,
    start: &str,
    output: &mut Output<W>,
    asked: AskedPlan,
    style: &PlanStyle,
) -> Result<Outcome, AppFault>
    requires texts { IsUnread table.old × IsUnread object.old }
    requires output { IsWritable output.old }

    // promise: order-of-checks (HaveReadTableAndObject: order)
    ensures read { HaveReadTableAndObject R.remaining O.remaining table.old table.new
        object.old object.new }
    // promise: object-of-a-shortest-plan-by-show (HasShowShortestObjectReport: GivesShortestPlan,
    //     GivesServed; tree_text: tree_rust_text, tree_c_text, tree_header_text)
    ensures shown { Reports W.contents (HasShowShortestObjectReport table.new object.new start.now
        asked style.now) output.old output.new result }
{
    let table = read_table(alloc, table)?;
    let object = read_object(alloc, object)?;
    let report = show_shortest_object_report(alloc, &table, object, start, asked, style);
    output.report(report)
}
