//! The report of `why`.
ghost use Rattle.std.specs.Prelude.{◌≡◌, IfErr, IfOk};
ghost use Rattle.cn_app.specs.Commands.Why.{ExplainsNumber, IsLimitedReport, IsReasonsReport, IsWhyReport};
ghost use Rattle.cn_io.specs.declared.fault.AppFault.TheVariants.{OutOfMemory};

use crate::reports::explain::{explain_report, text_of};
use crate::reports::find::{found_certificate, limit_for};
use crate::reports::shortest_cost::shortest_cost;
use cn_check::laws::accepted_is_right;
use cn_form::DocumentForm;
use cn_io::readers::Checked;
use cn_io::{AppFault, Report};
use cn_reasons::{Explanation, TypeNumber};
use cn_search::consensus_number;
use cn_stocks::lasting::find_lasting;
use cn_table::Table;
use std::alloc::Global;
use std::thread::Threads;

/// An explanation of the number up to the limit: the text of [`explain_report`] for the certificate
/// that [`find_report`](crate::reports::find_report) writes.
fn limited_report<T: Threads + Sync>(
    rt: &T,
    alloc: Global,
    table: Table,
    limit: u8,
    all: bool,
    form: DocumentForm,
) -> Result<Report, AppFault>
    ensures { IsLimitedReport table limit all form result }
{
    // The check accepts what is found.
    accepted_is_right();
    let certificate = found_certificate(rt, alloc, &table, limit)?;
    let checked = Checked { table, certificate };
    explain_report(alloc, checked, all, form)
}

/// What there is to tell of the number with no limit, with the certificate up to the greatest limit
/// that has one.
pub(crate) fn reasons_for<T: Threads + Sync>(
    rt: &T,
    alloc: Global,
    table: Table,
    all: bool,
) -> Result<Explanation, AppFault>
    ensures told { IfOk result (ExplainsNumber table all) }
    ensures memory { IfErr result (λ e. e ≡ OutOfMemory) }
{
    // The check accepts what is found.
    accepted_is_right();
    let number = consensus_number(rt, alloc, &table)?;
    let limit = limit_for(&table, None);
    let certificate = found_certificate(rt, alloc, &table, limit)?;
    let lasting = find_lasting(&table);
    let number = TypeNumber::Exact(number);
    let explanation = Explanation::new(alloc, table, certificate, number, lasting, all)?;
    Ok(explanation)
}

/// The reasons for the number with no limit, and how short protocols get, in a form.
fn reasons_report<T: Threads + Sync>(
    rt: &T,
    alloc: Global,
    table: Table,
    all: bool,
    form: DocumentForm,
) -> Result<Report, AppFault>
    ensures { IsReasonsReport table all form result }
{
    let shortest = shortest_cost(alloc, &table)?;
    let explanation = reasons_for(rt, alloc, table, all)?;
    Ok(Report::whole(text_of(alloc, explanation, shortest, form)?))
}

/// Why the consensus number of the table is what it is, in a form.
///
/// - Without a limit, it tells the number and the reasons for it ([`Explanation`]), and what the
///   shortest plan costs. The evidence in it is the certificate up to the greatest limit that
///   [`find_report`](crate::reports::find_report) accepts.
/// - With a limit, it is the text of [`explain_report`] for the certificate that
///   [`find_report`](crate::reports::find_report) writes.
///
/// # Errors
///
/// Those of [`find_report`](crate::reports::find_report).
pub fn why_report<T: Threads + Sync>(
    rt: &T,
    alloc: Global,
    table: Table,
    limit: Option<u8>,
    all: bool,
    form: DocumentForm,
) -> Result<Report, AppFault>
    // promise: shortest-cost-by-why (IsWhyReport: IsReasonsReport, HasReasonsFor; TellsShortest:
    //     IsShortestCost, count, least, steps, objects, HasNoPlan)
    ensures { IsWhyReport table limit all form result }
{
    match limit {
        Some(limit) => limited_report(rt, alloc, table, limit, all, form),
        None => reasons_report(rt, alloc, table, all, form),
    }
}
