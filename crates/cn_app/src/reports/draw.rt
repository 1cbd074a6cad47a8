//! The report of `draw`.
ghost use Rattle.cn_app.specs.Commands.Draw.{IsDrawReport};

use cn_io::{AppFault, Report};
use cn_table::Table;
use cn_text::diagram_of;
use std::alloc::Global;

/// A picture of the table for Graphviz: the states, and the arrows between them. An arrow has a
/// line `OPERATION/RESPONSE` for each operation that leads along it.
///
/// # Errors
///
/// `OutOfMemory`.
pub fn draw_report(alloc: Global, table: &Table) -> Result<Report, AppFault>
    ensures { IsDrawReport table.now result }
{
    Ok(Report::whole(diagram_of(alloc, table)?))
}
