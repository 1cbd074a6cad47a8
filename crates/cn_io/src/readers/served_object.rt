//! An object, and the plan by which a program serves it.
ghost use Rattle.cn_io.specs.Texts.ServedObjects.{GivesServed, GivesServedPlan, HaveReadWithObject, IsServedBy, ServesWith};
ghost use Rattle.cn_io.specs.Streams.Reading.{IsUnread};

use crate::fault::{AppFault, Argument};
use crate::readers::checked::Checked;
use crate::readers::table::{read_certificate, read_object, read_table};
use crate::streams::text::Text;
use cn_cert::Certificate;
use cn_code::Served;
use cn_proto::Plan;
use cn_table::Table;
use std::alloc::Global;
use std::io::Read;

/// A plan, and the object that is served by it.
#[derive(Drop)]
pub struct ServedPlan {
    /// The plan.
    pub plan: Plan,
    /// The object.
    pub object: Served,
}

/// The object of this table, which starts in the state of this name.
///
/// # Errors
///
/// `Argument(Start)` if the object has no state of this name.
pub fn served_from(object: Table, start: &str) -> Result<Served, AppFault>
    // promise: parts-of-commands
    ensures { GivesServed object start.now result }
{
    let Some(state) = object.find_state(start) else {
        return Err(AppFault::Argument(Argument::Start));
    };
    Ok(Served::new(object, state))
}

/// The plan with the object of this table, which starts in the state of this name.
fn served_by(plan: Plan, object: Table, start: &str) -> Result<ServedPlan, AppFault>
    ensures { IsServedBy plan object start.now result }
{
    let object = served_from(object, start)?;
    Ok(ServedPlan { plan, object })
}

/// Checks the certificate, and makes the plan of its witness.
fn serve_with(
    alloc: Global,
    table: Table,
    certificate: Certificate,
    object: Table,
    start: &str,
) -> Result<ServedPlan, AppFault>
    ensures { ServesWith table certificate object start.now result }
{
    let checked = Checked::new(table, certificate)?;
    let plan = checked.plan(alloc)?;
    served_by(plan, object, start)
}

/// Reads a table, a certificate and an object, in this order. The plan is that of the certificate's
/// witness; the certificate is checked first.
///
/// # Errors
///
/// Those of [`read_opening`](crate::readers::read_opening), in its order.
pub fn read_served_plan<R: Read, C: Read, O: Read>(
    alloc: Global,
    table: &mut Text<R>,
    certificate: &mut Text<C>,
    object: &mut Text<O>,
    start: &str,
) -> Result<ServedPlan, AppFault>
    requires texts { IsUnread table.old × IsUnread certificate.old × IsUnread object.old }
    // promise: parts-of-commands
    ensures read { HaveReadWithObject R.remaining C.remaining O.remaining table.old table.new
        certificate.old certificate.new object.old object.new }
    // promise: parts-of-commands
    ensures served { GivesServedPlan table.new certificate.new object.new start.now result }
{
    let table = read_table(alloc, table)?;
    let certificate = read_certificate(alloc, certificate)?;
    let object = read_object(alloc, object)?;
    serve_with(alloc, table, certificate, object, start)
}
