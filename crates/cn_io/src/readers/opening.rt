//! The opening of a log, for the commands that serve an object.
ghost use Rattle.std.specs.Prelude.{◌≤◌};
ghost use Rattle.cn_log.specs.declared.limits.TheConstants.{MOST_SLOTS};
ghost use Rattle.cn_io.specs.Texts.Openings.{AreArgumentsUnread, GivesOpening, GivesStart, HaveReadAll, OpensWith};

use crate::fault::{AppFault, Argument};
use crate::readers::checked::Checked;
use crate::readers::table::{read_certificate, read_object, read_table};
use crate::streams::text::Text;
use cn_cert::Certificate;
use cn_log::Opening;
use cn_proto::Plan;
use cn_table::Table;
use std::alloc::Global;
use std::io::Read;

/// The arguments of a command that opens a log: three texts and two words.
#[derive(Drop)]
pub struct OpeningArguments<'a, R, C, O> {
    /// The table of the type.
    pub table: Text<R>,
    /// A certificate of the type.
    pub certificate: Text<C>,
    /// The table of the object.
    pub object: Text<O>,
    /// The name of the state in which the object starts.
    pub start: &'a str,
    /// How many slots the log has, from 1 to [`MOST_SLOTS`](cn_log::MOST_SLOTS), in decimal digits.
    pub capacity: &'a str,
}

/// Opens a log of so many slots with this plan. The object starts in the state of this name.
fn start_with(plan: Plan, object: Table, start: &str, slots: u16) -> Result<Opening, AppFault>
    requires some { 1 ≤ slots }
    requires few { slots ≤ MOST_SLOTS }
    ensures { GivesStart plan object start.now slots result }
{
    let Some(state) = object.find_state(start) else {
        return Err(AppFault::Argument(Argument::Start));
    };
    Ok(Opening::new(plan, object, state, slots))
}

/// Checks the certificate, makes the plan of its witness, and opens a log with it.
fn open_with(
    alloc: Global,
    table: Table,
    certificate: Certificate,
    object: Table,
    start: &str,
    slots: u16,
) -> Result<Opening, AppFault>
    requires some { 1 ≤ slots }
    requires few { slots ≤ MOST_SLOTS }
    ensures { OpensWith table certificate object start.now slots result }
{
    let checked = Checked::new(table, certificate)?;
    let plan = checked.plan(alloc)?;
    start_with(plan, object, start, slots)
}

/// Reads a table, a certificate and an object, in this order, and opens a log of so many slots. The
/// plan of the log is that of the certificate's witness; the certificate is checked first.
///
/// # Errors
///
/// The first of these: those of [`read_table`], of [`read_certificate`], of [`read_object`], of
/// [`Checked::new`], of [`Checked::plan`]; the object has no state of the name `start`. If a text
/// is refused, the later ones are not touched.
pub fn read_opening<R: Read, C: Read, O: Read>(
    alloc: Global,
    given: &mut OpeningArguments<'_, R, C, O>,
    slots: u16,
) -> Result<Opening, AppFault>
    requires given { AreArgumentsUnread given.old }
    requires some { 1 ≤ slots }
    requires few { slots ≤ MOST_SLOTS }
    // promise: parts-of-commands
    ensures read { HaveReadAll R.remaining C.remaining O.remaining given.old given.new }
    // promise: parts-of-commands
    ensures opening { GivesOpening given.new slots result }
{
    let table = read_table(alloc, &mut given.table)?;
    let certificate = read_certificate(alloc, &mut given.certificate)?;
    let object = read_object(alloc, &mut given.object)?;
    open_with(alloc, table, certificate, object, given.start, slots)
}
