//! Certificates of plan trees.
ghost use Rattle.cn_io.specs.Streams.Reading.{HasRead, IsUnread};
ghost use Rattle.cn_io.specs.Texts.PlanTrees.{EndsTreeCheck, GivesTreeCertificate};

use crate::fault::{AppFault, Source};
use crate::streams::text::Text;
use cn_table::Table;
use cn_tree_cert::TreeCertificate;
use cn_tree_check::check_tree;
use cn_tree_plans::TreePlan;
use std::alloc::Global;
use std::io::Read;

/// Reads a certificate of a plan tree: at most
/// [`MOST_CERTIFICATE_BYTES`](crate::MOST_CERTIFICATE_BYTES). It is not checked.
///
/// # Errors
///
/// The first of these: the reader fails, or gives more; the text is refused. Want of memory can
/// stand in place of any answer.
pub fn read_tree_certificate<C: Read>(
    alloc: Global,
    text: &mut Text<C>,
) -> Result<TreeCertificate, AppFault>
    requires { IsUnread text.old }
    // promise: parts-of-commands
    ensures read { HasRead Source.Certificate C.remaining text.old text.new }
    // promise: parts-of-commands
    ensures certificate { GivesTreeCertificate text.new result }
{
    text.fill(Source::Certificate)?;
    Ok(cn_tree_cert::read_tree_certificate(alloc, &text.bytes)?)
}

/// Reads a certificate of a plan tree ([`read_tree_certificate`]), checks it against the table
/// ([`check_tree`]), and answers the plan.
///
/// # Errors
///
/// The first of these: those of [`read_tree_certificate`]; `TreeCheck` with the first fault of the
/// certificate for this table. Want of memory can stand in place of any answer.
pub fn check_tree_certificate<C: Read>(
    alloc: Global,
    table: &Table,
    text: &mut Text<C>,
) -> Result<TreePlan, AppFault>
    requires { IsUnread text.old }
    ensures read { HasRead Source.Certificate C.remaining text.old text.new }
    // promise: ok-by-check-shortest (EndsTreeCheck)
    ensures checked { EndsTreeCheck table.now text.new result }
{
    let certificate = read_tree_certificate(alloc, text)?;
    let plan = check_tree(alloc, table, &certificate)?;
    Ok(plan)
}
