//! The texts that commands read, each whole and up to its limit.
ghost use Rattle.cn_io.specs.Texts.Contents.{GivesCertificate, GivesObject, GivesTable};
ghost use Rattle.cn_io.specs.Streams.Reading.{HasRead, IsUnread, IsWhole};

use crate::fault::{AppFault, Source};
use crate::streams::text::Text;
use cn_cert::Certificate;
use cn_table::{Table, TableFault};
use std::alloc::Global;
use std::io::Read;

/// Reads a type table: at most [`MOST_TABLE_BYTES`](crate::MOST_TABLE_BYTES).
///
/// # Errors
///
/// The first of these: the reader fails, or gives more; the table is refused. Want of memory can
/// stand in place of any answer.
pub fn read_table<R: Read>(alloc: Global, text: &mut Text<R>) -> Result<Table, AppFault>
    requires { IsUnread text.old }
    // promise: parts-of-commands
    ensures read { HasRead Source.Table R.remaining text.old text.new }
    // promise: parts-of-commands
    ensures table { GivesTable text.new result }
{
    text.fill(Source::Table)?;
    Ok(cn_table::read_table(alloc, &text.bytes)?)
}

/// The certificate that a whole text spells. It is not checked.
///
/// # Errors
///
/// The text is refused, or `OutOfMemory`.
pub(crate) fn spelled_certificate<R>(alloc: Global, text: &Text<R>) -> Result<Certificate, AppFault>
    requires { IsWhole Source.Certificate text.now }
    ensures { GivesCertificate text.now result }
{
    Ok(cn_cert::read_certificate(alloc, &text.bytes)?)
}

/// Reads a certificate: at most [`MOST_CERTIFICATE_BYTES`](crate::MOST_CERTIFICATE_BYTES). It is
/// not checked.
///
/// # Errors
///
/// The first of these: the reader fails, or gives more; the text is refused. Want of memory can
/// stand in place of any answer.
pub fn read_certificate<R: Read>(alloc: Global, text: &mut Text<R>) -> Result<Certificate, AppFault>
    requires { IsUnread text.old }
    // promise: parts-of-commands
    ensures read { HasRead Source.Certificate R.remaining text.old text.new }
    // promise: parts-of-commands
    ensures certificate { GivesCertificate text.new result }
{
    text.fill(Source::Certificate)?;
    spelled_certificate(alloc, text)
}

/// Reads the table of an object: at most [`MOST_TABLE_BYTES`](crate::MOST_TABLE_BYTES).
///
/// # Errors
///
/// Those of [`read_table`], as faults of the object.
pub fn read_object<R: Read>(alloc: Global, text: &mut Text<R>) -> Result<Table, AppFault>
    requires { IsUnread text.old }
    // promise: parts-of-commands
    ensures read { HasRead Source.Object R.remaining text.old text.new }
    // promise: parts-of-commands
    ensures object { GivesObject text.new result }
{
    text.fill(Source::Object)?;
    match cn_table::read_table(alloc, &text.bytes) {
        Ok(object) => Ok(object),
        Err(TableFault::OutOfMemory) => Err(AppFault::OutOfMemory),
        Err(fault) => Err(AppFault::Object(fault)),
    }
}
