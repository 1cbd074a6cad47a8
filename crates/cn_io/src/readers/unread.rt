//! Certificates of numbers without reads.
ghost use Rattle.cn_io.specs.Streams.Reading.{HasRead, IsUnread};
ghost use Rattle.cn_io.specs.Texts.WithoutReads.{EndsUnreadCheck, GivesUnreadCertificate};

use crate::fault::{AppFault, Source};
use crate::streams::text::Text;
use cn_table::Table;
use cn_unread_cert::UnreadCertificate;
use cn_unread_check::check_unread;
use std::alloc::Global;
use std::io::Read;

/// Reads a certificate of a number without reads: at most
/// [`MOST_CERTIFICATE_BYTES`](crate::MOST_CERTIFICATE_BYTES). It is not checked.
///
/// # Errors
///
/// The first of these: the reader fails, or gives more; the text is refused. Want of memory can
/// stand in place of any answer.
pub fn read_unread_certificate<C: Read>(
    alloc: Global,
    text: &mut Text<C>,
) -> Result<UnreadCertificate, AppFault>
    requires { IsUnread text.old }
    // promise: parts-of-commands
    ensures read { HasRead Source.Certificate C.remaining text.old text.new }
    // promise: parts-of-commands
    ensures certificate { GivesUnreadCertificate text.new result }
{
    text.fill(Source::Certificate)?;
    Ok(cn_unread_cert::read_unread_certificate(alloc, &text.bytes)?)
}

/// Reads a certificate of a number without reads ([`read_unread_certificate`]), and checks it
/// against the table ([`check_unread`]).
///
/// # Errors
///
/// The first of these: those of [`read_unread_certificate`]; `UnreadCheck` with the first fault of
/// the certificate for this table, or where the check comes to no end.
pub fn check_unread_certificate<C: Read>(
    alloc: Global,
    table: &Table,
    text: &mut Text<C>,
) -> Result<(), AppFault>
    requires { IsUnread text.old }
    ensures read { HasRead Source.Certificate C.remaining text.old text.new }
    // promise: ok-by-check-without-reads (EndsUnreadCheck)
    ensures checked { EndsUnreadCheck table.now text.new result }
{
    let certificate = read_unread_certificate(alloc, text)?;
    check_unread(alloc, table, &certificate)?;
    Ok(())
}
