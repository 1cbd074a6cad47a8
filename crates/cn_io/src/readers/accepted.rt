//! The check of a certificate that is not kept.
//!
//! The command `check` has no use for the entries of a certificate. So it first goes once through
//! their text, and keeps none of them: it takes little more memory than the text. This way only
//! accepts. Where it does not, the certificate is read whole and checked, over the same bytes. So
//! every fault is that of [`read_checked`](crate::readers::read_checked).
ghost use Rattle.std.specs.Prelude.{IsTrue};
ghost use Rattle.cn_io.specs.Texts.Checked.{EndsCheck, SpellAcceptedCertificate};
ghost use Rattle.cn_io.specs.Streams.Reading.{HasRead, IsUnread};

use crate::fault::{AppFault, Source};
use crate::readers::table::spelled_certificate;
use crate::streams::text::Text;
use cn_cert::read_frame;
use cn_table::Table;
use std::alloc::Global;
use std::io::Read;

/// Whether the bytes are the written text of a certificate that the check accepts for the table.
///
/// If it answers no, the bytes can still spell such a certificate: in another form, or memory ran
/// out.
fn is_accepted(alloc: Global, table: &Table, bytes: &[u8]) -> bool
    ensures { IsTrue result → SpellAcceptedCertificate table.now bytes.now }
{
    match read_frame(alloc, bytes) {
        Some(frame) => cn_check::accepts(table, &frame.certificate, frame.entries),
        None => false,
    }
}

/// Reads a certificate ([`read_certificate`](crate::readers::read_certificate)), and checks it
/// against the table ([`check`](cn_check::check)). Keeps nothing but the text.
///
/// # Errors
///
/// The first of these: those of [`read_certificate`](crate::readers::read_certificate); `Check`
/// with the first fault of the certificate for this table.
pub fn check_certificate<C: Read>(
    alloc: Global,
    table: &Table,
    text: &mut Text<C>,
) -> Result<(), AppFault>
    requires { IsUnread text.old }
    ensures read { HasRead Source.Certificate C.remaining text.old text.new }
    // promise: check-of-entries (EndsCheck)
    ensures checked { EndsCheck table.now text.new result }
{
    text.fill(Source::Certificate)?;
    if is_accepted(alloc, table, &text.bytes) {
        return Ok(());
    }
    let certificate = spelled_certificate(alloc, text)?;
    cn_check::check(table, &certificate)?;
    Ok(())
}
