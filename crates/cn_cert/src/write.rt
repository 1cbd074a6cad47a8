//! From a certificate to its text.
ghost use Rattle.std.specs.Prelude.{◌≡◌, ◌++◌, true, false, decimal, string_bytes, IfOk, OnOk, IsOkUnless, Ok};
ghost use Rattle.serde_json.specs.Written.{compact_text, members_text};
ghost use Rattle.serde_json.specs.Data.{string};
ghost use Rattle.cn_cert.specs.Certificate.{is_version};
ghost use Rattle.cn_cert.specs.CertificateText.{number_or_null, witness_data, collision_data};
ghost use Rattle.cn_cert.specs.CertificateText.{collisions_data, other_members, certificate_text};
ghost use Rattle.cn_cert.specs.Ranges.{is_in_range};
ghost use Rattle.cn_cert.specs.Reading.{reading};

use crate::certificate::Certificate;
use crate::fault::CertFault;
use crate::laws;
use crate::line::Line;
use crate::sink::Sink;
use cn_choice::{Choice, Collision};
use cn_table::is_name;
use serde_json::Value;
use std::alloc::Global;

fn push_number<S: Sink>(out: &mut S, n: u8) -> Result<(), S::Error>
    ensures { OnOk result (S.text out.new ≡ S.text out.old ++ decimal n) }
{
    if n < 10 {
        out.push(b'0' + n)
    } else {
        let mut buffer = itoa::Buffer::new();
        out.push_str(buffer.format(n))
    }
}

fn push_number_or_null<S: Sink>(out: &mut S, number: Option<u8>) -> Result<(), S::Error>
    ensures { OnOk result (S.text out.new
        ≡ S.text out.old ++ compact_text (number_or_null number)) }
{
    match number {
        Some(n) => push_number(out, n),
        None => out.push_str("null"),
    }
}

fn push_witness<S: Sink>(out: &mut S, witness: &Option<Choice>) -> Result<(), S::Error>
    ensures { OnOk result (S.text out.new
        ≡ S.text out.old ++ compact_text (witness_data witness.now)) }
{
    match witness {
        Some(choice) => {
            let mut line = Line::new();
            let end = line.put_choice(choice);
            out.push_str(line.text(end))
        }
        None => out.push_str("null"),
    }
}

fn push_collision<S: Sink>(out: &mut S, collision: &Collision) -> Result<(), S::Error>
    ensures { OnOk result (S.text out.new
        ≡ S.text out.old ++ compact_text (collision_data collision.now)) }
{
    let (alpha, beta) = (collision.alpha.as_slice(), collision.beta.as_slice());
    let mut line = Line::new();
    let end = line.put_entry(&collision.choice, collision.process, alpha, beta);
    out.push_str(line.text(end))
}

fn push_collisions<S: Sink>(out: &mut S, list: &[Collision]) -> Result<(), S::Error>
    ensures { OnOk result (S.text out.new
        ≡ S.text out.old ++ compact_text (collisions_data list.now)) }
{
    out.push(b'[')?;
    let mut later = false;
    for entry in list {
        if later {
            out.push(b',')?;
        }
        push_collision(out, entry)?;
        later = true;
    }
    out.push(b']')
}

/// Writes the name in quotes, escaped as in JSON. A name of a table has nothing to escape; any
/// other name takes memory for its text.
fn push_name<S: Sink>(alloc: Global, out: &mut S, name: &str) -> Result<(), S::Error>
    ensures { OnOk result (S.text out.new
        ≡ S.text out.old ++ compact_text (string name.now)) }
{
    if is_name(name) {
        out.push(b'"')?;
        out.push_str(name)?;
        return out.push(b'"');
    }
    let text = Value::try_from_str(alloc, name)?.to_string(alloc)?;
    out.push_str(text.as_str())
}

/// Writes the members behind the collisions, and the end of the object.
pub(crate) fn push_rest<S: Sink>(
    alloc: Global,
    out: &mut S,
    certificate: &Certificate,
) -> Result<(), S::Error>
    ensures { OnOk result (S.text out.new
        ≡ S.text out.old ++ members_text true (other_members certificate.now)) }
{
    out.push_str(",\"limit\":")?;
    push_number(out, certificate.limit)?;
    out.push_str(",\"number\":")?;
    push_number_or_null(out, certificate.number)?;
    out.push_str(",\"type\":")?;
    push_name(alloc, out, certificate.type_name.as_str())?;
    out.push_str(",\"version\":")?;
    push_number(out, certificate.version)?;
    out.push_str(",\"witness\":")?;
    push_witness(out, &certificate.witness)?;
    out.push(b'}')
}

/// Writes the text of a certificate, as [`write_certificate`] describes it.
pub(crate) fn push_certificate<S: Sink>(
    alloc: Global,
    out: &mut S,
    certificate: &Certificate,
) -> Result<(), S::Error>
    ensures { OnOk result (S.text out.new ≡ S.text out.old ++ certificate_text certificate.now) }
{
    out.push_str("{\"collisions\":")?;
    push_collisions(out, &certificate.collisions)?;
    push_rest(alloc, out, certificate)
}

/// The one text of a certificate: compact JSON, its keys in the order of their bytes, its numbers
/// in decimal. It has no line feed at its end.
///
/// # Errors
///
/// `OutOfMemory`, and nothing else.
pub fn write_certificate(alloc: Global, certificate: &Certificate) -> Result<String, CertFault>
    // promise: text-of-a-certificate
    ensures text { IfOk result (λ s. string_bytes s ≡ certificate_text certificate.now) }
    // By this law the text of a certificate of version 1 or 2 is read back, if its parts are in
    // range.
    // promise: text-of-a-certificate
    ensures read_back { IfOk result (λ s. is_version certificate.now.version ≡ true
        → is_in_range certificate.now ≡ true → reading (string_bytes s) ≡ Ok certificate.now) }
    // promise: text-of-a-certificate
    ensures memory { IsOkUnless result CertFault.OutOfMemory }
{
    laws::written_is_read_back();
    let mut out = String::new(alloc);
    push_certificate(alloc, &mut out, certificate)?;
    Ok(out)
}
