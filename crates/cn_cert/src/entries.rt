//! The entries of a certificate as their text.
ghost use Rattle.std.specs.Prelude.{◌≡◌, ◌++◌, ◌≤◌, List, length, string_bytes, IfOk, OnOk};
ghost use Rattle.cn_choice.specs.Collisions.{Collision as CollisionOf};
ghost use Rattle.cn_choice.specs.declared.limits.TheConstants.{MOST_PROCESSES};
ghost use Rattle.cn_cert.specs.CertificateText.{certificate_text};
ghost use Rattle.cn_cert.specs.Entries.{entry_text, listed_text};
ghost use Rattle.cn_cert.specs.Frames.{AreEntries};

use crate::certificate::Certificate;
use crate::line::Line;
use crate::sink::Sink;
use crate::write::push_rest;
use cn_choice::Choice;
use std::alloc::{AllocError, Global};

/// Appends the entry of a choice, a process and its orders, with a comma behind it.
///
/// # Errors
///
/// `AllocError` if memory runs out.
pub fn push_entry(
    text: &mut String,
    choice: &Choice,
    process: u8,
    alpha: &[u8],
    beta: &[u8],
) -> Result<(), AllocError>
    requires { (length alpha.now ≤ MOST_PROCESSES) × (length beta.now ≤ MOST_PROCESSES) }
    // promise: text-of-entries (entry_text)
    ensures { OnOk result (string_bytes text.new ≡ string_bytes text.old ++ entry_text
        (record {
          choice = choice.now;
          process = process;
          alpha = alpha.now;
          beta = beta.now;
        })) }
{
    let mut line = Line::new();
    let end = line.put_entry(choice, process, alpha, beta);
    let behind = line.put(end, b',');
    Sink::push_str(text, line.text(behind))?;
    Ok(())
}

/// The text of an array of entries without its brackets.
fn array_body(entries: String) -> String
    ensures { (kept : List CollisionOf) → string_bytes entries ≡ listed_text kept
        → AreEntries (string_bytes result) kept }
{
    let mut body = entries;
    let _comma = body.pop();
    body
}

/// The text of the certificate with other entries in place of its own, as
/// [`write_certificate`](crate::write_certificate) writes it. Each of these stands in their text,
/// with a comma behind it ([`push_entry`]).
///
/// # Errors
///
/// `AllocError` if memory runs out.
pub fn write_with_entries(
    alloc: Global,
    certificate: &Certificate,
    entries: String,
) -> Result<String, AllocError>
    // promise: text-of-entries (listed_text, certificate_text)
    ensures { (kept : List CollisionOf) → string_bytes entries ≡ listed_text kept
        → IfOk result (λ text. string_bytes text
        ≡ certificate_text (record certificate.now { collisions = kept })) }
{
    // The entries are nearly all of the text: they are not copied.
    let mut text = array_body(entries);
    text.insert_str(0, "{\"collisions\":[")?;
    Sink::push(&mut text, b']')?;
    push_rest(alloc, &mut text, certificate)?;
    Ok(text)
}
