//! The certificate of a type as a text, written while it is looked for.
ghost use Rattle.std.specs.Prelude.{◌≡◌, ◌⊎◌, List, [], length, string_bytes, Err, IfErr, IfOk, None, OnOk, Some};
ghost use Rattle.cn_choice.specs.Collisions.{Collision as CollisionOf};
ghost use Rattle.cn_finding.specs.Evidence.{IsFindingFor};
ghost use Rattle.cn_finding.specs.Finding.{Finding as FindingOf};
ghost use Rattle.cn_search.specs.Faults.{find_fault};
ghost use Rattle.cn_search.specs.Kept.{finding_of};
ghost use Rattle.cn_search.specs.declared.fault.FindFault.{FindFault};
ghost use Rattle.cn_search.specs.declared.fault.FindFault.TheVariants.{OutOfMemory};
ghost use Rattle.cn_cert.specs.Certificate.{certificate_of};
ghost use Rattle.cn_cert.specs.CertificateText.{certificate_text};
ghost use Rattle.cn_cert.specs.Entries.{listed_text};

use crate::entries::EntriesText;
use cn_cert::{Certificate, write_with_entries};
use cn_finding::Finding;
use cn_search::{FindFault, Outline, find_evidence};
use cn_table::Table;
use std::alloc::{AllocError, Global};
use std::thread::Threads;

/// The certificate but for its entries.
fn frame_of(alloc: Global, table: &Table, outline: Outline) -> Result<Certificate, AllocError>
    ensures { IfOk result (λ c. c ≡ certificate_of table.now.name (finding_of outline [])) }
{
    let Outline {
        limit,
        number,
        witness,
    } = outline;
    let finding = Finding {
        limit,
        number,
        witness,
        collisions: Vec::new(alloc),
    };
    match Certificate::of_finding(alloc, table, finding) {
        Ok(certificate) => Ok(certificate),
        Err(_) => Err(AllocError),
    }
}

/// The text of the certificate with these entries.
fn text_of(
    alloc: Global,
    table: &Table,
    outline: Outline,
    entries: EntriesText,
) -> Result<String, AllocError>
    ensures { (kept : List CollisionOf) → string_bytes entries.text ≡ listed_text kept
        → IfOk result (λ text. string_bytes text
        ≡ certificate_text (certificate_of table.now.name (finding_of outline kept))) }
{
    let frame = frame_of(alloc, table, outline)?;
    write_with_entries(alloc, &frame, entries.text)
}

/// The text of the certificate of a type's number up to a limit, as
/// [`write_certificate`](cn_cert::write_certificate) writes it. The threads of the search write the
/// entries as they find them, so that no entry is kept but as text.
///
/// # Errors
///
/// Those of [`find_evidence`].
pub fn find_text<T: Threads + Sync>(
    rt: &T,
    alloc: Global,
    table: &Table,
    limit: u8,
) -> Result<String, FindFault>
    // promise: text-of-a-finding (IsFindingFor, certificate_of, certificate_text)
    ensures text { IfOk result (λ text. (finding : FindingOf)
        × IsFindingFor table.now limit finding
        × (string_bytes text ≡ certificate_text (certificate_of table.now.name finding))) }
    // promise: text-of-a-finding
    ensures searched { OnOk result (find_fault (length table.now.states)
        (length table.now.operations) limit ≡ None) }
    // promise: text-of-a-finding
    ensures told { (e : FindFault)
        → find_fault (length table.now.states) (length table.now.operations) limit ≡ Some e
        → result ≡ Err e }
    // promise: text-of-a-finding
    ensures refused { IfErr result (λ e. (e ≡ OutOfMemory)
        ⊎ (find_fault (length table.now.states) (length table.now.operations) limit ≡ Some e)) }
{
    let (outline, entries) = find_evidence::<T, EntriesText>(rt, alloc, table, limit)?;
    Ok(text_of(alloc, table, outline, entries)?)
}
