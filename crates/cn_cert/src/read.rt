//! From bytes to a certificate, or to the first fault that the bytes have.
ghost use Rattle.std.specs.Prelude.{◌≡◌, ◌⊎◌, ◌&&◌, Ok, Err, IfOk, IfErr, IsUtf8, false};
ghost use Rattle.cn_cert.specs.Certificate.{is_version};
ghost use Rattle.cn_cert.specs.Ranges.{is_head_in_range};
ghost use Rattle.cn_cert.specs.Reading.{draft_reading, reading};
ghost use Rattle.cn_cert.specs.declared.fault.CertFault.TheVariants.{NotJson, OutOfMemory};

use crate::certificate::Certificate;
use crate::document::read_draft;
use crate::draft::Draft;
use crate::fault::CertFault;
use crate::guess::guessed_certificate;
use crate::ranges;
use std::alloc::Global;

/// Whether the format has such a version.
fn is_version(version: u64) -> bool
    ensures { result ≡ is_version version }
{
    version == 1 || version == 2
}

/// The certificate of a draft, or the first fault of the draft. The function takes memory only for
/// the collisions, after it has looked at everything else.
fn certificate_of(alloc: Global, draft: Draft) -> Result<Certificate, CertFault>
    ensures certificate { IfOk result (λ c. draft_reading draft ≡ Ok c) }
    ensures fault { IfErr result (λ e. (e ≡ OutOfMemory) ⊎ (draft_reading draft ≡ Err e)) }
    ensures told { (is_version draft.version && is_head_in_range draft) ≡ false
        → result ≡ draft_reading draft }
{
    if !is_version(draft.version) {
        return Err(CertFault::Version);
    }
    ranges::certificate(alloc, draft)
}

/// Reads a certificate from the bytes of a JSON text.
///
/// The text is an object with the keys `collisions`, `limit`, `number`, `type`, `version` and
/// `witness`, and no other. Version and limit are unsigned integers; the number is an unsigned
/// integer or null; the type is a text. The witness is null, or an array of a state, the operations
/// of team A and those of team B. A collision is an array of these three, a process and two lists
/// of processes. White space and the order of the keys do not matter. Of two equal keys the last
/// one counts.
///
/// # Errors
///
/// The first of the faults 1 to 4 of [`CertFault`] that the bytes have, or `OutOfMemory`. Bytes
/// that are not UTF-8 are refused before any memory is taken.
#[tactic(auto, using(crate::proofs::Readings::reading_by_draft))]
pub fn read_certificate(alloc: Global, bytes: &[u8]) -> Result<Certificate, CertFault>
    // promise: certificate-of-bytes
    ensures certificate { IfOk result (λ c. reading bytes.now ≡ Ok c) }
    // promise: certificate-of-bytes
    ensures fault { IfErr result (λ e. (e ≡ OutOfMemory) ⊎ (reading bytes.now ≡ Err e)) }
    // promise: certificate-of-bytes
    ensures told { ¬ IsUtf8 bytes.now → result ≡ Err NotJson }
{
    if let Some(certificate) = guessed_certificate(alloc, bytes) {
        return Ok(certificate);
    }
    match read_draft(alloc, bytes)? {
        Some(draft) => certificate_of(alloc, draft),
        None => Err(CertFault::WrongShape),
    }
}
