//! From bytes to the draft of a certificate.
ghost use Rattle.std.specs.Prelude.{◌≡◌, Some, Err, IfOk, IfErr, IsUtf8, option_map};
ghost use Rattle.serde_json.specs.Read.{read};
ghost use Rattle.cn_cert.specs.Document.{document_of};
ghost use Rattle.cn_cert.specs.Draft.{draft_of};
ghost use Rattle.cn_cert.specs.Reads.{Refuses};

use crate::draft::Draft;
use crate::fault::CertFault;
use crate::object::draft;
use json::{Reader, Scratch};
use std::alloc::Global;

/// The greatest depth to which arrays and objects nest.
const MOST_DEPTH: usize = 127;

fn draft_of_text(alloc: Global, text: &str) -> Result<Option<Draft>, CertFault>
    ensures ok { IfOk result (λ o. option_map draft_of (read text.now) ≡ Some o) }
    ensures err { IfErr result (λ e. Refuses e (read text.now)) }
{
    let mut scratch = Scratch::new(alloc);
    let Ok(mut reader) = Reader::new(text, &mut scratch) else {
        return Err(CertFault::OutOfMemory);
    };
    let draft = draft(alloc, &mut reader, MOST_DEPTH)?;
    if reader.next().is_some() {
        return Err(CertFault::NotJson);
    }
    Ok(draft)
}

/// The draft of the JSON value that the bytes spell, if the value has the shape of a certificate.
pub(crate) fn read_draft(alloc: Global, bytes: &[u8]) -> Result<Option<Draft>, CertFault>
    ensures ok { IfOk result (λ o. option_map draft_of (document_of bytes.now) ≡ Some o) }
    ensures err { IfErr result (λ e. Refuses e (document_of bytes.now)) }
    ensures told { ¬ IsUtf8 bytes.now → result ≡ Err CertFault.NotJson }
{
    let Ok(text) = str::from_utf8(bytes) else {
        return Err(CertFault::NotJson);
    };
    draft_of_text(alloc, text)
}
