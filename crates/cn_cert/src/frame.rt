//! Certificates whose entries are not read.
ghost use Rattle.std.specs.Prelude.{◌≤◌, IfSome, length};
ghost use Rattle.cn_cert.specs.Frames.{IsReadWith};

use crate::certificate::Certificate;
use crate::guess::{Bytes, is_rest_of, without_line_feed};
use std::alloc::Global;
use std::marker::Brand;

/// The most bytes from the end of the entries to the end of the text that [`read_frame`] looks for,
/// so that it soon gives up any other text. If the certificate is in its ranges there are fewer than
/// 200: the name has at most 32, the witness 75.
const MOST_BEHIND: usize = 1024;

/// A certificate without its entries, and their text.
#[derive(Drop)]
pub struct Frame<'a> {
    /// The certificate. Its list of entries is empty.
    pub certificate: Certificate,
    /// The text of the entries, without the brackets of their array.
    pub entries: &'a [u8],
}

/// Where the entries end, if the text behind them is in the written form.
fn end_of_entries(text: &[u8]) -> Option<usize>
    ensures { IfSome result (λ end. end ≤ length text.now) }
{
    let first = text.len().saturating_sub(MOST_BEHIND);
    for end in (first..text.len()).rev() {
        if text[end..].starts_with(b"],\"limit\":") {
            return Some(end);
        }
    }
    None
}

/// Reads a certificate but for its entries, which stay text.
///
/// The bytes are those of the written text, which can have a line feed at its end; for any other
/// text, and if memory runs out, there is no answer.
pub fn read_frame(alloc: Global, bytes: &[u8]) -> Option<Frame<'_>>
    // promise: frame-of-a-certificate (IsReadWith: AreEntries)
    ensures { IfSome result (λ frame. IsReadWith bytes.now frame.certificate frame.entries.now) }
{
    let text = without_line_feed(bytes).strip_prefix(b"{\"collisions\":[")?;
    let (entries, behind) = text.split_at(end_of_entries(text)?);
    let rest = behind.strip_prefix(b"]")?;
    let certificate = Bytes { text: rest, at: 0 }.rest(alloc, Vec::new(alloc))?;
    if is_rest_of::<Brand>(alloc, &certificate, rest) {
        Some(Frame {
            certificate,
            entries,
        })
    } else {
        None
    }
}
