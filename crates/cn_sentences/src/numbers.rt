//! Numbers in words.
ghost use Rattle.std.specs.Prelude.{◌≡◌, string_bytes, IfOk};
ghost use Rattle.cn_sentences.specs.Numbers.{limited_words, number_words};

use cn_reasons::TypeNumber;
use std::alloc::{AllocError, Global};

/// A number up to a limit in words.
fn limited_words(
    alloc: Global,
    is_limit: &str,
    limit: u8,
    number: Option<u8>,
) -> Result<String, AllocError>
    ensures { IfOk result (λ words. string_bytes words
        ≡ limited_words is_limit.now limit number) }
{
    match number {
        None => String::from_str(alloc, "1"),
        Some(n) if n < limit => format!(in alloc; "{n}"),
        Some(n) => format!(in alloc; "at least {n}{is_limit}"),
    }
}

/// A number in words, as `2`, `infinite` or `at least 8`. Where it is known up to a limit and is this
/// limit, it is at least so much, and `is_limit` stands behind it.
///
/// # Errors
///
/// `AllocError` if memory runs out.
pub fn number_words(alloc: Global, is_limit: &str, number: TypeNumber) -> Result<String, AllocError>
    ensures { IfOk result (λ words. string_bytes words ≡ number_words is_limit.now number) }
{
    match number {
        TypeNumber::Exact(number) => format!(in alloc; "{number}"),
        TypeNumber::UpTo(limit, number) => limited_words(alloc, is_limit, limit, number),
    }
}
