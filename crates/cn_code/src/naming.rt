//! The names of a program in C.
ghost use Rattle.std.specs.Prelude.{◌≡◌, ◌++◌, IfOk, OnOk, chars, flat_map, option_copied, string_bytes};
ghost use Rattle.cn_code.specs.Naming.{char_as, named, naming_by, naming_of, naming_with};

use crate::prefix::Prefix;
use std::alloc::{AllocError, Global};

/// A text with names for its marks, with a prefix or without one.
pub(crate) fn named(
    alloc: Global,
    text: &str,
    prefix: Option<&Prefix>,
) -> Result<String, AllocError>
    ensures { IfOk result (λ it. string_bytes it
        ≡ named (naming_of (option_copied prefix.entry)) text.now) }
{
    match prefix {
        Some(prefix) => named_with(alloc, text, prefix),
        None => named_by(alloc, text, "consensus", "static inline "),
    }
}

/// A text with names for its marks, with a prefix.
pub(crate) fn named_with(alloc: Global, text: &str, prefix: &Prefix) -> Result<String, AllocError>
    ensures { IfOk result (λ it. string_bytes it ≡ named (naming_with prefix.now) text.now) }
{
    named_by(alloc, text, prefix.as_str(), "")
}

fn named_by(alloc: Global, text: &str, prefix: &str, linkage: &str) -> Result<String, AllocError>
    ensures { IfOk result (λ it. string_bytes it
        ≡ named (naming_by prefix.now linkage.now) text.now) }
{
    let capitals = prefix.to_ascii_uppercase(alloc)?;
    named_as(alloc, text, prefix, capitals.as_str(), linkage)
}

fn named_as(
    alloc: Global,
    text: &str,
    prefix: &str,
    capitals: &str,
    linkage: &str,
) -> Result<String, AllocError>
    ensures { IfOk result (λ it. string_bytes it
        ≡ flat_map (char_as prefix.now capitals.now linkage.now) (chars text.now)) }
{
    let mut named = String::new(alloc);
    for c in text.chars() {
        push_char(&mut named, prefix, capitals, linkage, c)?;
    }
    Ok(named)
}

/// What stands for a character.
fn push_char(
    text: &mut String,
    prefix: &str,
    capitals: &str,
    linkage: &str,
    c: char,
) -> Result<(), AllocError>
    ensures { OnOk result (string_bytes text.new
        ≡ string_bytes text.old ++ char_as prefix.now capitals.now linkage.now c) }
{
    match c {
        '@' => text.push_str(prefix),
        '^' => text.push_str(capitals),
        '$' => text.push_str(linkage),
        _ => text.push(c),
    }
}
