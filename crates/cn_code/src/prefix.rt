//! The prefix of the names of a program in C.
ghost use Rattle.std.specs.Prelude.{◌≡◌, string_bytes};
ghost use Rattle.cn_code.specs.Prefix.{begins, is_first_byte, is_identifier, is_prefix};
ghost use Rattle.cn_code.specs.Prefix.{is_prefix_byte, prefix_in};
ghost use Rattle.std.specs.List.{list_all};

use crate::keywords::is_keyword;
use std::marker::Model;

/// The most bytes of a prefix.
pub const LONGEST_PREFIX: usize = 32;

/// What the names of a program in C begin with: a letter or an underscore, then letters, digits and
/// underscores, at most [`LONGEST_PREFIX`] together. It is no keyword of C or C++.
#[derive(Drop)]
pub struct Prefix {
    text: String,
}

impl Model for Prefix {
    ghost use Rattle.std.specs.Prelude.{ℕ, List, IsTrue, string_bytes};
    ghost use Rattle.cn_code.specs.Prefix.{is_prefix};

    ghost Value = { List ℕ };

    ghost view = { λ p. string_bytes p.text };

    ghost invariant = { λ p. IsTrue (is_prefix (string_bytes p.text)) };
}

impl Prefix {
    /// The prefix that a text spells, if it is one.
    pub fn parse(text: String) -> Option<Prefix>
        // promise: prefix (prefix_in)
        ensures { result ≡ prefix_in (string_bytes text) }
    {
        if is_prefix(text.as_str()) {
            Some(Prefix { text })
        } else {
            None
        }
    }

    /// Its text.
    pub fn as_str(&self) -> &str
        // promise: prefix
        ensures { result.now ≡ self.now }
    {
        self.text.as_str()
    }
}

fn is_prefix(text: &str) -> bool
    ensures { result ≡ is_prefix text.now }
{
    is_identifier(text) && !is_keyword(text)
}

fn is_identifier(text: &str) -> bool
    ensures { result ≡ is_identifier text.now }
{
    begins(text) && text.len() <= LONGEST_PREFIX && has_prefix_bytes(text)
}

fn begins(text: &str) -> bool
    ensures { result ≡ begins text.now }
{
    match text.as_bytes().first() {
        Some(b) => is_first_byte(*b),
        None => false,
    }
}

fn has_prefix_bytes(text: &str) -> bool
    ensures { result ≡ list_all is_prefix_byte text.now }
{
    text.bytes().all(|b| is_prefix_byte(b))
}

fn is_first_byte(b: u8) -> bool
    ensures { result ≡ is_first_byte b }
{
    matches!(b, b'a'..=b'z' | b'A'..=b'Z' | b'_')
}

fn is_prefix_byte(b: u8) -> bool
    ensures { result ≡ is_prefix_byte b }
{
    is_first_byte(b) || matches!(b, b'0'..=b'9')
}
