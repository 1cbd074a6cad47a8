//! A fast way for texts in the form in which certificates are written.
//!
//! Short code guesses the certificate from the digits. The guess stands if it has that text.
ghost use Rattle.std.specs.Prelude.{◌≡◌, ◌<◌, ◌≤◌, ◌⊎◌, ◌++◌, ◌∷◌, [], IfSome, OnOk, IsTrue, IsUtf8, None, Ok, length, take, true, string_bytes};
ghost use Rattle.std.specs.List.{list_all};
ghost use Rattle.cn_table.specs.Names.{is_name};
ghost use Rattle.cn_table.specs.declared.limits.TheConstants.{MOST_STATES};
ghost use Rattle.cn_cert.specs.Certificate.{is_version};
ghost use Rattle.serde_json.specs.Written.{members_text};
ghost use Rattle.cn_cert.specs.CertificateText.{certificate_text, other_members};
ghost use Rattle.cn_cert.specs.Ranges.{is_number_in_range, is_short, is_choice_in_range, is_collision_in_range, is_witness_in_range, is_in_range};
ghost use Rattle.cn_cert.specs.Reading.{reading};
ghost use Rattle.cn_table.specs.Texts.{line_feed};

use crate::certificate::Certificate;
use crate::ranges::GREATEST_NUMBER;
use crate::sink::Sink;
use crate::write::{push_certificate, push_rest};
use arrayvec::ArrayVec;
use cn_choice::{Choice, Collision, MOST_PROCESSES};
use cn_table::{LONGEST_NAME, State, is_name};
use std::alloc::{AllocError, Global};
use std::marker::{Brand, PhantomData};

/// The bytes of a text that are left.
#[derive(Drop)]
pub(crate) struct Bytes<'a> {
    pub text: &'a [u8],
    pub at: usize,
}

/// The digit that a byte spells, if it is at most this one.
#[inline(always)]
fn digit(byte: u8, greatest: u8) -> Option<u8>
    ensures { IfSome result (λ n. n ≤ greatest) }
{
    if byte >= b'0' && byte - b'0' <= greatest {
        Some(byte - b'0')
    } else {
        None
    }
}

impl<'a> Bytes<'a> {
    /// Takes the next byte, or 0 at the end.
    #[inline(always)]
    fn next(&mut self) -> u8 {
        if self.at < self.text.len() {
            let byte = self.text[self.at];
            self.at += 1;
            byte
        } else {
            0
        }
    }

    #[inline(always)]
    fn pass(&mut self, byte: u8) -> Option<()> {
        if self.next() == byte { Some(()) } else { None }
    }

    fn pass_all(&mut self, bytes: &[u8]) -> Option<()> {
        for byte in bytes {
            self.pass(*byte)?;
        }
        Some(())
    }

    /// A list of digits, each the number of an operation or a process.
    fn list(&mut self) -> Option<ArrayVec<u8, MOST_PROCESSES>>
        ensures { IfSome result (λ v. is_short v.items ≡ true) }
    {
        let mut out = ArrayVec::new();
        self.pass(b'[')?;
        let mut byte = self.next();
        if byte == b']' {
            return Some(out);
        }
        for _ in 0..MOST_PROCESSES {
            out.push(digit(byte, GREATEST_NUMBER)?);
            match self.next() {
                b',' => byte = self.next(),
                b']' => return Some(out),
                _ => return None,
            }
        }
        None
    }

    /// Takes the number of a state, and the comma behind it.
    fn state(&mut self) -> Option<u8>
        ensures { IfSome result (λ n. n < MOST_STATES) }
    {
        let first = digit(self.next(), 9)?;
        let next = self.next();
        if next == b',' {
            return Some(first);
        }
        let second = digit(next, 5)?;
        self.pass(b',')?;
        if first == 1 { Some(10 + second) } else { None }
    }

    fn choice(&mut self) -> Option<Choice>
        ensures { IfSome result (λ c. is_choice_in_range c ≡ true) }
    {
        let state = State(self.state()?);
        let a = self.list()?;
        self.pass(b',')?;
        let b = self.list()?;
        Some(Choice { state, a, b })
    }

    /// Takes a collision whose first bracket was taken.
    fn collision(&mut self) -> Option<Collision>
        ensures { IfSome result (λ c. is_collision_in_range c ≡ true) }
    {
        let choice = self.choice()?;
        self.pass(b',')?;
        let process = digit(self.next(), GREATEST_NUMBER)?;
        self.pass(b',')?;
        let alpha = self.list()?;
        self.pass(b',')?;
        let beta = self.list()?;
        self.pass(b']')?;
        Some(Collision {
            choice,
            process,
            alpha,
            beta,
        })
    }

    /// Takes the collisions of an array whose first bracket was taken.
    fn collisions(&mut self, alloc: Global) -> Option<Vec<Collision>>
        ensures { IfSome result (λ v. list_all is_collision_in_range v.items ≡ true) }
    {
        let mut collisions = Vec::new(alloc);
        let mut byte = self.next();
        for _ in 0..self.text.len() {
            match byte {
                b'[' => collisions.push(self.collision()?).ok()?,
                b']' => return Some(collisions),
                _ => return None,
            }
            byte = self.next();
            if byte == b',' {
                byte = self.next();
            }
        }
        None
    }

    fn digit_or_null(&mut self) -> Option<Option<u8>>
        ensures { IfSome result (λ o. is_number_in_range o ≡ true) }
    {
        let byte = self.next();
        if byte == b'n' {
            self.pass_all(b"ull")?;
            return Some(None);
        }
        Some(Some(digit(byte, 9)?))
    }

    /// Takes a name, and the quote behind it.
    fn name(&mut self, alloc: Global) -> Option<String>
        ensures { IfSome result (λ s. is_name (string_bytes s) ≡ true) }
    {
        let mut name = String::new(alloc);
        for _ in 0..LONGEST_NAME + 1 {
            let byte = self.next();
            if byte == b'"' {
                return if is_name(name.as_str()) {
                    Some(name)
                } else {
                    None
                };
            }
            name.push(byte as char).ok()?;
        }
        None
    }

    fn choice_or_null(&mut self) -> Option<Option<Choice>>
        ensures { IfSome result (λ o. is_witness_in_range o ≡ true) }
    {
        if self.next() == b'n' {
            self.pass_all(b"ull")?;
            return Some(None);
        }
        let choice = self.choice()?;
        self.pass(b']')?;
        Some(Some(choice))
    }

    /// Takes what stands behind the collisions, and adds these collisions.
    pub(crate) fn rest(&mut self, alloc: Global, collisions: Vec<Collision>) -> Option<Certificate>
        requires { list_all is_collision_in_range collisions.items ≡ true }
        ensures { IfSome result (λ c. (is_version c.version ≡ true) × (is_in_range c ≡ true)) }
    {
        self.pass_all(b",\"limit\":")?;
        let limit = digit(self.next(), 9)?;
        self.pass_all(b",\"number\":")?;
        let number = self.digit_or_null()?;
        self.pass_all(b",\"type\":\"")?;
        let type_name = self.name(alloc)?;
        self.pass_all(b",\"version\":")?;
        let version = digit(self.next(), 2)?;
        self.pass_all(b",\"witness\":")?;
        let witness = self.choice_or_null()?;
        if version == 0 {
            return None;
        }
        Some(Certificate {
            version,
            type_name,
            limit,
            number,
            witness,
            collisions,
        })
    }

    fn certificate(&mut self, alloc: Global) -> Option<Certificate>
        ensures { IfSome result (λ c. (is_version c.version ≡ true) × (is_in_range c ≡ true)) }
    {
        self.pass_all(b"{\"collisions\":[")?;
        let collisions = self.collisions(alloc)?;
        self.rest(alloc, collisions)
    }
}

/// A text without the line feed at its end, if it has one.
pub(crate) fn without_line_feed(bytes: &[u8]) -> &[u8]
    ensures { (bytes.now ≡ result.now) ⊎ (bytes.now ≡ result.now ++ line_feed) }
{
    match bytes.split_last() {
        Some((b'\n', front)) => front,
        _ => bytes,
    }
}

/// The bytes with which a text is compared. The type of the comparison has them, since code that
/// pushes to a sink says nothing of its fields.
pub(crate) trait Original {
    ghost use Rattle.std.specs.Prelude.{ℕ, List};

    ghost bytes: { List ℕ };
}

// Each call picks its own bytes.
impl Original for Brand {
    ghost use Rattle.std.specs.Prelude.{[]};

    ghost bytes = { [] };
}

/// Bytes with which a text is compared while it is made, and how many of them agree so far.
#[derive(Drop)]
struct Comparison<'a, O: Original> {
    bytes: &'a [u8],
    agreed: usize,
    original: PhantomData<O>,
    ghost same: { bytes.now ≡ O.bytes },
    ghost within: { agreed ≤ length bytes.now },
}

/// The text differs from the bytes, or memory ran out while it was made.
#[derive(Drop)]
struct Different;

impl From<AllocError> for Different {
    fn from(_: AllocError) -> Different {
        Different
    }
}

impl<'a, O: Original> Comparison<'a, O> {
    /// Passes the next of the bytes, if it is this one.
    #[inline(always)]
    fn pass(&mut self, byte: u8) -> Result<(), Different>
        ensures { OnOk result (take self.new.agreed O.bytes
            ≡ take self.old.agreed O.bytes ++ byte ∷ []) }
    {
        if self.agreed < self.bytes.len() && self.bytes[self.agreed] == byte {
            self.agreed += 1;
            Ok(())
        } else {
            Err(Different)
        }
    }
}

impl<'a, O: Original> Sink for Comparison<'a, O> {
    type Error = Different;

    ghost text = { λ c. take c.agreed O.bytes };

    #[inline(always)]
    fn push(&mut self, byte: u8) -> Result<(), Different> {
        self.pass(byte)
    }

    fn push_str(&mut self, piece: &str) -> Result<(), Different> {
        let left = &self.bytes[self.agreed..];
        if left.starts_with(piece.as_bytes()) {
            self.agreed += piece.len();
            Ok(())
        } else {
            Err(Different)
        }
    }
}

/// Whether this is the text of the certificate. The answer can be no for want of memory, if the
/// name has something to escape.
fn is_text_of<O: Original>(alloc: Global, certificate: &Certificate, bytes: &[u8]) -> bool
    requires { bytes.now ≡ O.bytes }
    ensures { IsTrue result → bytes.now ≡ certificate_text certificate.now }
{
    let mut comparison = Comparison::<O> {
        bytes,
        agreed: 0,
        original: PhantomData,
    };
    push_certificate(alloc, &mut comparison, certificate).is_ok()
        && comparison.agreed == bytes.len()
}

/// Whether this is the text of the certificate behind its collisions. The answer can be no for want
/// of memory, if the name has something to escape.
pub(crate) fn is_rest_of<O: Original>(
    alloc: Global,
    certificate: &Certificate,
    bytes: &[u8],
) -> bool
    requires { bytes.now ≡ O.bytes }
    ensures { IsTrue result → bytes.now ≡ members_text true (other_members certificate.now) }
{
    let mut comparison = Comparison::<O> {
        bytes,
        agreed: 0,
        original: PhantomData,
    };
    push_rest(alloc, &mut comparison, certificate).is_ok() && comparison.agreed == bytes.len()
}

/// The certificate of this text, which can have a line feed at its end; none if the guess is wrong.
pub(crate) fn guessed_certificate(alloc: Global, bytes: &[u8]) -> Option<Certificate>
    ensures certificate { IfSome result (λ c. reading bytes.now ≡ Ok c) }
    ensures told { ¬ IsUtf8 bytes.now → result ≡ None }
{
    if str::from_utf8(bytes).is_err() {
        return None;
    }
    let line = without_line_feed(bytes);
    let guess = Bytes { text: line, at: 0 }.certificate(alloc)?;
    if is_text_of::<Brand>(alloc, &guess, line) {
        Some(guess)
    } else {
        None
    }
}
