//! Pieces of the text of a certificate, each at the front of the bytes that are left.
ghost use Rattle.std.specs.Prelude.{◌≡◌, ◌<◌, ◌++◌, ◌∷◌, ◌≤◌, ◌-◌, ℕ, List, All, IfSome, decimal, length, nat_le, true};
ghost use Rattle.std.specs.List.{list_all};
ghost use Rattle.serde_json.specs.Written.{comma_if, compact_text};
ghost use Rattle.cn_cert.specs.CertificateText.{numbers_data};
ghost use Rattle.cn_cert.specs.Ranges.{is_short};
ghost use Rattle.cn_check.specs.EntryTexts.{head_text};
ghost use Rattle.cn_choice.specs.declared.limits.TheConstants.{MOST_PROCESSES};
ghost use Rattle.cn_table.specs.declared.limits.TheConstants.{MOST_STATES};

use arrayvec::ArrayVec;
use cn_choice::MOST_PROCESSES;
use cn_table::{MOST_STATES, State};

/// The bytes behind this one, if they begin with it.
#[inline(always)]
pub(crate) fn behind(bytes: &[u8], byte: u8) -> Option<&[u8]>
    ensures { IfSome result (λ rest. bytes.now ≡ byte ∷ rest.now) }
{
    match bytes {
        [first, rest @ ..] if *first == byte => Some(rest),
        _ => None,
    }
}

/// The bytes behind the piece, if they begin with it.
#[inline(always)]
pub(crate) fn behind_piece<'a>(bytes: &'a [u8], piece: &[u8]) -> Option<&'a [u8]>
    ensures { IfSome result (λ rest. bytes.now ≡ piece.now ++ rest.now) }
{
    bytes.strip_prefix(piece)
}

/// The bytes before the rest, with which they end.
#[inline(always)]
pub(crate) fn front_of<'a>(bytes: &'a [u8], rest: &[u8]) -> &'a [u8]
    requires { length rest.now ≤ length bytes.now }
    ensures { (front : List ℕ) → bytes.now ≡ front ++ rest.now → result.now ≡ front }
{
    &bytes[..bytes.len() - rest.len()]
}

/// The bytes behind the number, if they begin with it, and it is the number of a process or an
/// operation.
#[inline(always)]
#[tactic(auto, using(std::proofs::lemmas::Fmt::decimal_digit))]
fn behind_digit(bytes: &[u8], n: u8) -> Option<&[u8]>
    ensures text { IfSome result (λ rest. bytes.now ≡ decimal n ++ rest.now) }
    ensures small { IfSome result (λ _. n < MOST_PROCESSES) }
{
    if (n as usize) < MOST_PROCESSES {
        behind(bytes, b'0' + n)
    } else {
        None
    }
}

/// The bytes behind the number of the state, if they begin with it.
#[tactic(auto, using(std::proofs::lemmas::Fmt::decimal_digit, crate::proofs::PieceLemmas::two_digits))]
fn behind_state(bytes: &[u8], state: State) -> Option<&[u8]>
    ensures text { IfSome result (λ rest. bytes.now ≡ decimal state.0 ++ rest.now) }
    ensures small { IfSome result (λ _. state.0 < MOST_STATES) }
{
    let n = state.0;
    if n < 10 {
        behind(bytes, b'0' + n)
    } else if (n as usize) < MOST_STATES {
        behind(behind(bytes, b'1')?, b'0' + (n - 10))
    } else {
        None
    }
}

/// The bytes behind a number of a list, and behind the comma before it if it is not the first one.
fn behind_next(bytes: &[u8], later: bool, n: u8) -> Option<&[u8]>
    ensures text { IfSome result (λ rest. bytes.now ≡ comma_if later ++ (decimal n ++ rest.now)) }
    ensures small { IfSome result (λ _. n < MOST_PROCESSES) }
{
    if later {
        behind_digit(behind(bytes, b',')?, n)
    } else {
        behind_digit(bytes, n)
    }
}

/// The bytes behind the list of operations, if they begin with its text.
pub(crate) fn behind_numbers<'a>(bytes: &'a [u8], list: &[u8]) -> Option<&'a [u8]>
    ensures text { IfSome result (λ rest. bytes.now
        ≡ compact_text (numbers_data list.now) ++ rest.now) }
    ensures small { IfSome result (λ _.
        list_all (λ n. nat_le n (MOST_PROCESSES - 1)) list.now ≡ true) }
{
    let first = behind(bytes, b'[')?;
    let mut left = first;
    let mut later = false;
    for n in list {
        left = behind_next(left, later, *n)?;
        later = true;
    }
    let rest = behind(left, b']')?;
    Some(rest)
}

/// The text with which the entries of this state and this team A begin, if the bytes begin with it.
pub(crate) fn head_of<'a>(bytes: &'a [u8], state: State, a: &[u8]) -> Option<&'a [u8]>
    ensures text { IfSome result (λ head. head.now ≡ head_text state.0 a.now) }
    ensures state { IfSome result (λ _. state.0 < MOST_STATES) }
    ensures small { IfSome result (λ _.
        list_all (λ n. nat_le n (MOST_PROCESSES - 1)) a.now ≡ true) }
{
    let first = behind(bytes, b'[')?;
    let after_state = behind_state(first, state)?;
    let second = behind(after_state, b',')?;
    let after_a = behind_numbers(second, a)?;
    let rest = behind(after_a, b',')?;
    Some(front_of(bytes, rest))
}

/// The first byte, and the bytes behind it.
#[inline(always)]
fn first_of(bytes: &[u8]) -> Option<(u8, &[u8])>
    ensures { IfSome result (λ r. bytes.now ≡ r.0 ∷ r.1.now) }
{
    match bytes {
        [first, rest @ ..] => Some((*first, rest)),
        [] => None,
    }
}

/// The number of a process at the front of the bytes, and the bytes behind it.
#[inline(always)]
pub(crate) fn digit(bytes: &[u8]) -> Option<(u8, &[u8])>
    ensures text { IfSome result (λ r. bytes.now ≡ decimal r.0 ++ r.1.now) }
    ensures small { IfSome result (λ r. r.0 < MOST_PROCESSES) }
{
    let (byte, rest) = first_of(bytes)?;
    if byte < b'0' {
        return None;
    }
    let n = byte - b'0';
    if n as usize >= MOST_PROCESSES {
        return None;
    }
    Some((n, rest))
}

/// A number that neither is above.
pub(crate) fn greater(first: u8, second: u8) -> u8
    ensures { (first ≤ result) × (second ≤ result) }
{
    if first < second { second } else { first }
}

/// The list of processes at the front of the bytes, the greatest of them, and the bytes behind the
/// list. No order is empty, so an empty list counts as none.
pub(crate) fn list(bytes: &[u8]) -> Option<(ArrayVec<u8, MOST_PROCESSES>, u8, &[u8])>
    ensures text { IfSome result (λ r. bytes.now
        ≡ compact_text (numbers_data r.0.items) ++ r.2.now) }
    ensures short { IfSome result (λ r. is_short r.0.items ≡ true) }
    ensures greatest { IfSome result (λ r. All (λ p. p ≤ r.1) r.0.items) }
{
    let mut out = ArrayVec::new();
    let mut greatest = 0;
    let first = behind(bytes, b'[')?;
    let mut left = first;
    for _ in 0..MOST_PROCESSES {
        let (process, after) = digit(left)?;
        out.push(process);
        greatest = greater(greatest, process);
        if let Some(rest) = behind(after, b']') {
            return Some((out, greatest, rest));
        }
        left = behind(after, b',')?;
    }
    None
}
