//! An entry in the text of a certificate.
ghost use Rattle.std.specs.Prelude.{◌≡◌, ◌<◌, ◌≤◌, ◌-◌, ◌++◌, ◌∷◌, [], All, IfSome, codes, length, nat_le, Some, true};
ghost use Rattle.std.specs.List.{list_all};
ghost use Rattle.cn_choice.specs.Canonical.{FitsTable};
ghost use Rattle.cn_choice.specs.declared.limits.TheConstants.{MOST_PROCESSES};
ghost use Rattle.cn_check.specs.EntryTexts.{AreSpelled, BeginsWithEntry, IsKnown, IsShown, head_text};
ghost use Rattle.cn_cert.specs.Entries.{with_comma};
ghost use Rattle.cn_table.specs.declared.limits.TheConstants.{MOST_STATES};

use crate::line::Line;
use crate::pieces::{behind, behind_numbers, behind_piece, digit, front_of, greater, list};
use crate::refutation::collide;
use cn_table::{State, Table};

/// The evidence of an entry that was found right: its text, and the greatest process of its orders.
#[derive(Clone, Copy, Drop)]
pub(crate) struct Shown<'a> {
    pub text: &'a [u8],
    pub greatest: u8,
}

/// The evidence at the front of the bytes, if it is right for the choice of this state and these
/// teams, and the bytes behind it.
fn show<'a>(
    table: &Table,
    state: State,
    a: &[u8],
    b: &[u8],
    bytes: &'a [u8],
) -> Option<(Shown<'a>, &'a [u8])>
    requires { FitsTable table.now (record { state = state.0; a = a.now; b = b.now }) }
    ensures shown { IfSome result (λ r. IsShown table.now
        (record { state = state.0; a = a.now; b = b.now }) r.0.text.now r.0.greatest) }
    ensures text { IfSome result (λ r. bytes.now ≡ r.0.text.now ++ r.1.now) }
{
    let (process, after_process) = digit(bytes)?;
    let second = behind(after_process, b',')?;
    let (alpha, alpha_greatest, after_alpha) = list(second)?;
    let third = behind(after_alpha, b',')?;
    let (beta, beta_greatest, after_beta) = list(third)?;
    let rest = behind(after_beta, b']')?;
    let (alpha_order, beta_order) = (alpha.as_slice(), beta.as_slice());
    if !collide(table, state, (a, b), process, alpha_order, beta_order) {
        return None;
    }
    let text = front_of(bytes, rest);
    let greatest = greater(alpha_greatest, beta_greatest);
    Some((Shown { text, greatest }, rest))
}

/// The bytes of the next entries: those behind the comma, and nothing at the end.
fn next_entries(bytes: &[u8]) -> Option<&[u8]>
    ensures { IfSome result (λ rest. bytes.now ++ codes "," ≡ codes "," ++ with_comma rest.now) }
{
    if bytes.is_empty() {
        return Some(bytes);
    }
    let rest = behind(bytes, b',')?;
    if rest.is_empty() {
        return None;
    }
    Some(rest)
}

/// The bytes behind the first entry, if that is a right entry of the choice of this state and these
/// teams, which the line keeps then. The entries of this state and this team A begin with the head.
fn new_entry<'a>(
    table: &Table,
    state: State,
    a: &[u8],
    b: &[u8],
    head: &[u8],
    line: &mut Line,
    bytes: &'a [u8],
) -> Option<&'a [u8]>
    requires fits { FitsTable table.now (record { state = state.0; a = a.now; b = b.now }) }
    requires head { head.now ≡ head_text state.0 a.now }
    ensures known { IfSome result (λ _. IsKnown table.now
        (record { state = state.0; a = a.now; b = b.now }) line.new.text.items line.new.greatest) }
    ensures begins { IfSome result (λ rest. BeginsWithEntry table.now
        (record { state = state.0; a = a.now; b = b.now }) bytes.now rest.now) }
{
    let after = behind_piece(bytes, head)?;
    let left = behind_numbers(after, b)?;
    let middle = behind(left, b',')?;
    let (shown, rest) = show(table, state, a, b, middle)?;
    line.keep(front_of(bytes, rest), shown.greatest);
    Some(rest)
}

/// The same. If the bytes begin with the line that is known for this choice, no process has to move
/// again.
fn known_or_new<'a>(
    table: &Table,
    state: State,
    a: &[u8],
    b: &[u8],
    head: &[u8],
    line: &mut Line,
    bytes: &'a [u8],
) -> Option<&'a [u8]>
    requires fits { FitsTable table.now (record { state = state.0; a = a.now; b = b.now }) }
    requires head { head.now ≡ head_text state.0 a.now }
    requires known { IsKnown table.now (record { state = state.0; a = a.now; b = b.now })
        line.old.text.items line.old.greatest }
    ensures known { IfSome result (λ _. IsKnown table.now
        (record { state = state.0; a = a.now; b = b.now }) line.new.text.items line.new.greatest) }
    ensures begins { IfSome result (λ rest. BeginsWithEntry table.now
        (record { state = state.0; a = a.now; b = b.now }) bytes.now rest.now) }
{
    match line.behind(bytes) {
        Some(rest) => Some(rest),
        None => new_entry(table, state, a, b, head, line, bytes),
    }
}

/// The bytes of the entries behind the first one, if that is a right entry of the choice of this
/// state and these teams. The line is known for this choice, before and behind.
pub(crate) fn entry_behind<'a>(
    table: &Table,
    state: State,
    a: &[u8],
    b: &[u8],
    head: &[u8],
    line: &mut Line,
    bytes: &'a [u8],
) -> Option<&'a [u8]>
    requires fits { FitsTable table.now (record { state = state.0; a = a.now; b = b.now }) }
    requires head { head.now ≡ head_text state.0 a.now }
    requires state { state.0 < MOST_STATES }
    requires small { list_all (λ n. nat_le n (MOST_PROCESSES - 1)) a.now ≡ true }
    requires small_b { All (λ n. n < MOST_PROCESSES) b.now }
    requires known { IsKnown table.now (record { state = state.0; a = a.now; b = b.now })
        line.old.text.items line.old.greatest }
    ensures known { IfSome result (λ _. IsKnown table.now
        (record { state = state.0; a = a.now; b = b.now }) line.new.text.items line.new.greatest) }
    ensures spelled { IfSome result (λ rest. AreSpelled table.now
        ((record { state = state.0; a = a.now; b = b.now }) ∷ []) bytes.now rest.now) }
{
    let rest = known_or_new(table, state, a, b, head, line, bytes)?;
    let next = next_entries(rest)?;
    Some(next)
}
