//! Whether the text of the entries refutes the choices that count in a version, in one pass.
ghost use Rattle.std.specs.Prelude.{◌≡◌, ◌<◌, ◌≤◌, ◌+◌, [], ℕ, List, length, All, IfSome, IsTrue, true};
ghost use Rattle.cn_choice.specs.declared.limits.TheConstants.{MOST_PROCESSES};
ghost use Rattle.cn_choice.specs.Canonical.{with_first, with_size, with_state};
ghost use Rattle.cn_check.specs.EntryTexts.{AreSpelled};
ghost use Rattle.cn_check.specs.Refutations.{all_count, counting};
ghost use Rattle.cn_check.specs.Versions.{choices_in_version};

use crate::entry::entry_behind;
use crate::line::Line;
use crate::pieces::head_of;
use crate::refutation::all_count;
use crate::steps::{first_beside, step, step_from, zeros};
use cn_choice::laws::choice_by_teams;
use cn_table::{State, Table};

/// Whether each operation of the table counts in the version.
fn each_counts(table: &Table, version: u8, state: State) -> bool
    requires { state.0 < length table.now.states }
    ensures { IsTrue result → (operations : List ℕ)
        → All (λ operation. operation < length table.now.operations) operations
        → all_count version table.now state.0 operations ≡ true }
{
    for operation in 0..table.operations() {
        if !all_count(table, version, state, &[operation]) {
            return false;
        }
    }
    true
}

/// Whether the operations count in the version; they do if each operation of the table does.
fn list_counts(each: bool, table: &Table, version: u8, state: State, operations: &[u8]) -> bool
    requires state { state.0 < length table.now.states }
    requires known { All (λ operation. operation < length table.now.operations) operations.now }
    requires each { IsTrue each → (operations : List ℕ)
        → All (λ operation. operation < length table.now.operations) operations
        → all_count version table.now state.0 operations ≡ true }
    ensures { result ≡ all_count version table.now state.0 operations.now }
{
    each || all_count(table, version, state, operations)
}

/// The bytes behind the entries of the choices of this state and this team A, whose operations
/// count.
fn team_behind<'a>(
    table: &Table,
    version: u8,
    n: u8,
    state: State,
    a: &[u8],
    bytes: &'a [u8],
) -> Option<&'a [u8]>
    requires some { 1 ≤ length a.now }
    requires few { n ≤ MOST_PROCESSES }
    requires state { state.0 < length table.now.states }
    requires half { length a.now + length a.now ≤ n }
    requires known { All (λ operation. operation < length table.now.operations) a.now }
    requires counts { all_count version table.now state.0 a.now ≡ true }
    ensures { IfSome result (λ rest. AreSpelled table.now
        (counting version table.now (with_first (length table.now.operations) n state.0 a.now))
        bytes.now rest.now) }
{
    // Each choice that comes next is one of the table for n processes.
    choice_by_teams();
    let operations = table.operations();
    // At least one choice of this team A comes next.
    let head = head_of(bytes, state, a)?;
    let each = each_counts(table, version, state);
    let mut b = first_beside(a, n);
    let mut line = Line::new();
    let mut left = bytes;
    loop {
        if list_counts(each, table, version, state, b.as_slice()) {
            left = entry_behind(table, state, a, b.as_slice(), head, &mut line, left)?;
        }
        match step_from(b.as_mut_slice(), operations) {
            Some(place) => line.follow(head.len(), a.len() + place, b.as_slice(), place),
            None => return Some(left),
        }
    }
}

/// The bytes behind the entries of the choices of this state whose team A has this size.
fn size_behind<'a>(
    table: &Table,
    version: u8,
    n: u8,
    state: State,
    size: u8,
    bytes: &'a [u8],
) -> Option<&'a [u8]>
    requires some { 1 ≤ size }
    requires few { n ≤ MOST_PROCESSES }
    requires state { state.0 < length table.now.states }
    requires half { size + size ≤ n }
    ensures { IfSome result (λ rest. AreSpelled table.now
        (counting version table.now (with_size (length table.now.operations) n state.0 size))
        bytes.now rest.now) }
{
    let operations = table.operations();
    let mut a = zeros(size as usize);
    let mut left = bytes;
    loop {
        if all_count(table, version, state, a.as_slice()) {
            left = team_behind(table, version, n, state, a.as_slice(), left)?;
        }
        if !step(a.as_mut_slice(), operations) {
            return Some(left);
        }
    }
}

/// The bytes behind the entries of the choices of this state.
fn state_behind<'a>(
    table: &Table,
    version: u8,
    n: u8,
    state: State,
    bytes: &'a [u8],
) -> Option<&'a [u8]>
    requires few { n ≤ MOST_PROCESSES }
    requires state { state.0 < length table.now.states }
    ensures { IfSome result (λ rest. AreSpelled table.now
        (counting version table.now (with_state (length table.now.operations) n state.0)) bytes.now
        rest.now) }
{
    let mut left = bytes;
    for size in 1..n / 2 + 1 {
        left = size_behind(table, version, n, state, size, left)?;
    }
    Some(left)
}

/// The bytes behind the entries of the choices for n processes that count in the version.
fn all_behind<'a>(table: &Table, version: u8, n: u8, bytes: &'a [u8]) -> Option<&'a [u8]>
    requires few { n ≤ MOST_PROCESSES }
    ensures { IfSome result (λ rest. AreSpelled table.now (choices_in_version version table.now n)
        bytes.now rest.now) }
{
    let mut left = bytes;
    for state in 0..table.states() {
        left = state_behind(table, version, n, State(state), left)?;
    }
    Some(left)
}

/// Whether the bytes are the text of entries that refute the choices for n processes that count in
/// the version, in their order, and of no others.
pub(crate) fn are_entries(table: &Table, version: u8, n: u8, bytes: &[u8]) -> bool
    requires few { n ≤ MOST_PROCESSES }
    ensures { IsTrue result
        → AreSpelled table.now (choices_in_version version table.now n) bytes.now [] }
{
    match all_behind(table, version, n, bytes) {
        Some(rest) => rest.is_empty(),
        None => false,
    }
}
