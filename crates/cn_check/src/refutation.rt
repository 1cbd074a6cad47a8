//! Whether the entries of a certificate refute the choices that count in its version, one by one.
ghost use Rattle.std.specs.Prelude.{◌≡◌, ◌<◌, ◌≤◌, ◌+◌, ◌↔◌, [], ℕ, length, slice_get, All, IfErr, IfOk, IsTrue, OnOk, Some, true};
ghost use Rattle.std.specs.List.{AllZip};
ghost use Rattle.cn_choice.specs.declared.limits.TheConstants.{MOST_PROCESSES};
ghost use Rattle.cn_choice.specs.Canonical.{with_first, with_size, with_state};
ghost use Rattle.cn_choice.specs.Canonical.{FitsTable, raw_choice_of};
ghost use Rattle.cn_choice.specs.Collisions.{IsCollision};
ghost use Rattle.cn_choice.specs.Live.{all_move};
ghost use Rattle.cn_check.specs.Conditions.{HoldsCollision, Refutes};
ghost use Rattle.cn_check.specs.Refutations.{AreRefuted, ComeNext, HasComeTo, IsFirstEntryFault, all_count, counting};
ghost use Rattle.cn_check.specs.Versions.{choices_in_version};

use crate::CheckFault;
use crate::shown_pairs::shown_pair;
use crate::steps::{first_beside, step, zeros};
use cn_choice::laws::{canonical_list, live_list};
use cn_choice::{Choice, Collision, Team};
use cn_table::{Operation, State, Table};

/// Whether both are there and are the same pair.
fn are_one_pair(alpha: Option<(u8, u8)>, beta: Option<(u8, u8)>) -> bool
    ensures { IsTrue result ↔ ((pair : ℕ × ℕ) × (alpha ≡ Some pair) × (beta ≡ Some pair)) }
{
    match (alpha, beta) {
        (Some((r, q)), Some((s, p))) => r == s && q == p,
        _ => false,
    }
}

/// Whether the process and the lists are a collision of the choice of this state and these teams.
pub(crate) fn collide(
    table: &Table,
    state: State,
    teams: (&[u8], &[u8]),
    process: u8,
    alpha: &[u8],
    beta: &[u8],
) -> bool
    requires { FitsTable table.now
        (record { state = state.0; a = teams.0.now; b = teams.1.now }) }
    ensures { IsTrue result ↔ IsCollision table.now
        (raw_choice_of (record { state = state.0; a = teams.entry.0.now; b = teams.entry.1.now }))
        process alpha.now beta.now }
{
    let of_alpha = shown_pair(table, state, teams, Team::A, alpha, process);
    let of_beta = shown_pair(table, state, teams, Team::B, beta, process);
    are_one_pair(of_alpha, of_beta)
}

/// Whether the entry's process and lists are a collision of its choice.
pub(crate) fn holds_collision(table: &Table, entry: &Collision) -> bool
    requires { FitsTable table.now entry.now.choice }
    ensures { IsTrue result ↔ HoldsCollision table.now entry.now }
{
    let choice = &entry.choice;
    let teams = (choice.a.as_slice(), choice.b.as_slice());
    let (alpha, beta) = (entry.alpha.as_slice(), entry.beta.as_slice());
    collide(table, choice.state, teams, entry.process, alpha, beta)
}

/// Whether the choice is the one of this state and these teams.
fn is_choice(choice: &Choice, state: State, a: &[u8], b: &[u8]) -> bool
    ensures { IsTrue result ↔ (choice.now ≡ record { state = state.0; a = a.now; b = b.now }) }
{
    choice.state == state && choice.a.as_slice() == a && choice.b.as_slice() == b
}

/// Checks the entry at the place against the choice that it must refute, and answers the next
/// place.
fn check_entry(
    table: &Table,
    version: u8,
    entries: &[Collision],
    n: u8,
    place: usize,
    state: State,
    teams: (&[u8], &[u8]),
) -> Result<usize, CheckFault>
    requires some { 2 ≤ n }
    requires few { n ≤ MOST_PROCESSES }
    requires here { slice_get (choices_in_version version table.now n) place
        ≡ Some (record { state = state.0; a = teams.0.now; b = teams.1.now }) }
    requires refuted { AreRefuted table.now (choices_in_version version table.now n) entries.now
        place }
    ensures next { IfOk result (λ next. next ≡ place + 1) }
    ensures refuted { OnOk result
        (AreRefuted table.now (choices_in_version version table.now n) entries.now (place + 1)) }
    ensures fault { IfErr result
        (IsFirstEntryFault table.now (choices_in_version version table.now n) entries.now) }
{
    // Each choice that is listed is one of the table for n processes.
    canonical_list();
    live_list();
    let Some(entry) = entries.get(place) else {
        return Err(CheckFault::TooFew);
    };
    if !is_choice(&entry.choice, state, teams.0, teams.1) {
        return Err(CheckFault::NotNext(place as u64));
    }
    if !holds_collision(table, entry) {
        return Err(CheckFault::NotACollision(place as u64));
    }
    Ok(place + 1)
}

/// Whether each of the operations leads from the state to another one.
fn all_move(table: &Table, state: State, operations: &[u8]) -> bool
    requires state { state.0 < length table.now.states }
    requires known { All (λ operation. operation < length table.now.operations) operations.now }
    ensures { result ≡ all_move table.now state.0 operations.now }
{
    operations.iter().all(|operation| table.apply(Operation(*operation), state).1 != state)
}

/// Whether the operations count in the version: in version 1 always, in version 2 if they all lead
/// away from the state.
pub(crate) fn all_count(table: &Table, version: u8, state: State, operations: &[u8]) -> bool
    requires state { state.0 < length table.now.states }
    requires known { All (λ operation. operation < length table.now.operations) operations.now }
    ensures { result ≡ all_count version table.now state.0 operations.now }
{
    version == 1 || all_move(table, state, operations)
}

/// Checks the entries from the place on against the choices of this state and this team A, whose
/// operations count, and answers the place after them.
fn check_team(
    table: &Table,
    version: u8,
    entries: &[Collision],
    n: u8,
    state: State,
    a: &[u8],
    start: usize,
) -> Result<usize, CheckFault>
    requires some { 2 ≤ n }
    requires few { n ≤ MOST_PROCESSES }
    requires state { state.0 < length table.now.states }
    requires half { length a.now + length a.now ≤ n }
    requires known { All (λ operation. operation < length table.now.operations) a.now }
    requires counts { all_count version table.now state.0 a.now ≡ true }
    requires next { ComeNext (choices_in_version version table.now n) start
        (counting version table.now (with_first (length table.now.operations) n state.0 a.now)) }
    requires refuted { AreRefuted table.now (choices_in_version version table.now n) entries.now
        start }
    ensures passed { IfOk result (λ place. HasComeTo (choices_in_version version table.now n) start
        (counting version table.now (with_first (length table.now.operations) n state.0 a.now))
        place []) }
    ensures refuted { IfOk result
        (AreRefuted table.now (choices_in_version version table.now n) entries.now) }
    ensures fault { IfErr result
        (IsFirstEntryFault table.now (choices_in_version version table.now n) entries.now) }
{
    let operations = table.operations();
    let mut b = first_beside(a, n);
    let mut place = start;
    loop {
        if all_count(table, version, state, b.as_slice()) {
            place = check_entry(table, version, entries, n, place, state, (a, b.as_slice()))?;
        }
        if !step(b.as_mut_slice(), operations) {
            return Ok(place);
        }
    }
}

/// Checks the entries from the place on against the choices of this state whose team A has this
/// size, and answers the place after them.
fn check_size(
    table: &Table,
    version: u8,
    entries: &[Collision],
    n: u8,
    state: State,
    size: u8,
    start: usize,
) -> Result<usize, CheckFault>
    requires some { 2 ≤ n }
    requires few { n ≤ MOST_PROCESSES }
    requires state { state.0 < length table.now.states }
    requires half { size + size ≤ n }
    requires next { ComeNext (choices_in_version version table.now n) start
        (counting version table.now (with_size (length table.now.operations) n state.0 size)) }
    requires refuted { AreRefuted table.now (choices_in_version version table.now n) entries.now
        start }
    ensures passed { IfOk result (λ place. HasComeTo (choices_in_version version table.now n) start
        (counting version table.now (with_size (length table.now.operations) n state.0 size)) place
        []) }
    ensures refuted { IfOk result
        (AreRefuted table.now (choices_in_version version table.now n) entries.now) }
    ensures fault { IfErr result
        (IsFirstEntryFault table.now (choices_in_version version table.now n) entries.now) }
{
    let operations = table.operations();
    let mut a = zeros(size as usize);
    let mut place = start;
    loop {
        if all_count(table, version, state, a.as_slice()) {
            place = check_team(table, version, entries, n, state, a.as_slice(), place)?;
        }
        if !step(a.as_mut_slice(), operations) {
            return Ok(place);
        }
    }
}

/// Checks the entries from the place on against the choices of this state, and answers the place
/// after them.
fn check_state(
    table: &Table,
    version: u8,
    entries: &[Collision],
    n: u8,
    state: State,
    start: usize,
) -> Result<usize, CheckFault>
    requires some { 2 ≤ n }
    requires few { n ≤ MOST_PROCESSES }
    requires state { state.0 < length table.now.states }
    requires next { ComeNext (choices_in_version version table.now n) start
        (counting version table.now (with_state (length table.now.operations) n state.0)) }
    requires refuted { AreRefuted table.now (choices_in_version version table.now n) entries.now
        start }
    ensures passed { IfOk result (λ place. HasComeTo (choices_in_version version table.now n) start
        (counting version table.now (with_state (length table.now.operations) n state.0)) place
        []) }
    ensures refuted { IfOk result
        (AreRefuted table.now (choices_in_version version table.now n) entries.now) }
    ensures fault { IfErr result
        (IsFirstEntryFault table.now (choices_in_version version table.now n) entries.now) }
{
    let mut place = start;
    for size in 1..n / 2 + 1 {
        place = check_size(table, version, entries, n, state, size, place)?;
    }
    Ok(place)
}

/// Checks that the entries refute the choices for n processes that count in the version, in their
/// order, and that there are no others.
pub(crate) fn check_entries(
    table: &Table,
    version: u8,
    entries: &[Collision],
    n: u8,
) -> Result<(), CheckFault>
    requires some { 2 ≤ n }
    requires few { n ≤ MOST_PROCESSES }
    ensures refuted { OnOk result
        (AllZip (Refutes table.now) (choices_in_version version table.now n) entries.now) }
    ensures fault { IfErr result
        (IsFirstEntryFault table.now (choices_in_version version table.now n) entries.now) }
{
    let mut place = 0;
    for state in 0..table.states() {
        place = check_state(table, version, entries, n, State(state), place)?;
    }
    if place < entries.len() {
        return Err(CheckFault::NotNext(place as u64));
    }
    Ok(())
}
