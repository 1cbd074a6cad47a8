//! Whether a choice is a witness.
ghost use Rattle.std.specs.Prelude.{◌≡◌, ◌<◌, ◌≤◌, ◌+◌, ◌↔◌, ℕ, All, Contains, IfOk, IsTrue, length, slice_index};
ghost use Rattle.cn_table.specs.declared.limits.TheConstants.{MOST_OPERATIONS, MOST_STATES};
ghost use Rattle.cn_choice.specs.Canonical.{raw_choice_of};
ghost use Rattle.cn_choice.specs.Discerning.{IsWitness};
ghost use Rattle.cn_choice.specs.RawChoices.{IsRawChoice};
ghost use Rattle.cn_stocks.specs.Words.{times};
ghost use Rattle.cn_stock_check.specs.Seen.{choice_from};

use crate::evidence::notices_itself;
use crate::needs::{Counts, count};
use crate::seen::{Teams, teams_meet};
use crate::words::is_among;
use cn_choice::laws::choice_by_teams;
use cn_stock_cert::TeamChoice;
use cn_table::{MOST_OPERATIONS, Operation, State, Table};
use std::alloc::{AllocError, Global};

/// Whether all operations are those of the table.
fn are_known(table: &Table, operations: &[u8]) -> bool
    ensures { IsTrue result ↔ All (λ o. o < length table.now.operations) operations.now }
{
    let count = table.operations();
    operations.iter().all(|o| *o < count)
}

/// Whether neither team is empty, and the teams have n processes together.
fn are_teams_of(a: &[u8], b: &[u8], n: u8) -> bool
    ensures { IsTrue result ↔ ((1 ≤ length a.now) × (1 ≤ length b.now)
        × (length a.now + length b.now ≡ n)) }
{
    let n = n as usize;
    !a.is_empty() && !b.is_empty() && a.len() <= n && b.len() == n - a.len()
}

/// Whether the state and the operations are those of the table.
fn is_of(table: &Table, choice: &TeamChoice) -> bool
    ensures { IsTrue result ↔ ((choice.now.state < length table.now.states)
        × All (λ o. o < length table.now.operations) choice.now.a
        × All (λ o. o < length table.now.operations) choice.now.b) }
{
    choice.state.0 < table.states()
        && are_known(table, choice.a.as_slice())
        && are_known(table, choice.b.as_slice())
}

/// Whether this is a choice of the table for n processes.
pub(crate) fn is_choice_for(table: &Table, choice: &TeamChoice, n: u8) -> bool
    ensures { IsTrue result ↔ IsRawChoice table.now n (raw_choice_of choice.now) }
{
    choice_by_teams();
    is_of(table, choice) && are_teams_of(choice.a.as_slice(), choice.b.as_slice(), n)
}

/// Whether the teams have some operation in common.
fn have_common(a: &[u8], b: &[u8]) -> bool
    ensures { IsTrue result ↔ ((o : ℕ) × Contains a.now o × Contains b.now o) }
{
    a.iter().any(|o| is_among(b, *o))
}

/// How often the teams have each operation, both together.
fn counts_of(a: &[u8], b: &[u8]) -> Counts
    requires { length a.now + length b.now ≤ MOST_STATES }
    ensures counts { (o : ℕ) → o < 8
        → slice_index result o ≡ times o a.now + times o b.now }
    ensures others { (o : ℕ) → 8 ≤ o → slice_index result o ≡ 0 }
{
    let mut counts = [0; MOST_OPERATIONS];
    for operation in 0..MOST_OPERATIONS {
        let o = operation as u8;
        counts[operation] = count(a, o) + count(b, o);
    }
    counts
}

/// Whether the choice of the start state and the teams, one of the table for n processes, is a
/// witness.
///
/// Where a team has an operation of the other one, it is a witness only for two processes that do
/// one operation, and only if this one notices itself. Else it is one exactly if no operation is
/// shown the same pair behind the one team and behind the other.
fn are_told_apart(
    alloc: Global,
    table: &Table,
    start: State,
    teams: &Teams<'_>,
    n: u8,
) -> Result<bool, AllocError>
    requires choice { IsRawChoice table.now n
        (choice_from start.0 teams.now.a.now teams.now.b.now) }
    requires few { n ≤ MOST_STATES }
    requires operations { length table.now.operations ≤ MOST_OPERATIONS }
    ensures { IfOk result (λ yes. IsTrue yes
        ↔ IsWitness table.now (choice_from start.0 teams.now.a.now teams.now.b.now)) }
{
    if have_common(teams.a, teams.b) {
        let noticed = notices_itself(table, start, Operation(teams.a[0]));
        return Ok(n == 2 && noticed);
    }
    let counts = counts_of(teams.a, teams.b);
    let meet = teams_meet(alloc, table, start, teams, counts)?;
    Ok(!meet)
}

/// Whether a choice of the table for n processes is a witness.
pub(crate) fn is_witness(
    alloc: Global,
    table: &Table,
    choice: &TeamChoice,
    n: u8,
) -> Result<bool, AllocError>
    requires choice { IsRawChoice table.now n (raw_choice_of choice.now) }
    requires few { n ≤ MOST_STATES }
    ensures { IfOk result (λ yes. IsTrue yes ↔ IsWitness table.now (raw_choice_of choice.now)) }
{
    // A table has at most 8 operations.
    let _operations = table.operations();
    let (a, b) = (choice.a.as_slice(), choice.b.as_slice());
    are_told_apart(alloc, table, choice.state, &Teams { a, b }, n)
}
