//! The processes of a choice, and whether it is one of a table.
ghost use Rattle.std.specs.Prelude.{◌≡◌, ◌<◌, ◌≤◌, ◌+◌, ◌++◌, ◌↔◌, length, replicate, slice_get, slice_index, All, IsTrue, Some};
ghost use Rattle.cn_choice.specs.Canonical.{FitsTable, raw_choice_of};
ghost use Rattle.cn_choice.specs.RawChoices.{IsRawChoice};
ghost use Rattle.cn_choice.specs.declared.limits.TheConstants.{MOST_PROCESSES};
ghost use Rattle.cn_choice.specs.declared.team.Team.TheVariants.{A, B};

use cn_choice::laws::choice_by_teams;
use cn_choice::{Choice, Team};
use cn_table::{Operation, Table};

pub(crate) fn are_below(numbers: &[u8], limit: u8) -> bool
    ensures { IsTrue result ↔ All (λ x. x < limit) numbers.now }
{
    numbers.iter().all(|x| *x < limit)
}

/// Whether the state and the operations of the choice are the table's.
fn is_of_table(choice: &Choice, table: &Table) -> bool
    ensures { IsTrue result
        ↔ ((choice.now.state < length table.now.states)
        × All (λ operation. operation < length table.now.operations) choice.now.a
        × All (λ operation. operation < length table.now.operations) choice.now.b) }
{
    let operations = table.operations();
    are_below(choice.a.as_slice(), operations)
        && are_below(choice.b.as_slice(), operations)
        && choice.state.0 < table.states()
}

/// Whether both teams have a process, and n processes together.
fn has_processes(choice: &Choice, n: u8) -> bool
    ensures { IsTrue result
        ↔ ((1 ≤ length choice.now.a) × (1 ≤ length choice.now.b)
        × (length choice.now.a + length choice.now.b ≡ n)) }
{
    !choice.a.is_empty() && !choice.b.is_empty() && choice.a.len() + choice.b.len() == n as usize
}

/// Whether the choice is one of the table for n processes.
pub(crate) fn is_choice_for(choice: &Choice, table: &Table, n: u8) -> bool
    ensures { IsTrue result ↔ IsRawChoice table.now n (raw_choice_of choice.now) }
{
    choice_by_teams();
    has_processes(choice, n) && is_of_table(choice, table)
}

pub(crate) fn processes(table: &Table, choice: &Choice) -> u8
    requires { FitsTable table.now choice.now }
    ensures { result ≡ length choice.now.a + length choice.now.b }
{
    (choice.a.len() + choice.b.len()) as u8
}

/// How many processes the teams have together.
pub(crate) fn processes_in(teams: (&[u8], &[u8])) -> u8
    requires { length teams.0.now + length teams.1.now ≤ MOST_PROCESSES }
    ensures { result ≡ length teams.entry.0.now + length teams.entry.1.now }
{
    (teams.0.len() + teams.1.len()) as u8
}

/// The operation of the process, by the operations of the teams.
pub(crate) fn operation_in(teams: (&[u8], &[u8]), process: u8) -> Operation
    requires { process < length teams.0.now + length teams.1.now }
    ensures { result.0 ≡ slice_index (teams.entry.0.now ++ teams.entry.1.now) process }
{
    let (a, b) = teams;
    let place = process as usize;
    if place < a.len() {
        Operation(a[place])
    } else {
        Operation(b[place - a.len()])
    }
}

pub(crate) fn operation_of(choice: &Choice, process: u8) -> Operation
    requires { process < length choice.now.a + length choice.now.b }
    ensures { result.0 ≡ slice_index (raw_choice_of choice.now).operations process }
{
    operation_in((choice.a.as_slice(), choice.b.as_slice()), process)
}

/// The team of the process, by the operations of the teams.
pub(crate) fn team_in(teams: (&[u8], &[u8]), process: u8) -> Team
    requires { process < length teams.0.now + length teams.1.now }
    ensures { slice_get (replicate (length teams.entry.0.now) A ++ replicate (length teams.entry.1.now) B)
        process ≡ Some result }
{
    if (process as usize) < teams.0.len() {
        Team::A
    } else {
        Team::B
    }
}

pub(crate) fn team_of(choice: &Choice, process: u8) -> Team
    requires { process < length choice.now.a + length choice.now.b }
    ensures { slice_get (raw_choice_of choice.now).marks process ≡ Some result }
{
    team_in((choice.a.as_slice(), choice.b.as_slice()), process)
}
