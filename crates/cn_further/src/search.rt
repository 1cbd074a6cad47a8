//! The search for further operations.
ghost use Rattle.std.specs.Prelude.{◌<◌, ◌≤◌, ◌+◌, ◌++◌, All, IfOk, IfSome, length};
ghost use Rattle.cn_choice.specs.Canonical.{IsChoiceFor};
ghost use Rattle.cn_choice.specs.declared.limits.TheConstants.{MOST_PROCESSES};
ghost use Rattle.cn_further.specs.FurtherNodes.{AreKnown, TellsFirst};

use crate::follow_up::FollowUp;
use crate::further::{Further, operations_of};
use crate::listing::{End, has_end};
use crate::stage::Stage;
use crate::walk::walk;
use cn_choice::laws::choice_by_teams;
use cn_choice::{Choice, Choices};
use cn_table::{Operation, Response, Table};
use std::alloc::{AllocError, Global};

/// What is left to be chosen.
#[derive(Clone, Copy)]
enum Left {
    /// Nothing: each process knows which team was first.
    Nothing,
    /// A further operation for this operation and this response, which tell nothing alone.
    FurtherFor(Operation, Response),
    /// A process has finished, and does not know.
    NoWay,
}

/// What is left to be chosen, from what processes have that have finished after first operations of
/// the one team, and of the other.
fn left_of(operations: &[u8], ends: &[End], others: &[End]) -> Left {
    let mut left = Left::Nothing;
    for end in ends {
        if has_end(others, end.process, end.stage) {
            match end.stage {
                Stage::Moved(response) if end.process < operations.len() => {
                    left = Left::FurtherFor(Operation(operations[end.process]), response);
                }
                _ => return Left::NoWay,
            }
        }
    }
    left
}

/// What is left to be chosen beside these follow-ups.
fn left_beside(
    alloc: Global,
    table: &Table,
    choice: &Choice,
    follow_ups: &[FollowUp],
) -> Result<Left, AllocError>
    requires choice { IsChoiceFor table.now (length choice.now.a + length choice.now.b) choice.now }
    requires known { AreKnown table.now (choice.now.a ++ choice.now.b) follow_ups.now }
    requires few { length choice.now.a + length choice.now.b ≤ MOST_PROCESSES }
{
    let list = operations_of(choice);
    let (state, operations, size) = (choice.state, list.as_slice(), choice.a.len());
    let listing = walk(alloc, table, state, operations, follow_ups, size)?;
    Ok(left_of(
        operations,
        listing.ends.as_slice(),
        listing.ends_b.as_slice(),
    ))
}

/// Changes the last further operation that can be changed into the next one of the table, drops
/// those behind it, and answers whether there is one.
fn advance(table: &Table, follow_ups: &mut Vec<FollowUp>) -> Result<bool, AllocError>
    requires { All (λ f. f.further.0 < length table.now.operations) follow_ups.old.items }
    ensures { All (λ f. f.further.0 < length table.now.operations) follow_ups.new.items }
{
    let operations = table.operations();
    while let Some(last) = follow_ups.pop() {
        let next = last.further.0 + 1;
        if next < operations {
            let further = Operation(next);
            follow_ups.push(FollowUp { further, ..last })?;
            return Ok(true);
        }
    }
    Ok(false)
}

/// Follow-ups with which the processes of the choice know which team was first, if there are some
/// and no more tries are needed than are left.
fn follow_ups_for(
    alloc: Global,
    table: &Table,
    choice: &Choice,
    tries: &mut usize,
) -> Result<Option<Vec<FollowUp>>, AllocError>
    requires choice { IsChoiceFor table.now (length choice.now.a + length choice.now.b) choice.now }
    requires few { length choice.now.a + length choice.now.b ≤ MOST_PROCESSES }
{
    let mut follow_ups = Vec::new(alloc);
    while *tries > 0 {
        *tries -= 1;
        match left_beside(alloc, table, choice, follow_ups.as_slice())? {
            Left::Nothing => return Ok(Some(follow_ups)),
            Left::FurtherFor(operation, response) => {
                let further = Operation(0);
                follow_ups.push(FollowUp {
                    operation,
                    response,
                    further,
                })?;
            }
            Left::NoWay => {
                if !advance(table, &mut follow_ups)? {
                    return Ok(None);
                }
            }
        }
    }
    Ok(None)
}

/// The choice with such follow-ups.
fn further_with(
    alloc: Global,
    table: &Table,
    n: u8,
    choice: Choice,
    tries: &mut usize,
) -> Result<Option<Further>, AllocError>
    requires { n ≤ MOST_PROCESSES }
    ensures { IfOk result (λ found. IfSome found
        (λ further. TellsFirst table.now n further.choice further.follow_ups.items)) }
{
    choice_by_teams();
    if !choice.is_for(table, n) {
        return Ok(None);
    }
    let Some(follow_ups) = follow_ups_for(alloc, table, &choice, tries)? else {
        return Ok(None);
    };
    let further = Further { choice, follow_ups };
    match further.tells(alloc, table, n)? {
        Some(true) => Ok(Some(further)),
        _ => Ok(None),
    }
}

/// Whether an operation is in both teams.
fn shares_an_operation(choice: &Choice) -> bool {
    choice
        .a
        .as_slice()
        .iter()
        .any(|operation| choice.b.as_slice().contains(operation))
}

/// A choice for n processes with further operations by which each of them knows which team was
/// first, if one is found in at most so many tries. n is from 2 to
/// [`MOST_PROCESSES`](cn_choice::MOST_PROCESSES).
///
/// It goes through the live canonical choices; from three processes on through those alone in which
/// no operation is in both teams, since no others tell the teams. A try is one walk through all
/// scenes of a choice with some further operations.
///
/// The type of a table for which there is one solves consensus for n processes without reads. Where
/// none is found it may do so too.
///
/// # Errors
///
/// `AllocError` if memory runs out.
pub fn find_further(
    alloc: Global,
    table: &Table,
    n: u8,
    most: usize,
) -> Result<Option<Further>, AllocError>
    requires some { 2 ≤ n }
    requires few { n ≤ MOST_PROCESSES }
    // promise: further-operations-tell
    ensures { IfOk result (λ found. IfSome found
        (λ further. TellsFirst table.now n further.choice further.follow_ups.items)) }
{
    let mut tries = most;
    for choice in Choices::new(table, n) {
        if tries == 0 {
            return Ok(None);
        }
        if n > 2 && shares_an_operation(&choice) {
            continue;
        }
        if let Some(further) = further_with(alloc, table, n, choice, &mut tries)? {
            return Ok(Some(further));
        }
    }
    Ok(None)
}
