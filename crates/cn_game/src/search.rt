//! The search for a trap.
ghost use Rattle.std.specs.Prelude.{◌≡◌, ◌<◌, ◌≤◌, IfOk, IfSome, length};
ghost use Rattle.cn_choice.specs.RawChoices.{IsRawChoice};
ghost use Rattle.cn_choice.specs.declared.limits.TheConstants.{MOST_PROCESSES};
ghost use Rattle.cn_unread.specs.Defended.{IsDefendedFor};
ghost use Rattle.cn_game.specs.TrapLists.{IsTrapList};

use crate::board::Board;
use crate::positions::Positions;
use crate::reached::turns_from;
use crate::trap::{Trap, plays_for};
use crate::walk::Walk;
use cn_choice::laws::live_list;
use cn_choice::{Choices, MOST_PROCESSES, RawChoice, Team};
use cn_table::Table;
use std::alloc::{AllocError, Global};

/// Whether a start in which a has moved first in the first run is a leaf.
fn leads_to_leaf(table: &Table, choice: &RawChoice, a: u8) -> bool
    requires known { IsRawChoice table.now (length choice.now.operations) choice.now }
    requires a { a < length choice.now.operations }
    requires few { length choice.now.operations ≤ MOST_PROCESSES }
{
    for b in 0..choice.operations.len() as u8 {
        if plays_for(choice, b, Team::B) && Board::start(table, choice, a, b).is_leaf() {
            return true;
        }
    }
    false
}

/// Whether a start of the choice is a leaf.
fn begins_in_leaf(table: &Table, choice: &RawChoice) -> bool
    requires known { IsRawChoice table.now (length choice.now.operations) choice.now }
    requires few { length choice.now.operations ≤ MOST_PROCESSES }
{
    for a in 0..choice.operations.len() as u8 {
        if plays_for(choice, a, Team::A) && leads_to_leaf(table, choice, a) {
            return true;
        }
    }
    false
}

/// Adds the starts in which a has moved first in the first run.
fn add_starts_with(
    table: &Table,
    choice: &RawChoice,
    a: u8,
    positions: &mut Positions,
    starts: &mut Vec<usize>,
) -> Result<(), AllocError>
    requires known { IsRawChoice table.now (length choice.now.operations) choice.now }
    requires a { a < length choice.now.operations }
    requires few { length choice.now.operations ≤ MOST_PROCESSES }
{
    for b in 0..choice.operations.len() as u8 {
        if plays_for(choice, b, Team::B) {
            let start = Board::start(table, choice, a, b);
            let place = positions.place_of(start.canonical())?;
            starts.push(place)?;
        }
    }
    Ok(())
}

/// The places of the starts of the choice.
fn starts_of(
    alloc: Global,
    table: &Table,
    choice: &RawChoice,
    positions: &mut Positions,
) -> Result<Vec<usize>, AllocError>
    requires known { IsRawChoice table.now (length choice.now.operations) choice.now }
    requires few { length choice.now.operations ≤ MOST_PROCESSES }
{
    let mut starts = Vec::new(alloc);
    for a in 0..choice.operations.len() as u8 {
        if plays_for(choice, a, Team::A) {
            add_starts_with(table, choice, a, positions, &mut starts)?;
        }
    }
    Ok(starts)
}

/// The first of the positions that is known to be lost.
fn first_lost(positions: &Positions, places: &[usize]) -> Option<usize> {
    for place in places {
        if positions.verdict(*place).is_lost() {
            return Some(*place);
        }
    }
    None
}

/// The first of the positions that is lost, each decided in turn until the walk is full.
fn first_to_lose(
    alloc: Global,
    table: &Table,
    walk: &mut Walk,
    places: &[usize],
) -> Result<Option<usize>, AllocError> {
    for place in places {
        walk.decide(alloc, table, *place)?;
        if walk.positions.verdict(*place).is_lost() {
            return Ok(Some(*place));
        }
        if walk.is_full() {
            return Ok(None);
        }
    }
    Ok(None)
}

/// A lost start of the choice, if there is one and the walk finds it.
fn lost_start(
    alloc: Global,
    table: &Table,
    choice: &RawChoice,
    walk: &mut Walk,
) -> Result<Option<usize>, AllocError>
    requires known { IsRawChoice table.now (length choice.now.operations) choice.now }
    requires few { length choice.now.operations ≤ MOST_PROCESSES }
{
    let starts = starts_of(alloc, table, choice, &mut walk.positions)?;
    match first_lost(&walk.positions, starts.as_slice()) {
        Some(place) => Ok(Some(place)),
        None => first_to_lose(alloc, table, walk, starts.as_slice()),
    }
}

/// Adds a lost start of the choice, unless one is a leaf, which needs no turn. Answers whether the walk
/// finds one.
fn add_lost_start(
    alloc: Global,
    table: &Table,
    choice: &RawChoice,
    walk: &mut Walk,
    starts: &mut Vec<usize>,
) -> Result<bool, AllocError>
    requires known { IsRawChoice table.now (length choice.now.operations) choice.now }
    requires few { length choice.now.operations ≤ MOST_PROCESSES }
{
    if begins_in_leaf(table, choice) {
        return Ok(true);
    }
    if walk.is_full() {
        return Ok(false);
    }
    match lost_start(alloc, table, choice, walk)? {
        Some(start) => {
            starts.push(start)?;
            Ok(true)
        }
        None => Ok(false),
    }
}

/// Lost starts of all live canonical choices for n processes, but of those that begin in a leaf;
/// `None` if the walk finds none for one of them.
fn lost_starts(
    alloc: Global,
    table: &Table,
    n: u8,
    walk: &mut Walk,
) -> Result<Option<Vec<usize>>, AllocError>
    requires some { 2 ≤ n }
    requires few { n ≤ MOST_PROCESSES }
{
    live_list();
    let mut starts = Vec::new(alloc);
    for choice in Choices::new(table, n) {
        if !add_lost_start(alloc, table, &RawChoice::of(&choice), walk, &mut starts)? {
            return Ok(None);
        }
    }
    Ok(Some(starts))
}

/// A trap for all choices for n processes, if one is found among fewer than `most` positions. n is
/// from 2 to [`MOST_PROCESSES`](cn_choice::MOST_PROCESSES).
///
/// It decides positions by the moves of the adversary, one move of a position after the other, those
/// of a process that is ahead first.
///
/// The type of a table with a trap is not defended for n. Where none is found it may be.
///
/// # Errors
///
/// `AllocError` if memory runs out.
pub fn find_trap(
    alloc: Global,
    table: &Table,
    n: u8,
    most: usize,
) -> Result<Option<Trap>, AllocError>
    requires some { 2 ≤ n }
    requires few { n ≤ MOST_PROCESSES }
    // promise: found-traps (IsTrapList)
    ensures trap { IfOk result
        (λ found. IfSome found (λ trap. IsTrapList table.now n trap.turns.items)) }
    // promise: found-traps
    ensures undefended { IfOk result
        (λ found. IfSome found (λ trap. ¬ IsDefendedFor table.now n)) }
{
    let mut walk = Walk::new(alloc, most)?;
    let Some(starts) = lost_starts(alloc, table, n, &mut walk)? else {
        return Ok(None);
    };
    let turns = turns_from(alloc, table, &walk.positions, starts)?;
    let trap = Trap { turns };
    if trap.refutes(table, n) {
        Ok(Some(trap))
    } else {
        Ok(None)
    }
}
