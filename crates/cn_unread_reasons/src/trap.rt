//! Traps, with the plays of the adversary in them.
ghost use Rattle.std.specs.Prelude.{◌≡◌, ◌≤◌, ◌++◌, ◌∷◌, [], All, IfOk, List, OnOk, length, take};
ghost use Rattle.std.specs.List.{AllZip};
ghost use Rattle.cn_choice.specs.Canonical.{Choice as ChoiceOf, raw_choice_of};
ghost use Rattle.cn_choice.specs.Live.{live_choices};
ghost use Rattle.cn_choice.specs.RawChoices.{IsRawChoice};
ghost use Rattle.cn_choice.specs.declared.limits.TheConstants.{MOST_PROCESSES};
ghost use Rattle.cn_game.specs.TrapLists.{IsTrapList};
ghost use Rattle.cn_unread_reasons.specs.Known.{IsKnownPlay, IsKnownTrap};
ghost use Rattle.cn_unread_reasons.specs.PlayedTraps.{IsPlayedTrapOf, told_choices};
ghost use Rattle.cn_unread_reasons.specs.Plays.{IsPlayOf};

use crate::play::{Play, play_of};
use cn_choice::laws::live_list;
use cn_choice::{Choice, Choices};
use cn_game::Trap;
use cn_table::Table;
use std::alloc::{AllocError, Global};

/// Why no choice for so many processes is defended: in each the adversary keeps the game in a trap.
#[derive(Drop)]
pub struct PlayedTrap {
    /// The number of processes: one more than the number of the type.
    pub processes: u8,
    /// The number of choices: all live canonical ones.
    pub count: usize,
    /// The number of positions of the trap, each with a move.
    pub positions: usize,
    /// The plays that are told, in order: that of the first choice, or those of all.
    pub plays: Vec<Play>,
    /// The number of choices whose play is not told.
    pub more: usize,
}

/// The number of live canonical choices for n processes.
fn count_live(table: &Table, n: u8) -> usize
    requires some { 2 ≤ n }
    requires few { n ≤ MOST_PROCESSES }
    ensures { result ≡ length (live_choices table.now n) }
{
    // The number of canonical choices, and so that of the live ones, is below 2 ^ 64.
    let _most = cn_choice::count(table.states(), table.operations(), n);
    let mut count = 0;
    for _choice in Choices::new(table, n) {
        count += 1;
    }
    count
}

/// Appends the play of a choice for n processes.
fn push_play(
    plays: &mut Vec<Play>,
    alloc: Global,
    table: &Table,
    trap: &Trap,
    n: u8,
    choice: &Choice,
) -> Result<(), AllocError>
    requires some { 2 ≤ n }
    requires few { n ≤ MOST_PROCESSES }
    requires fits { IsRawChoice table.now n (raw_choice_of choice.now) }
    requires so_far { All (IsKnownPlay table.now) plays.old.items }
    ensures plays { (before : List ChoiceOf)
        → AllZip (IsPlayOf table.now) before plays.old.items
        → OnOk result (AllZip (IsPlayOf table.now) (before ++ choice.now ∷ []) plays.new.items) }
    ensures known { OnOk result (All (IsKnownPlay table.now) plays.new.items) }
{
    plays.push(play_of(alloc, table, trap, choice)?)?;
    Ok(())
}

/// The play of each live canonical choice for n processes.
fn all_plays(alloc: Global, table: &Table, trap: &Trap, n: u8) -> Result<Vec<Play>, AllocError>
    requires some { 2 ≤ n }
    requires few { n ≤ MOST_PROCESSES }
    ensures plays { IfOk result (λ plays.
        AllZip (IsPlayOf table.now) (live_choices table.now n) plays.items) }
    ensures known { IfOk result (λ plays. All (IsKnownPlay table.now) plays.items) }
{
    live_list();
    let mut plays = Vec::new(alloc);
    for choice in Choices::new(table, n) {
        push_play(&mut plays, alloc, table, trap, n, &choice)?;
    }
    Ok(plays)
}

/// The play of the first live canonical choice for n processes, if there is one.
fn first_play(alloc: Global, table: &Table, trap: &Trap, n: u8) -> Result<Vec<Play>, AllocError>
    requires some { 2 ≤ n }
    requires few { n ≤ MOST_PROCESSES }
    ensures plays { IfOk result (λ plays.
        AllZip (IsPlayOf table.now) (take 1 (live_choices table.now n)) plays.items) }
    ensures known { IfOk result (λ plays. All (IsKnownPlay table.now) plays.items) }
{
    live_list();
    let mut plays = Vec::new(alloc);
    let Some(choice) = Choices::new(table, n).next() else {
        return Ok(plays);
    };
    push_play(&mut plays, alloc, table, trap, n, &choice)?;
    Ok(plays)
}

/// The plays that are told of n processes.
fn told_plays(
    alloc: Global,
    table: &Table,
    trap: &Trap,
    n: u8,
    all: bool,
) -> Result<Vec<Play>, AllocError>
    requires some { 2 ≤ n }
    requires few { n ≤ MOST_PROCESSES }
    ensures plays { IfOk result (λ plays.
        AllZip (IsPlayOf table.now) (told_choices all (live_choices table.now n)) plays.items) }
    ensures known { IfOk result (λ plays. All (IsKnownPlay table.now) plays.items) }
{
    if all {
        all_plays(alloc, table, trap, n)
    } else {
        first_play(alloc, table, trap, n)
    }
}

/// The trap for all choices for n processes, with the play of the first choice, or with all plays.
/// n is from 2 to [`MOST_PROCESSES`](cn_choice::MOST_PROCESSES).
///
/// # Errors
///
/// `AllocError` if memory runs out.
pub(crate) fn played(
    alloc: Global,
    table: &Table,
    trap: &Trap,
    n: u8,
    all: bool,
) -> Result<PlayedTrap, AllocError>
    requires some { 2 ≤ n }
    requires few { n ≤ MOST_PROCESSES }
    requires trap { IsTrapList table.now n trap.now.turns.items }
    ensures played { IfOk result (IsPlayedTrapOf table.now n all) }
    ensures known { IfOk result (IsKnownTrap table.now) }
{
    let plays = told_plays(alloc, table, trap, n, all)?;
    let count = count_live(table, n);
    let more = count - plays.len();
    Ok(PlayedTrap {
        processes: n,
        count,
        positions: trap.turns.len(),
        plays,
        more,
    })
}
