//! Plays of the adversary.
ghost use Rattle.std.specs.Prelude.{IfOk};
ghost use Rattle.cn_choice.specs.Canonical.{FitsTable};
ghost use Rattle.cn_unread_reasons.specs.Known.{IsKnownPlay};
ghost use Rattle.cn_unread_reasons.specs.Plays.{IsPlayOf};

use crate::runs::are_runs_to;
use crate::search::{FoundRuns, find_runs};
use cn_choice::{Choice, RawChoice};
use cn_game::Trap;
use cn_reasons::{ChoiceGroups, Step, choice_groups};
use cn_table::{State, Table};
use std::alloc::{AllocError, Global};

/// How a play ends: with a process that gets the same in both runs, while both leave one state. So
/// it decides the same in both.
#[derive(Clone, Copy, Debug, PartialEq, Eq)]
pub struct PlayEnd {
    /// The process.
    pub process: u8,
    /// The state that both runs leave.
    pub state: State,
}

/// Two runs of one choice, in which each process does the same as long as it gets the same.
#[derive(Drop)]
pub struct Play {
    /// The choice.
    pub choice: ChoiceGroups,
    /// The steps of the run that a process of team A begins.
    pub a_first: Vec<Step>,
    /// The steps of the run that a process of team B begins.
    pub b_first: Vec<Step>,
    /// The end; none where no play with an end was found. Both runs are empty then.
    pub end: Option<PlayEnd>,
}

/// The runs, if these are two of the choice that end so.
fn checked(
    alloc: Global,
    table: &Table,
    choice: &Choice,
    runs: FoundRuns,
) -> Result<Play, AllocError>
    requires { FitsTable table.now choice.now }
    ensures play { IfOk result (IsPlayOf table.now choice.now) }
    ensures known { IfOk result (IsKnownPlay table.now) }
{
    let raw = RawChoice::of(choice);
    let (a_first, b_first) = (runs.a_first.as_slice(), runs.b_first.as_slice());
    if are_runs_to(alloc, table, &raw, a_first, b_first, runs.end)? {
        Ok(Play {
            choice: choice_groups(table, choice),
            a_first: runs.a_first,
            b_first: runs.b_first,
            end: Some(runs.end),
        })
    } else {
        Ok(endless(alloc, table, choice))
    }
}

/// The play of the choice where none with an end was found.
fn endless(alloc: Global, table: &Table, choice: &Choice) -> Play
    requires { FitsTable table.now choice.now }
    ensures play { IsPlayOf table.now choice.now result }
    ensures known { IsKnownPlay table.now result }
{
    Play {
        choice: choice_groups(table, choice),
        a_first: Vec::new(alloc),
        b_first: Vec::new(alloc),
        end: None,
    }
}

/// The play of the choice by the moves of the trap.
pub(crate) fn play_of(
    alloc: Global,
    table: &Table,
    trap: &Trap,
    choice: &Choice,
) -> Result<Play, AllocError>
    requires { FitsTable table.now choice.now }
    ensures play { IfOk result (IsPlayOf table.now choice.now) }
    ensures known { IfOk result (IsKnownPlay table.now) }
{
    match find_runs(alloc, table, trap, &RawChoice::of(choice))? {
        Some(runs) => checked(alloc, table, choice, runs),
        None => Ok(endless(alloc, table, choice)),
    }
}
