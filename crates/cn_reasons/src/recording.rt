//! Recording witnesses, with the states that their orders leave.
ghost use Rattle.std.specs.Prelude.{◌≤◌, ◌↔◌, ℕ, IfOk, IfSome, IsBitSet};
ghost use Rattle.cn_choice.specs.Canonical.{FitsTable, raw_choice_of};
ghost use Rattle.cn_choice.specs.declared.limits.TheConstants.{MOST_PROCESSES};
ghost use Rattle.cn_choice.specs.declared.team.Team.TheVariants.{A, B};
ghost use Rattle.cn_outcomes.specs.LeftStates.{LeavesIn};
ghost use Rattle.cn_recover.specs.Recording.{IsRecording, IsRecordingWitness};
ghost use Rattle.cn_reasons.specs.Known.{IsKnownRecording};
ghost use Rattle.cn_reasons.specs.Recoverable.{IsEvidence, IsReaderFor, IsReaderOf, IsRecordingOf};

use crate::group::{ChoiceGroups, choice_groups, processes_of};
use crate::states::states_in;
use cn_choice::laws::{choice_by_teams, live_list};
use cn_choice::{Choice, RawChoice, Team};
use cn_outcomes::{Bits, left_states};
use cn_recover::first_recording_witness;
use cn_recover::laws::live_choices_decide;
use cn_table::{State, Table};
use std::alloc::{AllocError, Global};
use std::thread::Threads;

/// A process that is alone in its team, and reads the register of the other team before it moves.
#[derive(Clone, Copy, Debug, PartialEq, Eq)]
pub struct Reader {
    /// The process.
    pub process: u8,
    /// Its team.
    pub team: Team,
    /// The other team, whose register it reads.
    pub other: Team,
}

/// A recording witness: no state is left both by an order that begins in team A and by one that
/// begins in team B.
#[derive(Drop)]
pub struct RecordingWitness {
    /// The number of processes.
    pub processes: u8,
    /// The choice.
    pub choice: ChoiceGroups,
    /// The states that orders leave which begin in team A, ascending.
    pub a_states: Vec<State>,
    /// The states that orders leave which begin in team B, ascending.
    pub b_states: Vec<State>,
    /// The reader, if orders of a team leave the start state too: that team is the other one.
    pub reader: Option<Reader>,
}

/// The process that is alone in the other team, where orders of this team leave the start state.
fn reader_for(table: &Table, choice: &Choice, team: Team) -> Reader
    requires fits { FitsTable table.now choice.now }
    requires is { IsRecordingWitness table.now (raw_choice_of choice.now) }
    requires way_back { LeavesIn table.now (raw_choice_of choice.now) team choice.now.state }
    ensures { IsReaderFor table.now (raw_choice_of choice.now) result }
{
    choice_by_teams();
    let _table = table;
    match team {
        Team::A => Reader {
            process: choice.a.len() as u8,
            team: Team::B,
            other: Team::A,
        },
        Team::B => Reader {
            process: 0,
            team: Team::A,
            other: Team::B,
        },
    }
}

/// The reader, if orders of a team leave the start state.
fn reader_of(table: &Table, choice: &Choice, from_a: Bits, from_b: Bits) -> Option<Reader>
    requires fits { FitsTable table.now choice.now }
    requires is { IsRecordingWitness table.now (raw_choice_of choice.now) }
    requires from_a { (q : ℕ) → IsBitSet from_a q
        ↔ LeavesIn table.now (raw_choice_of choice.now) A q }
    requires from_b { (q : ℕ) → IsBitSet from_b q
        ↔ LeavesIn table.now (raw_choice_of choice.now) B q }
    ensures { IsReaderOf table.now (raw_choice_of choice.now) result }
{
    let start = choice.state.0;
    if from_a.contains(start) {
        Some(reader_for(table, choice, Team::A))
    } else if from_b.contains(start) {
        Some(reader_for(table, choice, Team::B))
    } else {
        None
    }
}

/// The witness, with the states that its orders leave.
fn recording_of(
    alloc: Global,
    table: &Table,
    choice: &Choice,
) -> Result<RecordingWitness, AllocError>
    requires fits { FitsTable table.now choice.now }
    requires is { IsRecordingWitness table.now (raw_choice_of choice.now) }
    ensures witness { IfOk result (IsRecordingOf table.now choice.now) }
    ensures known { IfOk result (IsKnownRecording table.now) }
{
    let _states = table.states();
    let raw = RawChoice::of(choice);
    let from_a = left_states(table, &raw, Team::A);
    let from_b = left_states(table, &raw, Team::B);
    Ok(RecordingWitness {
        processes: processes_of(choice),
        choice: choice_groups(table, choice),
        a_states: states_in(alloc, table, from_a)?,
        b_states: states_in(alloc, table, from_b)?,
        reader: reader_of(table, choice, from_a, from_b),
    })
}

/// The first recording witness for n processes, for which the type is n-recording, and none for one
/// process.
pub(crate) fn witness_for<T: Threads + Sync>(
    rt: &T,
    alloc: Global,
    table: &Table,
    n: u8,
) -> Result<Option<RecordingWitness>, AllocError>
    requires some { 1 ≤ n }
    requires few { n ≤ MOST_PROCESSES }
    requires recording { 2 ≤ n → IsRecording table.now n }
    ensures evidence { IfOk result (IsEvidence table.now n) }
    ensures known { IfOk result (λ witness. IfSome witness (IsKnownRecording table.now)) }
{
    live_choices_decide();
    live_list();
    if n < 2 {
        return Ok(None);
    }
    match first_recording_witness(rt, alloc, table, n)? {
        Some(choice) => Ok(Some(recording_of(alloc, table, &choice)?)),
        None => unreachable!(),
    }
}
