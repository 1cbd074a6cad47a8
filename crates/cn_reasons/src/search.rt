//! The search for the reason why a choice is no recording witness.
ghost use Rattle.std.specs.Prelude.{◌<◌, ◌↔◌, ℕ, IfNone, IfOk, IfSome, IsBitSet};
ghost use Rattle.cn_choice.specs.Canonical.{FitsTable, raw_choice_of};
ghost use Rattle.cn_choice.specs.declared.team.Team.TheVariants.{A, B};
ghost use Rattle.cn_outcomes.specs.LeftStates.{LeavesIn};
ghost use Rattle.cn_recover.specs.Recording.{IsRecordingWitness};
ghost use Rattle.cn_reasons.specs.NotRecording.{BothLeave, IsBack, IsCommon, IsFirstOrder, IsReason};
ghost use Rattle.cn_reasons.specs.Onward.{AreOnward};
ghost use Rattle.cn_reasons.specs.Searched.{IsLeastIn, IsSubject};

use crate::first_order::{Aim, first_order};
use crate::onward::Onward;
use crate::reason::Reason;
use arrayvec::ArrayVec;
use cn_choice::{Choice, MOST_PROCESSES, RawChoice, Team};
use cn_outcomes::{Bits, WIDTH, left_states};
use cn_table::{State, Table};
use std::alloc::{AllocError, Global};

/// A choice, as a choice and as a raw choice, with the words of its table.
#[derive(Clone, Copy)]
struct Subject<'s> {
    table: &'s Table,
    choice: &'s Choice,
    raw: &'s RawChoice,
    onward: &'s Onward,
}

/// The least number in both sets.
fn least_common(from_a: Bits, from_b: Bits) -> Option<u8>
    ensures none { IfNone result ((q : ℕ) → IsBitSet from_a q → ¬ IsBitSet from_b q) }
    ensures least { IfSome result (IsLeastIn from_a from_b) }
{
    // Each number of a set is below WIDTH.
    let _members = from_a.iter();
    for q in 0..WIDTH as u8 {
        if from_a.contains(q) && from_b.contains(q) {
            return Some(q);
        }
    }
    None
}

/// The first order of the team that leaves the state, which some order of it does.
fn order_to(subject: &Subject<'_>, team: Team, state: State) -> ArrayVec<u8, MOST_PROCESSES>
    requires subject { IsSubject subject.now }
    requires some { LeavesIn subject.now.table.now subject.now.raw.now team state.0 }
    ensures { IsFirstOrder subject.now.table.now subject.now.raw.now team state.0 result.items }
{
    let _states = subject.table.states();
    let aim = Aim {
        table: subject.table,
        choice: subject.raw,
        onward: subject.onward,
        team,
        state,
    };
    first_order(&aim)
}

/// The reason if the state is the least that orders of both teams leave.
fn common_state(subject: &Subject<'_>, state: State) -> Reason
    requires subject { IsSubject subject.now }
    requires both { BothLeave subject.now.table.now subject.now.raw.now state.0 }
    requires least { (q : ℕ) → q < state.0
        → ¬ BothLeave subject.now.table.now subject.now.raw.now q }
    ensures { IsCommon subject.now.table.now subject.now.raw.now result }
{
    Reason {
        state,
        alpha: order_to(subject, Team::A, state),
        beta: order_to(subject, Team::B, state),
    }
}

/// The reason if no state is left by orders of both teams: a way back to the start state.
fn way_back(subject: &Subject<'_>, from_a: Bits, from_b: Bits) -> Option<Reason>
    requires subject { IsSubject subject.now }
    requires from_a { (q : ℕ) → IsBitSet from_a q
        ↔ LeavesIn subject.now.table.now subject.now.raw.now A q }
    requires from_b { (q : ℕ) → IsBitSet from_b q
        ↔ LeavesIn subject.now.table.now subject.now.raw.now B q }
    requires apart { (q : ℕ) → ¬ BothLeave subject.now.table.now subject.now.raw.now q }
    ensures none { IfNone result
        (IsRecordingWitness subject.now.table.now subject.now.raw.now) }
    ensures back { IfSome result (IsBack subject.now.table.now subject.now.raw.now) }
{
    let choice = subject.choice;
    let start = choice.state;
    if choice.b.len() > 1 && from_a.contains(start.0) {
        return Some(Reason {
            state: start,
            alpha: order_to(subject, Team::A, start),
            beta: ArrayVec::new(),
        });
    }
    if choice.a.len() > 1 && from_b.contains(start.0) {
        return Some(Reason {
            state: start,
            alpha: ArrayVec::new(),
            beta: order_to(subject, Team::B, start),
        });
    }
    None
}

/// Why the choice is no recording witness, by the states that the orders of each team leave.
fn reason_for(subject: &Subject<'_>) -> Option<Reason>
    requires { IsSubject subject.now }
    ensures none { IfNone result
        (IsRecordingWitness subject.now.table.now subject.now.raw.now) }
    ensures reason { IfSome result (IsReason subject.now.table.now subject.now.raw.now) }
{
    let from_a = left_states(subject.table, subject.raw, Team::A);
    let from_b = left_states(subject.table, subject.raw, Team::B);
    match least_common(from_a, from_b) {
        Some(state) => Some(common_state(subject, State(state))),
        None => way_back(subject, from_a, from_b),
    }
}

/// Why the choice is no recording witness, with the words of the table ([`reason_of`]).
pub(crate) fn reason_among(table: &Table, choice: &Choice, onward: &Onward) -> Option<Reason>
    requires fits { FitsTable table.now choice.now }
    requires onward { AreOnward table.now onward.now }
    ensures none { IfNone result (IsRecordingWitness table.now (raw_choice_of choice.now)) }
    ensures reason { IfSome result (IsReason table.now (raw_choice_of choice.now)) }
{
    let raw = RawChoice::of(choice);
    let subject = Subject {
        table,
        choice,
        raw: &raw,
        onward,
    };
    reason_for(&subject)
}

/// Why the choice is no recording witness, and none if it is one. The reason is
///
/// - the least state that orders of both teams leave, with the first order of each team that does;
/// - or else, if team B has two members, the first order of team A that leaves the start state;
/// - or else, if team A has two members, the first order of team B that does.
///
/// The choice is for the table and for 2 to [`MOST_PROCESSES`](cn_choice::MOST_PROCESSES) processes.
///
/// # Errors
///
/// `AllocError` if memory runs out.
pub fn reason_of(
    alloc: Global,
    table: &Table,
    choice: &Choice,
) -> Result<Option<Reason>, AllocError>
    requires { FitsTable table.now choice.now }
    // promise: recording-reason (IsRecordingWitness)
    ensures none { IfOk result (λ reason. IfNone reason
        (IsRecordingWitness table.now (raw_choice_of choice.now))) }
    // promise: recording-reason (IsReason)
    ensures reason { IfOk result (λ reason. IfSome reason
        (IsReason table.now (raw_choice_of choice.now))) }
{
    let onward = Onward::new(alloc, table)?;
    Ok(reason_among(table, choice, &onward))
}
