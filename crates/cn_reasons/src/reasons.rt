//! The choices for a number of processes, with the reason why each is no recording witness.
ghost use Rattle.std.specs.Prelude.{◌≤◌, [], ◌∷◌, ◌++◌, All, List, IfOk, OnOk};
ghost use Rattle.std.specs.List.{AllZip};
ghost use Rattle.cn_choice.specs.Canonical.{Choice as ChoiceOf, FitsTable, raw_choice_of};
ghost use Rattle.cn_choice.specs.Live.{live_choices};
ghost use Rattle.cn_choice.specs.RawChoices.{IsRawChoice};
ghost use Rattle.cn_choice.specs.declared.limits.TheConstants.{MOST_PROCESSES};
ghost use Rattle.cn_recover.specs.Recording.{IsRecordingWitness};
ghost use Rattle.cn_finding.specs.Evidence.{NoneIs};
ghost use Rattle.cn_reasons.specs.Known.{IsKnownRecoverableWay, IsKnownRefutation};
ghost use Rattle.cn_reasons.specs.NotRecording.{IsReason};
ghost use Rattle.cn_reasons.specs.Onward.{AreOnward};
ghost use Rattle.cn_reasons.specs.Recoverable.{IsRecoverableWayOf};
ghost use Rattle.cn_reasons.specs.Refutations.{first_told, IsRefutationOf};

use crate::group::{ChoiceGroups, choice_groups};
use crate::onward::Onward;
use crate::reason::Reason;
use crate::refutation::Refutation;
use crate::runs::{Runs, runs_of};
use crate::search::reason_among;
use cn_choice::laws::{live_list, short_orders};
use cn_choice::{Choice, Choices, RawChoice};
use cn_form::MOST_TOLD;
use cn_table::{State, Table};
use std::alloc::{AllocError, Global};

/// A way to choose a start state, operations and teams whose choice is no recording witness: two
/// runs leave one state, so that a process that comes back cannot tell which team was first.
#[derive(Drop)]
pub struct RecoverableWay {
    /// The choice.
    pub choice: ChoiceGroups,
    /// The state that both runs leave.
    pub state: State,
    /// The two runs. One of them can have no step.
    pub runs: Runs,
}

/// The way of a choice that is no recording witness for this reason.
fn way_by(table: &Table, choice: &Choice, reason: &Reason) -> RecoverableWay
    requires fits { FitsTable table.now choice.now }
    requires reason { IsReason table.now (raw_choice_of choice.now) reason.now }
    ensures way { IsRecoverableWayOf table.now choice.now result }
    ensures known { IsKnownRecoverableWay table.now result }
{
    short_orders();
    let _states = table.states();
    let raw = RawChoice::of(choice);
    let (alpha, beta) = (reason.alpha.as_slice(), reason.beta.as_slice());
    RecoverableWay {
        choice: choice_groups(table, choice),
        state: reason.state,
        runs: runs_of(table, &raw, alpha, beta),
    }
}

/// The way of a choice for n processes that is no recording witness.
fn way_of(table: &Table, choice: &Choice, n: u8, onward: &Onward) -> RecoverableWay
    requires some { 2 ≤ n }
    requires few { n ≤ MOST_PROCESSES }
    requires fits { IsRawChoice table.now n (raw_choice_of choice.now) }
    requires onward { AreOnward table.now onward.now }
    requires no_witness { ¬ IsRecordingWitness table.now (raw_choice_of choice.now) }
    ensures way { IsRecoverableWayOf table.now choice.now result }
    ensures known { IsKnownRecoverableWay table.now result }
{
    match reason_among(table, choice, onward) {
        Some(reason) => way_by(table, choice, &reason),
        None => unreachable!(),
    }
}

/// Tells the way of the choice, if all are told, or fewer than [`MOST_TOLD`](cn_form::MOST_TOLD) so
/// far.
fn tell(
    ways: &mut Vec<RecoverableWay>,
    table: &Table,
    choice: &Choice,
    n: u8,
    onward: &Onward,
    all: bool,
) -> Result<(), AllocError>
    requires some { 2 ≤ n }
    requires few { n ≤ MOST_PROCESSES }
    requires fits { IsRawChoice table.now n (raw_choice_of choice.now) }
    requires onward { AreOnward table.now onward.now }
    requires no_witness { ¬ IsRecordingWitness table.now (raw_choice_of choice.now) }
    requires so_far { All (IsKnownRecoverableWay table.now) ways.old.items }
    ensures ways { (before : List ChoiceOf)
        → AllZip (IsRecoverableWayOf table.now) (first_told all before) ways.old.items
        → OnOk result (AllZip (IsRecoverableWayOf table.now)
        (first_told all (before ++ choice.now ∷ [])) ways.new.items) }
    ensures known { OnOk result (All (IsKnownRecoverableWay table.now) ways.new.items) }
{
    if !all && ways.len() >= MOST_TOLD {
        return Ok(());
    }
    ways.push(way_of(table, choice, n, onward))?;
    Ok(())
}

/// The ways of the live canonical choices for n processes, none of which is a recording witness. n
/// is from 2 to [`MOST_PROCESSES`](cn_choice::MOST_PROCESSES).
///
/// # Errors
///
/// `AllocError` if memory runs out.
pub(crate) fn refutation_for(
    alloc: Global,
    table: &Table,
    n: u8,
    all: bool,
) -> Result<Refutation<RecoverableWay>, AllocError>
    requires some { 2 ≤ n }
    requires few { n ≤ MOST_PROCESSES }
    requires refuted { NoneIs (IsRecordingWitness table.now) (live_choices table.now n) }
    ensures refutation { IfOk result
        (IsRefutationOf (IsRecoverableWayOf table.now) n all (live_choices table.now n)) }
    ensures known { IfOk result (IsKnownRefutation (IsKnownRecoverableWay table.now)) }
{
    live_list();
    // The number of canonical choices, and so that of the live ones, is below 2 ^ 64.
    let _most = cn_choice::count(table.states(), table.operations(), n);
    let onward = Onward::new(alloc, table)?;
    let (mut ways, mut count) = (Vec::new(alloc), 0);
    for choice in Choices::new(table, n) {
        tell(&mut ways, table, &choice, n, &onward, all)?;
        count += 1;
    }
    let more = count - ways.len();
    Ok(Refutation {
        processes: n,
        ways,
        count,
        more,
    })
}
