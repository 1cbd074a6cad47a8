//! The plan of the first recording witness.
ghost use Rattle.std.specs.Prelude.{◌≡◌, ◌≤◌, IfOk};
ghost use Rattle.cn_choice.specs.Canonical.{FitsTable, raw_choice_of};
ghost use Rattle.cn_choice.specs.declared.limits.TheConstants.{MOST_PROCESSES};
ghost use Rattle.cn_recover.specs.Recording.{IsRecordingWitness};
ghost use Rattle.cn_lives.specs.Plans.{IsFirstPlan, IsHomeForm, IsRecordingPlan};

use crate::fault::RecordingFault;
use crate::plan::RecordingPlan;
use cn_choice::Choice;
use cn_choice::laws::live_list;
use cn_recover::first_recording_witness;
use cn_recover::laws::live_choices_decide;
use cn_table::Table;
use std::alloc::{AllocError, Global};
use std::thread::Threads;

/// The plan of the first recording witness for n processes, or none if the type is not n-recording.
/// n is from 2 to [`MOST_PROCESSES`](cn_choice::MOST_PROCESSES).
///
/// The witness is the first among the live canonical choices. The search goes on in several
/// threads, or in one if these get too little memory.
///
/// # Errors
///
/// `AllocError` if memory is too little for one thread, or for the plan.
pub fn first_plan<T: Threads + Sync>(
    rt: &T,
    alloc: Global,
    table: &Table,
    n: u8,
) -> Result<Option<RecordingPlan>, AllocError>
    requires some { 2 ≤ n }
    requires few { n ≤ MOST_PROCESSES }
    // promise: first-recording-plan (IsFirstPlan: IsRecordingPlan)
    ensures { IfOk result (IsFirstPlan table.now n) }
{
    live_list();
    live_choices_decide();
    match first_recording_witness(rt, alloc, table, n)? {
        None => Ok(None),
        Some(witness) => Ok(Some(plan_of_witness(alloc, table, &witness)?)),
    }
}

/// The plan of a choice that is a recording witness.
fn plan_of_witness(
    alloc: Global,
    table: &Table,
    witness: &Choice,
) -> Result<RecordingPlan, AllocError>
    requires fits { FitsTable table.now witness.now }
    requires recording { IsRecordingWitness table.now (raw_choice_of witness.now) }
    ensures plan { IfOk result IsRecordingPlan }
    ensures table { IfOk result (λ p. p.plan.table ≡ table.now) }
    ensures choice { IfOk result (λ p. IsHomeForm table.now witness.now p.plan.choice) }
{
    match RecordingPlan::from_witness(alloc, table, witness) {
        Ok(plan) => {
            plan.touch();
            Ok(plan)
        }
        Err(RecordingFault::OutOfMemory) => Err(AllocError),
        // The choice is a recording witness.
        Err(RecordingFault::NotRecording) => unreachable!(),
    }
}
