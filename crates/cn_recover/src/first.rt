//! The first recording witness.
ghost use Rattle.std.specs.Prelude.{◌≤◌, IfOk};
ghost use Rattle.cn_choice.specs.Live.{live_choices};
ghost use Rattle.cn_choice.specs.declared.limits.TheConstants.{MOST_PROCESSES};
ghost use Rattle.cn_finding.specs.Evidence.{IsFirstAmong};
ghost use Rattle.cn_recover.specs.Recording.{IsRecordingWitness};

use crate::is_recording_witness;
use cn_choice::Choice;
use cn_search::{Kind, first_of_kind};
use cn_table::Table;
use std::alloc::{AllocError, Global};
use std::thread::Threads;

/// The recording witnesses, as a kind of witness.
struct RecordingWitness;

impl Kind for RecordingWitness {
    ghost holds = { IsRecordingWitness };

    fn is_witness(table: &Table, choice: &Choice) -> bool {
        is_recording_witness(table, choice)
    }
}

/// The first recording witness among the live canonical choices for n processes, if there is one. n
/// is from 2 to [`MOST_PROCESSES`](cn_choice::MOST_PROCESSES).
///
/// The type is n-recording exactly if there is one
/// ([`laws::live_choices_decide`](crate::laws::live_choices_decide)). The search goes on in several
/// threads, or in one if these get too little memory.
///
/// # Errors
///
/// `AllocError` if memory is too little for one thread.
pub fn first_recording_witness<T: Threads + Sync>(
    rt: &T,
    alloc: Global,
    table: &Table,
    n: u8,
) -> Result<Option<Choice>, AllocError>
    requires some { 2 ≤ n }
    requires few { n ≤ MOST_PROCESSES }
    // promise: recording-witness (IsFirstAmong)
    ensures { IfOk result
        (IsFirstAmong (IsRecordingWitness table.now) (live_choices table.now n)) }
{
    first_of_kind::<RecordingWitness, T>(rt, alloc, table, n)
}
