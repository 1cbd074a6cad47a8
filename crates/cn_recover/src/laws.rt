//! The laws that hold of recording witnesses and of recoverable numbers for every type and limit.
//!
//! A law is a function that does nothing: its contract is the law.
ghost use Rattle.std.specs.Prelude.{◌≤◌, ◌+◌, ◌-◌, ◌↔◌, ◌<◌, ℕ, All, Contains, IsSomeAnd, List, Option, Some, length};
ghost use Rattle.cn_table.specs.Restriction.{with_operations};
ghost use Rattle.cn_table.specs.TypeTable.{TypeTable};
ghost use Rattle.cn_choice.specs.Canonical.{Choice, raw_choice_of};
ghost use Rattle.cn_choice.specs.Discerning.{IsDiscerning, IsNumberUpTo, IsWitness};
ghost use Rattle.cn_choice.specs.Live.{live_choices};
ghost use Rattle.cn_choice.specs.RawChoices.{RawChoice};
ghost use Rattle.cn_choice.specs.Renumbering.{Embeds, with_other_teams};
ghost use Rattle.cn_choice.specs.declared.team.Team.TheVariants.{A, B};
ghost use Rattle.cn_stocks.specs.Records.{SomeRecords};
ghost use Rattle.cn_recover.specs.Recording.{IsRecording, IsRecordingWitness, IsRecoverableNumberUpTo, Misses};
ghost use Rattle.cn_recover.specs.Rows.{HaveEachRow, IsByRows};

use cn_choice::laws::{
    Property, canonical_choices_decide, choice_by_teams, coverage, live_list, witnesses_are_live,
};

/// The property that a type is n-recording.
pub enum RecordingType {}

impl Property for RecordingType {
    ghost holds = { IsRecording };
}

/// A recording witness is a witness: if the state tells which team moved first, the response and
/// the state do.
pub fn recording_witness_is_witness()
    // promise: recording-and-discerning
    ensures witness { (t : TypeTable) (c : RawChoice) → IsRecordingWitness t c → IsWitness t c }
    // promise: recording-and-discerning
    ensures discerning { (t : TypeTable) (n : ℕ) → IsRecording t n → IsDiscerning t n }
{}

/// Some of the processes of a recording witness, under other numbers, are one too; and so is it
/// with the teams exchanged.
pub fn renumbering()
    // promise: renumbered-recording-witness
    ensures some { (t : TypeTable) (f : ℕ → ℕ) (d c : RawChoice) → Embeds f d c
        → IsRecordingWitness t c → IsRecordingWitness t d }
    // promise: renumbered-recording-witness
    ensures exchanged { (t : TypeTable) (c : RawChoice) → IsRecordingWitness t c
        → IsRecordingWitness t (with_other_teams c) }
{}

/// Monotonicity: for n of at least 3, a type that is n-recording is (n-1)-recording.
pub fn monotonicity()
    // promise: recording-monotonicity
    ensures { (t : TypeTable) (n : ℕ) → 3 ≤ n → IsRecording t n → IsRecording t (n - 1) }
{}

/// The recoverable number up to a limit is at most the number up to it.
pub fn at_most_the_number()
    // promise: recording-and-discerning
    ensures { (t : TypeTable) (limit n : ℕ) (number : Option ℕ)
        → IsRecoverableNumberUpTo t limit (Some n) → IsNumberUpTo t limit number
        → IsSomeAnd number (λ most. n ≤ most) }
{}

/// The live canonical choices decide for which numbers of processes a type is recording.
pub fn live_choices_decide()
    // promise: recording-monotonicity
    ensures refuted { (t : TypeTable) (n : ℕ)
        → All (λ c. ¬ IsRecordingWitness t (raw_choice_of c)) (live_choices t n)
        → ¬ IsRecording t n }
    // promise: recording-monotonicity
    ensures shown { (t : TypeTable) (n : ℕ) (c : Choice) → Contains (live_choices t n) c
        → IsRecordingWitness t (raw_choice_of c) → IsRecording t n }
{
    coverage();
    live_list();
    witnesses_are_live();
}

/// For n of at least 2 a type is n-recording exactly if some stock of n of its operations records
/// from some state. Two processes with one operation are in one team of each recording witness, so
/// that teams are teams of operations, and an order of the processes is a word within the stock.
pub fn records_decide()
    // promise: recording-monotonicity (SomeRecords)
    ensures { (t : TypeTable) (n : ℕ) → 2 ≤ n → IsRecording t n ↔ SomeRecords t n }
{}

/// A witness without one process of each team is a recording witness.
pub fn witness_less_one_of_each()
    // promise: number-less-two
    ensures { (t : TypeTable) (f : ℕ → ℕ) (d c : RawChoice) → Embeds f d c → IsWitness t c
        → Misses f d c A → Misses f d c B → IsRecordingWitness t d }
{}

/// A type that is n-discerning for n of at least 4 is (n-2)-recording: so from 4 on the recoverable
/// number up to a limit is at least the number up to it, less 2.
pub fn at_least_the_number_less_two()
    // promise: number-less-two
    ensures recording { (t : TypeTable) (n : ℕ) → 4 ≤ n → IsDiscerning t n → IsRecording t (n - 2) }
    // promise: number-less-two
    ensures number { (t : TypeTable) (limit n : ℕ) (recoverable : Option ℕ) → 4 ≤ n
        → IsNumberUpTo t limit (Some n) → IsRecoverableNumberUpTo t limit recoverable
        → IsSomeAnd recoverable (λ least. n ≤ least + 2) }
{
    coverage();
    choice_by_teams();
}

/// A type is n-recording for every n exactly if it is n-discerning for every n: it has no greatest
/// recoverable number exactly if it has no greatest number.
pub fn no_greatest_together()
    // promise: recording-monotonicity
    ensures { (t : TypeTable) → ((n : ℕ) → 2 ≤ n → IsRecording t n)
        ↔ ((n : ℕ) → 2 ≤ n → IsDiscerning t n) }
{
    at_least_the_number_less_two();
}

/// Of the operations that lead from each state to the same one a type needs one alone, whatever
/// their responses are: it is n-recording exactly if it is so with some of its operations, where
/// each other one leads from each state to where one of these does; so, if it is so with one of
/// each row. In a recording witness a process with the one operation can do the other one in its
/// place: each order leaves the same state.
pub fn one_operation_of_each_row_is_enough()
    // promise: recording-by-rows (HaveEachRow, IsRecording)
    ensures some { (t : TypeTable) (operations : List ℕ)
        → All (λ o. o < length t.operations) operations → HaveEachRow t operations → (n : ℕ)
        → IsRecording t n ↔ IsRecording (with_operations t operations) n }
    // promise: recording-by-rows (IsByRows, IsRecording)
    ensures rows { (t u : TypeTable) → IsByRows t u → (n : ℕ)
        → IsRecording t n ↔ IsRecording u n }
{}
