//! Laws of consensus numbers and of recoverable ones. A law is a function that does nothing: its
//! contract is the law.
ghost use Rattle.std.specs.Prelude.{◌↔◌, ◌⊎◌, ◌≤◌, ◌<◌, ◌≡◌, ℕ, List, Some, length};
ghost use Rattle.cn_table.specs.Restriction.{AreOperations, with_operations};
ghost use Rattle.cn_table.specs.TypeTable.{IsClosed, TypeTable};
ghost use Rattle.cn_choice.specs.Discerning.{IsDiscerning, IsWitness};
ghost use Rattle.cn_choice.specs.RawChoices.{IsRawChoice, RawChoice};
ghost use Rattle.cn_stocks.specs.Lasting.{IsAlwaysDiscerning, NoneLast};
ghost use Rattle.cn_stocks.specs.Numbers.{IsNumber};
ghost use Rattle.cn_telling.specs.Telling.{SomeTells, TellsFrom};
ghost use Rattle.cn_recover.specs.Recording.{HasRecoverableNumber, IsRecording, IsRecordingWitness};
ghost use Rattle.cn_search.specs.declared.exact.ConsensusNumber.TheVariants.{Finite};
ghost use Rattle.cn_number_laws.specs.Parts.{IsPart, with_start};
ghost use Rattle.cn_consensus.specs.Consensus.{IsBoundedWaitFree, IsConsensusProtocol};
ghost use Rattle.cn_consensus.specs.Protocol.{Protocol};
ghost use Rattle.cn_crashes.specs.RecoverableConsensus.{IsRecoverableConsensusProtocol};
ghost use Rattle.cn_crashes.specs.RecoverableWaitFreedom.{IsRecoverablyWaitFree};
ghost use Rattle.cn_number_laws.specs.LastingStarts.{LastsFrom, NoneLastFrom, SomeLast};
ghost use Rattle.cn_number_laws.specs.ReachedStates.{HasReached};

use cn_choice::laws::witnesses_are_live;
use cn_consensus::laws::bound_is_wait_freedom;
use cn_recover::laws::no_greatest_together;
use cn_stocks::lasting::laws::lasting_operations_decide;
use cn_stocks::laws::{splits_decide, starts_of_witnesses};

/// A type has no greatest number exactly if two of its operations last from some state:
///
/// - `from_one`: of each state, two operations last from it, or no two do: where an operation leads
///   that is done any number of times, it leads in fewer times than there are states;
/// - `decided`: so two last from some state, or no two do from any;
/// - `discerning`: two last from some state exactly if the type is n-discerning for every n;
/// - `recording`: and exactly if it is n-recording for every n.
pub fn infinite_numbers()
    // promise: infinite-exactly (LastsFrom, NoneLastFrom)
    ensures from_one { (t : TypeTable) (start : ℕ) → start < length t.states
        → LastsFrom t start ⊎ NoneLastFrom t start }
    // promise: infinite-exactly (SomeLast, NoneLast)
    ensures decided { (t : TypeTable) → SomeLast t ⊎ NoneLast t }
    // promise: infinite-exactly (IsAlwaysDiscerning)
    ensures discerning { (t : TypeTable) → SomeLast t ↔ IsAlwaysDiscerning t }
    // promise: infinite-exactly (IsRecording)
    ensures recording { (t : TypeTable) → SomeLast t ↔ ((n : ℕ) → 2 ≤ n → IsRecording t n) }
{
    lasting_operations_decide();
    no_greatest_together();
}

/// The smallest sets of operations of a type with no greatest number are pairs:
///
/// - `pair`: some two operations of it alone have no greatest number either;
/// - `none_smaller`: no set of fewer operations does so;
/// - `more`: since one operation alone is not even 3-discerning.
pub fn smallest_infinite_sets()
    // promise: smallest-infinite-sets (AreOperations, with_operations)
    ensures pair { (t : TypeTable) → IsAlwaysDiscerning t → (set : List ℕ) × AreOperations t set
        × (length set ≡ 2) × IsAlwaysDiscerning (with_operations t set) }
    // promise: smallest-infinite-sets (IsAlwaysDiscerning)
    ensures none_smaller { (t : TypeTable) (set : List ℕ)
        → IsAlwaysDiscerning (with_operations t set) → 2 ≤ length set }
    // promise: smallest-infinite-sets
    ensures more { (t : TypeTable) (n : ℕ) → 3 ≤ n → IsDiscerning t n → 2 ≤ length t.operations }
{
    infinite_numbers();
    splits_decide();
}

/// The states that count are those reached from one start state. Let no two operations last from
/// there, and let a list have all states to which operations lead from there:
///
/// - `tells`: a stock that tells from there has fewer operations than the list has states;
/// - `witness`: a witness from there has no more processes;
/// - `recording_witness`: a recording witness from there has fewer.
pub fn reached_states_bound()
    // promise: states-reached-from-one (HasReached, NoneLastFrom, TellsFrom)
    ensures tells { (t : TypeTable) (start n : ℕ) (states : List ℕ) → HasReached t start states
        → NoneLastFrom t start → TellsFrom t n start → n < length states }
    // promise: states-reached-from-one (IsWitness)
    ensures witness { (t : TypeTable) (n : ℕ) (c : RawChoice) (states : List ℕ)
        → IsRawChoice t n c → IsWitness t c → HasReached t c.state states
        → NoneLastFrom t c.state → n ≤ length states }
    // promise: states-reached-from-one (IsRecordingWitness)
    ensures recording_witness { (t : TypeTable) (n : ℕ) (c : RawChoice) (states : List ℕ)
        → IsRawChoice t n c → IsRecordingWitness t c → HasReached t c.state states
        → NoneLastFrom t c.state → n < length states }
{
    starts_of_witnesses();
    witnesses_are_live();
}

/// A part of a type has the witnesses from its states: some states of the type, out of which no
/// operation leads, as those that are reached from one start state.
///
/// - `witness`: a choice of the part is a witness of it exactly if it is one of the type;
/// - `recording_witness`: it is a recording witness exactly if it is one of the type;
/// - `discerning`, `recording`: so a type is n-discerning, and n-recording, where a part of it is.
pub fn parts_of_types()
    // promise: parts-of-types (IsPart, IsWitness, with_start)
    ensures witness { (f : ℕ → ℕ) (part t : TypeTable) (n : ℕ) (c : RawChoice) → IsPart f part t
        → IsRawChoice part n c → IsWitness part c ↔ IsWitness t (with_start f c) }
    // promise: parts-of-types (IsRecordingWitness)
    ensures recording_witness { (f : ℕ → ℕ) (part t : TypeTable) (n : ℕ) (c : RawChoice)
        → IsPart f part t → IsRawChoice part n c
        → IsRecordingWitness part c ↔ IsRecordingWitness t (with_start f c) }
    // promise: parts-of-types (IsDiscerning)
    ensures discerning { (f : ℕ → ℕ) (part t : TypeTable) (n : ℕ) → IsPart f part t
        → IsDiscerning part n → IsDiscerning t n }
    // promise: parts-of-types (IsRecording)
    ensures recording { (f : ℕ → ℕ) (part t : TypeTable) (n : ℕ) → IsPart f part t
        → IsRecording part n → IsRecording t n }
{}

/// A finite number of a closed type is at most the number of its states, and a finite recoverable
/// number from 2 on is less:
///
/// - `discerning`: a closed type no two of whose operations last is n-discerning for no n above the
///   number of its states;
/// - `number`: so the number of a closed type is at most that, if it has one;
/// - `tells`: no stock of as many operations as the type has states tells, nor one of more;
/// - `recording`: it is n-recording for no n from the number of its states on;
/// - `recoverable_number`: so its recoverable number is less, if it is finite and from 2 on.
pub fn finite_numbers()
    // promise: finite-numbers-of-closed-types (IsClosed, NoneLast)
    ensures discerning { (t : TypeTable) (n : ℕ) → IsClosed t → NoneLast t → IsDiscerning t n
        → n ≤ length t.states }
    // promise: finite-numbers-of-closed-types (IsNumber)
    ensures number { (t : TypeTable) (n : ℕ) → IsClosed t → IsNumber t (Some n)
        → n ≤ length t.states }
    // promise: finite-numbers-of-closed-types (SomeTells)
    ensures tells { (t : TypeTable) (n : ℕ) → IsClosed t → NoneLast t → SomeTells t n
        → n < length t.states }
    // promise: finite-numbers-of-closed-types (IsRecording)
    ensures recording { (t : TypeTable) (n : ℕ) → IsClosed t → NoneLast t → IsRecording t n
        → n < length t.states }
    // promise: finite-numbers-of-closed-types (HasRecoverableNumber)
    ensures recoverable_number { (t : TypeTable) (n : ℕ) → IsClosed t → 2 ≤ n
        → HasRecoverableNumber t (Finite n) → n < length t.states }
{
    infinite_numbers();
    starts_of_witnesses();
    witnesses_are_live();
    no_greatest_together();
}

/// A protocol for recoverable consensus solves consensus, with or without a bound on the steps of a
/// life. Executions with no crash are schedules; none of them goes on for ever, by a descent over
/// the processes, so that their steps are bounded:
///
/// - `wait_freedom`: recoverable wait-freedom is wait-freedom with a bound;
/// - `consensus`: so a protocol for recoverable consensus is one for consensus.
pub fn recoverable_consensus_is_consensus<L, V>()
    // promise: recoverable-consensus-is-consensus (IsRecoverablyWaitFree, IsBoundedWaitFree)
    ensures wait_freedom { (t : ℕ → TypeTable) (n : ℕ) (P : Protocol L V)
        → IsRecoverablyWaitFree t n P → IsBoundedWaitFree t n P }
    // promise: recoverable-consensus-is-consensus (IsRecoverableConsensusProtocol)
    ensures consensus { (t : ℕ → TypeTable) (n : ℕ) (P : Protocol L V)
        → IsRecoverableConsensusProtocol t n P → IsConsensusProtocol t n P }
{
    bound_is_wait_freedom::<L, V>();
}
