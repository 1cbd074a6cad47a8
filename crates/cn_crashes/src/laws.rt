//! Laws of recoverable consensus. A law is a function that does nothing: its contract is the law.
//!
//! Where the model stands in premises alone, a definition that lets fewer protocols pass would
//! prove here too. [`recording_is_enough`] refuses such a change: its protocols meet the
//! definitions. By [`none_above_the_recoverable_number`] not every type has a protocol.
//!
//! Everywhere `L` are the local states of any protocol, and `V` is what its registers hold. The
//! number of processes may be greater than any limit.
ghost use Rattle.std.specs.Prelude.{◌≡◌, ◌≤◌, ◌<◌, ◌-◌, ◌↔◌, ℕ, Bool, length, Option, None, Some};
ghost use Rattle.cn_table.specs.TypeTable.{IsClosed, TypeTable};
ghost use Rattle.cn_choice.specs.Discerning.{IsDiscerning};
ghost use Rattle.cn_consensus.specs.Consensus.{IsConsensusProtocol};
ghost use Rattle.cn_consensus.specs.Protocol.{IsProtocolOf, Protocol};
ghost use Rattle.cn_consensus.specs.Types.{all_of};
ghost use Rattle.cn_recover.specs.Recording.{IsRecording, IsRecoverableNumberUpTo};
ghost use Rattle.cn_crashes.specs.InfiniteExecutions.{DecidesInInfiniteExecutions, ExcludedMiddle};
ghost use Rattle.cn_crashes.specs.RecoverableConsensus.{HasRecoverableAgreement};
ghost use Rattle.cn_crashes.specs.RecoverableConsensus.{HasRecoverableValidity};
ghost use Rattle.cn_crashes.specs.RecoverableConsensus.{HasStrongRecoverableValidity};
ghost use Rattle.cn_crashes.specs.RecoverableConsensus.{IsRecoverableConsensusProtocol};
ghost use Rattle.cn_crashes.specs.RecoverableConsensusNumber.{IsRecoverableConsensusNumber};
ghost use Rattle.cn_crashes.specs.RecoverableConsensusNumber.{SolvesRecoverableConsensus};
ghost use Rattle.cn_crashes.specs.RecoverableRound.{RecoverableLocal};
ghost use Rattle.cn_crashes.specs.RecoverableWaitFreedom.{IsBoundedRecoverablyWaitFree};
ghost use Rattle.cn_crashes.specs.RecoverableWaitFreedom.{IsRecoverablyWaitFree};

use cn_choice::laws::coverage;
use cn_consensus::laws::consensus_needs_a_witness;
use cn_proto::laws::tournaments_are_sound;
use cn_recover::laws::{
    at_least_the_number_less_two, monotonicity, recording_witness_is_witness, renumbering,
};

/// A recording witness is enough: an n-recording type solves recoverable consensus for n processes,
/// for each n from 2 on, with at most 6(n-1) own steps in each life (Delporte-Gallet, Fatourou,
/// Fauconnier and Ruppert, 2022).
pub fn recording_is_enough()
    // promise: recording-is-enough
    ensures { (t : TypeTable) (n : ℕ) → 2 ≤ n → IsRecording t n → SolvesRecoverableConsensus t n }
{
    coverage();
    tournaments_are_sound();
    renumbering();
}

/// Recoverable consensus needs a recording witness: where some protocol solves it for n processes,
/// 2 or more, from registers and readable objects of the type:
///
/// - `recording`: the type is n-recording (Ovens, 2024);
/// - `discerning`: so it is n-discerning.
pub fn recoverable_consensus_needs_recording<L, V>()
    // promise: recoverable-consensus-needs-recording
    ensures recording { (t : TypeTable) (n : ℕ) (P : Protocol L V) → IsClosed t → 2 ≤ n
        → IsProtocolOf (all_of t) n P → IsRecoverableConsensusProtocol (all_of t) n P
        → IsRecording t n }
    // promise: recoverable-consensus-needs-recording
    ensures discerning { (t : TypeTable) (n : ℕ) (P : Protocol L V) → IsClosed t → 2 ≤ n
        → IsProtocolOf (all_of t) n P → IsRecoverableConsensusProtocol (all_of t) n P
        → IsDiscerning t n }
{
    recording_witness_is_witness();
}

/// Several types together are no better: where the objects are of several types, one of these types
/// alone is n-recording, for n of 2 or more (Ovens, 2024).
pub fn one_type_of_several<L, V>()
    // promise: one-type-of-several-recoverably
    ensures { (t : ℕ → TypeTable) (n : ℕ) (P : Protocol L V) → ((i : ℕ) → IsClosed (t i)) → 2 ≤ n
        → IsProtocolOf t n P → IsRecoverableConsensusProtocol t n P
        → (i : ℕ) × IsRecording (t i) n }
{}

/// A type solves recoverable consensus for n processes exactly if it is n-recording, for each n
/// from 2 on (Delporte-Gallet, Fatourou, Fauconnier and Ruppert, 2022; Ovens, 2024).
pub fn solving_is_recording()
    // promise: recording-is-enough (SolvesRecoverableConsensus: DecidesWithin)
    ensures { (t : TypeTable) (n : ℕ) → IsClosed t → 2 ≤ n
        → SolvesRecoverableConsensus t n ↔ IsRecording t n }
{
    recording_is_enough();
}

/// Recoverable rounds are enough, and a bound is no restriction on types: where any protocol solves
/// recoverable consensus for n processes, 2 or more, one with the local states and the registers of
/// recoverable rounds does, with at most 6(n-1) own steps in each life.
pub fn recoverable_rounds_are_enough<L, V>()
    // promise: recoverable-rounds-are-enough
    ensures { (t : TypeTable) (n : ℕ) (P : Protocol L V) → IsClosed t → 2 ≤ n
        → IsProtocolOf (all_of t) n P → IsRecoverableConsensusProtocol (all_of t) n P
        → SolvesRecoverableConsensus t n }
{
    recording_is_enough();
}

/// No protocol solves recoverable consensus for more processes than the recoverable number of a
/// type that is found below the limit, and for 2 or more where the type has none.
pub fn none_above_the_recoverable_number<L, V>()
    // promise: number-is-the-recoverable-consensus-number
    ensures found { (t : TypeTable) (limit n m : ℕ) (P : Protocol L V) → IsClosed t
        → IsRecoverableNumberUpTo t limit (Some n) → n < limit → n < m
        → IsProtocolOf (all_of t) m P → ¬ IsRecoverableConsensusProtocol (all_of t) m P }
    // promise: number-is-the-recoverable-consensus-number
    ensures none { (t : TypeTable) (limit m : ℕ) (P : Protocol L V) → IsClosed t
        → IsRecoverableNumberUpTo t limit None → 2 ≤ limit → 2 ≤ m
        → IsProtocolOf (all_of t) m P → ¬ IsRecoverableConsensusProtocol (all_of t) m P }
{
    monotonicity();
}

/// The recoverable number of a type is its recoverable consensus number (Golab, 2020):
///
/// - `found`: a recoverable number below the limit is the recoverable consensus number;
/// - `none`: a type that has no recoverable number up to a limit of 2 or more has recoverable
///   consensus number 1, since one process alone decides its own input, also after crashes;
/// - `at_least`: a type solves recoverable consensus for as many processes as its recoverable
///   number, also at the limit.
pub fn number_is_the_recoverable_consensus_number<L, V>()
    // promise: number-is-the-recoverable-consensus-number
    ensures found { (t : TypeTable) (limit n : ℕ) → IsClosed t
        → IsRecoverableNumberUpTo t limit (Some n) → n < limit
        → IsRecoverableConsensusNumber L V t n }
    // promise: number-is-the-recoverable-consensus-number
    ensures none { (t : TypeTable) (limit : ℕ) → IsClosed t → 0 < length t.states → 2 ≤ limit
        → IsRecoverableNumberUpTo t limit None → IsRecoverableConsensusNumber L V t 1 }
    // promise: number-is-the-recoverable-consensus-number (IsRecoverableConsensusNumber)
    ensures at_least { (t : TypeTable) (limit n : ℕ) → IsRecoverableNumberUpTo t limit (Some n)
        → SolvesRecoverableConsensus t n }
{
    recording_is_enough();
    none_above_the_recoverable_number::<L, V>();
}

/// A type has only one recoverable consensus number.
pub fn unique_recoverable_consensus_number()
    // promise: number-is-the-recoverable-consensus-number
    ensures { (t : TypeTable) (m n : ℕ)
        → IsRecoverableConsensusNumber RecoverableLocal (Option Bool) t m
        → IsRecoverableConsensusNumber RecoverableLocal (Option Bool) t n → m ≡ n }
{}

/// What solves consensus for n processes, 4 or more, solves recoverable consensus for two fewer
/// (Delporte-Gallet, Fatourou, Fauconnier and Ruppert, 2022).
pub fn two_fewer_recoverably<L, V>()
    // promise: two-fewer-recoverably
    ensures { (t : TypeTable) (n : ℕ) (P : Protocol L V) → IsClosed t → 4 ≤ n
        → IsProtocolOf (all_of t) n P → IsConsensusProtocol (all_of t) n P
        → SolvesRecoverableConsensus t (n - 2) }
{
    consensus_needs_a_witness::<L, V>();
    at_least_the_number_less_two();
    recording_is_enough();
}

/// Validity is strong: a decision is the input of a process that has taken a step, or of the one
/// that has decided, for any number of processes and objects of several types.
pub fn validity_is_strong<L, V>()
    // promise: strong-validity
    ensures { (t : ℕ → TypeTable) (n : ℕ) (P : Protocol L V) → HasRecoverableValidity t n P
        → HasStrongRecoverableValidity t n P }
{}

/// The forms of recoverable wait-freedom, for any number of processes and objects of several types:
///
/// - `infinite`: with it, in each infinite execution a process that takes infinitely many steps and
///   crashes only finitely often decides after its last crash;
/// - `classical`: if so, a protocol is recoverably wait-free, by excluded middle;
/// - `bound`: a bound on the steps of a life gives it;
/// - `consensus`: executions with no crash are schedules, so a protocol for recoverable consensus
///   with a bound is one for consensus.
pub fn recoverable_wait_freedom<L, V>()
    // promise: recoverable-wait-freedom
    ensures infinite { (t : ℕ → TypeTable) (n : ℕ) (P : Protocol L V)
        → IsRecoverablyWaitFree t n P → DecidesInInfiniteExecutions t n P }
    // promise: recoverable-wait-freedom
    ensures classical { (t : ℕ → TypeTable) (n : ℕ) (P : Protocol L V) → ExcludedMiddle t n P
        → DecidesInInfiniteExecutions t n P → IsRecoverablyWaitFree t n P }
    // promise: recoverable-wait-freedom
    ensures bound { (t : ℕ → TypeTable) (n : ℕ) (P : Protocol L V)
        → IsBoundedRecoverablyWaitFree t n P → IsRecoverablyWaitFree t n P }
    // promise: recoverable-wait-freedom
    ensures consensus { (t : ℕ → TypeTable) (n : ℕ) (P : Protocol L V)
        → HasRecoverableAgreement t n P → HasRecoverableValidity t n P
        → IsBoundedRecoverablyWaitFree t n P → IsConsensusProtocol t n P }
{}
