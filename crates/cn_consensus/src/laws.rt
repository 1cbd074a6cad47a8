//! Laws of protocols for wait-free consensus. A law is a function that does nothing: its contract
//! is the law.
//!
//! In these laws the model stands in premises alone, so a definition that lets fewer protocols pass
//! would prove here too. `cn_solvable` refuses such a change: by its laws `solving_is_discerning`
//! and `plans_are_protocols` the premises can be met. By [`registers_alone`] they cannot always be
//! met.
//!
//! Everywhere `L` are the local states of the processes, and `V` is what registers hold.
ghost use Rattle.std.specs.Prelude.{◌≤◌, ◌<◌, ◌↔◌, ℕ, None, Some};
ghost use Rattle.cn_table.specs.TypeTable.{IsClosed, IsTypeTable, TypeTable};
ghost use Rattle.cn_choice.specs.Discerning.{IsDiscerning, IsNumberUpTo};
ghost use Rattle.cn_consensus.specs.Consensus.{IsBoundedWaitFree, IsConsensusProtocol};
ghost use Rattle.cn_consensus.specs.Protocol.{IsProtocolOf, Protocol};
ghost use Rattle.cn_consensus.specs.Types.{NeverChanges, all_of};
ghost use Rattle.cn_consensus.specs.WaitFreedom.{EveryRunEnds, ExcludedMiddle, IsWaitFree};

use cn_choice::laws::witnesses_are_live;

/// Consensus needs a witness: where some protocol solves wait-free consensus for n processes, 2 or
/// more, from registers and readable objects of the type, the type is n-discerning (Ruppert, 2000).
pub fn consensus_needs_a_witness<L, V>()
    // promise: consensus-needs-a-witness (IsProtocolOf, IsConsensusProtocol, IsDiscerning)
    ensures { (t : TypeTable) (n : ℕ) (P : Protocol L V) → IsClosed t → 2 ≤ n
        → IsProtocolOf (all_of t) n P → IsConsensusProtocol (all_of t) n P → IsDiscerning t n }
{}

/// Several types together are no better: where the objects are of several types, one of these types
/// alone is n-discerning, for n of 2 or more (Ruppert, 2000).
pub fn one_type_of_several<L, V>()
    // promise: one-type-of-several
    ensures { (t : ℕ → TypeTable) (n : ℕ) (P : Protocol L V) → ((i : ℕ) → IsClosed (t i)) → 2 ≤ n
        → IsProtocolOf t n P → IsConsensusProtocol t n P → (i : ℕ) × IsDiscerning (t i) n }
{}

/// No protocol solves consensus for more processes than the number of a type that is found below
/// the limit, and for 2 or more where the type has no number. The processes may be more than the
/// limit.
pub fn none_above_the_number<L, V>()
    // promise: number-is-the-consensus-number
    ensures found { (t : TypeTable) (limit n m : ℕ) (P : Protocol L V) → IsClosed t
        → IsNumberUpTo t limit (Some n) → n < limit → n < m → IsProtocolOf (all_of t) m P
        → ¬ IsConsensusProtocol (all_of t) m P }
    // promise: number-is-the-consensus-number
    ensures none { (t : TypeTable) (limit m : ℕ) (P : Protocol L V) → IsClosed t
        → IsNumberUpTo t limit None → 2 ≤ limit → 2 ≤ m → IsProtocolOf (all_of t) m P
        → ¬ IsConsensusProtocol (all_of t) m P }
{}

/// Registers alone do not solve consensus for 2 or more processes (Loui and Abu-Amara, 1987): where
/// no operation of a type changes its state, no protocol over it solves consensus.
pub fn registers_alone<L, V>()
    // promise: registers-alone (NeverChanges)
    ensures { (t : TypeTable) (n : ℕ) (P : Protocol L V) → IsClosed t → NeverChanges t → 2 ≤ n
        → IsProtocolOf (all_of t) n P → ¬ IsConsensusProtocol (all_of t) n P }
{
    witnesses_are_live();
}

/// Wait-freedom with a bound is wait-freedom (Herlihy, 1991):
///
/// - `ends`: there is a bound exactly if no run goes on for ever with steps of processes that have
///   not decided;
/// - `infinite`: with a bound, each process decides in each infinite schedule that has it
///   infinitely often;
/// - `classical`: if so, there is a bound, by excluded middle.
pub fn bound_is_wait_freedom<L, V>()
    // promise: wait-freedom-of-a-protocol
    ensures ends { (t : ℕ → TypeTable) (n : ℕ) (P : Protocol L V)
        → EveryRunEnds t n P ↔ IsBoundedWaitFree t n P }
    // promise: wait-freedom-of-a-protocol
    ensures infinite { (t : ℕ → TypeTable) (n : ℕ) (P : Protocol L V)
        → IsBoundedWaitFree t n P → IsWaitFree t n P }
    // promise: wait-freedom-of-a-protocol
    ensures classical { (t : ℕ → TypeTable) (n : ℕ) (P : Protocol L V) → ExcludedMiddle t n P
        → IsWaitFree t n P → IsBoundedWaitFree t n P }
{}
