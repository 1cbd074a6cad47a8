//! Laws of protocols without reads. A law is a function that does nothing: its contract is the law.
//!
//! Everywhere `L` are the local states of the processes, and `V` is what registers hold.
ghost use Rattle.std.specs.Prelude.{◌≡◌, ◌+◌, ◌≤◌, ◌<◌, ◌↔◌, ℕ, Bool, length, Option, None, Some};
ghost use Rattle.cn_table.specs.TypeTable.{IsClosed, IsTypeTable, TypeTable};
ghost use Rattle.cn_choice.specs.Discerning.{IsDiscerning, IsNumberUpTo, IsWitness};
ghost use Rattle.cn_choice.specs.GreatestNumbers.{IsGreatestUpTo};
ghost use Rattle.cn_choice.specs.RawChoices.{IsRawChoice, RawChoice};
ghost use Rattle.cn_agree.specs.declared.local.Local.{Local as LocalOf};
ghost use Rattle.cn_consensus.specs.Consensus.{IsConsensusProtocol};
ghost use Rattle.cn_consensus.specs.Protocol.{IsProtocolOf, Protocol};
ghost use Rattle.cn_consensus.specs.Types.{all_of};
ghost use Rattle.cn_solvable.specs.Solving.{IsConsensusNumber, SolvesConsensus};
ghost use Rattle.cn_unread.specs.AddedReads.{AddsRead};
ghost use Rattle.cn_unread.specs.Collects.{IsVisibleFor};
ghost use Rattle.cn_unread.specs.Defended.{IsDefended, IsDefendedFor};
ghost use Rattle.cn_unread.specs.Enough.{IsEnoughFor};
ghost use Rattle.cn_unread.specs.Examples.{queue_1};
ghost use Rattle.cn_unread.specs.Lasting.{LastsByResponses};
ghost use Rattle.cn_unread.specs.Merging.{IsMerged, Merges};
ghost use Rattle.cn_unread.specs.Nodes.{IsNode, IsTellingNode, Node};
ghost use Rattle.cn_unread.specs.Signs.{AreSigns, Signs};
ghost use Rattle.cn_unread.specs.Views.{IsViewDiscerning};
ghost use Rattle.cn_unread_number.specs.Bounds.{HasUnreadNumber};
ghost use Rattle.cn_unread_number.specs.BoundsText.{bounds_text};
ghost use Rattle.cn_unread_number.specs.Evidence.{AreShown, TellsItsStates};
ghost use Rattle.cn_unread_number.specs.declared.bounds.NumberBounds.{NumberBounds};
ghost use Rattle.cn_unread_number.specs.declared.evidence.LeastEvidence.{LeastEvidence};
ghost use Rattle.cn_unread_number.specs.declared.evidence.MostEvidence.{MostEvidence};
ghost use Rattle.cn_unread_laws.specs.Bounds.{AreBoundsOf, AreSmall};
ghost use Rattle.cn_unread_laws.specs.Merging.{merged};
ghost use Rattle.cn_unread_laws.specs.Reads.{IsWithoutReads, NeverReads};
ghost use Rattle.cn_unread_laws.specs.Solving.{IsUnreadNumber, SolvesWithoutReads};

use cn_agree::laws::sound_protocols_reach_consensus;
use cn_choice::laws::{coverage, decidable_outcome_sets};
use cn_consensus::laws::consensus_needs_a_witness;
use cn_proto::laws::tournaments_are_sound;
use cn_solvable::laws::{solving_is_discerning, witness_is_enough};
use cn_table::laws::tables_are_closed;
use cn_unread::laws::{
    added_reads, lasting_responses_tell_any_number, queue_of_one, telling_types_need_no_reads,
};
use cn_unread_number::laws::shown_bounds_hold;

/// Consensus needs a choice that is a witness, and defended where the protocol does not read: where
/// some protocol solves wait-free consensus for n processes, 2 or more, from registers and objects
/// of several types, some of which it reads, one of the types has a witness for n, and this witness
/// is defended if the protocol never reads the object. Witnesses: Ruppert, 2000. Defence: new here.
pub fn consensus_needs_a_defence<L, V>()
    // promise: consensus-needs-a-defence (IsWitness, NeverReads, IsDefended)
    ensures { (t : ℕ → TypeTable) (n : ℕ) (P : Protocol L V) → ((i : ℕ) → IsClosed (t i)) → 2 ≤ n
        → IsProtocolOf t n P → IsConsensusProtocol t n P
        → (i : ℕ) × ((c : RawChoice) × IsRawChoice (t i) n c × IsWitness (t i) c
        × (NeverReads n P i → IsDefended (t i) c)) }
{}

/// Consensus without reads needs a type that is defended: where some protocol that reads no object
/// solves wait-free consensus for n processes, 2 or more, from registers and objects,
///
/// - `several`: of the types of the objects one is defended for n;
/// - `one`: so it is the type, if they are of one type.
///
/// New here.
pub fn unread_consensus_needs_a_defence<L, V>()
    // promise: unread-consensus-needs-a-defence (IsWithoutReads, IsDefendedFor)
    ensures several { (t : ℕ → TypeTable) (n : ℕ) (P : Protocol L V) → ((i : ℕ) → IsClosed (t i))
        → 2 ≤ n → IsProtocolOf t n P → IsWithoutReads n P → IsConsensusProtocol t n P
        → (i : ℕ) × IsDefendedFor (t i) n }
    // promise: unread-consensus-needs-a-defence
    ensures one { (t : TypeTable) (n : ℕ) (P : Protocol L V) → IsClosed t → 2 ≤ n
        → IsProtocolOf (all_of t) n P → IsWithoutReads n P → IsConsensusProtocol (all_of t) n P
        → IsDefendedFor t n }
{}

/// No protocol without reads solves consensus
///
/// - `found`: for more processes than the greatest number for which the type is defended, where that
///   is below the limit;
/// - `none`: for 2 or more, where there is no such number;
/// - `from`: for n or more, where the type is not defended for n.
///
/// The processes may be more than the limit. New here.
pub fn none_above_the_defended<L, V>()
    // promise: none-above-the-defended
    ensures found { (t : TypeTable) (limit n m : ℕ) (P : Protocol L V) → IsClosed t
        → IsGreatestUpTo (IsDefendedFor t) limit (Some n) → n < limit → n < m
        → IsProtocolOf (all_of t) m P → IsWithoutReads m P → ¬ IsConsensusProtocol (all_of t) m P }
    // promise: none-above-the-defended
    ensures none { (t : TypeTable) (limit m : ℕ) (P : Protocol L V) → IsClosed t
        → IsGreatestUpTo (IsDefendedFor t) limit None → 2 ≤ limit → 2 ≤ m
        → IsProtocolOf (all_of t) m P → IsWithoutReads m P → ¬ IsConsensusProtocol (all_of t) m P }
    // promise: none-above-the-defended
    ensures from { (t : TypeTable) (n m : ℕ) (P : Protocol L V) → IsClosed t → 2 ≤ n → n ≤ m
        → ¬ IsDefendedFor t n → IsProtocolOf (all_of t) m P → IsWithoutReads m P
        → ¬ IsConsensusProtocol (all_of t) m P }
{}

/// Merging is not seen. Where the states of types are mapped to those of others with the same
/// responses, a protocol without reads over the one types is
///
/// - `of_type`: a protocol over the others;
/// - `solves`: and it solves consensus over the one exactly if it does over the others.
///
/// States that no responses tell apart: Moore, 1956.
pub fn merging_is_not_seen<L, V>()
    // promise: merging-is-not-seen (Merges)
    ensures of_type { (h : ℕ → ℕ → ℕ) (t u : ℕ → TypeTable) (n : ℕ) (P : Protocol L V)
        → ((i : ℕ) → IsClosed (t i)) → ((i : ℕ) → Merges (h i) (t i) (u i)) → IsProtocolOf t n P
        → IsWithoutReads n P → IsProtocolOf u n (merged h P) }
    // promise: merging-is-not-seen
    ensures solves { (h : ℕ → ℕ → ℕ) (t u : ℕ → TypeTable) (n : ℕ) (P : Protocol L V)
        → ((i : ℕ) → IsClosed (t i)) → ((i : ℕ) → Merges (h i) (t i) (u i)) → IsProtocolOf t n P
        → IsWithoutReads n P → IsConsensusProtocol t n P ↔ IsConsensusProtocol u n (merged h P) }
{}

/// A merged type bounds: where a protocol without reads solves consensus for n processes, 2 or more,
/// each type to which the states can be merged is n-discerning, and defended for n.
pub fn merged_types_bound<L, V>()
    // promise: merged-types-bound (Merges)
    ensures { (h : ℕ → ℕ) (t u : TypeTable) (n : ℕ) (P : Protocol L V) → IsClosed t → IsClosed u
        → Merges h t u → 2 ≤ n → IsProtocolOf (all_of t) n P → IsWithoutReads n P
        → IsConsensusProtocol (all_of t) n P → IsDiscerning u n × IsDefendedFor u n }
{}

/// Merging states changes nothing without reads: a type solves consensus exactly if the type does to
/// which its states are merged.
pub fn merged_types_solve()
    // promise: merging-is-not-seen (IsMerged, SolvesWithoutReads)
    ensures { (h : ℕ → ℕ) (t u : TypeTable) (n : ℕ) → IsClosed t → IsMerged h t u
        → SolvesWithoutReads t n ↔ SolvesWithoutReads u n }
{}

/// Views are enough: where the processes of a choice tell the team that began by their responses and
/// the response to one operation that changes nothing, the type solves consensus for as many, with
/// no read. Ruppert, 2000, has the state in place of the view.
pub fn views_are_enough()
    // promise: views-are-enough (IsViewDiscerning, SolvesWithoutReads)
    ensures { (t : TypeTable) (n : ℕ) → IsClosed t → 2 ≤ n → IsViewDiscerning t n
        → SolvesWithoutReads t n }
{
    decidable_outcome_sets();
    coverage();
    tournaments_are_sound();
    sound_protocols_reach_consensus::<bool>();
}

/// A node is enough: where the processes of two teams, of a and b, tell which team was first by
/// operations on one object, chosen by the responses so far, the type solves consensus for a + b
/// processes, and for fewer, with no read. New here.
pub fn nodes_are_enough()
    // promise: nodes-are-enough (IsNode)
    ensures { (t : TypeTable) (a b : ℕ) (node : Node) (n : ℕ) → IsClosed t → 1 ≤ a → 1 ≤ b
        → IsNode t a b node → 1 ≤ n → n ≤ a + b → SolvesWithoutReads t n }
{}

/// So it is where no role that has finished keeps the same after moves that team A began and after
/// moves that team B began: the team can then be found by a search.
pub fn telling_nodes_are_enough()
    // promise: nodes-are-enough (IsTellingNode)
    ensures { (t : TypeTable) (a b : ℕ) (node : Node) (n : ℕ) → IsClosed t → 1 ≤ a → 1 ≤ b
        → IsTellingNode t a b node → 1 ≤ n → n ≤ a + b → SolvesWithoutReads t n }
{
    nodes_are_enough();
}

/// Collects are enough: where the processes of a choice tell the team that began by their responses
/// and the responses to any number of operations that change nothing, the type solves consensus for
/// as many, with no read. Collects: Afek and others, 1993, for registers.
pub fn collects_are_enough()
    // promise: collects-are-enough (IsVisibleFor)
    ensures { (t : TypeTable) (n : ℕ) → IsClosed t → 2 ≤ n → IsVisibleFor t n
        → SolvesWithoutReads t n }
{
    coverage();
    telling_nodes_are_enough();
}

/// Signs are enough for any number of processes: where an answer of some further operation shows
/// sooner or later which of two operations was first, the type solves consensus for each number of
/// processes, with no read. New here.
pub fn signs_are_enough()
    // promise: signs-are-enough (AreSigns)
    ensures { (t : TypeTable) (w : Signs) → IsClosed t → AreSigns t w → (n : ℕ) → 1 ≤ n
        → SolvesWithoutReads t n }
{
    nodes_are_enough();
}

/// Where responses tell for good whether a single operation was first, the type solves consensus for
/// any number of processes with no read. New here.
pub fn lasting_responses_solve()
    // promise: lasting-responses
    ensures { (t : TypeTable) (start many single : ℕ) → IsClosed t
        → LastsByResponses t start many single → (n : ℕ) → 2 ≤ n → SolvesWithoutReads t n }
{
    views_are_enough();
    lasting_responses_tell_any_number();
}

/// Some closed type has responses that tell for good: a sticky bit (Plotkin, 1989) whose writes
/// answer the value that stands then.
pub fn some_type_lasts()
    // promise: lasting-responses
    ensures { (t : TypeTable) × (start : ℕ) × (many : ℕ) × (single : ℕ) × IsClosed t
        × LastsByResponses t start many single }
{}

/// Consensus numbers (Herlihy, 1991) without reads:
///
/// - `defended`: where views tell the teams of a choice for n apart, and n is the greatest number
///   for which the type is defended, below the limit, n is the number without reads;
/// - `next`: so it is where the type is not defended for n + 1;
/// - `merged`: so it is where the states can be merged to a type whose number, with reads, is n;
/// - `one`: the number is 1 where the type is not defended for two;
/// - `merged_one`: and where its states can be merged to those of a type that has no number, with
///   reads.
pub fn numbers_without_reads<L, V>()
    // promise: numbers-without-reads (IsUnreadNumber)
    ensures defended { (t : TypeTable) (limit n : ℕ) → IsClosed t → IsViewDiscerning t n
        → IsGreatestUpTo (IsDefendedFor t) limit (Some n) → n < limit
        → IsUnreadNumber L V t n }
    // promise: numbers-without-reads
    ensures next { (t : TypeTable) (n : ℕ) → IsClosed t → 2 ≤ n → IsViewDiscerning t n
        → ¬ IsDefendedFor t (n + 1) → IsUnreadNumber L V t n }
    // promise: numbers-without-reads
    ensures merged { (h : ℕ → ℕ) (t u : TypeTable) (limit n : ℕ) → IsClosed t → IsClosed u
        → IsMerged h t u → IsViewDiscerning u n → IsNumberUpTo u limit (Some n) → n < limit
        → IsUnreadNumber L V t n }
    // promise: numbers-without-reads
    ensures one { (t : TypeTable) → IsClosed t → 0 < length t.states → ¬ IsDefendedFor t 2
        → IsUnreadNumber L V t 1 }
    // promise: numbers-without-reads
    ensures merged_one { (h : ℕ → ℕ) (t u : TypeTable) (limit : ℕ) → IsClosed t → IsClosed u
        → 0 < length t.states → Merges h t u → 2 ≤ limit → IsNumberUpTo u limit None
        → IsUnreadNumber L V t 1 }
{
    views_are_enough();
}

/// What a program finds of a type to which the states of another are merged holds of the other:
///
/// - `least`: where something is enough for n processes, or n is 1, the type solves consensus for n
///   with no read;
/// - `most`: where the merged type is not defended for n + 1, no protocol without reads solves it for
///   more than n;
/// - `number`: where both hold, n is the number without reads.
///
/// New here.
pub fn bounds_of_merged_types<L, V>()
    // promise: bounds-of-merged-types (IsEnoughFor, SolvesWithoutReads)
    ensures least { (h : ℕ → ℕ) (t u : TypeTable) (n : ℕ) → IsClosed t → IsClosed u
        → IsMerged h t u → 0 < length t.states → 1 ≤ n → (2 ≤ n → IsEnoughFor u n)
        → SolvesWithoutReads t n }
    // promise: bounds-of-merged-types (IsDefendedFor)
    ensures most { (h : ℕ → ℕ) (t u : TypeTable) (n m : ℕ) (P : Protocol L V) → IsClosed t
        → IsClosed u → IsMerged h t u → 1 ≤ n → n < m → ¬ IsDefendedFor u (n + 1)
        → IsProtocolOf (all_of t) m P → IsWithoutReads m P
        → ¬ IsConsensusProtocol (all_of t) m P }
    // promise: bounds-of-merged-types (IsUnreadNumber)
    ensures number { (h : ℕ → ℕ) (t u : TypeTable) (n : ℕ) → IsClosed t → IsClosed u
        → IsMerged h t u → 0 < length t.states → 1 ≤ n → (2 ≤ n → IsEnoughFor u n)
        → ¬ IsDefendedFor u (n + 1) → IsUnreadNumber L V t n }
{
    collects_are_enough();
    nodes_are_enough();
    signs_are_enough();
}

/// What [`unread_number`](cn_unread_number::unread_number) answers for a table holds of all
/// protocols without reads: the number is this one; each number of processes solves consensus; the
/// number is from the one to the other; or it is at least this one.
pub fn found_bounds_hold<L, V>()
    // promise: number-without-reads (HasUnreadNumber, AreBoundsOf)
    ensures { (t : TypeTable) (bounds : NumberBounds) → IsTypeTable t → HasUnreadNumber t bounds
        → AreBoundsOf L V t bounds }
{
    collects_are_enough();
    nodes_are_enough();
    signs_are_enough();
    tables_are_closed();
}

/// The text of bounds tells them: where it is the text of the answer for a table, the bounds hold of
/// all protocols without reads. The numbers are below 2^64.
pub fn bounds_are_told<L, V>()
    // promise: number-without-reads (bounds_text, AreSmall)
    ensures { (t : TypeTable) (found bounds : NumberBounds) → IsTypeTable t
        → HasUnreadNumber t found → AreSmall found → AreSmall bounds
        → bounds_text found ≡ bounds_text bounds → AreBoundsOf L V t bounds }
{
    found_bounds_hold::<L, V>();
}

/// Evidence is enough: bounds that it shows of a type to which the states of another are merged hold
/// of all protocols without reads over the other.
pub fn evidence_is_enough<L, V>()
    // promise: number-without-reads (AreShown, AreBoundsOf)
    ensures { (h : ℕ → ℕ) (t u : TypeTable) (low : LeastEvidence) (high : MostEvidence)
        (bounds : NumberBounds) → IsTypeTable t → IsTypeTable u → IsMerged h t u
        → AreShown u low high bounds → AreBoundsOf L V t bounds }
{
    shown_bounds_hold();
    found_bounds_hold::<L, V>();
}

/// A type has only one number without reads.
pub fn one_number_without_reads()
    // promise: numbers-without-reads
    ensures { (t : TypeTable) (m n : ℕ) → IsUnreadNumber (LocalOf Bool) (Option Bool) t m
        → IsUnreadNumber (LocalOf Bool) (Option Bool) t n → m ≡ n }
{}

/// A queue with room for one letter (Herlihy, 1991):
///
/// - `without_reads`: its number without reads is 2;
/// - `with_reads`: with reads it solves consensus for each number of processes from 2 on.
pub fn number_of_a_queue_of_one<L, V>()
    // promise: queue-of-one-place
    ensures without_reads { IsUnreadNumber L V queue_1 2 }
    // promise: queue-of-one-place
    ensures with_reads { (n : ℕ) → 2 ≤ n → SolvesConsensus queue_1 n }
{
    views_are_enough();
    queue_of_one();
    witness_is_enough();
}

/// Types that tell their states have one number, with reads and without. Where an operation that gets
/// one response leads to one state, as read-modify-write operations do, or where operations that
/// change nothing tell the state:
///
/// - `solves`: for each n the type solves consensus for n processes exactly if it does without reads;
/// - `without_reads`: its consensus number is its number without reads;
/// - `with_reads`: and its number without reads is its consensus number.
///
/// Read-modify-write types: Ruppert, 2000. The others are new here.
pub fn telling_types_have_one_number<L, V>()
    // promise: telling-types (SolvesConsensus, SolvesWithoutReads)
    ensures solves { (t : TypeTable) (n : ℕ) → IsClosed t → TellsItsStates t
        → SolvesConsensus t n ↔ SolvesWithoutReads t n }
    // promise: telling-types (IsUnreadNumber)
    ensures without_reads { (t : TypeTable) (n : ℕ) → IsClosed t → TellsItsStates t
        → IsConsensusNumber (LocalOf Bool) (Option Bool) t n → IsUnreadNumber L V t n }
    // promise: telling-types (IsConsensusNumber)
    ensures with_reads { (t : TypeTable) (n : ℕ) → IsClosed t → TellsItsStates t
        → IsUnreadNumber (LocalOf Bool) (Option Bool) t n → IsConsensusNumber L V t n }
{
    telling_types_need_no_reads();
    collects_are_enough();
    solving_is_discerning();
    consensus_needs_a_witness::<L, V>();
}

/// Reads are one more operation. For a type, and for the type with a read added:
///
/// - `solves`: the one solves consensus for n processes, 2 or more, exactly if the other solves it
///   without reads;
/// - `number`: the consensus number of the one is the number without reads of the other.
///
/// Readable types: Ruppert, 2000. With reads added: new here.
pub fn added_reads_solve<L, V>()
    // promise: added-reads
    ensures solves { (t u : TypeTable) (n : ℕ) → IsClosed t → AddsRead t u → 2 ≤ n
        → SolvesConsensus t n ↔ SolvesWithoutReads u n }
    // promise: added-reads
    ensures number { (t u : TypeTable) (n : ℕ) → IsClosed t → AddsRead t u → 1 ≤ n
        → IsConsensusNumber (LocalOf Bool) (Option Bool) t n → IsUnreadNumber L V u n }
{
    added_reads();
    solving_is_discerning();
    views_are_enough();
    consensus_needs_a_witness::<L, V>();
}
