//! Laws of types that solve consensus. A law is a function that does nothing: its contract is the
//! law.
//!
//! Everywhere `L` are the local states of any protocol, and `V` is what its registers hold.
ghost use Rattle.std.specs.Prelude.{◌≡◌, ◌≤◌, ◌<◌, ◌↔◌, ℕ, Bool, List, length, Option, None, Some};
ghost use Rattle.cn_table.specs.TypeTable.{IsClosed, TypeTable};
ghost use Rattle.cn_choice.specs.Discerning.{IsDiscerning, IsNumberUpTo};
ghost use Rattle.cn_proto.specs.Plan.{IsPlan, Plan, nodes_of, processes_of, protocol_of};
ghost use Rattle.cn_agree.specs.Schedules.{decisions_after};
ghost use Rattle.cn_agree.specs.declared.local.Local.{Local as LocalOf};
ghost use Rattle.cn_consensus.specs.Configuration.{after, decision, initial};
ghost use Rattle.cn_consensus.specs.Consensus.{IsConsensusProtocol, IsSchedule};
ghost use Rattle.cn_consensus.specs.Protocol.{IsProtocolOf, Protocol};
ghost use Rattle.cn_consensus.specs.Types.{all_of};
ghost use Rattle.cn_solvable.specs.RoundProtocol.{Mirrors, listed, plan_protocol, world_after};
ghost use Rattle.cn_solvable.specs.Solving.{IsConsensusNumber, SolvesConsensus};

use cn_agree::Local;
use cn_agree::laws::sound_protocols_reach_consensus;
use cn_choice::laws::{coverage, decidable_outcome_sets};
use cn_consensus::laws::{consensus_needs_a_witness, none_above_the_number};
use cn_proto::laws::{plan_protocols_are_sound, tournaments_are_sound};

/// A witness is enough: an n-discerning type solves consensus for n processes, for each n from 2 on
/// (Ruppert, 2000).
pub fn witness_is_enough()
    // promise: witness-is-enough
    ensures { (t : TypeTable) (n : ℕ) → 2 ≤ n → IsDiscerning t n → SolvesConsensus t n }
{
    decidable_outcome_sets();
    coverage();
    tournaments_are_sound();
    sound_protocols_reach_consensus::<bool>();
}

/// A type solves consensus for n processes exactly if it is n-discerning, for each n from 2 on
/// (Ruppert, 2000, for deterministic types that can be read).
pub fn solving_is_discerning()
    // promise: witness-is-enough (SolvesConsensus)
    ensures { (t : TypeTable) (n : ℕ) → IsClosed t → 2 ≤ n
        → SolvesConsensus t n ↔ IsDiscerning t n }
{
    witness_is_enough();
    consensus_needs_a_witness::<Local<bool>, Option<bool>>();
}

/// Rounds are enough: where any protocol solves consensus for n processes, 2 or more, one with the
/// local states and the registers of rounds does (Ruppert, 2000).
pub fn rounds_are_enough<L, V>()
    // promise: rounds-are-enough
    ensures { (t : TypeTable) (n : ℕ) (P : Protocol L V) → IsClosed t → 2 ≤ n
        → IsProtocolOf (all_of t) n P → IsConsensusProtocol (all_of t) n P → SolvesConsensus t n }
{
    witness_is_enough();
    consensus_needs_a_witness::<L, V>();
}

/// The number of a type is its consensus number (Herlihy, 1991):
///
/// - `found`: a number below the limit is the consensus number;
/// - `none`: a type that has no number up to a limit of 2 or more has consensus number 1;
/// - `at_least`: a type solves consensus for as many processes as its number, also at the limit.
pub fn number_is_the_consensus_number<L, V>()
    // promise: number-is-the-consensus-number
    ensures found { (t : TypeTable) (limit n : ℕ) → IsClosed t → IsNumberUpTo t limit (Some n)
        → n < limit → IsConsensusNumber L V t n }
    // promise: number-is-the-consensus-number
    ensures none { (t : TypeTable) (limit : ℕ) → IsClosed t → 0 < length t.states → 2 ≤ limit
        → IsNumberUpTo t limit None → IsConsensusNumber L V t 1 }
    // promise: number-is-the-consensus-number (IsConsensusNumber)
    ensures at_least { (t : TypeTable) (limit n : ℕ) → IsNumberUpTo t limit (Some n)
        → SolvesConsensus t n }
{
    witness_is_enough();
    none_above_the_number::<L, V>();
}

/// A type has only one consensus number.
pub fn unique_consensus_number()
    // promise: number-is-the-consensus-number
    ensures { (t : TypeTable) (m n : ℕ) → IsConsensusNumber (LocalOf Bool) (Option Bool) t m
        → IsConsensusNumber (LocalOf Bool) (Option Bool) t n → m ≡ n }
{}

/// The protocol of every plan solves consensus from registers and readable objects of its type.
pub fn plans_are_protocols()
    // promise: plans-in-the-model
    ensures of_type { (plan : Plan) → IsPlan plan
        → IsProtocolOf (all_of plan.table) (processes_of plan) (plan_protocol plan) }
    // promise: plans-in-the-model
    ensures consensus { (plan : Plan) → IsPlan plan
        → IsConsensusProtocol (all_of plan.table) (processes_of plan) (plan_protocol plan) }
{
    plan_protocols_are_sound();
    sound_protocols_reach_consensus::<bool>();
}

/// The protocol of a plan steps as the rounds of the plan do, with all inputs and under every
/// schedule:
///
/// - `mirrors`: the configuration has the local states, the objects and the registers of the round;
/// - `decisions`: the processes have decided what the round's processes have decided.
pub fn plans_step_as_rounds()
    // promise: plans-in-the-model
    ensures mirrors { (plan : Plan) → IsPlan plan → (inputs : ℕ → Bool) (schedule : List ℕ)
        → IsSchedule (processes_of plan) schedule
        → Mirrors (protocol_of plan) (processes_of plan) (nodes_of plan)
        (world_after plan (listed (processes_of plan) inputs) schedule)
        (after (all_of plan.table) (plan_protocol plan) (initial (plan_protocol plan) inputs)
        schedule) }
    // promise: plans-in-the-model
    ensures decisions { (plan : Plan) → IsPlan plan → (inputs : ℕ → Bool) (schedule : List ℕ)
        → IsSchedule (processes_of plan) schedule
        → decisions_after plan (listed (processes_of plan) inputs) schedule
        ≡ listed (processes_of plan) (decision (plan_protocol plan) (after (all_of plan.table)
        (plan_protocol plan) (initial (plan_protocol plan) inputs) schedule)) }
{
    plan_protocols_are_sound();
}
