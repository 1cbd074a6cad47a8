//! Laws of rounds and schedules. A law is a function that does nothing: its contract is the law.
ghost use Rattle.std.specs.Prelude.{◌≡◌, ◌-◌, ◌<◌, ◌≤◌, ◌↔◌, ℕ, List, length, None, Some};
ghost use Rattle.cn_choice.specs.declared.team.Team.{Team as TeamOf};
ghost use Rattle.cn_proto.specs.Plan.{IsPlan, Plan as PlanOf, protocol_of, processes_of};
ghost use Rattle.cn_proto.specs.Protocol.{ProtocolOfRounds};
ghost use Rattle.cn_proto.specs.Sound.{IsSound};
ghost use Rattle.cn_agree.specs.AtomicStep.{IsAtomic};
ghost use Rattle.cn_agree.specs.Consensus.{IsConsensus, IsSchedule};
ghost use Rattle.cn_agree.specs.Reached.{HasBegun, IsReached};
ghost use Rattle.cn_agree.specs.Rounds.{IsRound, KeepsConsensus, fixed_value};
ghost use Rattle.cn_agree.specs.Schedules.{all_begun, decisions_after, decisions_of};
ghost use Rattle.cn_agree.specs.Steps.{after_schedule, after_step};
ghost use Rattle.cn_agree.specs.World.{World, input_at, local_at};
ghost use Rattle.cn_agree.specs.declared.local.Local.TheVariants.{NotBegun};

use crate::round::Round;
use cn_proto::Plan;
use cn_proto::laws::{plan_protocols_are_sound, plans_are_sound};

/// A step is atomic: one action touches one object or one register. All else stays, except the
/// local state of the process and the record of the first application at the root. The next local
/// state, and the new content of what the action touched, depend only on the old local state and on
/// the old content.
pub fn atomic_steps<V>()
    // promise: atomic-steps (IsAtomic: one_action, local, shared)
    ensures { (P : ProtocolOfRounds) (p : ℕ) → IsAtomic V P p }
{}

/// Every schedule of a plan, with any inputs, ends in consensus: agreement, validity, and
/// wait-freedom within 4(n-1) steps of a process.
pub fn schedules_reach_consensus<V>(plan: &Plan)
    // promise: consensus-of-a-schedule
    ensures { (inputs : List V) (schedule : List ℕ) → length inputs ≡ processes_of plan.now
        → IsSchedule (processes_of plan.now) schedule
        → IsConsensus (protocol_of plan.now) (processes_of plan.now) inputs schedule
        (decisions_after plan.now inputs schedule) }
{
    plans_are_sound(plan);
}

/// The same law, for each plan as data.
pub fn plans_reach_consensus<V>()
    // promise: consensus-of-a-schedule
    ensures { (plan : PlanOf) → IsPlan plan
        → (inputs : List V) (schedule : List ℕ) → length inputs ≡ processes_of plan
        → IsSchedule (processes_of plan) schedule
        → IsConsensus (protocol_of plan) (processes_of plan) inputs schedule
        (decisions_after plan inputs schedule) }
{
    plan_protocols_are_sound();
}

/// The same law, for each sound protocol whose paths have no more places than there are nodes, one
/// fewer than processes: for any number of processes.
pub fn sound_protocols_reach_consensus<V>()
    // promise: witness-is-enough
    ensures { (P : ProtocolOfRounds) (n : ℕ) (team : ℕ → TeamOf) → IsSound P n (n - 1) team
        → ((p : ℕ) → p < n → length (P.path p) ≤ n - 1)
        → (inputs : List V) (schedule : List ℕ) → length inputs ≡ n → IsSchedule n schedule
        → IsConsensus P n inputs schedule
        (decisions_of (after_schedule P schedule (all_begun P (n - 1) inputs))) }
{}

/// Every round keeps consensus, for all steps of its processes so far:
///
/// - `consensus`: each decision is the fixed value, which a participant began with. It is there
///   exactly from the first application at the root on. A process has decided exactly after four
///   steps for each place of its path.
/// - `fixed`: the fixed value stays.
/// - `begun`, `stays_begun`: a process that has begun stays so, and has a value on record.
/// - `sizes`: a round has an entry for each node and each process.
// promise: decision-of-a-round
pub fn rounds_keep_consensus<V>()
    // promise: steps-of-a-process (KeepsConsensus: steps)
    ensures consensus { (P : ProtocolOfRounds) (n nodes : ℕ) (team : ℕ → TeamOf) (schedule : List ℕ)
        (w : World V) → IsSound P n nodes team → IsReached P n nodes schedule w
        → KeepsConsensus P n schedule w }
    ensures fixed { (P : ProtocolOfRounds) (n nodes : ℕ) (team : ℕ → TeamOf) (schedule : List ℕ)
        (w : World V) → IsSound P n nodes team → IsReached P n nodes schedule w
        → (p : ℕ) (x : V) → p < n → fixed_value w ≡ Some x
        → fixed_value (after_step P p w) ≡ Some x }
    ensures begun { (P : ProtocolOfRounds) (n nodes : ℕ) (team : ℕ → TeamOf) (schedule : List ℕ)
        (w : World V) → IsSound P n nodes team → IsReached P n nodes schedule w
        → (p : ℕ) → p < n → (local_at w p ≡ NotBegun) ↔ (input_at w p ≡ None) }
    ensures stays_begun { (P : ProtocolOfRounds) (n nodes : ℕ) (team : ℕ
        → TeamOf) (schedule : List ℕ)
        (w : World V) → IsSound P n nodes team → IsReached P n nodes schedule w
        → (p q : ℕ) → p < n → HasBegun w q → HasBegun (after_step P p w) q }
    ensures sizes { (P : ProtocolOfRounds) (n nodes : ℕ) (team : ℕ → TeamOf) (schedule : List ℕ)
        (w : World V) → IsSound P n nodes team → IsReached P n nodes schedule w
        → (length w.nodes ≡ nodes) × (length w.locals ≡ n) × (length w.inputs ≡ n) }
{}

/// Every round in memory is a round of a plan, after beginnings and the steps of a schedule. So
/// [`rounds_keep_consensus`] holds for it.
pub fn rounds_are_of_plans<V: Copy>(round: &Round<V>)
    // promise: rounds-are-of-plans
    ensures { IsRound round.now }
{
    let _ = &round.first;
}
