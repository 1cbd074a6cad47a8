//! Laws of lives. A law is a function that does nothing: its contract is the law.
//!
//! Each law is about every recording plan as data. A plan in memory is one, by the law
//! [`recording_plans_are_sound`](cn_lives::laws::recording_plans_are_sound).
ghost use Rattle.std.specs.Prelude.{ℕ, ◌≡◌, ◌<◌, ◌≤◌, ◌*◌, ◌-◌, ◌++◌, Bool, List, Option, length};
ghost use Rattle.std.specs.Prelude.{None};
ghost use Rattle.cn_proto.specs.Plan.{processes_of, protocol_of};
ghost use Rattle.cn_agree.specs.Consensus.{IsSchedule};
ghost use Rattle.cn_agree.specs.Schedules.{schedule_fault};
ghost use Rattle.cn_consensus.specs.Configuration.{Configuration, step};
ghost use Rattle.cn_consensus.specs.Types.{all_of};
ghost use Rattle.cn_crashes.specs.Execution.{Event as ModelEvent, IsExecution, NeverCrashes};
ghost use Rattle.cn_crashes.specs.Execution.{after_crash as crash, steps_of};
ghost use Rattle.cn_crashes.specs.RecoverableConsensus.{IsRecoverableConsensusProtocol};
ghost use Rattle.cn_crashes.specs.RecoverableRound.{RecoverableLocal};
ghost use Rattle.cn_crashes.specs.RecoverableWaitFreedom.{DecidesWithin};
ghost use Rattle.cn_lives.specs.Plans.{IsRecordingPlan, RecordingPlan};
ghost use Rattle.cn_lives.specs.Runs.{LiveBy, world_after};
ghost use Rattle.cn_lives.specs.Schedules.{named};
ghost use Rattle.cn_lives.specs.Steps.{World, after_crash, after_step};
ghost use Rattle.cn_lives.specs.declared.schedule.Event.{Event};
ghost use Rattle.cn_life_laws.specs.Consensus.{HasDecided, IsRecoverableConsensus};
ghost use Rattle.cn_life_laws.specs.Executions.{execution_of};
ghost use Rattle.cn_life_laws.specs.Mirrors.{Mirrors, configuration_after, inputs_of};
ghost use Rattle.cn_life_laws.specs.Mirrors.{lives_protocol};

use cn_proto::laws::tournaments_are_sound;

/// The protocol of every plan solves recoverable consensus, with at most 6(n-1) own steps in each
/// life, for n processes.
pub fn recording_plans_are_protocols()
    // promise: recording-plans-in-the-model (IsRecoverableConsensusProtocol)
    ensures consensus { (p : RecordingPlan) → IsRecordingPlan p
        → IsRecoverableConsensusProtocol (all_of p.plan.table) (processes_of p.plan)
        (lives_protocol p) }
    // promise: recording-plans-in-the-model (DecidesWithin)
    ensures bound { (p : RecordingPlan) → IsRecordingPlan p → (inputs : ℕ → Bool)
        → DecidesWithin (all_of p.plan.table) (processes_of p.plan) (lives_protocol p) inputs
        (6 * (processes_of p.plan - 1)) }
{
    tournaments_are_sound();
}

/// Lives step and crash as the protocol of their plan does. A configuration of the protocol mirrors
/// lives if it has their local states, objects and registers, with any meaning f of the values as
/// the two values of the protocol:
///
/// - `step`, `crash`: a step of a process leads from a configuration that mirrors the lives to one
///   that does, and so does a crash;
/// - `schedule`: so the configuration after every schedule mirrors the lives after it;
/// - `executions`: each execution of the protocol is that of a schedule.
pub fn lives_go_as_the_protocol()
    // promise: step-of-lives (Mirrors)
    ensures step { (p : RecordingPlan) (f : ℕ → Bool) (w : World)
        (c : Configuration RecoverableLocal (Option Bool)) (q : ℕ) → IsRecordingPlan p
        → LiveBy p w → q < processes_of p.plan → Mirrors p f w c
        → Mirrors p f (after_step p q w) (step (all_of p.plan.table) (lives_protocol p) c q) }
    // promise: step-of-lives (Mirrors)
    ensures crash { (p : RecordingPlan) (f : ℕ → Bool) (w : World)
        (c : Configuration RecoverableLocal (Option Bool)) (q : ℕ) → IsRecordingPlan p
        → LiveBy p w → q < processes_of p.plan → Mirrors p f w c
        → Mirrors p f (after_crash q w) (crash (lives_protocol p) (inputs_of f w.inputs) c q) }
    // promise: step-of-lives (Mirrors, configuration_after)
    ensures schedule { (p : RecordingPlan) (f : ℕ → Bool) (inputs : List ℕ) (schedule : List Event)
        → IsRecordingPlan p → length inputs ≡ processes_of p.plan
        → IsSchedule (processes_of p.plan) (named schedule)
        → Mirrors p f (world_after p inputs schedule) (configuration_after p f inputs schedule) }
    // promise: step-of-lives (execution_of)
    ensures executions { (n : ℕ) (execution : List ModelEvent) → IsExecution n execution
        → (schedule : List Event) × (execution_of schedule ≡ execution)
        × IsSchedule n (named schedule) }
{}

/// Every schedule of a plan, with any inputs, is consensus: agreement of all decisions that are
/// ever made, validity, and wait-freedom within 6(n-1) own steps in each life.
///
/// - `schedule`: this for inputs and a schedule of the processes of the plan;
/// - `run`: so it holds of all that [`run_lives`](cn_lives::run_lives) and
///   [`run_life_steps`](cn_lives::run_life_steps) run: what has no fault.
pub fn lives_reach_consensus()
    // promise: consensus-of-lives (IsRecoverableConsensus: agreement, validity, wait_free)
    ensures schedule { (p : RecordingPlan) (inputs : List ℕ) (schedule : List Event)
        → IsRecordingPlan p → length inputs ≡ processes_of p.plan
        → IsSchedule (processes_of p.plan) (named schedule)
        → IsRecoverableConsensus p inputs schedule }
    // promise: consensus-of-lives (schedule_fault, IsRecoverableConsensus)
    // promise: steps-of-lives
    ensures run { (p : RecordingPlan) (inputs : List ℕ) (schedule : List Event)
        → IsRecordingPlan p
        → schedule_fault (processes_of p.plan) inputs (named schedule) ≡ None
        → IsRecoverableConsensus p inputs schedule }
{
    tournaments_are_sound();
}

/// A process that takes 6 steps for each place of its own path without a crash of its own has
/// decided. So the texts that tell the [own steps](cn_plan_text::life_steps) of each process say
/// what every schedule keeps to.
pub fn lives_end_on_their_paths()
    // promise: own-steps-of-a-recording-plan (protocol_of, NeverCrashes, steps_of, HasDecided)
    ensures lives { (p : RecordingPlan) (inputs : List ℕ) (es us : List Event) → IsRecordingPlan p
        → length inputs ≡ processes_of p.plan → IsSchedule (processes_of p.plan) (named es)
        → IsSchedule (processes_of p.plan) (named us) → (q : ℕ) → q < processes_of p.plan
        → NeverCrashes q (execution_of us)
        → 6 * length ((protocol_of p.plan).path q) ≤ steps_of q (execution_of us)
        → (x : ℕ) × HasDecided p inputs (es ++ us) q x }
{
    tournaments_are_sound();
}
