//! What a step and a crash change, and what they leave.
ghost use Rattle.std.specs.Prelude.{◌≡◌, ◌≢◌, ℕ, [], ◌∷◌, Bool, Some};
ghost use Rattle.cn_table.specs.TypeTable.{TypeTable};
ghost use Rattle.cn_consensus.specs.Configuration.{Configuration, decision, initial, perform, step};
ghost use Rattle.cn_consensus.specs.Consensus.{IsSchedule};
ghost use Rattle.cn_consensus.specs.Protocol.{Action, Protocol};
ghost use Rattle.cn_crashes.specs.Execution.{IsExecution, after_crash};
ghost use Rattle.cn_crashes.specs.Execution.Event.{Crash, Step};
ghost use Rattle.cn_runs.specs.Steps.{ReadsObject, TouchesOne};

/// A step touches one register alone or one object alone.
pub fn steps_touch_one<L, V>()
    // promise: steps-in-the-model
    ensures { (t : ℕ → TypeTable) (p : ℕ) (a : Action L V) → TouchesOne t p a }
{}

/// A read of an object leaves all objects as they were.
pub fn reads_leave_objects<L, V>()
    // promise: steps-in-the-model
    ensures { (t : ℕ → TypeTable) (c : Configuration L V) (p : ℕ) (a : Action L V) (j : ℕ)
        → ReadsObject a → (perform t c p a).objects j ≡ c.objects j }
{}

/// A decision stays, whoever takes the next step.
pub fn decisions_stay<L, V>()
    // promise: steps-in-the-model
    ensures { (t : ℕ → TypeTable) (P : Protocol L V) (c : Configuration L V) (p q : ℕ) (x : Bool)
        → decision P c p ≡ Some x → decision P (step t P c q) p ≡ Some x }
{}

/// A schedule may repeat a process. Each process may crash, also twice.
// promise: steps-in-the-model
pub fn processes_may_repeat()
    ensures steps { IsSchedule 2 (0 ∷ 0 ∷ 1 ∷ 0 ∷ []) }
    ensures crashes { IsExecution 2 (Step 0 ∷ Crash 0 ∷ Step 1 ∷ Crash 1 ∷ Crash 0 ∷ []) }
{}

/// A crash leaves the registers, the objects and the other processes as they are, and puts the
/// process into its first local state with the same input.
pub fn crashes_forget_the_local_state<L, V>()
    // promise: crashes-in-the-model
    ensures registers { (P : Protocol L V) (inputs : ℕ → Bool) (c : Configuration L V) (p i : ℕ)
        → (after_crash P inputs c p).registers i ≡ c.registers i }
    // promise: crashes-in-the-model
    ensures objects { (P : Protocol L V) (inputs : ℕ → Bool) (c : Configuration L V) (p i : ℕ)
        → (after_crash P inputs c p).objects i ≡ c.objects i }
    // promise: crashes-in-the-model
    ensures others { (P : Protocol L V) (inputs : ℕ → Bool) (c : Configuration L V) (p q : ℕ)
        → q ≢ p → (after_crash P inputs c p).locals q ≡ c.locals q }
    // promise: crashes-in-the-model
    ensures local { (P : Protocol L V) (inputs : ℕ → Bool) (c : Configuration L V) (p : ℕ)
        → (after_crash P inputs c p).locals p ≡ P.start p (inputs p) }
{}
