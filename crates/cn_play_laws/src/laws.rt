//! Laws of told plays. A law is a function that does nothing: its contract is the law.
ghost use Rattle.std.specs.Prelude.{◌≡◌, ℕ, List, Bool, length};
ghost use Rattle.cn_table.specs.TypeTable.{TypeTable};
ghost use Rattle.cn_choice.specs.RawChoices.{IsRawChoice, RawChoice};
ghost use Rattle.cn_consensus.specs.Configuration.{Configuration, initial};
ghost use Rattle.cn_consensus.specs.Protocol.{Action, IsActionOf, IsProtocolOf, Protocol};
ghost use Rattle.cn_consensus.specs.Types.{all_of};
ghost use Rattle.cn_play_laws.specs.ToldRuns.{KeepsResponses, LooksTheSame, TakeBoth, two_runs_to};
ghost use Rattle.cn_reasons.specs.declared.runs.Step.{Step};
ghost use Rattle.cn_runs.specs.Plays.{play_protocol, processes};
ghost use Rattle.cn_unread_reasons.specs.Plays.{AreRunsTo};
ghost use Rattle.cn_unread_reasons.specs.declared.play.PlayEnd.{PlayEnd};

/// No protocol tells two runs apart that are told of a choice: if its processes take their steps of
/// both at an object in the start state, it makes both runs in the model. Behind both, the process
/// of their end decides the same, however long it goes on alone.
pub fn told_runs_look_the_same<L, V>()
    // promise: told-runs
    ensures { (t : ℕ → TypeTable) (P : Protocol L V) (i : ℕ) (d : Configuration L V) (c : RawChoice)
        (a b : List Step) (end : PlayEnd) → AreRunsTo (t i) c a b end → d.objects i ≡ c.state
        → TakeBoth P i d (two_runs_to c a b end)
        → LooksTheSame t P i d (two_runs_to c a b end) }
{}

/// There is such a protocol: one whose processes keep the responses that they get, whatever its
/// registers hold and whatever a process does where the runs tell no next step.
pub fn told_runs_have_a_protocol<V>()
    // promise: told-runs
    ensures takes { (t : TypeTable) (c : RawChoice) (a b : List Step) (end : PlayEnd) (held : ℕ → V)
        (rest : ℕ → List ℕ → Action (List ℕ) V) (inputs : ℕ → Bool) → AreRunsTo t c a b end
        → let p = two_runs_to c a b end in
        let P = play_protocol held rest p in
        TakeBoth P 0 (initial P inputs) p }
    // promise: told-runs
    ensures a_first { (t : TypeTable) (c : RawChoice) (a b : List Step) (end : PlayEnd)
        (held : ℕ → V) (rest : ℕ → List ℕ → Action (List ℕ) V) (inputs : ℕ → Bool)
        → AreRunsTo t c a b end
        → let p = two_runs_to c a b end in
        let P = play_protocol held rest p in
        KeepsResponses (all_of t) P (processes p) (initial P inputs) p.a_first }
    // promise: told-runs
    ensures b_first { (t : TypeTable) (c : RawChoice) (a b : List Step) (end : PlayEnd)
        (held : ℕ → V) (rest : ℕ → List ℕ → Action (List ℕ) V) (inputs : ℕ → Bool)
        → AreRunsTo t c a b end
        → let p = two_runs_to c a b end in
        let P = play_protocol held rest p in
        KeepsResponses (all_of t) P (processes p) (initial P inputs) p.b_first }
    // promise: told-runs
    ensures protocol { (t : TypeTable) (c : RawChoice) (a b : List Step) (end : PlayEnd)
        (held : ℕ → V) (rest : ℕ → List ℕ → Action (List ℕ) V) → AreRunsTo t c a b end
        → IsRawChoice t (length c.operations) c
        → ((j : ℕ) (got : List ℕ) → IsActionOf (all_of t) (rest j got))
        → IsProtocolOf (all_of t) (length c.operations)
        (play_protocol held rest (two_runs_to c a b end)) }
{}
