//! Laws of meetings. A law is a function that does nothing: its contract is the law.
ghost use Rattle.std.specs.Prelude.{ℕ, Bool, ◌≡◌, ◌≢◌, ◌↔◌, ◌<◌};
ghost use Rattle.cn_table.specs.TypeTable.{IsClosed, TypeTable};
ghost use Rattle.cn_choice.specs.Canonical.{Choice, raw_choice_of};
ghost use Rattle.cn_choice.specs.Discerning.{IsWitness};
ghost use Rattle.cn_unread.specs.Views.{IsSilent};
ghost use Rattle.cn_meetings.specs.Choices.{choice_meeting, choice_processes, choice_team, renamed};
ghost use Rattle.cn_meetings.specs.Division.{AreJoined, IsCoarser, IsFinest};
ghost use Rattle.cn_meetings.specs.Examples.{compare_and_swap, puts, quiet_bit, quiet_puts};
ghost use Rattle.cn_meetings.specs.Examples.{sticky_bit};
ghost use Rattle.cn_meetings.specs.Examples.{swaps};
ghost use Rattle.cn_meetings.specs.Meeting.{IsSightOf, Meeting, Sight, see};
ghost use Rattle.cn_meetings.specs.Meeting.Sight.{Response, State};
ghost use Rattle.cn_meetings.specs.Parting.{ArePart, IsPartingOf, Parting, parting_judge};
ghost use Rattle.cn_meetings.specs.Parting.{parting_meeting};
ghost use Rattle.cn_meetings.specs.Witness.{Has, IsTeamWitness, JudgesRight};

use cn_proto::laws::tournaments_are_sound;

/// A division is a witness exactly if joined processes are in one team. So the components of the
/// joined processes are a finest division, and the witnesses are the divisions that are coarser.
/// New here.
pub fn finest_division()
    // promise: finest-division (IsTeamWitness, AreJoined)
    ensures joined { (t : TypeTable) (M : Meeting) (processes : ℕ → Bool) (team : ℕ → ℕ)
        → IsTeamWitness t M processes team
        ↔ ((p q : ℕ) → AreJoined t M processes p q → team p ≡ team q) }
    // promise: finest-division (IsFinest)
    ensures finest { (t : TypeTable) (M : Meeting) (processes : ℕ → Bool) (n : ℕ)
        → ((p : ℕ) → Has processes p → p < n)
        → (team : ℕ → ℕ) × IsFinest t M processes team }
    // promise: finest-division (IsCoarser)
    ensures coarser { (t : TypeTable) (M : Meeting) (processes : ℕ → Bool) (finest team : ℕ → ℕ)
        → IsFinest t M processes finest
        → IsTeamWitness t M processes team ↔ IsCoarser team finest }
{}

/// A judgement that is right makes a witness, and every witness of a finite number of processes has
/// one.
pub fn witnesses_are_judged()
    // promise: witnesses-are-judged (JudgesRight)
    ensures judged { (t : TypeTable) (M : Meeting) (processes : ℕ → Bool) (team : ℕ → ℕ)
        (judge : ℕ → ℕ → ℕ → ℕ) → JudgesRight t M processes team judge
        → IsTeamWitness t M processes team }
    // promise: witnesses-are-judged
    ensures judgement { (t : TypeTable) (M : Meeting) (processes : ℕ → Bool) (n : ℕ) (team : ℕ → ℕ)
        → ((p : ℕ) → Has processes p → p < n) → IsTeamWitness t M processes team
        → (judge : ℕ → ℕ → ℕ → ℕ) × JudgesRight t M processes team judge }
{}

/// What keeps a witness, and what each has:
///
/// - `fewer_processes`: leaving out processes keeps a witness;
/// - `fewer_teams`: so does merging teams;
/// - `seeing_more`: and so does seeing more of the state;
/// - `one_operation`: two processes with one operation are in one team, if there is a third
///   process;
/// - `other_names`: other processes with the same operations and sights are a witness too.
pub fn witnesses_are_kept()
    // promise: kept-witnesses
    ensures fewer_processes { (t : TypeTable) (M : Meeting) (fewer processes : ℕ → Bool)
        (team : ℕ → ℕ) → ((p : ℕ) → Has fewer p → Has processes p)
        → IsTeamWitness t M processes team → IsTeamWitness t M fewer team }
    // promise: kept-witnesses
    ensures fewer_teams { (t : TypeTable) (M : Meeting) (processes : ℕ → Bool) (team merged : ℕ → ℕ)
        → IsTeamWitness t M processes team
        → IsTeamWitness t M processes (λ p. merged (team p)) }
    // promise: kept-witnesses (see)
    ensures seeing_more { (t : TypeTable) (M : Meeting) (sight : ℕ → Sight) (blur : ℕ → ℕ → ℕ)
        (processes : ℕ → Bool) (team : ℕ → ℕ)
        → ((p q : ℕ) → see t M p q ≡ blur p (see t (record M { sight = sight }) p q))
        → IsTeamWitness t M processes team
        → IsTeamWitness t (record M { sight = sight }) processes team }
    // promise: kept-witnesses
    ensures one_operation { (t : TypeTable) (M : Meeting) (processes : ℕ → Bool) (team : ℕ → ℕ)
        (p q third : ℕ) → IsTeamWitness t M processes team → Has processes p
        → Has processes q → Has processes third → p ≢ third → q ≢ third
        → M.operation p ≡ M.operation q → team p ≡ team q }
    // promise: kept-witnesses (renamed)
    ensures other_names { (t : TypeTable) (M : Meeting) (processes others : ℕ → Bool)
        (role team : ℕ → ℕ) → ((p : ℕ) → Has others p → Has processes (role p))
        → ((p q : ℕ) → Has others p → Has others q → role p ≡ role q → p ≡ q)
        → IsTeamWitness t M processes team
        → IsTeamWitness t (renamed role M) others (λ p. team (role p)) }
{}

/// The witnesses of choices (Ruppert, 2000) are those of two teams, with a read of each process.
pub fn witnesses_of_choices()
    // promise: witnesses-of-choices (IsWitness, IsTeamWitness)
    ensures { (t : TypeTable) (c : Choice) → IsWitness t (raw_choice_of c)
        → IsTeamWitness t (choice_meeting c) (choice_processes c) (choice_team c) }
{
    tournaments_are_sound();
}

/// Operations that part make a witness for any number of processes that apply them: each is in the
/// team of its operation, and judges right. New here.
pub fn parting_operations_are_told()
    // promise: parting-operations (ArePart)
    ensures { (t : TypeTable) (k : ℕ) (w : Parting) → ArePart t k w
        → (processes : ℕ → Bool) (team : ℕ → ℕ) → ((p : ℕ) → Has processes p → team p < k)
        → JudgesRight t (parting_meeting w team) processes team (parting_judge w team) }
{}

/// Examples of operations that part. Those of a sticky bit are told by the response. Those of a bit
/// that answers nothing are told by a read, and by a silent operation. Those of compare-and-swap
/// part in as many teams as it has values.
pub fn examples_of_parting_operations()
    // promise: examples-of-plan-trees
    ensures sticky_bit { ArePart sticky_bit 2 puts }
    // promise: examples-of-plan-trees
    ensures quiet_bit { ArePart quiet_bit 2 (quiet_puts State) }
    // promise: examples-of-plan-trees
    ensures silent_operation { ArePart quiet_bit 2 (quiet_puts (Response 2)) }
    // promise: examples-of-plan-trees
    ensures compare_and_swap { (k : ℕ) → ArePart (compare_and_swap k) k (swaps k) }
{}

/// These examples are closed types, with their operations.
pub fn examples_are_of_types()
    ensures sticky_bit { IsClosed sticky_bit × IsPartingOf sticky_bit 2 puts }
    ensures quiet_bit { (sight : Sight) → IsSightOf quiet_bit sight
        → IsClosed quiet_bit × IsPartingOf quiet_bit 2 (quiet_puts sight) }
    ensures silent_operation { IsSilent quiet_bit 2 }
    ensures compare_and_swap { (k : ℕ) → IsClosed (compare_and_swap k)
        × IsPartingOf (compare_and_swap k) k (swaps k) }
{}
