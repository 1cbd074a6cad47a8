//! Laws of divisions. A law is a function that does nothing: its contract is the law.
ghost use Rattle.std.specs.Prelude.{ℕ, List, ◌≡◌, ◌↔◌, ◌<◌, ◌≤◌};
ghost use Rattle.cn_table.specs.TypeTable.{TypeTable, transition};
ghost use Rattle.cn_meetings.specs.Division.{AreConnected as AreConnectedProcesses};
ghost use Rattle.cn_meetings.specs.Division.{AreJoined as AreJoinedProcesses, IsFinest};
ghost use Rattle.cn_meetings.specs.Meeting.{Meeting, Sight};
ghost use Rattle.cn_meetings.specs.Witness.{IsTeamWitness};
ghost use Rattle.cn_stocks.specs.Words.{HaveSame};
ghost use Rattle.cn_divisions.specs.Divisions.{HaveSight, IsFinestOf, IsMeetingOf, first};
ghost use Rattle.cn_divisions.specs.Divisions.{operations_of, teams_of};
ghost use Rattle.cn_divisions.specs.Joins.{AreConnected, AreJoined};
ghost use Rattle.cn_divisions.specs.Sizes.{AreSizes};

/// Where processes are joined, their operations are, in the stock of all their operations. From
/// three processes on they are in one component exactly if their operations are. Two processes with
/// one operation are so exactly if the second one gets the response of the first. New here.
pub fn divisions_are_of_operations()
    // promise: divisions-of-operations (AreJoined)
    ensures joined { (t : TypeTable) (M : Meeting) (n : ℕ) (sight : Sight) (stock : List ℕ)
        (p q : ℕ) → HaveSight M n sight → HaveSame stock (operations_of M n)
        → AreJoinedProcesses t M (first n) p q
        → AreJoined t sight M.start stock (M.operation p) (M.operation q) }
    // promise: divisions-of-operations (AreConnected)
    ensures connected { (t : TypeTable) (M : Meeting) (n : ℕ) (sight : Sight) (stock : List ℕ)
        (p q : ℕ) → 3 ≤ n → HaveSight M n sight → HaveSame stock (operations_of M n) → p < n
        → q < n → AreConnectedProcesses t M (first n) p q
        ↔ AreConnected t sight M.start stock (M.operation p) (M.operation q) }
    // promise: divisions-of-operations
    ensures two { (t : TypeTable) (M : Meeting) (o : ℕ) → M.operation 0 ≡ o → M.operation 1 ≡ o
        → AreConnectedProcesses t M (first 2) 0 1
        ↔ ((transition t o M.start).0 ≡ (transition t o (transition t o M.start).1).0) }
{}

/// Meetings that start alike, look alike and have the same stock of operations have finest
/// divisions of the same sizes, however the processes are named. New here.
pub fn stocks_have_sizes()
    // promise: sizes-of-stocks (IsFinestOf, AreSizes)
    ensures { (t : TypeTable) (sight : Sight) (n : ℕ) (M N : Meeting) (team other : ℕ → ℕ)
        (sizes : List ℕ) → 2 ≤ n → IsMeetingOf t sight n M → IsMeetingOf t sight n N
        → M.start ≡ N.start → HaveSame (operations_of N n) (operations_of M n)
        → IsFinestOf t M n team → IsFinestOf t N n other → AreSizes (teams_of other n) sizes
        → AreSizes (teams_of team n) sizes }
{}

/// The finest division of the first processes is a witness, and its coarser ones are all others.
pub fn finest_divisions_are_witnesses()
    // promise: finest-are-witnesses (IsTeamWitness)
    ensures witness { (t : TypeTable) (M : Meeting) (n : ℕ) (team : ℕ → ℕ)
        → IsFinestOf t M n team → IsTeamWitness t M (first n) team }
    // promise: finest-are-witnesses
    ensures coarser { (t : TypeTable) (M : Meeting) (n : ℕ) (finest team : ℕ → ℕ)
        → IsFinestOf t M n finest → IsTeamWitness t M (first n) team
        ↔ ((p q : ℕ) → p < n → q < n → finest p ≡ finest q → team p ≡ team q) }
    // promise: finest-are-witnesses (IsFinest)
    ensures finest { (t : TypeTable) (M : Meeting) (n : ℕ) (team : ℕ → ℕ)
        → IsFinest t M (first n) team → IsFinestOf t M n team }
{}
