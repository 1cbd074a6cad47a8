//! Laws of tables whose objects are not read. A law is a function that does nothing: its contract is
//! the law.
ghost use Rattle.std.specs.Prelude.{◌≡◌, ◌≢◌, ◌≤◌, ◌<◌, ◌↔◌, ℕ, Bool, IsTrue, List, Some};
ghost use Rattle.std.specs.Prelude.{slice_get, slice_index};
ghost use Rattle.cn_table.specs.TypeTable.{IsClosed, TypeTable};
ghost use Rattle.cn_choice.specs.Canonical.{Choice, IsCanonical, raw_choice_of};
ghost use Rattle.cn_choice.specs.Discerning.{IsDiscerning, IsWitness};
ghost use Rattle.cn_choice.specs.GreatestNumbers.{PassesDown};
ghost use Rattle.cn_choice.specs.RawChoices.{IsRawChoice, RawChoice};
ghost use Rattle.cn_choice.specs.declared.team.Team.{Team};
ghost use Rattle.cn_choice.specs.declared.team.Team.TheVariants.{A, B};
ghost use Rattle.cn_unread.specs.AddedReads.{AddsRead, with_read};
ghost use Rattle.cn_unread.specs.Certificates.{AreScenes, AreSignSets, SignSets};
ghost use Rattle.cn_unread.specs.Collects.{AreLooks, IsVisibleFor};
ghost use Rattle.cn_unread.specs.Defended.{HoldsWithin, IsDefended, IsDefendedFor, Position};
ghost use Rattle.cn_unread.specs.Examples.{queue_1};
ghost use Rattle.cn_unread.specs.Lasting.{LastsByResponses};
ghost use Rattle.cn_unread.specs.Nodes.{IsNode, Node, Scene};
ghost use Rattle.cn_unread.specs.Signs.{AreSigns, Signs};
ghost use Rattle.cn_unread.specs.Telling.{LooksTellStates, ResponsesTellStates};
ghost use Rattle.cn_unread.specs.Traps.{CatchesAll, IsTrap};
ghost use Rattle.cn_unread.specs.Types.{AnswersNothing};
ghost use Rattle.cn_unread.specs.Undisturbed.{IsUnreadDiscerning, IsUnreadWitness};
ghost use Rattle.cn_unread.specs.Views.{IsViewDiscerning};

use cn_choice::laws::{coverage, witnesses_are_live};

/// A type that is defended for n processes, 3 or more, is defended for n - 1. The game is new here.
pub fn fewer_are_defended()
    // promise: fewer-are-defended (IsDefendedFor)
    ensures { (t : TypeTable) → PassesDown (IsDefendedFor t) }
{}

/// Traps refute. From each position of a trap the adversary can move to one of the trap again,
/// whatever the protocol chooses:
///
/// - `position`: so in no position of a trap a protocol holds out;
/// - `all`: and where each choice for n processes has a start in one trap, the type is not defended
///   for n.
///
/// Traps are new here.
pub fn traps_refute()
    // promise: traps-refute (IsTrap)
    ensures position { (t : TypeTable) (n : ℕ) (H : Position → Bool)
        → IsTrap t n (λ x. IsTrue (H x)) → (k : ℕ) (x : Position) → IsTrue (H x)
        → ¬ HoldsWithin t n k x }
    // promise: traps-refute (CatchesAll)
    ensures all { (t : TypeTable) (n : ℕ) (H : Position → Bool)
        → IsTrap t n (λ x. IsTrue (H x)) → CatchesAll t n (λ x. IsTrue (H x))
        → ¬ IsDefendedFor t n }
{}

/// What is defended is told without reads, and what is told without reads is told with them:
///
/// - `unread`: a choice that is defended is a witness without reads;
/// - `witness`: a witness without reads is a witness (Ruppert, 2000, for witnesses);
/// - `numbers`: so a type that is defended for n is n-discerning, without reads too.
///
/// So only choices that pass these tests need be played. Witnesses without reads are new here.
pub fn defended_choices_are_witnesses()
    // promise: defended-choices-are-witnesses (IsUnreadWitness)
    ensures unread { (t : TypeTable) (n : ℕ) (c : RawChoice) → IsRawChoice t n c → IsDefended t c
        → IsUnreadWitness t c }
    // promise: defended-choices-are-witnesses
    ensures witness { (t : TypeTable) (c : RawChoice) → IsUnreadWitness t c → IsWitness t c }
    // promise: defended-choices-are-witnesses (IsUnreadDiscerning)
    ensures numbers { (t : TypeTable) (n : ℕ) → IsDefendedFor t n
        → IsUnreadDiscerning t n × IsDiscerning t n }
{}

/// A type whose operations answer nothing is defended for no number of processes. Without reads it
/// is of no use beside registers, whatever its states are.
pub fn answers_are_needed()
    // promise: answers-are-needed (AnswersNothing)
    ensures { (t : TypeTable) (n : ℕ) → IsClosed t → AnswersNothing t → ¬ IsDefendedFor t n }
{}

/// In a witness without reads for 3 processes or more, so in a choice for as many that is defended,
/// no operation is in both teams. New here; with reads it is not so.
pub fn teams_share_no_operation()
    // promise: teams-share-no-operation
    ensures { (t : TypeTable) (n : ℕ) (c : RawChoice) → 3 ≤ n → IsRawChoice t n c
        → IsUnreadWitness t c → (a b : ℕ) → a < n → b < n → slice_get c.marks a ≡ Some A
        → slice_get c.marks b ≡ Some B
        → slice_index c.operations a ≢ slice_index c.operations b }
{}

/// Canonical choices are enough: a choice that is defended has a canonical form that is.
pub fn canonical_choices_are_enough()
    // promise: canonical-defended-choices (IsCanonical)
    ensures { (t : TypeTable) (n : ℕ) (c : RawChoice) → IsRawChoice t n c → IsDefended t c
        → (d : Choice) × IsCanonical d × IsRawChoice t n (raw_choice_of d)
        × IsDefended t (raw_choice_of d) }
{
    coverage();
}

/// Where views tell the teams of a choice for n processes apart, 3 or more, they do for n - 1.
/// Ruppert, 2000, tells teams apart by responses and states; a view is in place of the state.
pub fn views_tell_fewer()
    // promise: views-tell-fewer (IsViewDiscerning)
    ensures { (t : TypeTable) → PassesDown (IsViewDiscerning t) }
{}

/// Where views tell the teams of a choice for n processes apart, the type is defended for n: what is
/// found from below is not above what is found from above. New here.
pub fn views_are_defended()
    // promise: views-are-defended
    ensures { (t : TypeTable) (n : ℕ) → IsClosed t → IsViewDiscerning t n → IsDefendedFor t n }
{}

/// Nothing is lost without reads: a discerning type is visible for as many processes,
///
/// - `responses`: where an operation that gets one response leads to one state, as read-modify-write
///   operations do (Ruppert, 2000);
/// - `looks`: where operations that change nothing tell the state, one of them or several together.
///
/// So these types have one number, with reads and without. New here but for what is cited.
pub fn telling_types_need_no_reads()
    // promise: telling-types (ResponsesTellStates, IsVisibleFor)
    ensures responses { (t : TypeTable) (n : ℕ) → IsClosed t → ResponsesTellStates t
        → IsDiscerning t n → IsVisibleFor t n }
    // promise: telling-types (LooksTellStates)
    ensures looks { (t : TypeTable) (n : ℕ) (looks : List ℕ) → IsClosed t → AreLooks t looks
        → LooksTellStates t looks → IsDiscerning t n → IsVisibleFor t n }
{}

/// Where responses tell for good whether a single operation was first, views tell the teams of a
/// choice apart for any number of processes: one does the single operation, all others the other.
/// New here.
pub fn lasting_responses_tell_any_number()
    // promise: lasting-responses (LastsByResponses)
    ensures { (t : TypeTable) (start many single : ℕ) → LastsByResponses t start many single
        → (n : ℕ) → 2 ≤ n → IsViewDiscerning t n }
{}

/// Closed sets, which a program can list, are enough:
///
/// - `scenes`: a set of scenes that moves do not leave, in which a role that has finished tells the
///   team that was first, and a number that falls with each operation, make a node;
/// - `states`: sets of states that operations do not leave make signs.
///
/// Nodes and signs are new here.
pub fn closed_sets_are_enough()
    // promise: closed-sets-are-enough (AreScenes)
    ensures scenes { (t : TypeTable) (a b : ℕ) (node : Node) (has : Team → Scene → Bool)
        (left : ℕ → ℕ × ℕ → ℕ) (bound : ℕ) → AreScenes t a b node has left bound
        → IsNode t a b node }
    // promise: closed-sets-are-enough (AreSignSets)
    ensures states { (t : TypeTable) (w : Signs) (e : SignSets) → AreSignSets t w e
        → AreSigns t w }
{}

/// Some closed type has signs: a sticky bit (Plotkin, 1989) whose writes answer nothing, with an
/// operation that changes nothing and answers the bit.
pub fn some_type_has_signs()
    // promise: signs-are-enough
    ensures { (t : TypeTable) × (w : Signs) × IsClosed t × AreSigns t w }
{}

/// A queue with room for one letter (Herlihy, 1991):
///
/// - `closed`: it is a closed type;
/// - `views`: its responses tell the teams of a choice for two processes apart;
/// - `undefended`: but it is not defended for three;
/// - `discerning`: with reads it is n-discerning for each n from 2 on.
pub fn queue_of_one()
    // promise: queue-of-one-place
    ensures closed { IsClosed queue_1 }
    // promise: queue-of-one-place
    ensures views { IsViewDiscerning queue_1 2 }
    // promise: queue-of-one-place
    ensures undefended { ¬ IsDefendedFor queue_1 3 }
    // promise: queue-of-one-place
    ensures discerning { (n : ℕ) → 2 ≤ n → IsDiscerning queue_1 n }
{}

/// A type with a read as one more operation (readable types: Ruppert, 2000):
///
/// - `adds`: there is one for each type;
/// - `closed`: it is closed if the type is;
/// - `discerning`: it is discerning for as many processes as the type;
/// - `views`: views tell the teams apart for as many, since the read is one.
pub fn added_reads()
    // promise: added-reads (AddsRead)
    ensures adds { (t : TypeTable) → AddsRead t (with_read t) }
    // promise: added-reads
    ensures closed { (t u : TypeTable) → IsClosed t → AddsRead t u → IsClosed u }
    // promise: added-reads
    ensures discerning { (t u : TypeTable) (n : ℕ) → IsClosed t → AddsRead t u
        → IsDiscerning t n ↔ IsDiscerning u n }
    // promise: added-reads
    ensures views { (t u : TypeTable) (n : ℕ) → IsClosed t → AddsRead t u → IsDiscerning t n
        → IsViewDiscerning u n }
{
    witnesses_are_live();
}
