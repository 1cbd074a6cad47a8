//! The laws that what is told is right.
//!
//! A law is a function that does nothing: its contract is the law.
ghost use Rattle.std.specs.Prelude.{◌≡◌, ◌↔◌, ◌+◌, ◌<◌, ◌≤◌, ℕ, Contains, IsTrue};
ghost use Rattle.cn_table.specs.TypeTable.{TypeTable};
ghost use Rattle.cn_choice.specs.Canonical.{Choice, raw_choice_of};
ghost use Rattle.cn_choice.specs.OutcomeSets.{InOutcomeSet};
ghost use Rattle.cn_choice.specs.RawChoices.{RawChoice};
ghost use Rattle.cn_choice.specs.declared.team.Team.{Team};
ghost use Rattle.cn_outcomes.specs.Twins.{AreTwins};
ghost use Rattle.cn_recover.specs.Recording.{IsRecordingWitness};
ghost use Rattle.cn_reasons.specs.Groups.{groups_of};
ghost use Rattle.cn_reasons.specs.NotRecording.{IsReason};
ghost use Rattle.cn_reasons.specs.Sights.{sees, sights};
ghost use Rattle.cn_reasons.specs.declared.group.Group.{Group};
ghost use Rattle.cn_reasons.specs.declared.reason.Reason.{Reason};

use cn_choice::laws::{pair_in_order, team_orders};

/// What an explanation tells that a process of the witness can see where a team is first are the
/// pairs of the team's outcome set for the process.
pub fn told_sights()
    // promise: told-pairs
    // promise: pairs-by-explain
    ensures { (t : TypeTable) (c : Choice) (team : Team) (j r q : ℕ)
        → IsTrue (sees t c team j r q) ↔ InOutcomeSet t (raw_choice_of c) team j (r, q) }
{
    team_orders();
    pair_in_order();
}

/// Neighbours of one team with the same operation can see the same, whichever team is first. So the
/// view of a group is that of each of its processes.
pub fn like_processes()
    // promise: told-pairs
    ensures twins { (t : TypeTable) (c : Choice) (p : ℕ) → AreTwins (raw_choice_of c) p
        → (team : Team) → sights t c team p ≡ sights t c team (p + 1) }
    // promise: told-pairs
    ensures group { (t : TypeTable) (c : Choice) (g : Group) → Contains (groups_of c) g
        → (p : ℕ) → g.first ≤ p → p < g.first + g.count
        → (team : Team) → sights t c team p ≡ sights t c team g.first }
{
    told_sights();
}

/// A choice with a reason is no recording witness.
pub fn reasons_refute()
    // promise: recording-reason (Reason, IsReason)
    ensures { (t : TypeTable) (c : RawChoice) (r : Reason) → IsReason t c r
        → ¬ IsRecordingWitness t c }
{}
