//! What processes get by further operations.
ghost use Rattle.std.specs.Prelude.{◌≡◌, ◌≢◌, ◌++◌, ◌↔◌, All, AllPairs, Contains, IfOk, IsTrue, List, OnOk};
ghost use Rattle.std.specs.List.{AllZip};
ghost use Rattle.cn_table.specs.TypeTable.{TypeTable};
ghost use Rattle.cn_choice.specs.Canonical.{Choice as ChoiceOf};
ghost use Rattle.cn_further.specs.FurtherSights.{AreFurtherSights, IsKnownSight};
ghost use Rattle.cn_further.specs.declared.follow_up.FollowUp.{FollowUp as FollowUpOf};
ghost use Rattle.cn_reasons.specs.Groups.{choice_groups, groups_of};
ghost use Rattle.cn_reasons.specs.Known.{IsKnownChoice, IsKnownGroup};
ghost use Rattle.cn_reasons.specs.declared.group.Group.{Group as GroupOf};
ghost use Rattle.cn_unread_reasons.specs.FurtherViews.{IsFurtherViewOf, IsToldOf, further_sight};
ghost use Rattle.cn_unread_reasons.specs.Known.{IsKnownUnreadSight, IsKnownUnreadView};
ghost use Rattle.cn_unread_reasons.specs.declared.sight.UnreadSight.{UnreadSight as Told};

use crate::sight::{Answer, UnreadSight, push_new};
use crate::witness::UnreadView;
use arrayvec::ArrayVec;
use cn_choice::Team;
use cn_further::FurtherSight;
use cn_reasons::{ChoiceGroups, Group};
use std::alloc::{AllocError, Global};

/// What a process gets that has got this.
fn told(sight: FurtherSight) -> UnreadSight
    ensures told { result ≡ further_sight sight }
    ensures known { (t : TypeTable) → IsKnownSight t sight → IsKnownUnreadSight t result }
{
    let mut answers = ArrayVec::new();
    if let Some(answer) = sight.further {
        answers.push(Answer {
            operation: answer.operation,
            response: answer.response,
        });
    }
    UnreadSight {
        response: sight.response,
        answers,
    }
}

/// Whether it is of the process, where the team is first.
fn is_of(sight: FurtherSight, team: Team, process: u8) -> bool
    ensures { IsTrue result ↔ ((sight.process ≡ process) × (sight.first ≡ team)) }
{
    sight.process == process && sight.first == team
}

/// What the process gets where the team is first, each once, in the order of the list.
fn sights_of(
    alloc: Global,
    sights: &[FurtherSight],
    team: Team,
    process: u8,
) -> Result<Vec<UnreadSight>, AllocError>
    ensures same { IfOk result (λ list.
        (s : Told) → Contains list.items s ↔ IsToldOf sights.now team process s) }
    ensures once { IfOk result (λ list. AllPairs (λ x y. x ≢ y) list.items) }
    ensures known { (t : TypeTable) → All (IsKnownSight t) sights.now
        → IfOk result (λ list. All (IsKnownUnreadSight t) list.items) }
{
    let mut list = Vec::new(alloc);
    for sight in sights {
        if is_of(*sight, team, process) {
            push_new(&mut list, told(*sight))?;
        }
    }
    Ok(list)
}

/// What each process of a group gets.
fn view_of(alloc: Global, sights: &[FurtherSight], group: Group) -> Result<UnreadView, AllocError>
    ensures view { (t : TypeTable) (c : ChoiceOf) (follow_ups : List FollowUpOf)
        → AreFurtherSights t c follow_ups sights.now
        → IfOk result (IsFurtherViewOf t follow_ups c group) }
    ensures known { (t : TypeTable) → All (IsKnownSight t) sights.now → IsKnownGroup t group
        → IfOk result (IsKnownUnreadView t) }
{
    let a_first = sights_of(alloc, sights, Team::A, group.first)?;
    let b_first = sights_of(alloc, sights, Team::B, group.first)?;
    Ok(UnreadView {
        group,
        a_first,
        b_first,
    })
}

/// Appends the views of these groups.
fn push_views(
    views: &mut Vec<UnreadView>,
    alloc: Global,
    sights: &[FurtherSight],
    groups: &[Group],
) -> Result<(), AllocError>
    ensures views { (t : TypeTable) (c : ChoiceOf) (follow_ups : List FollowUpOf)
        (before : List GroupOf) → AreFurtherSights t c follow_ups sights.now
        → AllZip (IsFurtherViewOf t follow_ups c) before views.old.items
        → OnOk result (AllZip (IsFurtherViewOf t follow_ups c) (before ++ groups.now)
        views.new.items) }
    ensures known { (t : TypeTable) → All (IsKnownSight t) sights.now
        → All (IsKnownGroup t) groups.now → All (IsKnownUnreadView t) views.old.items
        → OnOk result (All (IsKnownUnreadView t) views.new.items) }
{
    for group in groups {
        views.push(view_of(alloc, sights, *group)?)?;
    }
    Ok(())
}

/// The views of the groups of the choice, from what all processes can have got.
pub(crate) fn further_views(
    alloc: Global,
    sights: &[FurtherSight],
    groups: &ChoiceGroups,
) -> Result<Vec<UnreadView>, AllocError>
    ensures views { (t : TypeTable) (c : ChoiceOf) (follow_ups : List FollowUpOf)
        → AreFurtherSights t c follow_ups sights.now → groups.now ≡ choice_groups c
        → IfOk result (λ views. AllZip (IsFurtherViewOf t follow_ups c) (groups_of c) views.items) }
    ensures known { (t : TypeTable) → All (IsKnownSight t) sights.now → IsKnownChoice t groups.now
        → IfOk result (λ views. All (IsKnownUnreadView t) views.items) }
{
    let mut views = Vec::new(alloc);
    push_views(&mut views, alloc, sights, groups.a.as_slice())?;
    push_views(&mut views, alloc, sights, groups.b.as_slice())?;
    Ok(views)
}
