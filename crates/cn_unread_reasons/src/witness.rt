//! Choices whose teams processes tell apart without reads, with what each process gets.
ghost use Rattle.std.specs.Prelude.{◌≡◌, ◌≤◌, ◌+◌, ◌<◌, ◌++◌, ◌↔◌, All, IfOk, IfSome, IsSome, IsTrue, List, OnOk, length};
ghost use Rattle.std.specs.List.{AllZip};
ghost use Rattle.cn_table.specs.declared.limits.TheConstants.{MOST_OPERATIONS};
ghost use Rattle.cn_choice.specs.Canonical.{FitsTable, raw_choice_of};
ghost use Rattle.cn_choice.specs.RawChoices.{IsRawChoice};
ghost use Rattle.cn_choice.specs.declared.limits.TheConstants.{MOST_PROCESSES};
ghost use Rattle.cn_further.specs.FurtherNodes.{TellsFirst};
ghost use Rattle.cn_reasons.specs.Groups.{AreWithin, choice_groups, groups_of};
ghost use Rattle.cn_reasons.specs.Known.{IsKnownChoice, IsKnownGroup};
ghost use Rattle.cn_reasons.specs.declared.group.Group.{Group as GroupOf};
ghost use Rattle.cn_unread_reasons.specs.Known.{IsKnownFollowUp, IsKnownUnreadView, IsKnownUnreadWitness};
ghost use Rattle.cn_unread_reasons.specs.UnreadWitnesses.{IsUnreadViewOf, IsUnreadWitnessOf, numbers_of};
ghost use Rattle.cn_views.specs.VisibleChoices.{SomeLooksTell};

use crate::further_views::further_views;
use crate::sight::{UnreadSight, unread_sights};
use cn_choice::laws::choice_by_teams;
use cn_choice::{Choice, Team};
use cn_further::{FollowUp, Further};
use cn_reasons::{ChoiceGroups, Group, choice_groups};
use cn_table::{Operation, Table};
use cn_views::Looks;
use std::alloc::{AllocError, Global};

/// What each process of a group gets, by the team that moves first.
#[derive(Drop)]
pub struct UnreadView {
    /// The group.
    pub group: Group,
    /// What they can get where a process of team A is first.
    pub a_first: Vec<UnreadSight>,
    /// The same where a process of team B is first.
    pub b_first: Vec<UnreadSight>,
}

/// A choice, and what its processes get: no process can get the same where team A is first and where
/// team B is.
#[derive(Drop)]
pub struct UnreadWitness {
    /// The number of processes.
    pub processes: u8,
    /// The choice.
    pub choice: ChoiceGroups,
    /// The operations that change nothing, ascending: each process does them after its own one. None
    /// where further operations tell the teams apart.
    pub looks: Vec<Operation>,
    /// What processes do next where further operations tell the teams apart; else none.
    pub follow_ups: Vec<FollowUp>,
    /// The views of its groups: of those of team A, and then of those of team B.
    pub views: Vec<UnreadView>,
}

/// What each process of a group gets.
fn view_of(
    alloc: Global,
    table: &Table,
    looks: &[u8],
    choice: &Choice,
    group: Group,
) -> Result<UnreadView, AllocError>
    requires looks { All (λ o. o < length table.now.operations) looks.now }
    requires few { length looks.now ≤ MOST_OPERATIONS }
    requires fits { FitsTable table.now choice.now }
    requires process { group.first < length choice.now.a + length choice.now.b }
    requires known { IsKnownGroup table.now group }
    ensures view { IfOk result (IsUnreadViewOf table.now looks.now choice.now group) }
    ensures known { IfOk result (IsKnownUnreadView table.now) }
{
    let a_first = unread_sights(alloc, table, looks, choice, Team::A, group.first)?;
    let b_first = unread_sights(alloc, table, looks, choice, Team::B, group.first)?;
    Ok(UnreadView {
        group,
        a_first,
        b_first,
    })
}

/// Appends the views of these groups.
fn push_views(
    views: &mut Vec<UnreadView>,
    alloc: Global,
    table: &Table,
    looks: &[u8],
    choice: &Choice,
    groups: &[Group],
) -> Result<(), AllocError>
    requires looks { All (λ o. o < length table.now.operations) looks.now }
    requires few { length looks.now ≤ MOST_OPERATIONS }
    requires fits { FitsTable table.now choice.now }
    requires within { All (λ g. g.first < length choice.now.a + length choice.now.b) groups.now }
    requires known { All (IsKnownGroup table.now) groups.now }
    requires so_far { All (IsKnownUnreadView table.now) views.old.items }
    ensures views { (before : List GroupOf)
        → AllZip (IsUnreadViewOf table.now looks.now choice.now) before views.old.items
        → OnOk result (AllZip (IsUnreadViewOf table.now looks.now choice.now)
        (before ++ groups.now) views.new.items) }
    ensures known { OnOk result (All (IsKnownUnreadView table.now) views.new.items) }
{
    for group in groups {
        views.push(view_of(alloc, table, looks, choice, *group)?)?;
    }
    Ok(())
}

/// The views of the groups of the choice.
fn views_of(
    alloc: Global,
    table: &Table,
    looks: &[u8],
    choice: &Choice,
    groups: &ChoiceGroups,
) -> Result<Vec<UnreadView>, AllocError>
    requires looks { All (λ o. o < length table.now.operations) looks.now }
    requires few { length looks.now ≤ MOST_OPERATIONS }
    requires fits { FitsTable table.now choice.now }
    requires known { IsKnownChoice table.now groups.now }
    requires within { AreWithin (length choice.now.a + length choice.now.b) groups.now }
    requires groups { groups.now ≡ choice_groups choice.now }
    ensures views { IfOk result (λ views.
        AllZip (IsUnreadViewOf table.now looks.now choice.now) (groups_of choice.now) views.items) }
    ensures known { IfOk result (λ views. All (IsKnownUnreadView table.now) views.items) }
{
    let mut views = Vec::new(alloc);
    push_views(&mut views, alloc, table, looks, choice, groups.a.as_slice())?;
    push_views(&mut views, alloc, table, looks, choice, groups.b.as_slice())?;
    Ok(views)
}

/// The operations with these numbers.
fn operations_of(alloc: Global, numbers: &[u8]) -> Result<Vec<Operation>, AllocError>
    ensures { IfOk result (λ operations. numbers_of operations.items ≡ numbers.now) }
{
    let mut operations = Vec::new(alloc);
    for number in numbers {
        operations.push(Operation(*number))?;
    }
    Ok(operations)
}

/// The choice for n processes, whose teams operations that change nothing tell apart, with what each
/// process gets.
pub(crate) fn visible_witness(
    alloc: Global,
    table: &Table,
    choice: &Choice,
    n: u8,
) -> Result<UnreadWitness, AllocError>
    requires some { 2 ≤ n }
    requires few { n ≤ MOST_PROCESSES }
    requires fits { IsRawChoice table.now n (raw_choice_of choice.now) }
    requires told { SomeLooksTell table.now (raw_choice_of choice.now) }
    ensures witness { IfOk result (IsUnreadWitnessOf table.now n) }
    ensures known { IfOk result (IsKnownUnreadWitness table.now) }
{
    let looks = Looks::of(table);
    let groups = choice_groups(table, choice);
    let operations = operations_of(alloc, looks.operations.as_slice())?;
    let views = views_of(alloc, table, looks.operations.as_slice(), choice, &groups)?;
    Ok(UnreadWitness {
        processes: n,
        choice: groups,
        looks: operations,
        follow_ups: Vec::new(alloc),
        views,
    })
}

/// Whether the operations and the response are the table's.
fn is_known(table: &Table, follow_up: FollowUp) -> bool
    ensures { IsTrue result ↔ IsKnownFollowUp table.now follow_up }
{
    follow_up.operation.0 < table.operations()
        && follow_up.response.0 < table.responses()
        && follow_up.further.0 < table.operations()
}

/// Whether the operations and responses of all are the table's.
fn are_known(table: &Table, follow_ups: &[FollowUp]) -> bool
    ensures { IsTrue result ↔ All (IsKnownFollowUp table.now) follow_ups.now }
{
    follow_ups
        .iter()
        .all(|follow_up| is_known(table, *follow_up))
}

/// The choice for n processes, whose teams further operations tell apart, with what each process
/// gets. None if a follow-up is for an operation or a response that the table does not have.
pub(crate) fn further_witness(
    alloc: Global,
    table: &Table,
    further: Further,
    n: u8,
) -> Result<Option<UnreadWitness>, AllocError>
    requires some { 2 ≤ n }
    requires few { n ≤ MOST_PROCESSES }
    requires told { TellsFirst table.now n further.choice further.follow_ups.items }
    ensures witness { IfOk result (λ found. IfSome found (IsUnreadWitnessOf table.now n)) }
    ensures known { IfOk result (λ found. IfSome found (IsKnownUnreadWitness table.now)) }
    ensures found { All (IsKnownFollowUp table.now) further.follow_ups.items
        → IfOk result (λ found. IsSome found) }
{
    choice_by_teams();
    if !are_known(table, further.follow_ups.as_slice()) {
        return Ok(None);
    }
    let groups = choice_groups(table, &further.choice);
    let sights = further.sights(alloc, table, n)?;
    let views = further_views(alloc, sights.as_slice(), &groups)?;
    Ok(Some(UnreadWitness {
        processes: n,
        choice: groups,
        looks: Vec::new(alloc),
        follow_ups: further.follow_ups,
        views,
    }))
}
