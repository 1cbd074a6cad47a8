//! The witness of a number, with what each of its processes can see.
ghost use Rattle.std.specs.Prelude.{◌≡◌, ◌+◌, ◌<◌, ◌++◌, length, All, IfOk, IfSome, IsSomeAnd, List, MatchOption, None, OnOk};
ghost use Rattle.std.specs.List.{AllZip};
ghost use Rattle.cn_choice.specs.Canonical.{FitsTable};
ghost use Rattle.cn_reasons.specs.Known.{IsKnownGroup, IsKnownView, IsKnownWitness};
ghost use Rattle.cn_reasons.specs.Witnesses.{IsViewOf, IsWitnessOf};
ghost use Rattle.cn_reasons.specs.declared.group.Group.{Group as GroupOf};

use crate::group::{ChoiceGroups, Group, choice_groups, processes_of};
use crate::sight::{Sight, sights};
use cn_choice::{Choice, Team};
use cn_table::Table;
use std::alloc::{AllocError, Global};

/// What each process of a group of a witness can see, by the team that is first. They can see the
/// same ([`laws::like_processes`](crate::laws::like_processes)).
#[derive(Drop)]
pub struct View {
    /// The group.
    pub group: Group,
    /// What they can see where a process of team A is first, by the number of the response and then
    /// by that of the state.
    pub a_first: Vec<Sight>,
    /// The same where a process of team B is first.
    pub b_first: Vec<Sight>,
}

/// A witness: no process can see the same where team A is first and where team B is.
#[derive(Drop)]
pub struct Witness {
    /// The number of processes.
    pub processes: u8,
    /// The choice.
    pub choice: ChoiceGroups,
    /// The views of its groups: of those of team A, and then of those of team B.
    pub views: Vec<View>,
}

/// What each process of a group can see.
fn view_of(alloc: Global, table: &Table, choice: &Choice, group: Group) -> Result<View, AllocError>
    requires fits { FitsTable table.now choice.now }
    requires process { group.first < length choice.now.a + length choice.now.b }
    requires known { IsKnownGroup table.now group }
    ensures view { IfOk result (IsViewOf table.now choice.now group) }
    ensures known { IfOk result (IsKnownView table.now) }
{
    let a_first = sights(alloc, table, choice, Team::A, group.first)?;
    let b_first = sights(alloc, table, choice, Team::B, group.first)?;
    Ok(View {
        group,
        a_first,
        b_first,
    })
}

/// Appends the views of these groups.
fn push_views(
    views: &mut Vec<View>,
    alloc: Global,
    table: &Table,
    choice: &Choice,
    groups: &[Group],
) -> Result<(), AllocError>
    requires fits { FitsTable table.now choice.now }
    requires within { All (λ g. g.first < length choice.now.a + length choice.now.b) groups.now }
    requires known { All (IsKnownGroup table.now) groups.now }
    requires so_far { All (IsKnownView table.now) views.old.items }
    ensures views { (before : List GroupOf)
        → AllZip (IsViewOf table.now choice.now) before views.old.items
        → OnOk result
        (AllZip (IsViewOf table.now choice.now) (before ++ groups.now) views.new.items) }
    ensures known { OnOk result (All (IsKnownView table.now) views.new.items) }
{
    for group in groups {
        views.push(view_of(alloc, table, choice, *group)?)?;
    }
    Ok(())
}

/// The witness with what its processes can see.
fn witness_of(alloc: Global, table: &Table, choice: &Choice) -> Result<Witness, AllocError>
    requires { FitsTable table.now choice.now }
    ensures witness { IfOk result (IsWitnessOf table.now choice.now) }
    ensures known { IfOk result (IsKnownWitness table.now) }
{
    let processes = processes_of(choice);
    let groups = choice_groups(table, choice);
    let mut views = Vec::new(alloc);
    push_views(&mut views, alloc, table, choice, groups.a.as_slice())?;
    push_views(&mut views, alloc, table, choice, groups.b.as_slice())?;
    Ok(Witness {
        processes,
        choice: groups,
        views,
    })
}

/// The same, if there is a witness.
pub(crate) fn witness_if(
    alloc: Global,
    table: &Table,
    choice: &Option<Choice>,
) -> Result<Option<Witness>, AllocError>
    requires { IfSome choice.now (FitsTable table.now) }
    ensures witness { IfOk result (λ witness. MatchOption choice.now (witness ≡ None)
        (λ c. IsSomeAnd witness (IsWitnessOf table.now c))) }
    ensures known { IfOk result (λ witness. IfSome witness (IsKnownWitness table.now)) }
{
    match choice {
        Some(choice) => Ok(Some(witness_of(alloc, table, choice)?)),
        None => Ok(None),
    }
}
