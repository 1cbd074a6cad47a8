//! The list of what processes can have got when they have finished.
ghost use Rattle.std.specs.Prelude.{◌≡◌, ◌≢◌, ◌<◌, ◌≤◌, ◌+◌, ◌++◌, ℕ, All, AllPairs, Contains, IfOk, OnOk, length};
ghost use Rattle.cn_choice.specs.Canonical.{IsChoiceFor};
ghost use Rattle.cn_choice.specs.declared.limits.TheConstants.{MOST_PROCESSES};
ghost use Rattle.cn_table.specs.TypeTable.{TypeTable};
ghost use Rattle.cn_further.specs.FurtherNodes.{AreKnown, further_of};
ghost use Rattle.cn_further.specs.FurtherSights.{AreFurtherSights, HasEndsOf, IsKnownSight, IsReached, IsSight, KeepsFitting};
ghost use Rattle.cn_further.specs.declared.sight.FurtherSight.{FurtherSight as Told};

use crate::follow_up::FollowUp;
use crate::further::operations_of;
use crate::levels::scenes_of;
use crate::scene::Scene;
use crate::sight::{FurtherSight, push_new, sight_of};
use cn_choice::{Choice, Team};
use cn_table::laws::tables_are_valid;
use cn_table::{Operation, Table};
use std::alloc::{AllocError, Global};

/// Appends what processes have got that have finished in the scene, where the team was first.
fn push_ends(
    list: &mut Vec<FurtherSight>,
    operations: &[u8],
    follow_ups: &[FollowUp],
    team: Team,
    scene: &Scene,
) -> Result<(), AllocError>
    requires few { length operations.now ≤ MOST_PROCESSES }
    requires fits { KeepsFitting operations.now (further_of follow_ups.now) scene.now }
    ensures ends { OnOk result (HasEndsOf operations.now (further_of follow_ups.now) team
        list.new.items scene.now) }
    ensures more { OnOk result ((s : Told) → Contains list.old.items s
        → Contains list.new.items s) }
    ensures once { OnOk result (AllPairs (λ x y. x ≢ y) list.old.items
        → AllPairs (λ x y. x ≢ y) list.new.items) }
    ensures sound { (t : TypeTable) (state size : ℕ)
        → IsReached t state size operations.now (further_of follow_ups.now) team 0 scene.now
        → All (IsSight t state size operations.now (further_of follow_ups.now)) list.old.items
        → OnOk result (All (IsSight t state size operations.now (further_of follow_ups.now))
        list.new.items) }
{
    for process in 0..operations.len() {
        let own = Operation(operations[process]);
        let stage = scene.stages.as_slice()[process];
        if let Some(sight) = sight_of(follow_ups, own, team, process as u8, stage) {
            push_new(list, sight)?;
        }
    }
    Ok(())
}

/// Appends what processes have got that have finished in the scenes, where the team was first.
fn push_all_ends(
    list: &mut Vec<FurtherSight>,
    operations: &[u8],
    follow_ups: &[FollowUp],
    team: Team,
    scenes: &[Scene],
) -> Result<(), AllocError>
    requires few { length operations.now ≤ MOST_PROCESSES }
    requires fits { All (KeepsFitting operations.now (further_of follow_ups.now)) scenes.now }
    ensures ends { OnOk result (All (HasEndsOf operations.now (further_of follow_ups.now) team
        list.new.items) scenes.now) }
    ensures more { OnOk result ((s : Told) → Contains list.old.items s
        → Contains list.new.items s) }
    ensures once { OnOk result (AllPairs (λ x y. x ≢ y) list.old.items
        → AllPairs (λ x y. x ≢ y) list.new.items) }
    ensures sound { (t : TypeTable) (state size : ℕ)
        → All (IsReached t state size operations.now (further_of follow_ups.now) team 0) scenes.now
        → All (IsSight t state size operations.now (further_of follow_ups.now)) list.old.items
        → OnOk result (All (IsSight t state size operations.now (further_of follow_ups.now))
        list.new.items) }
{
    for scene in scenes {
        push_ends(list, operations, follow_ups, team, scene)?;
    }
    Ok(())
}

/// What each process can have got when it has finished, by the team that was first, each once.
pub(crate) fn sights(
    alloc: Global,
    table: &Table,
    choice: &Choice,
    follow_ups: &[FollowUp],
) -> Result<Vec<FurtherSight>, AllocError>
    requires choice { IsChoiceFor table.now (length choice.now.a + length choice.now.b) choice.now }
    requires known { AreKnown table.now (choice.now.a ++ choice.now.b) follow_ups.now }
    requires few { length choice.now.a + length choice.now.b ≤ MOST_PROCESSES }
    ensures sights { IfOk result (λ list.
        AreFurtherSights table.now choice.now follow_ups.now list.items) }
    ensures known { IfOk result (λ list. All (IsKnownSight table.now) list.items) }
{
    tables_are_valid(table);
    let list = operations_of(choice);
    let (state, operations, size) = (choice.state, list.as_slice(), choice.a.len());
    let (a, b) = (Team::A, Team::B);
    let after_a = scenes_of(alloc, table, state, operations, follow_ups, size, a)?;
    let after_b = scenes_of(alloc, table, state, operations, follow_ups, size, b)?;
    let mut sights = Vec::new(alloc);
    push_all_ends(&mut sights, operations, follow_ups, a, after_a.as_slice())?;
    push_all_ends(&mut sights, operations, follow_ups, b, after_b.as_slice())?;
    Ok(sights)
}
