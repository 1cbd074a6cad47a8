//! All scenes that can come after the first operations of a team, for a list that leaves none out.
//!
//! A scene in which k operations are done has its next scenes where k + 1 are. So they are listed level
//! by level, and a scene comes again only within a level.
ghost use Rattle.std.specs.Prelude.{◌≡◌, ◌<◌, ◌≤◌, ◌+◌, ◌⊎◌, ℕ, All, Contains, IfOk, IfSome, MatchOption, OnOk, length, sum_by};
ghost use Rattle.cn_choice.specs.declared.limits.TheConstants.{MOST_PROCESSES};
ghost use Rattle.cn_choice.specs.declared.team.Team.{Team as TeamOf};
ghost use Rattle.cn_further.specs.FurtherNodes.{AreKnown, further_of};
ghost use Rattle.cn_further.specs.FurtherSights.{AreScenesOf, HasFirsts, IsReached, LeadsTo, operations_done};
ghost use Rattle.cn_further.specs.SceneLists.{AgreeFor, IsListed, IsSceneOf, scene_next, scene_of};
ghost use Rattle.cn_further.specs.declared.scene.Scene.{Scene as ListedScene};
ghost use Rattle.cn_unread.specs.Nodes.{team_of};

use crate::follow_up::{FollowUp, next_operation};
use crate::scene::Scene;
use cn_choice::{MOST_PROCESSES, Team};
use cn_table::{Operation, State, Table};
use std::alloc::{AllocError, Global};

/// Adds the scene, unless the list has it.
fn add_scene(scenes: &mut Vec<Scene>, scene: Scene) -> Result<(), AllocError>
    ensures listed { OnOk result
        (IsListed scenes.new.items (length scene.stages.items) (scene_of scene)) }
    ensures from { OnOk result ((s : ListedScene) → Contains scenes.new.items s
        → Contains scenes.old.items s ⊎ (s ≡ scene)) }
    ensures more { OnOk result ((s : ListedScene) → Contains scenes.old.items s
        → Contains scenes.new.items s) }
{
    if scenes.iter().any(|listed| scene.is(listed)) {
        return Ok(());
    }
    scenes.push(scene)?;
    Ok(())
}

/// The scene after the next operation of the process, if it has not finished.
fn next_of(
    table: &Table,
    operations: &[u8],
    follow_ups: &[FollowUp],
    scene: &Scene,
    process: usize,
) -> Option<Scene>
    requires known { AreKnown table.now operations.now follow_ups.now }
    requires scene { IsSceneOf table.now (length operations.now) scene.now }
    requires process { process < length operations.now }
    ensures next { MatchOption result
        (scene_next table.now operations.now (further_of follow_ups.now) (scene_of scene.now) process
        ≡ scene_of scene.now)
        (λ s. AgreeFor (length operations.now) (scene_of s) (scene_next table.now operations.now
        (further_of follow_ups.now) (scene_of scene.now) process)) }
    ensures scene { IfSome result (IsSceneOf table.now (length operations.now)) }
    ensures done { IfSome result (λ s. sum_by operations_done s.stages.items
        ≡ sum_by operations_done scene.now.stages.items + 1) }
{
    let own = Operation(operations[process]);
    let stage = scene.stages.as_slice()[process];
    match next_operation(follow_ups, own, stage) {
        Some(operation) => Some(scene.moved(table, process, operation)),
        None => None,
    }
}

/// Adds the scenes to which a next operation leads.
fn add_next(
    scenes: &mut Vec<Scene>,
    table: &Table,
    operations: &[u8],
    follow_ups: &[FollowUp],
    scene: &Scene,
) -> Result<(), AllocError>
    requires known { AreKnown table.now operations.now follow_ups.now }
    requires scene { IsSceneOf table.now (length operations.now) scene.now }
    ensures next { OnOk result
        (LeadsTo table.now operations.now (further_of follow_ups.now) scenes.new.items scene.now) }
    ensures more { OnOk result ((s : ListedScene) → Contains scenes.old.items s
        → Contains scenes.new.items s) }
    ensures reached { (state size count : ℕ) (team : TeamOf)
        → IsReached table.now state size operations.now (further_of follow_ups.now) team count
        scene.now → All (IsReached table.now state size operations.now (further_of follow_ups.now)
        team (count + 1)) scenes.old.items → OnOk result (All (IsReached table.now state size
        operations.now (further_of follow_ups.now) team (count + 1)) scenes.new.items) }
{
    for process in 0..operations.len() {
        if let Some(next) = next_of(table, operations, follow_ups, scene, process) {
            add_scene(scenes, next)?;
        }
    }
    Ok(())
}

/// The scenes of the next level.
fn next_level(
    alloc: Global,
    table: &Table,
    operations: &[u8],
    follow_ups: &[FollowUp],
    level: &[Scene],
) -> Result<Vec<Scene>, AllocError>
    requires known { AreKnown table.now operations.now follow_ups.now }
    requires level { All (IsSceneOf table.now (length operations.now)) level.now }
    ensures next { IfOk result (λ scenes. All (LeadsTo table.now operations.now
        (further_of follow_ups.now) scenes.items) level.now) }
    ensures reached { (state size count : ℕ) (team : TeamOf)
        → All (IsReached table.now state size operations.now (further_of follow_ups.now) team count)
        level.now → IfOk result (λ scenes. All (IsReached table.now state size operations.now
        (further_of follow_ups.now) team (count + 1)) scenes.items) }
{
    let mut scenes = Vec::new(alloc);
    for scene in level {
        add_next(&mut scenes, table, operations, follow_ups, scene)?;
    }
    Ok(scenes)
}

/// The team of a process, where the processes below `size` are team A.
fn team_of(size: usize, process: usize) -> Team
    ensures { result ≡ team_of size process }
{
    if process < size { Team::A } else { Team::B }
}

/// The scenes after first operations of the team.
fn first_level(
    alloc: Global,
    table: &Table,
    state: State,
    operations: &[u8],
    follow_ups: &[FollowUp],
    size: usize,
    team: Team,
) -> Result<Vec<Scene>, AllocError>
    requires known { AreKnown table.now operations.now follow_ups.now }
    requires state { state.0 < length table.now.states }
    requires few { length operations.now ≤ MOST_PROCESSES }
    ensures firsts { IfOk result (λ scenes. HasFirsts table.now state.0 size operations.now
        (further_of follow_ups.now) team scenes.items) }
    ensures reached { IfOk result (λ scenes. All (IsReached table.now state.0 size operations.now
        (further_of follow_ups.now) team 0) scenes.items) }
{
    let first = Scene::first(state, operations.len());
    let mut scenes = Vec::new(alloc);
    for process in 0..operations.len() {
        if team_of(size, process) == team {
            let next = first.after(table, operations, follow_ups, process);
            add_scene(&mut scenes, next)?;
        }
    }
    Ok(scenes)
}

/// All scenes that can come after first operations of the team.
pub(crate) fn scenes_of(
    alloc: Global,
    table: &Table,
    state: State,
    operations: &[u8],
    follow_ups: &[FollowUp],
    size: usize,
    team: Team,
) -> Result<Vec<Scene>, AllocError>
    requires known { AreKnown table.now operations.now follow_ups.now }
    requires state { state.0 < length table.now.states }
    requires few { length operations.now ≤ MOST_PROCESSES }
    ensures { IfOk result (λ scenes. AreScenesOf table.now state.0 size operations.now
        (further_of follow_ups.now) team scenes.items) }
{
    let mut level = first_level(alloc, table, state, operations, follow_ups, size, team)?;
    let mut scenes = Vec::new(alloc);
    // Each process does two operations at most.
    for _done in 0..=2 * MOST_PROCESSES {
        let next = next_level(alloc, table, operations, follow_ups, level.as_slice())?;
        scenes.append(&mut level)?;
        level = next;
    }
    Ok(scenes)
}
