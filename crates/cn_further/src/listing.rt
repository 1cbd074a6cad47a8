//! Lists of scenes, and the check that they are closed and tell the teams.
ghost use Rattle.std.specs.Prelude.{◌≡◌, ◌<◌, ◌≤◌, ◌&&◌, All, IsTrue, None, length, nat_eq};
ghost use Rattle.std.specs.List.{list_any};
ghost use Rattle.cn_choice.specs.declared.limits.TheConstants.{MOST_PROCESSES};
ghost use Rattle.cn_choice.specs.declared.team.Team.TheVariants.{A, B};
ghost use Rattle.cn_further.specs.FurtherNodes.{AreKnown, further_of, next_by};
ghost use Rattle.cn_further.specs.SceneLists.{HasStarts, IsClosedList, IsListed, IsListing, LeadsOn, TellsRight, kept_of, same_kept, scene_of, told_by};

use crate::follow_up::{FollowUp, next_operation};
use crate::scene::Scene;
use crate::stage::Stage;
use cn_choice::Team;
use cn_table::{Operation, State, Table};

/// What a process has when it has finished, and the place of a scene where it has, in a list.
#[derive(Clone, Copy)]
pub(crate) struct End {
    pub process: usize,
    pub stage: Stage,
    pub place: usize,
}

/// Whether the list has this end of the process.
pub(crate) fn has_end(ends: &[End], process: usize, stage: Stage) -> bool
    ensures { result
        ≡ list_any (λ e. nat_eq e.process process && same_kept (kept_of e.stage) (kept_of stage))
        ends.now }
{
    ends.iter()
        .any(|end| end.process == process && end.stage.is(stage))
}

/// The team that the process tells at this end: A if it is in the list.
fn told_by(ends: &[End], process: usize, stage: Stage) -> Team
    ensures { result ≡ told_by ends.now process (kept_of stage) }
{
    if has_end(ends, process, stage) {
        Team::A
    } else {
        Team::B
    }
}

/// Whether the sorted list has the scene.
fn has_scene(scenes: &[Scene], scene: &Scene) -> bool
    ensures { IsTrue result
        → IsListed scenes.now (length scene.now.stages.items) (scene_of scene.now) }
{
    match scenes.binary_search_by(|listed| listed.compare(scene)) {
        Ok(place) => scene.is(&scenes[place]),
        Err(_) => false,
    }
}

/// Whether each next operation leads from the scene to one of the list.
fn leads_on(
    table: &Table,
    operations: &[u8],
    follow_ups: &[FollowUp],
    scenes: &[Scene],
    scene: &Scene,
) -> bool
    requires { AreKnown table.now operations.now follow_ups.now }
    ensures { IsTrue result
        → LeadsOn table.now operations.now (further_of follow_ups.now) scenes.now scene.now }
{
    if !scene.is_of(table, operations.len()) {
        return false;
    }
    for process in 0..operations.len() {
        let next = scene.after(table, operations, follow_ups, process);
        if !has_scene(scenes, &next) {
            return false;
        }
    }
    true
}

/// Whether no next operation leads out of the list.
fn are_closed(table: &Table, operations: &[u8], follow_ups: &[FollowUp], scenes: &[Scene]) -> bool
    requires { AreKnown table.now operations.now follow_ups.now }
    ensures { IsTrue result
        → All (LeadsOn table.now operations.now (further_of follow_ups.now) scenes.now) scenes.now }
{
    scenes.iter().all(|scene| leads_on(table, operations, follow_ups, scenes, scene))
}

/// Whether the process tells this team, if it has finished.
fn is_right(
    follow_ups: &[FollowUp],
    ends: &[End],
    side: Team,
    process: usize,
    own: Operation,
    stage: Stage,
) -> bool
    ensures { IsTrue result
        → next_by (further_of follow_ups.now) own.0 (kept_of stage).0 (kept_of stage).1 ≡ None
        → told_by ends.now process (kept_of stage) ≡ side }
{
    next_operation(follow_ups, own, stage).is_some() || told_by(ends, process, stage) == side
}

/// Whether each process that has finished in the scene tells this team.
fn tells_right(
    operations: &[u8],
    follow_ups: &[FollowUp],
    ends: &[End],
    side: Team,
    scene: &Scene,
) -> bool
    ensures { IsTrue result
        → TellsRight operations.now (further_of follow_ups.now) ends.now side scene.now }
{
    let stages = scene.stages.as_slice();
    if stages.len() != operations.len() {
        return false;
    }
    for process in 0..operations.len() {
        let own = Operation(operations[process]);
        if !is_right(follow_ups, ends, side, process, own, stages[process]) {
            return false;
        }
    }
    true
}

/// Whether each process that has finished in a scene of the list tells this team.
fn are_right(
    operations: &[u8],
    follow_ups: &[FollowUp],
    ends: &[End],
    side: Team,
    scenes: &[Scene],
) -> bool
    ensures { IsTrue result
        → All (TellsRight operations.now (further_of follow_ups.now) ends.now side) scenes.now }
{
    scenes.iter().all(|scene| tells_right(operations, follow_ups, ends, side, scene))
}

/// Whether the first operations of the processes from the first number on and below the second lead
/// to scenes of the list.
fn has_starts(
    table: &Table,
    state: State,
    operations: &[u8],
    follow_ups: &[FollowUp],
    scenes: &[Scene],
    low: usize,
    high: usize,
) -> bool
    requires known { AreKnown table.now operations.now follow_ups.now }
    requires state { state.0 < length table.now.states }
    requires few { length operations.now ≤ MOST_PROCESSES }
    requires high { high ≤ length operations.now }
    ensures { IsTrue result
        → HasStarts table.now state.0 operations.now (further_of follow_ups.now) scenes.now low
        high }
{
    let first = Scene::first(state, operations.len());
    for process in low..high {
        let next = first.after(table, operations, follow_ups, process);
        if !has_scene(scenes, &next) {
            return false;
        }
    }
    true
}

/// Whether no next operation leads out of the list, and in it each process that has finished tells
/// this team.
fn is_closed_list(
    table: &Table,
    operations: &[u8],
    follow_ups: &[FollowUp],
    ends: &[End],
    side: Team,
    scenes: &[Scene],
) -> bool
    requires { AreKnown table.now operations.now follow_ups.now }
    ensures { IsTrue result
        → IsClosedList table.now operations.now (further_of follow_ups.now) ends.now side
        scenes.now }
{
    are_closed(table, operations, follow_ups, scenes)
        && are_right(operations, follow_ups, ends, side, scenes)
}

/// The scenes that come after first operations of team A, and of team B, each list sorted; and what
/// processes have when they have finished in the first ones, and in the second ones.
#[derive(Drop)]
pub(crate) struct Listing {
    pub after_a: Vec<Scene>,
    pub after_b: Vec<Scene>,
    pub ends: Vec<End>,
    pub ends_b: Vec<End>,
}

impl Listing {
    /// Whether the lists have the scenes after first operations: the first those of processes below
    /// `size`, the second those of the others.
    fn has_all_starts(
        &self,
        table: &Table,
        state: State,
        operations: &[u8],
        follow_ups: &[FollowUp],
        size: usize,
    ) -> bool
        requires known { AreKnown table.now operations.now follow_ups.now }
        requires state { state.0 < length table.now.states }
        requires few { length operations.now ≤ MOST_PROCESSES }
        requires size { size ≤ length operations.now }
        ensures a { IsTrue result
            → HasStarts table.now state.0 operations.now (further_of follow_ups.now)
            self.now.after_a.items 0 size }
        ensures b { IsTrue result
            → HasStarts table.now state.0 operations.now (further_of follow_ups.now)
            self.now.after_b.items size (length operations.now) }
    {
        let (a, b) = (self.after_a.as_slice(), self.after_b.as_slice());
        has_starts(table, state, operations, follow_ups, a, 0, size)
            && has_starts(
                table,
                state,
                operations,
                follow_ups,
                b,
                size,
                operations.len(),
            )
    }

    /// Whether both lists are closed, and in each a process that has finished tells the right team.
    fn is_closed(&self, table: &Table, operations: &[u8], follow_ups: &[FollowUp]) -> bool
        requires { AreKnown table.now operations.now follow_ups.now }
        ensures a { IsTrue result
            → IsClosedList table.now operations.now (further_of follow_ups.now) self.now.ends.items
            A self.now.after_a.items }
        ensures b { IsTrue result
            → IsClosedList table.now operations.now (further_of follow_ups.now) self.now.ends.items
            B self.now.after_b.items }
    {
        let (a, b) = (self.after_a.as_slice(), self.after_b.as_slice());
        let ends = self.ends.as_slice();
        is_closed_list(table, operations, follow_ups, ends, Team::A, a)
            && is_closed_list(table, operations, follow_ups, ends, Team::B, b)
    }

    /// Whether the lists show that each process tells the right team. The processes below `size`
    /// are team A.
    pub(crate) fn is_sound(
        &self,
        table: &Table,
        state: State,
        operations: &[u8],
        follow_ups: &[FollowUp],
        size: usize,
    ) -> bool
        requires known { AreKnown table.now operations.now follow_ups.now }
        requires state { state.0 < length table.now.states }
        requires few { length operations.now ≤ MOST_PROCESSES }
        requires size { size ≤ length operations.now }
        ensures { IsTrue result
            → IsListing table.now state.0 size operations.now (further_of follow_ups.now)
            self.now.ends.items self.now.after_a.items self.now.after_b.items }
    {
        self.has_all_starts(table, state, operations, follow_ups, size)
            && self.is_closed(table, operations, follow_ups)
    }
}
