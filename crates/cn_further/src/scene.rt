//! Scenes: the object, and how far each process has come.
ghost use Rattle.std.specs.Prelude.{◌≡◌, ◌+◌, ◌<◌, ◌≤◌, ◌↔◌, ℕ, IsTrue, length, slice_index_or, sum_by};
ghost use Rattle.cn_table.specs.TypeTable.{transition};
ghost use Rattle.cn_choice.specs.declared.limits.TheConstants.{MOST_PROCESSES};
ghost use Rattle.cn_unread.specs.Functions.{put};
ghost use Rattle.cn_further.specs.FurtherNodes.{AreKnown, further_of, kept_with};
ghost use Rattle.cn_further.specs.FurtherSights.{operations_done};
ghost use Rattle.cn_further.specs.declared.stage.Stage.{Stage as StageOf};
ghost use Rattle.cn_further.specs.SceneLists.{AgreeFor, IsSceneOf, first_scene, kept_at, kept_of, scene_next, scene_of};

use crate::follow_up::{FollowUp, next_operation};
use crate::stage::{Stage, are_alike, with_stage};
use arrayvec::ArrayVec;
use cn_choice::MOST_PROCESSES;
use cn_table::{Operation, State, Table};
use std::cmp::Ordering;

/// The most moves of a schedule: each process does two operations at most.
pub(crate) const MOST_MOVES: usize = 16;

/// The state of the object, how far each process has come, and who has moved, in this order.
#[derive(Drop)]
pub(crate) struct Scene {
    pub object: State,
    pub stages: ArrayVec<Stage, MOST_PROCESSES>,
    pub moves: ArrayVec<usize, MOST_MOVES>,
}

impl Scene {
    /// The scene of so many processes, none of which has moved.
    pub(crate) fn first(state: State, processes: usize) -> Scene
        requires { processes ≤ MOST_PROCESSES }
        ensures scene { scene_of result ≡ first_scene state.0 }
        ensures object { result.object.0 ≡ state.0 }
        ensures processes { length result.stages.items ≡ processes }
    {
        let mut stages = ArrayVec::new();
        for _process in 0..processes {
            stages.push(Stage::Waiting);
        }
        Scene {
            object: state,
            stages,
            moves: ArrayVec::new(),
        }
    }

    /// Who has moved.
    pub(crate) fn copied_moves(&self) -> ArrayVec<usize, MOST_MOVES> {
        let mut moves = ArrayVec::new();
        let _fits = moves.try_extend_from_slice(self.moves.as_slice());
        moves
    }

    /// How far the process has come.
    pub(crate) fn stage(&self, process: usize) -> Stage
        requires { process < length self.now.stages.items }
        ensures { kept_of result ≡ kept_at self.now.stages.items process }
    {
        self.stages.as_slice()[process]
    }

    /// An equal scene.
    pub(crate) fn copy(&self) -> Scene
        ensures object { result.object.0 ≡ self.now.object.0 }
        ensures stages { result.stages.items ≡ self.now.stages.items }
    {
        let mut stages = ArrayVec::new();
        let _fits = stages.try_extend_from_slice(self.stages.as_slice());
        Scene {
            object: self.object,
            stages,
            moves: self.copied_moves(),
        }
    }

    /// Whether the state is the table's, and there are so many processes.
    pub(crate) fn is_of(&self, table: &Table, processes: usize) -> bool
        ensures { IsTrue result ↔ IsSceneOf table.now processes self.now }
    {
        self.object.0 < table.states() && self.stages.len() == processes
    }

    /// Whether the two are the same.
    pub(crate) fn is(&self, other: &Scene) -> bool
        ensures { IsTrue result → AgreeFor (length self.now.stages.items) (scene_of self.now)
            (scene_of other.now) }
    {
        self.object.0 == other.object.0
            && are_alike(self.stages.as_slice(), other.stages.as_slice())
    }

    /// The order by which lists of scenes are sorted.
    pub(crate) fn compare(&self, other: &Scene) -> Ordering {
        let mut order = self.object.0.cmp(&other.object.0);
        for (one, two) in self
            .stages
            .as_slice()
            .iter()
            .zip(other.stages.as_slice().iter())
        {
            order = order.then(one.kept().cmp(&two.kept()));
        }
        order
    }

    /// The scene after the process has done the operation.
    pub(crate) fn moved(&self, table: &Table, process: usize, operation: Operation) -> Scene
        requires state { self.now.object.0 < length table.now.states }
        requires process { process < length self.now.stages.items }
        requires operation { operation.0 < length table.now.operations }
        ensures object { result.object.0
            ≡ (transition table.now operation.0 self.now.object.0).1 }
        ensures state { result.object.0 < length table.now.states }
        ensures processes { length result.stages.items ≡ length self.now.stages.items }
        ensures kept { (j : ℕ) → kept_at result.stages.items j
            ≡ put (kept_at self.now.stages.items) process
            (kept_with (kept_at self.now.stages.items process)
            (transition table.now operation.0 self.now.object.0).0) j }
        ensures done { (stage : StageOf) → operations_done (slice_index_or self.now.stages.items
            process stage) < 2 → sum_by operations_done result.stages.items
            ≡ sum_by operations_done self.now.stages.items + 1 }
    {
        let (response, object) = table.apply(operation, self.object);
        let stage = self.stages.as_slice()[process].with(response);
        let mut moves = self.copied_moves();
        let _fits = moves.try_push(process);
        Scene {
            object,
            stages: with_stage(&self.stages, process, stage),
            moves,
        }
    }

    /// The scene after the next operation of the process. That of a process that has finished is
    /// the same.
    pub(crate) fn after(
        &self,
        table: &Table,
        operations: &[u8],
        follow_ups: &[FollowUp],
        process: usize,
    ) -> Scene
        requires known { AreKnown table.now operations.now follow_ups.now }
        requires scene { IsSceneOf table.now (length operations.now) self.now }
        requires process { process < length operations.now }
        ensures scene { IsSceneOf table.now (length operations.now) result }
        ensures next { AgreeFor (length operations.now) (scene_of result)
            (scene_next table.now operations.now (further_of follow_ups.now) (scene_of self.now)
            process) }
    {
        let own = Operation(operations[process]);
        let stage = self.stages.as_slice()[process];
        match next_operation(follow_ups, own, stage) {
            Some(operation) => self.moved(table, process, operation),
            None => self.copy(),
        }
    }
}
