//! Meetings: processes that have finished with the same after schedules of both teams.
ghost use Rattle.std.specs.Prelude.{◌<◌, ◌≤◌, ◌-◌, All, IsTrue, length, slice_index};
ghost use Rattle.cn_choice.specs.declared.limits.TheConstants.{MOST_PROCESSES};
ghost use Rattle.cn_further.specs.FurtherNodes.{AreKnown, further_of};
ghost use Rattle.cn_further.specs.Meetings.{IsMeeting, scene_along};
ghost use Rattle.cn_further.specs.SceneLists.{AgreeFor, IsSceneOf, scene_of};

use crate::follow_up::{FollowUp, next_operation};
use crate::listing::{End, Listing};
use crate::scene::{MOST_MOVES, Scene};
use arrayvec::ArrayVec;
use cn_table::{Operation, State, Table};

/// A process, and for each team a schedule that the team begins, the latest move first.
#[derive(Drop)]
pub(crate) struct Meeting {
    pub process: usize,
    pub of_a: ArrayVec<usize, MOST_MOVES>,
    pub of_b: ArrayVec<usize, MOST_MOVES>,
}

/// The scene after these next operations of processes, the latest first.
fn scene_along(
    table: &Table,
    state: State,
    operations: &[u8],
    follow_ups: &[FollowUp],
    moves: &[usize],
) -> Scene
    requires known { AreKnown table.now operations.now follow_ups.now }
    requires state { state.0 < length table.now.states }
    requires few { length operations.now ≤ MOST_PROCESSES }
    requires moves { All (λ process. process < length operations.now) moves.now }
    ensures scene { IsSceneOf table.now (length operations.now) result }
    ensures along { AgreeFor (length operations.now) (scene_of result)
        (scene_along table.now state.0 operations.now (further_of follow_ups.now) moves.now) }
{
    let mut scene = Scene::first(state, operations.len());
    for place in (0..moves.len()).rev() {
        scene = scene.after(table, operations, follow_ups, moves[place]);
    }
    scene
}

/// Whether these are moves of so many processes, the first of them of one from the first number on
/// and below the second.
fn are_moves(moves: &[usize], processes: usize, low: usize, high: usize) -> bool
    ensures known { IsTrue result → All (λ process. process < processes) moves.now }
    ensures some { IsTrue result → 0 < length moves.now }
    ensures low { IsTrue result → low ≤ slice_index moves.now (length moves.now - 1) }
    ensures high { IsTrue result → slice_index moves.now (length moves.now - 1) < high }
{
    match moves.last() {
        Some(first) => {
            low <= *first && *first < high && moves.iter().all(|process| *process < processes)
        }
        None => false,
    }
}

impl Meeting {
    /// Whether the process has finished with the same after both schedules, the first begun by a
    /// process below `size`, and the second by another one.
    pub(crate) fn is_sound(
        &self,
        table: &Table,
        state: State,
        operations: &[u8],
        follow_ups: &[FollowUp],
        size: usize,
    ) -> bool
        requires known { AreKnown table.now operations.now follow_ups.now }
        requires state { state.0 < length table.now.states }
        requires few { length operations.now ≤ MOST_PROCESSES }
        ensures { IsTrue result
            → IsMeeting table.now state.0 size operations.now (further_of follow_ups.now)
            self.now.process self.now.of_a.items self.now.of_b.items }
    {
        let (a, b) = (self.of_a.as_slice(), self.of_b.as_slice());
        let all = operations.len();
        if self.process >= all || !are_moves(a, all, 0, size) || !are_moves(b, all, size, all) {
            return false;
        }
        let own = Operation(operations[self.process]);
        let one = scene_along(table, state, operations, follow_ups, a).stage(self.process);
        let other = scene_along(table, state, operations, follow_ups, b).stage(self.process);
        match next_operation(follow_ups, own, one) {
            Some(_) => false,
            None => one.is(other),
        }
    }
}

/// The moves that led to the scene at this place of the list, the latest first.
fn moves_to(scenes: &[Scene], place: usize) -> ArrayVec<usize, MOST_MOVES> {
    match scenes.get(place) {
        Some(scene) => {
            let mut moves = scene.copied_moves();
            moves.as_mut_slice().reverse();
            moves
        }
        None => ArrayVec::new(),
    }
}

/// The first of these ends that is the same.
fn same_end(ends: &[End], end: &End) -> Option<End> {
    for other in ends {
        if other.process == end.process && other.stage.is(end.stage) {
            return Some(*other);
        }
    }
    None
}

/// A meeting of the lists, if there is one.
pub(crate) fn meeting_in(listing: &Listing) -> Option<Meeting> {
    for end in listing.ends.as_slice() {
        if let Some(other) = same_end(listing.ends_b.as_slice(), end) {
            return Some(Meeting {
                process: end.process,
                of_a: moves_to(listing.after_a.as_slice(), end.place),
                of_b: moves_to(listing.after_b.as_slice(), other.place),
            });
        }
    }
    None
}
