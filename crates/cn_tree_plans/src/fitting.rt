//! Whether meetings are those of a plan tree.
ghost use Rattle.std.specs.Prelude.{◌≡◌, ◌↔◌, ◌≤◌, IsTrue};
ghost use Rattle.cn_choice.specs.declared.limits.TheConstants.{MOST_PROCESSES};
ghost use Rattle.cn_trees.specs.Tree.{members};
ghost use Rattle.cn_tree_plans.specs.Fitting.{AreKnown, FitsNode};
ghost use Rattle.cn_tree_plans.specs.Plan.{AreMeetings};
ghost use Rattle.cn_tree_plans.specs.Teams.{AreProper, teams_of};

use crate::sights::is_sight_of;
use crate::{Meeting, Teams};
use cn_table::{Operation, Table};

/// Whether each node of the tree with these teams at the root has a meeting of its processes, with
/// a state, a sight and operations of the table.
pub fn are_meetings(table: &Table, teams: &Teams, meetings: &[Meeting]) -> bool
    requires proper { AreProper (teams_of teams.now) }
    requires few { members (teams_of teams.now) ≤ MOST_PROCESSES }
    // promise: tree-plans-are-made (AreMeetings)
    ensures { IsTrue result ↔ AreMeetings table.now (teams_of teams.now) meetings.now }
{
    if meetings.len() != 1 + usize::from(teams.nodes_below()) {
        return false;
    }
    for node in 0..1 + teams.nodes_below() {
        if !fits_node(
            table,
            &meetings[usize::from(node)],
            teams.at(node).members(),
        ) {
            return false;
        }
    }
    true
}

/// Whether the meeting has this many processes, with a state, a sight and operations of the table.
fn fits_node(table: &Table, meeting: &Meeting, size: u8) -> bool
    ensures { IsTrue result ↔ FitsNode table.now size meeting.now }
{
    if meeting.start.0 >= table.states() || meeting.operations.len() != usize::from(size) {
        return false;
    }
    is_sight_of(table, meeting.sight())
        && are_known(meeting.operations.as_slice(), table.operations())
}

fn are_known(operations: &[Operation], limit: u8) -> bool
    ensures { IsTrue result ↔ AreKnown limit operations.now }
{
    for operation in operations {
        if operation.0 >= limit {
            return false;
        }
    }
    true
}
