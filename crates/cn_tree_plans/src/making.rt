//! What all processes of all nodes judge.
ghost use Rattle.std.specs.Prelude.{◌≡◌, ◌+◌, ◌≤◌, length};
ghost use Rattle.cn_table.specs.TypeTable.{IsTypeTable};
ghost use Rattle.cn_choice.specs.declared.limits.TheConstants.{MOST_PROCESSES};
ghost use Rattle.cn_trees.specs.Tree.{members};
ghost use Rattle.cn_tree_costs.specs.Sizes.{IsDivision};
ghost use Rattle.cn_tree_plans.specs.Listing.{IsNodeMeeting};
ghost use Rattle.cn_tree_plans.specs.Made.{AreAllJudged, FaultFits, IsNodeJudged, fault_at};
ghost use Rattle.cn_tree_plans.specs.Plan.{AreMeetings};
ghost use Rattle.cn_tree_plans.specs.Teams.{AreProper, teams_of};
ghost use Rattle.cn_tree_plans.specs.declared.making.NodeFault.TheVariants.{OutOfMemory};

use crate::judged::{JudgedList, NodeJudged};
use crate::shown::entries_of;
use crate::{Meeting, Teams, TreePlanFault};
use cn_choice::laws::pair_along_order;
use cn_proto::laws::tournaments_are_sound;
use cn_table::Table;
use cn_tree_costs::laws::nodes_are_trees;
use std::alloc::{AllocError, AllocFailed, Global};

/// Why a node has no judgements.
#[derive(Drop)]
pub(crate) enum NodeFault {
    /// This is the least process, counted from the first one of the node, to which two teams show
    /// the same.
    Meets(u8),
    /// Memory ran out.
    OutOfMemory,
}

impl<T: Drop> From<AllocFailed<T>> for NodeFault {
    ghost from_gives = { λ _ e. e ≡ OutOfMemory };

    fn from(_e: AllocFailed<T>) -> NodeFault {
        NodeFault::OutOfMemory
    }
}

impl From<AllocError> for NodeFault {
    ghost from_gives = { λ _ e. e ≡ OutOfMemory };

    fn from(_e: AllocError) -> NodeFault {
        NodeFault::OutOfMemory
    }
}

/// What the processes of a node judge, whose teams have these sizes.
fn node_judged(
    alloc: Global,
    table: &Table,
    meeting: &Meeting,
    sizes: &[u8],
) -> Result<NodeJudged, NodeFault>
    requires meeting { IsNodeMeeting table.now meeting.now }
    requires sizes { IsDivision (length meeting.now.operations) sizes.now }
    ensures { IsNodeJudged table.now meeting.now sizes.now result }
{
    let mut lists = Vec::new(alloc);
    for k in 0..meeting.size() {
        match entries_of(alloc, table, meeting, sizes, k)? {
            Some(entries) => lists.push(JudgedList::of(entries))?,
            None => return Err(NodeFault::Meets(k)),
        }
    }
    Ok(NodeJudged::of(lists))
}

/// What the processes of all nodes judge.
pub(crate) fn all_judged(
    alloc: Global,
    table: &Table,
    teams: &Teams,
    meetings: &[Meeting],
) -> Result<Vec<NodeJudged>, TreePlanFault>
    requires table { IsTypeTable table.now }
    requires proper { AreProper (teams_of teams.now) }
    requires few { members (teams_of teams.now) ≤ MOST_PROCESSES }
    requires fits { AreMeetings table.now (teams_of teams.now) meetings.now }
    ensures { AreAllJudged table.now (teams_of teams.now) meetings.now result }
{
    nodes_are_trees();
    pair_along_order();
    tournaments_are_sound();
    let mut judged = Vec::new(alloc);
    for node in 0..meetings.len() as u8 {
        let sizes = teams.at(node).sizes(alloc)?;
        match node_judged(alloc, table, &meetings[usize::from(node)], &sizes) {
            Ok(lists) => judged.push(lists)?,
            Err(fault) => return Err(fault_at(node, teams.first_at(node), fault)),
        }
    }
    Ok(judged)
}

/// The fault of a node, whose first process is this one.
fn fault_at(node: u8, first: u8, fault: NodeFault) -> TreePlanFault
    requires { FaultFits first fault }
    ensures { result ≡ fault_at node first fault }
{
    match fault {
        NodeFault::Meets(k) => TreePlanFault::Meets {
            node,
            process: first + k,
        },
        NodeFault::OutOfMemory => TreePlanFault::OutOfMemory,
    }
}
