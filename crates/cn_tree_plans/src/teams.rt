//! The teams of a node.
ghost use Rattle.std.specs.Prelude.{◌≡◌, ◌↔◌, ◌+◌, ◌++◌, ◌≤◌, ◌<◌, ◌^◌, length, IfNone, IfOk, IfSome, IsTrue, OnOk};
ghost use Rattle.cn_trees.specs.Tree.{members, nodes_in};
ghost use Rattle.cn_trees.specs.Tree.Teams.{Alone, Meet};
ghost use Rattle.cn_tree_costs.specs.Nodes.{node_at, node_below};
ghost use Rattle.cn_tree_costs.specs.Sizes.{sizes_of};
ghost use Rattle.cn_tree_plans.specs.Teams.{AreProper, AreSeveralBelow, teams_of};
ghost use Rattle.cn_choice.specs.declared.limits.TheConstants.{MOST_PROCESSES};

use cn_choice::MOST_PROCESSES;
use std::alloc::{AllocError, Global};

/// The teams of a node, one after the other.
#[derive(Debug, Drop)]
pub enum Teams {
    /// No more teams.
    Last,
    /// A team of one process, and further teams.
    Alone(Box<Teams>),
    /// A team of the processes that have met at a node of the first teams, and further teams.
    Meet(Box<Teams>, Box<Teams>),
}

impl Teams {
    /// A team of one process before these teams.
    ///
    /// # Errors
    ///
    /// `AllocError` if memory runs out.
    pub fn alone(alloc: Global, further: Teams) -> Result<Teams, AllocError>
        // promise: tree-plans-are-made
        ensures { IfOk result (λ teams. teams_of teams ≡ Alone (teams_of further)) }
    {
        Ok(Teams::Alone(Box::new(alloc, further)?))
    }

    /// A team of the processes that have met at a node of the first teams before the further ones.
    ///
    /// # Errors
    ///
    /// `AllocError` if memory runs out.
    pub fn meet(alloc: Global, team: Teams, further: Teams) -> Result<Teams, AllocError>
        // promise: tree-plans-are-made
        ensures { IfOk result (λ teams. teams_of teams ≡ Meet (teams_of team) (teams_of further)) }
    {
        let team = Box::new(alloc, team)?;
        let further = Box::new(alloc, further)?;
        Ok(Teams::Meet(team, further))
    }

    /// How many processes there are.
    pub fn members(&self) -> u8
        requires { members (teams_of self.now) < 2 ^ 8 }
        // promise: parts-of-a-tree-plan
        ensures { result ≡ members (teams_of self.now) }
    {
        match self {
            Teams::Last => 0,
            Teams::Alone(rest) => 1 + rest.members(),
            Teams::Meet(team, rest) => team.members() + rest.members(),
        }
    }

    /// Whether these are the teams of a plan tree: two or more at each node, and at most
    /// [`MOST_PROCESSES`](cn_choice::MOST_PROCESSES) processes.
    pub fn are_proper(&self) -> bool
        // promise: tree-plans-are-made (AreProper)
        ensures { IsTrue result ↔ (AreProper (teams_of self.now)
            × (members (teams_of self.now) ≤ MOST_PROCESSES)) }
    {
        self.members_within(MOST_PROCESSES as u8).is_some()
            && self.are_several()
            && self.are_several_below()
    }

    /// The number of processes, unless there are more than this many.
    fn members_within(&self, most: u8) -> Option<u8>
        ensures none { IfNone result (most < members (teams_of self.now)) }
        ensures some { IfSome result (λ n. (n ≡ members (teams_of self.now)) × (n ≤ most)) }
    {
        match self {
            Teams::Last => Some(0),
            Teams::Alone(rest) => one_more(rest.members_within(most)?, most),
            Teams::Meet(team, rest) => {
                let size = team.members_within(most)?;
                sum_within(size, rest.members_within(most)?, most)
            }
        }
    }

    /// Whether there are two or more.
    fn are_several(&self) -> bool
        ensures { IsTrue result ↔ (2 ≤ length (sizes_of (teams_of self.now))) }
    {
        match self {
            Teams::Last => false,
            Teams::Alone(rest) | Teams::Meet(_, rest) => rest.is_some(),
        }
    }

    /// Whether there is one.
    fn is_some(&self) -> bool
        ensures { IsTrue result ↔ (1 ≤ length (sizes_of (teams_of self.now))) }
    {
        match self {
            Teams::Last => false,
            Teams::Alone(_) | Teams::Meet(..) => true,
        }
    }

    /// Whether there are two or more at each node below.
    fn are_several_below(&self) -> bool
        ensures { IsTrue result ↔ AreSeveralBelow (teams_of self.now) }
    {
        match self {
            Teams::Last => true,
            Teams::Alone(rest) => rest.are_several_below(),
            Teams::Meet(team, rest) => {
                team.are_several() && team.are_several_below() && rest.are_several_below()
            }
        }
    }

    /// A law: a node of several teams has several processes.
    pub(crate) fn has_several(&self)
        requires below { AreSeveralBelow (teams_of self.now) }
        requires here { 2 ≤ length (sizes_of (teams_of self.now)) }
        ensures { 2 ≤ members (teams_of self.now) }
    {}

    /// How many nodes there are below.
    pub(crate) fn nodes_below(&self) -> u8
        requires { nodes_in (teams_of self.now) < 2 ^ 8 }
        ensures { result ≡ nodes_in (teams_of self.now) }
    {
        match self {
            Teams::Last => 0,
            Teams::Alone(rest) => rest.nodes_below(),
            Teams::Meet(team, rest) => 1 + team.nodes_below() + rest.nodes_below(),
        }
    }

    /// How many teams there are.
    pub(crate) fn count(&self) -> u8
        requires { length (sizes_of (teams_of self.now)) < 2 ^ 8 }
        ensures { result ≡ length (sizes_of (teams_of self.now)) }
    {
        match self {
            Teams::Last => 0,
            Teams::Alone(rest) | Teams::Meet(_, rest) => 1 + rest.count(),
        }
    }

    /// The teams of node v of those below, counted from 0.
    fn below(&self, v: u8) -> &Teams
        requires known { v < nodes_in (teams_of self.now) }
        requires nodes { nodes_in (teams_of self.now) < 2 ^ 8 }
        ensures { teams_of result.now ≡ (node_below (teams_of self.now) v).teams }
    {
        match self {
            Teams::Last => self,
            Teams::Alone(rest) => rest.below(v),
            Teams::Meet(team, rest) => {
                let nodes = team.nodes_below();
                if v == 0 {
                    team
                } else if v - 1 < nodes {
                    team.below(v - 1)
                } else {
                    rest.below(v - 1 - nodes)
                }
            }
        }
    }

    /// The first process of this node.
    #[tactic(auto, using(crate::proofs::TeamLemmas::within_below))]
    fn first_below(&self, v: u8) -> u8
        requires few { members (teams_of self.now) < 2 ^ 8 }
        requires nodes { nodes_in (teams_of self.now) < 2 ^ 8 }
        ensures { result ≡ (node_below (teams_of self.now) v).first }
    {
        match self {
            Teams::Last => 0,
            Teams::Alone(rest) => 1 + rest.first_below(v),
            Teams::Meet(team, rest) => {
                let nodes = team.nodes_below();
                if v == 0 {
                    0
                } else if v - 1 < nodes {
                    team.first_below(v - 1)
                } else {
                    team.members() + rest.first_below(v - 1 - nodes)
                }
            }
        }
    }

    /// The teams of a node of the tree with these teams at the root.
    pub(crate) fn at(&self, node: u8) -> &Teams
        requires known { node < 1 + nodes_in (teams_of self.now) }
        requires nodes { nodes_in (teams_of self.now) < 2 ^ 8 }
        ensures { teams_of result.now ≡ (node_at (teams_of self.now) node).teams }
    {
        if node == 0 {
            self
        } else {
            self.below(node - 1)
        }
    }

    /// The first process of this node.
    pub(crate) fn first_at(&self, node: u8) -> u8
        requires few { members (teams_of self.now) < 2 ^ 8 }
        requires nodes { nodes_in (teams_of self.now) < 2 ^ 8 }
        ensures { result ≡ (node_at (teams_of self.now) node).first }
    {
        if node == 0 {
            0
        } else {
            self.first_below(node - 1)
        }
    }

    /// The sizes of the teams.
    ///
    /// # Errors
    ///
    /// `AllocError` if memory runs out.
    pub fn sizes(&self, alloc: Global) -> Result<Vec<u8>, AllocError>
        requires { members (teams_of self.now) < 2 ^ 8 }
        // promise: parts-of-a-tree-plan
        ensures { IfOk result (λ sizes. sizes.items ≡ sizes_of (teams_of self.now)) }
    {
        let mut sizes = Vec::new(alloc);
        self.push_sizes(&mut sizes)?;
        Ok(sizes)
    }

    fn push_sizes(&self, sizes: &mut Vec<u8>) -> Result<(), AllocError>
        requires { members (teams_of self.now) < 2 ^ 8 }
        ensures { OnOk result (sizes.new.items ≡ sizes.old.items ++ sizes_of (teams_of self.now)) }
    {
        match self {
            Teams::Last => {}
            Teams::Alone(rest) => {
                sizes.push(1)?;
                rest.push_sizes(sizes)?;
            }
            Teams::Meet(team, rest) => {
                sizes.push(team.members())?;
                rest.push_sizes(sizes)?;
            }
        }
        Ok(())
    }
}

fn one_more(n: u8, most: u8) -> Option<u8>
    requires { n ≤ most }
    ensures none { IfNone result (most < 1 + n) }
    ensures some { IfSome result (λ m. (m ≡ 1 + n) × (m ≤ most)) }
{
    if n < most { Some(1 + n) } else { None }
}

fn sum_within(n: u8, m: u8, most: u8) -> Option<u8>
    requires { n ≤ most }
    ensures none { IfNone result (most < n + m) }
    ensures some { IfSome result (λ sum. (sum ≡ n + m) × (sum ≤ most)) }
{
    if m <= most - n { Some(n + m) } else { None }
}
