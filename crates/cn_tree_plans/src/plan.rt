//! Plan trees.
ghost use Rattle.std.specs.Prelude.{◌≡◌, ◌+◌, ◌-◌, ◌<◌, ◌≤◌, ℕ, All, if◌then◌else◌, length, slice_index, slice_index_or, IfOk};
ghost use Rattle.cn_choice.specs.declared.limits.TheConstants.{MOST_PROCESSES};
ghost use Rattle.cn_meetings.specs.Meeting.{IsSightOf, act, see};
ghost use Rattle.cn_meetings.specs.Sights.{sight_of};
ghost use Rattle.cn_meetings.specs.Witness.{Has};
ghost use Rattle.cn_trees.specs.Consensus.{steps_of};
ghost use Rattle.cn_trees.specs.Steps.{looks_at};
ghost use Rattle.cn_trees.specs.Tree.{comes_to, members, nodes_of, path_of, processes_of, team_in};
ghost use Rattle.cn_tree_costs.specs.Cost.{cost};
ghost use Rattle.cn_tree_costs.specs.Nodes.{node_at};
ghost use Rattle.cn_tree_costs.specs.Sizes.{sizes_of};
ghost use Rattle.cn_tree_plans.specs.Made.{IsMade};
ghost use Rattle.cn_tree_plans.specs.Paths.{IsPlaceOf, places_of};
ghost use Rattle.cn_tree_plans.specs.Plan.{AreMeetings, IsTreePlan, judged_at, meeting_in, no_meeting, tree_of};
ghost use Rattle.cn_tree_plans.specs.Sights.{seen_count};
ghost use Rattle.cn_tree_plans.specs.Teams.{AreProper, teams_of};

use crate::judged::{JudgedList, NodeJudged};
use crate::making::all_judged;
use crate::path::{Path, all_paths};
use crate::{Judged, Meeting, Place, Teams, TreePlanFault, sights};
use cn_meetings::Sight;
use cn_table::{Operation, Response, State, Table};
use cn_tree_costs::laws::nodes_are_trees;
use std::alloc::{AllocError, Global};
use std::marker::Model;

/// What a plan tree costs.
#[derive(Clone, Copy, Debug, PartialEq, Eq)]
pub struct Cost {
    /// The greatest number of own steps of a process.
    pub steps: u8,
    /// The number of objects.
    pub nodes: u8,
    /// The own steps of all processes together.
    pub sum: u8,
}

/// A plan tree: its teams, the meeting of each node, and the judgements of its processes.
///
/// Nodes have numbers from the root, node 0, on: behind a node come those below its first team, then
/// those below the second one, and so on. The processes that come to a node have numbers from its
/// first one on. The plan keeps a table of its own. Only [`new`](TreePlan::new) takes memory.
#[derive(Drop)]
pub struct TreePlan {
    table: Table,
    teams: Teams,
    pub(crate) meetings: Vec<Meeting>,
    judged: Vec<NodeJudged>,
    paths: Vec<Path>,
}

impl Model for TreePlan {
    ghost use Rattle.cn_tree_plans.specs.Plan.{IsTreePlan, TreePlan, plan_code};
    ghost use Rattle.cn_tree_plans.specs.Paths.{ArePaths};
    ghost use Rattle.cn_tree_plans.specs.Teams.{teams_of};

    ghost Value = { TreePlan };

    ghost coded = { plan_code };

    ghost view = { λ p. record {
      table = p.table;
      teams = teams_of p.teams;
      meetings = p.meetings.items;
      judged = p.judged.items;
    } };

    ghost invariant = { λ p. IsTreePlan (record {
      table = p.table;
      teams = teams_of p.teams;
      meetings = p.meetings.items;
      judged = p.judged.items;
    })
        × ArePaths (teams_of p.teams) p.paths.items };
}

impl TreePlan {
    /// The plan tree of these teams and meetings, with the judgements of its processes.
    ///
    /// # Errors
    ///
    /// `Meets` if a node is no witness: the first such node, with the least process to which two
    /// teams show the same. `OutOfMemory` can come in place of any answer.
    pub fn new(
        alloc: Global,
        table: &Table,
        teams: Teams,
        meetings: Vec<Meeting>,
    ) -> Result<TreePlan, TreePlanFault>
        requires proper { AreProper (teams_of teams) }
        requires few { members (teams_of teams) ≤ MOST_PROCESSES }
        requires fits { AreMeetings table.now (teams_of teams) meetings.items }
        // promise: tree-plans-are-made (IsMade)
        ensures { IsMade table.now (teams_of teams) meetings.items result }
    {
        // A table is a table of a type.
        let _states = table.states();
        let judged = all_judged(alloc, table, &teams, &meetings)?;
        let paths = all_paths(alloc, &teams)?;
        let table = table.copy(alloc)?;
        Ok(TreePlan {
            table,
            teams,
            meetings,
            judged,
            paths,
        })
    }

    /// The type of the objects at the nodes.
    pub fn table(&self) -> &Table
        // promise: parts-of-a-tree-plan
        ensures { result.now ≡ self.now.table }
    {
        &self.table
    }

    /// The teams of the root.
    pub fn teams(&self) -> &Teams
        // promise: parts-of-a-tree-plan
        ensures { teams_of result.now ≡ self.now.teams }
    {
        &self.teams
    }

    /// The number of processes, from 2 to [`MOST_PROCESSES`](cn_choice::MOST_PROCESSES).
    pub fn processes(&self) -> u8
        // promise: parts-of-a-tree-plan
        ensures number { result ≡ processes_of (tree_of self.now) }
        // promise: parts-of-a-tree-plan
        ensures range { (2 ≤ result) × (result ≤ MOST_PROCESSES) }
    {
        self.paths.len() as u8
    }

    /// The number of nodes, less than that of processes.
    pub fn nodes(&self) -> u8
        // promise: parts-of-a-tree-plan
        ensures number { result ≡ nodes_of (tree_of self.now) }
        // promise: parts-of-a-tree-plan
        ensures range { (1 ≤ result) × (result < processes_of (tree_of self.now)) }
    {
        self.meetings.len() as u8
    }

    /// The path of a process, from its lowest node to the root.
    pub fn path(&self, process: u8) -> &[Place]
        requires { process < processes_of (tree_of self.now) }
        // promise: parts-of-a-tree-plan
        ensures places { places_of result.now ≡ path_of (tree_of self.now) process }
        // promise: parts-of-a-tree-plan (IsPlaceOf)
        ensures known { All (IsPlaceOf self.now.teams process) result.now }
        // promise: parts-of-a-tree-plan
        ensures range { (1 ≤ length result.now) × (length result.now ≤ nodes_of (tree_of self.now)) }
    {
        nodes_are_trees();
        self.places(process)
    }

    /// The invariant.
    fn is_plan(&self)
        ensures { IsTreePlan self.now }
    {
        let _ = &self.judged;
    }

    /// The places of this path.
    fn places(&self, process: u8) -> &[Place]
        requires { process < processes_of (tree_of self.now) }
        ensures { places_of result.now ≡ path_of (tree_of self.now) process }
    {
        self.paths[usize::from(process)].places()
    }

    /// The number of a process at a node to which it comes, counted from the first one there.
    fn place(&self, node: u8, process: u8) -> u8
        requires { Has (comes_to self.now.teams node) process }
        ensures node { node < nodes_of (tree_of self.now) }
        ensures number { result ≡ process - (node_at self.now.teams node).first }
        ensures inside { result < members (node_at self.now.teams node).teams }
    {
        nodes_are_trees();
        process - self.first_there(node)
    }

    fn first_there(&self, node: u8) -> u8
        ensures { result ≡ (node_at self.now.teams node).first }
    {
        self.teams.first_at(node)
    }

    /// The teams of a node.
    fn at(&self, node: u8) -> &Teams
        requires { node < nodes_of (tree_of self.now) }
        ensures teams { teams_of result.now ≡ (node_at self.now.teams node).teams }
        ensures several { 2 ≤ length (sizes_of (teams_of result.now)) }
        ensures count { length (sizes_of (teams_of result.now)) ≤ members (teams_of result.now) }
        ensures few { ((node_at self.now.teams node).first + members (teams_of result.now)
            ≤ members self.now.teams) × (members self.now.teams ≤ MOST_PROCESSES) }
    {
        self.teams.at(node)
    }

    /// The meeting of a node.
    // promise: parts-of-a-tree-plan
    pub fn meeting(&self, node: u8) -> &Meeting
        requires { node < nodes_of (tree_of self.now) }
        ensures value { result.now ≡ slice_index_or self.now.meetings node no_meeting }
        ensures start { result.now.start < length self.now.table.states }
        ensures sight { IsSightOf self.now.table (sight_of result.now.sight) }
        ensures size { length result.now.operations ≡ members (node_at self.now.teams node).teams }
        ensures operations { (k : ℕ) → k < members (node_at self.now.teams node).teams
            → slice_index result.now.operations k < length self.now.table.operations }
    {
        &self.meetings[usize::from(node)]
    }

    /// The first process that comes to a node. The others have the numbers behind it.
    pub fn first(&self, node: u8) -> u8
        requires { node < nodes_of (tree_of self.now) }
        // promise: parts-of-a-tree-plan
        ensures { result ≡ (node_at self.now.teams node).first }
    {
        self.first_there(node)
    }

    /// The number of processes that come to a node.
    pub fn size(&self, node: u8) -> u8
        requires { node < nodes_of (tree_of self.now) }
        // promise: parts-of-a-tree-plan
        ensures number { result ≡ members (node_at self.now.teams node).teams }
        // promise: parts-of-a-tree-plan
        ensures range { (2 ≤ result)
            × ((node_at self.now.teams node).first + result ≤ processes_of (tree_of self.now)) }
    {
        self.at(node).members()
    }

    /// The number of teams of a node.
    pub fn team_count(&self, node: u8) -> u8
        requires { node < nodes_of (tree_of self.now) }
        // promise: parts-of-a-tree-plan
        ensures number { result ≡ length (sizes_of (node_at self.now.teams node).teams) }
        // promise: parts-of-a-tree-plan
        ensures range { (2 ≤ result) × (result ≤ MOST_PROCESSES) }
    {
        self.at(node).count()
    }

    /// The sizes of the teams of a node.
    ///
    /// # Errors
    ///
    /// `AllocError` if memory runs out.
    pub fn sizes(&self, alloc: Global, node: u8) -> Result<Vec<u8>, AllocError>
        requires { node < nodes_of (tree_of self.now) }
        // promise: parts-of-a-tree-plan
        ensures { IfOk result (λ sizes. sizes.items
            ≡ sizes_of (node_at self.now.teams node).teams) }
    {
        self.at(node).sizes(alloc)
    }

    /// The team of a process at a node to which it comes.
    pub fn team(&self, node: u8, process: u8) -> u8
        requires { Has (comes_to self.now.teams node) process }
        // promise: parts-of-a-tree-plan
        ensures number { result ≡ team_in self.now.teams node process }
        // promise: parts-of-a-tree-plan
        ensures range { result < length (sizes_of (node_at self.now.teams node).teams) }
    {
        nodes_are_trees();
        for place in self.path(process) {
            if place.node == node {
                return place.team;
            }
        }
        unreachable!()
    }

    /// The operation of a process at a node to which it comes.
    pub fn operation(&self, node: u8, process: u8) -> Operation
        requires { Has (comes_to self.now.teams node) process }
        // promise: parts-of-a-tree-plan
        ensures operation { result.0
            ≡ (meeting_in self.now.teams self.now.meetings node).operation process }
        // promise: parts-of-a-tree-plan
        ensures range { result.0 < length self.now.table.operations }
    {
        let place = self.place(node, process);
        self.meeting(node).operation(place)
    }

    /// The response to a process at a node to which it comes, in this state of the object, and the
    /// next state.
    // promise: parts-of-a-tree-plan
    pub fn act(&self, node: u8, process: u8, state: State) -> (Response, State)
        requires process { Has (comes_to self.now.teams node) process }
        requires state { state.0 < length self.now.table.states }
        ensures act { (result.0.0, result.1.0)
            ≡ act self.now.table ((tree_of self.now).meeting node) process state.0 }
        ensures response { result.0.0 < length self.now.table.responses }
        ensures next { result.1.0 < length self.now.table.states }
    {
        self.table.apply(self.operation(node, process), state)
    }

    /// How the processes of a node look at the object behind their operations.
    pub fn sight(&self, node: u8) -> Sight
        requires { node < nodes_of (tree_of self.now) }
        // promise: parts-of-a-tree-plan
        ensures value { result ≡ (slice_index_or self.now.meetings node no_meeting).sight }
        // promise: parts-of-a-tree-plan
        ensures known { IsSightOf self.now.table (sight_of result) }
    {
        self.meeting(node).sight()
    }

    /// Whether the processes of a node take a step to look at the object.
    pub fn looks(&self, node: u8) -> bool
        requires { node < nodes_of (tree_of self.now) }
        // promise: parts-of-a-tree-plan
        ensures { (p : ℕ) → looks_at (tree_of self.now) node p ≡ result }
    {
        self.sight(node).looks()
    }

    /// What the processes of a node see of this state of the object: its number, or the number of the
    /// response that they look for, or 0 where they do not look.
    // promise: parts-of-a-tree-plan
    pub fn see(&self, node: u8, state: State) -> u8
        requires node { node < nodes_of (tree_of self.now) }
        requires state { state.0 < length self.now.table.states }
        ensures value { (p : ℕ) → see self.now.table ((tree_of self.now).meeting node) p state.0
            ≡ result }
        ensures range { result < seen_count self.now.table
            (sight_of (slice_index_or self.now.meetings node no_meeting).sight) }
    {
        sights::see(&self.table, self.sight(node), state)
    }

    /// What a process judges at a node to which it comes, in order of response, then of what it saw.
    pub fn judged(&self, node: u8, process: u8) -> &[Judged]
        requires { Has (comes_to self.now.teams node) process }
        // promise: judgements-of-a-tree-plan
        ensures { result.now ≡ judged_at self.now node process }
    {
        self.list(node, process).entries()
    }

    /// The list of these.
    fn list(&self, node: u8, process: u8) -> &JudgedList
        requires { Has (comes_to self.now.teams node) process }
        ensures { result.now ≡ judged_at self.now node process }
    {
        let place = self.place(node, process);
        self.judged[usize::from(node)].list(place)
    }

    /// The team that a process judges to have come first at a node, by its response and by what it
    /// saw: see [`see`](TreePlan::see). Team 0 if nothing shows it these.
    pub fn judge(&self, node: u8, process: u8, response: Response, saw: u8) -> u8
        requires { Has (comes_to self.now.teams node) process }
        // promise: judgements-of-a-tree-plan
        ensures team { result ≡ (tree_of self.now).judge node process response.0 saw }
        // promise: judgements-of-a-tree-plan
        ensures range { result < length (sizes_of (node_at self.now.teams node).teams) }
    {
        nodes_are_trees();
        self.is_plan();
        self.list(node, process).team(response, saw)
    }

    /// The own steps of a process: three at each node of its path, or four where it looks.
    pub fn steps(&self, process: u8) -> u8
        requires { process < processes_of (tree_of self.now) }
        // promise: cost-of-a-tree-plan
        ensures number { result ≡ steps_of (tree_of self.now) process }
        // promise: cost-of-a-tree-plan
        ensures range { (3 ≤ result) × (result ≤ 28) }
    {
        self.is_plan();
        let mut steps = 0;
        for place in self.path(process) {
            steps += self.steps_at(place.node);
        }
        steps
    }

    /// The own steps of a process at a node.
    fn steps_at(&self, node: u8) -> u8
        requires { node < nodes_of (tree_of self.now) }
        ensures number { (p : ℕ) → (if looks_at (tree_of self.now) node p then 4 else 3) ≡ result }
        ensures range { (3 ≤ result) × (result ≤ 4) }
    {
        if self.looks(node) { 4 } else { 3 }
    }

    /// What the plan costs.
    // promise: cost-of-a-tree-plan
    pub fn cost(&self) -> Cost
        ensures steps { result.steps ≡ (cost (tree_of self.now)).steps }
        ensures nodes { result.nodes ≡ (cost (tree_of self.now)).nodes }
        ensures sum { result.sum ≡ (cost (tree_of self.now)).sum }
    {
        let (mut steps, mut sum) = (0, 0);
        for process in 0..self.processes() {
            let own = self.steps(process);
            steps = steps.max(own);
            sum += own;
        }
        Cost {
            steps,
            nodes: self.nodes(),
            sum,
        }
    }
}
