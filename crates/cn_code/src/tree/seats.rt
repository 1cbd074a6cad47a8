//! Processes at their nodes, and which of them judge alike.
ghost use Rattle.std.specs.Prelude.{◌≡◌, ◌<◌, All, IfOk, OnOk, length};
ghost use Rattle.cn_trees.specs.Tree.{IsPlace, path_of, place_of, processes_of};
ghost use Rattle.cn_tree_plans.specs.Paths.{place_of as place_in_memory};
ghost use Rattle.cn_tree_plans.specs.Plan.{tree_of};
ghost use Rattle.cn_code.specs.TreeJudgements.{IsSeat, all_alike, are_alike, columns, is_alike};
ghost use Rattle.cn_code.specs.TreeJudgements.{judge_alike, judges_of as judges_in, looks};
ghost use Rattle.cn_code.specs.TreeJudgements.{number_among, seat_of, team_first, with_path};
ghost use Rattle.cn_code.specs.TreeJudgements.{with_seat};

use cn_meetings::Sight;
use cn_table::Response;
use cn_tree_plans::{Place, TreePlan};
use std::alloc::{AllocError, Global};

/// A process at a node to which it comes.
#[derive(Clone, Copy)]
pub(crate) struct Seat {
    pub node: u8,
    pub process: u8,
}

/// The first process at each judgement, in the order of the places.
#[tactic(auto, using(crate::proofs::Loops::folds_more))]
pub(crate) fn judges_of(alloc: Global, plan: &TreePlan) -> Result<Vec<Seat>, AllocError>
    ensures judges { IfOk result (λ judges. judges.items ≡ judges_in plan.now) }
    ensures seats { IfOk result (λ judges. All (IsSeat plan.now) judges.items) }
{
    let mut judges = Vec::new(alloc);
    for process in 0..plan.processes() {
        push_path(&mut judges, plan, process)?;
    }
    Ok(judges)
}

#[tactic(auto, using(crate::proofs::Loops::folds_more))]
fn push_path(judges: &mut Vec<Seat>, plan: &TreePlan, process: u8) -> Result<(), AllocError>
    requires process { process < processes_of (tree_of plan.now) }
    requires seats { All (IsSeat plan.now) judges.old.items }
    ensures judges { OnOk result (judges.new.items ≡ with_path plan.now judges.old.items process) }
    ensures seats { OnOk result (All (IsSeat plan.now) judges.new.items) }
{
    for place in 0..places_of(plan, process) {
        push_seat(judges, plan, seat_at(plan, process, place))?;
    }
    Ok(())
}

/// The number of places of a process.
#[tactic(auto, using(crate::proofs::Seats::as_many))]
pub(crate) fn places_of(plan: &TreePlan, process: u8) -> usize
    requires { process < processes_of (tree_of plan.now) }
    ensures { result ≡ length (path_of (tree_of plan.now) process) }
{
    plan.path(process).len()
}

/// The place of a process on its path.
#[tactic(auto, using(crate::proofs::Seats::as_many, crate::proofs::Seats::stands_for))]
pub(crate) fn place_at(plan: &TreePlan, process: u8, place: usize) -> Place
    requires { IsPlace (tree_of plan.now) process place }
    ensures { place_in_memory result ≡ place_of (tree_of plan.now) process place }
{
    plan.path(process)[place]
}

/// The process at the node of a place of its path.
pub(crate) fn seat_at(plan: &TreePlan, process: u8, place: usize) -> Seat
    requires { IsPlace (tree_of plan.now) process place }
    ensures seat { result ≡ seat_of plan.now process place }
    ensures known { IsSeat plan.now result }
{
    Seat {
        node: place_at(plan, process, place).node,
        process,
    }
}

/// One more, if none of these judges alike.
fn push_seat(judges: &mut Vec<Seat>, plan: &TreePlan, seat: Seat) -> Result<(), AllocError>
    requires seat { IsSeat plan.now seat }
    requires seats { All (IsSeat plan.now) judges.old.items }
    ensures judges { OnOk result (judges.new.items ≡ with_seat plan.now judges.old.items seat) }
    ensures seats { OnOk result (All (IsSeat plan.now) judges.new.items) }
{
    if number_among(plan, judges.as_slice(), seat) == judges.len() {
        judges.push(seat)?;
    }
    Ok(())
}

/// The number of the first of these who judges alike, or else the next number.
pub(crate) fn number_among(plan: &TreePlan, judges: &[Seat], seat: Seat) -> usize
    requires seat { IsSeat plan.now seat }
    requires seats { All (IsSeat plan.now) judges.now }
    ensures { result ≡ number_among plan.now judges.now seat }
{
    for (number, judge) in judges.iter().enumerate() {
        if judge_alike(plan, seat, *judge) {
            return number;
        }
    }
    judges.len()
}

/// Whether two processes judge alike by each response and all that they can see, and can see as much.
fn judge_alike(plan: &TreePlan, seat: Seat, other: Seat) -> bool
    requires seat { IsSeat plan.now seat }
    requires other { IsSeat plan.now other }
    ensures { result ≡ judge_alike plan.now seat other }
{
    columns(plan, seat) == columns(plan, other) && all_alike(plan, seat, other)
}

/// Whether they judge alike by each response.
#[tactic(auto, using(crate::proofs::Loops::all_more))]
fn all_alike(plan: &TreePlan, seat: Seat, other: Seat) -> bool
    requires seat { IsSeat plan.now seat }
    requires other { IsSeat plan.now other }
    ensures { result ≡ all_alike plan.now seat other }
{
    for response in 0..plan.table().responses() {
        if !are_alike(plan, seat, other, Response(response)) {
            return false;
        }
    }
    true
}

/// Whether they judge alike by a response and all that they can see.
#[tactic(auto, using(crate::proofs::Loops::all_more))]
fn are_alike(plan: &TreePlan, seat: Seat, other: Seat, response: Response) -> bool
    requires seat { IsSeat plan.now seat }
    requires other { IsSeat plan.now other }
    ensures { result ≡ are_alike plan.now seat other response.0 }
{
    for saw in 0..columns(plan, seat) {
        if !is_alike(plan, seat, other, response, saw) {
            return false;
        }
    }
    true
}

fn is_alike(plan: &TreePlan, seat: Seat, other: Seat, response: Response, saw: u8) -> bool
    requires seat { IsSeat plan.now seat }
    requires other { IsSeat plan.now other }
    ensures { result ≡ is_alike plan.now seat other response.0 saw }
{
    team_first(plan, seat, response, saw) == team_first(plan, other, response, saw)
}

/// The team that a process judges to have come first.
pub(crate) fn team_first(plan: &TreePlan, seat: Seat, response: Response, saw: u8) -> u8
    requires { IsSeat plan.now seat }
    ensures { result ≡ team_first plan.now seat response.0 saw }
{
    plan.judge(seat.node, seat.process, response, saw)
}

/// How much a process can see.
pub(crate) fn columns(plan: &TreePlan, seat: Seat) -> u8
    requires { IsSeat plan.now seat }
    ensures { result ≡ columns plan.now seat }
{
    match plan.sight(seat.node) {
        Sight::State => plan.table().states(),
        Sight::Nothing => 1,
        Sight::Response(_) => plan.table().responses(),
    }
}

/// Whether a process looks at the object.
pub(crate) fn looks(plan: &TreePlan, seat: Seat) -> bool
    requires { IsSeat plan.now seat }
    ensures { result ≡ looks plan.now seat }
{
    plan.looks(seat.node)
}
