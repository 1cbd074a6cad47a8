//! The head of a plan tree's program.
ghost use Rattle.std.specs.Prelude.{◌≡◌, ◌++◌, OnOk, option_copied, string_bytes};
ghost use Rattle.cn_code.specs.Trees.{form_of, most_teams, tree_counts, tree_head};

use crate::frame::{Counts, push_counts, push_interface, push_intro, push_title};
use crate::language::{Form, Language};
use crate::served::Served;
use crate::tree::sights::{some_read, some_response};
use cn_tree_plans::TreePlan;
use std::alloc::AllocError;

/// Up to the tables.
pub(crate) fn push_head(
    text: &mut String,
    language: Language,
    plan: &TreePlan,
    object: Option<&Served>,
) -> Result<(), AllocError>
    ensures { OnOk result (string_bytes text.new ≡ string_bytes text.old
        ++ tree_head language plan.now (option_copied object.entry)) }
{
    let (name, form) = (plan.table().name(), form_of(plan));
    push_title(text, language, name, plan.processes(), object)?;
    push_intro(text, language, form, object)?;
    push_counts(text, language, counts_of(plan))?;
    push_interface(text, language, form, object)
}

/// The numbers of the program.
fn counts_of(plan: &TreePlan) -> Counts
    ensures { result ≡ tree_counts plan.now }
{
    Counts {
        processes: plan.processes(),
        nodes: plan.nodes(),
        teams: most_teams(plan),
        steps: plan.cost().steps,
    }
}

#[tactic(auto, using(crate::proofs::Loops::greatest_more))]
fn most_teams(plan: &TreePlan) -> u8
    ensures { result ≡ most_teams plan.now }
{
    let mut most = 0;
    for node in 0..plan.nodes() {
        most = most.max(plan.team_count(node));
    }
    most
}

/// The form of its program.
pub(crate) fn form_of(plan: &TreePlan) -> Form
    ensures { result ≡ form_of plan.now }
{
    if some_response(plan) {
        if some_read(plan) {
            Form::MixedTree
        } else {
            Form::ResponseTree
        }
    } else if some_read(plan) {
        Form::LookTree
    } else {
        Form::BlindTree
    }
}
