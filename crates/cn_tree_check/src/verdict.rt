//! The check of a certificate of a plan tree.
ghost use Rattle.std.specs.Prelude.{◌≡◌, ◌⊎◌, ◌↔◌, IfErr, IfOk, IsTrue, OnOk};
ghost use Rattle.cn_tree_check.specs.Faults.{IsFirstFault};
ghost use Rattle.cn_tree_check.specs.Right.{HasWitnesses, IsCertificateOf, IsPlanOf, IsRight, meetings_of};
ghost use Rattle.cn_tree_check.specs.declared.fault.TreeCheckFault.TheVariants.{OutOfMemory};

use crate::building::teams_told;
use crate::fault::TreeCheckFault;
use crate::laws::faults_are_wrong;
use crate::meetings::all_meetings;
use cn_table::Table;
use cn_tree_cert::TreeCertificate;
use cn_tree_plans::{TreePlan, are_meetings};
use std::alloc::Global;

/// Whether the certificate is for a type of the table's name.
fn is_of_type(certificate: &TreeCertificate, table: &Table) -> bool
    ensures { IsTrue result ↔ (certificate.now.type_name ≡ table.now.name) }
{
    certificate.type_name.as_str() == table.name()
}

/// The plan that a certificate for this type tells, whatever its steps.
fn plan_told(
    alloc: Global,
    table: &Table,
    certificate: &TreeCertificate,
) -> Result<TreePlan, TreeCheckFault>
    requires { certificate.now.type_name ≡ table.now.name }
    ensures plan { IfOk result (λ plan. (plan.table ≡ table.now)
        × (plan.meetings ≡ meetings_of certificate.now)
        × HasWitnesses table.now certificate.now plan.teams) }
    ensures fault { IfErr result (λ e. (e ≡ OutOfMemory)
        ⊎ IsFirstFault table.now certificate.now e) }
{
    let Some(teams) = teams_told(alloc, certificate)? else {
        return Err(TreeCheckFault::NotATree);
    };
    let meetings = all_meetings(alloc, certificate.nodes.as_slice())?;
    if !are_meetings(table, &teams, &meetings) {
        return Err(TreeCheckFault::BadMeeting);
    }
    let plan = TreePlan::new(alloc, table, teams, meetings)?;
    Ok(plan)
}

/// The plan of a certificate that is right.
fn right_plan(
    alloc: Global,
    table: &Table,
    certificate: &TreeCertificate,
) -> Result<TreePlan, TreeCheckFault>
    ensures plan { IfOk result (IsPlanOf table.now certificate.now) }
    ensures fault { IfErr result (λ e. (e ≡ OutOfMemory)
        ⊎ IsFirstFault table.now certificate.now e) }
{
    if !is_of_type(certificate, table) {
        return Err(TreeCheckFault::OtherType);
    }
    let plan = plan_told(alloc, table, certificate)?;
    if plan.cost().steps != certificate.steps {
        return Err(TreeCheckFault::BadSteps);
    }
    Ok(plan)
}

/// Checks a certificate of a plan tree against the table of its type, and answers the plan.
///
/// `Ok` says that the certificate is for this type, and that its nodes are a tree of witnesses, for
/// as many processes and with as many steps as it tells. So is each plan tree in memory one that
/// solves consensus, by [its laws](cn_tree_plans::laws). A certificate of which that is so is
/// accepted, if memory suffices. Nothing is said of whether another plan takes fewer steps.
///
/// # Errors
///
/// The first of the faults 1 to 5 of [`TreeCheckFault`] that the certificate has, or `OutOfMemory`.
pub fn check_tree(
    alloc: Global,
    table: &Table,
    certificate: &TreeCertificate,
) -> Result<TreePlan, TreeCheckFault>
    // promise: check-of-a-plan-tree (IsCertificateOf)
    ensures plan { IfOk result (λ plan. (plan.table ≡ table.now)
        × IsCertificateOf plan certificate.now) }
    // promise: check-of-a-plan-tree (IsRight)
    ensures accepted { OnOk result (IsRight table.now certificate.now) }
    // promise: check-of-a-plan-tree (IsFirstFault)
    ensures refused { IfErr result (λ e. (e ≡ OutOfMemory)
        ⊎ IsFirstFault table.now certificate.now e) }
    // promise: check-of-a-plan-tree (IsRight)
    ensures passes { IsRight table.now certificate.now → IfErr result (λ e. e ≡ OutOfMemory) }
{
    faults_are_wrong();
    right_plan(alloc, table, certificate)
}
