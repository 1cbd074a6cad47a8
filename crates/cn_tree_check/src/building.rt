//! From the sizes of the teams of all nodes to the teams of the root.
ghost use Rattle.std.specs.Prelude.{◌≡◌, ◌≢◌, ◌↔◌, ◌≤◌, ◌∷◌, ℕ, List, IfNone, IfOk, IfSome, IsTrue};
ghost use Rattle.cn_choice.specs.declared.limits.TheConstants.{MOST_PROCESSES};
ghost use Rattle.cn_trees.specs.Tree.{members};
ghost use Rattle.cn_tree_check.specs.Heads.{AreTeamsAtHead, BeginsWithTree, IsTreeAtHead};
ghost use Rattle.cn_tree_check.specs.Right.{IsTreeOf};
ghost use Rattle.cn_tree_check.specs.Sizes.{teams_at};
ghost use Rattle.cn_tree_plans.specs.Teams.{AreProper, teams_of};

use cn_choice::MOST_PROCESSES;
use cn_tree_cert::{TreeCertificate, TreeNode};
use cn_tree_plans::Teams;
use std::alloc::{AllocError, Global};

/// Teams, and the nodes behind those that are below them.
#[derive(Drop)]
struct Begun<'n> {
    teams: Teams,
    behind: &'n [TreeNode],
}

/// A process alone before the others.
fn with_alone<'n>(alloc: Global, others: Option<Begun<'n>>) -> Result<Option<Begun<'n>>, AllocError>
    ensures { (sizes : List ℕ) (nodes : List (List ℕ)) → AreTeamsAtHead sizes nodes others.entry
        → IfOk result (AreTeamsAtHead (1 ∷ sizes) nodes) }
{
    let Some(further) = others else {
        return Ok(None);
    };
    let Begun { teams, behind } = further;
    let teams = Teams::alone(alloc, teams)?;
    Ok(Some(Begun { teams, behind }))
}

/// A team that has a node before the others.
fn with_team<'n>(
    alloc: Global,
    team: Teams,
    others: Option<Begun<'n>>,
) -> Result<Option<Begun<'n>>, AllocError>
    ensures { (size : ℕ) (sizes : List ℕ) (nodes left : List (List ℕ)) → size ≢ 1
        → BeginsWithTree size nodes (teams_of team) left → AreTeamsAtHead sizes left others.entry
        → IfOk result (AreTeamsAtHead (size ∷ sizes) nodes) }
{
    let Some(further) = others else {
        return Ok(None);
    };
    let Begun { teams, behind } = further;
    let teams = Teams::meet(alloc, team, teams)?;
    Ok(Some(Begun { teams, behind }))
}

/// Whether the root of a plan tree of so many processes may have these teams.
fn are_of_root(teams: &Teams, size: u8) -> bool
    ensures { IsTrue result ↔ (AreProper (teams_of teams.now)
        × (members (teams_of teams.now) ≤ MOST_PROCESSES) × (members (teams_of teams.now) ≡ size)) }
{
    if !teams.are_proper() {
        return false;
    }
    teams.members() == size
}

/// The teams of the first node, which is the root of a tree of so many processes.
#[cycle(nodes)]
fn next_tree<'n>(
    alloc: Global,
    nodes: &'n [TreeNode],
    size: u8,
) -> Result<Option<Begun<'n>>, AllocError>
    ensures { IfOk result (IsTreeAtHead size (teams_at nodes.now)) }
{
    let Some((root, below)) = nodes.split_first() else {
        return Ok(None);
    };
    if root.teams.len() > MOST_PROCESSES {
        return Ok(None);
    }
    let Some(begun) = next_teams(alloc, below, root.teams.as_slice())? else {
        return Ok(None);
    };
    if are_of_root(&begun.teams, size) {
        Ok(Some(begun))
    } else {
        Ok(None)
    }
}

/// Teams of these sizes. Those of several processes have the first nodes.
#[cycle(nodes)]
fn next_teams<'n>(
    alloc: Global,
    nodes: &'n [TreeNode],
    sizes: &[u8],
) -> Result<Option<Begun<'n>>, AllocError>
    ensures { IfOk result (AreTeamsAtHead sizes.now (teams_at nodes.now)) }
{
    let Some((size, further)) = sizes.split_first() else {
        let teams = Teams::Last;
        return Ok(Some(Begun {
            teams,
            behind: nodes,
        }));
    };
    if *size == 1 {
        let others = next_teams(alloc, nodes, further)?;
        return with_alone(alloc, others);
    }
    let Some(begun) = next_tree(alloc, nodes, *size)? else {
        return Ok(None);
    };
    let others = next_teams(alloc, begun.behind, further)?;
    with_team(alloc, begun.teams, others)
}

/// The teams of the root of the tree that the certificate tells; none if it tells no tree.
pub(crate) fn teams_told(
    alloc: Global,
    certificate: &TreeCertificate,
) -> Result<Option<Teams>, AllocError>
    ensures none { IfOk result (λ o. IfNone o ((s : _) → ¬ IsTreeOf certificate.now s)) }
    ensures some { IfOk result (λ o. IfSome o (λ s. IsTreeOf certificate.now (teams_of s))) }
{
    // The functions above call themselves for each node.
    if certificate.nodes.len() >= MOST_PROCESSES {
        return Ok(None);
    }
    let nodes = certificate.nodes.as_slice();
    let Some(begun) = next_tree(alloc, nodes, certificate.processes)? else {
        return Ok(None);
    };
    if begun.behind.is_empty() {
        Ok(Some(begun.teams))
    } else {
        Ok(None)
    }
}
