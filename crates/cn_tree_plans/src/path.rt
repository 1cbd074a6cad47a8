//! The paths of processes.
ghost use Rattle.std.specs.Prelude.{◌≡◌, ◌+◌, ◌<◌, ◌≤◌, ◌^◌, ◌++◌, IfOk, OnOk};
ghost use Rattle.cn_choice.specs.declared.limits.TheConstants.{MOST_PROCESSES};
ghost use Rattle.cn_trees.specs.Tree.{climb, members, nodes_in, path_in};
ghost use Rattle.cn_tree_plans.specs.Paths.{ArePaths, places_of};
ghost use Rattle.cn_tree_plans.specs.Teams.{AreSeveralBelow, teams_of};

use crate::{Place, Teams};
use std::alloc::{AllocError, Global};
use std::marker::Model;

/// The places of a process, from its lowest node to the root.
#[derive(Drop)]
pub(crate) struct Path {
    places: Vec<Place>,
}

impl Model for Path {
    ghost use Rattle.std.specs.Prelude.{List};
    ghost use Rattle.cn_tree_plans.specs.declared.place.Place.{Place};

    ghost Value = { List Place };

    ghost view = { λ p. p.places.items };
}

impl Path {
    /// The path of a process of the tree with these teams at the root.
    fn of(alloc: Global, teams: &Teams, process: u8) -> Result<Path, AllocError>
        requires few { members (teams_of teams.now) ≤ MOST_PROCESSES }
        requires several { AreSeveralBelow (teams_of teams.now) }
        ensures { IfOk result (λ path. places_of path ≡ path_in (teams_of teams.now) process) }
    {
        let mut places = Vec::new(alloc);
        push_places(&mut places, teams, Place { node: 0, team: 0 }, 1, process)?;
        Ok(Path { places })
    }

    pub(crate) fn places(&self) -> &[Place]
        ensures { result.now ≡ self.now }
    {
        self.places.as_slice()
    }
}

/// Pushes the places of a process of these teams up to their node. The first team has this place;
/// the nodes below have numbers from next on.
fn push_places(
    places: &mut Vec<Place>,
    teams: &Teams,
    top: Place,
    next: u8,
    process: u8,
) -> Result<(), AllocError>
    requires several { AreSeveralBelow (teams_of teams.now) }
    requires few { members (teams_of teams.now) < 2 ^ 8 }
    requires teams { top.team + members (teams_of teams.now) < 2 ^ 8 }
    requires nodes { next + nodes_in (teams_of teams.now) < 2 ^ 8 }
    ensures { OnOk result (places_of places.new.items
        ≡ places_of places.old.items ++ climb (teams_of teams.now) top.node top.team next process) }
{
    match teams {
        Teams::Last => {}
        Teams::Alone(rest) => {
            if process == 0 {
                places.push(top)?;
            } else {
                push_places(places, rest, beside(top), next, process - 1)?;
            }
        }
        Teams::Meet(team, rest) => {
            team.has_several();
            let size = team.members();
            if process < size {
                let below = Place {
                    node: next,
                    team: 0,
                };
                push_places(places, team, below, next + 1, process)?;
                places.push(top)?;
            } else {
                let behind = next + 1 + team.nodes_below();
                push_places(places, rest, beside(top), behind, process - size)?;
            }
        }
    }
    Ok(())
}

/// The next team of the node.
fn beside(top: Place) -> Place
    requires { top.team < 255 }
    ensures node { result.node ≡ top.node }
    ensures team { result.team ≡ top.team + 1 }
{
    Place {
        node: top.node,
        team: top.team + 1,
    }
}

/// The paths of all processes of the tree with these teams at the root.
pub(crate) fn all_paths(alloc: Global, teams: &Teams) -> Result<Vec<Path>, AllocError>
    requires few { members (teams_of teams.now) ≤ MOST_PROCESSES }
    requires several { AreSeveralBelow (teams_of teams.now) }
    ensures { IfOk result (λ paths. ArePaths (teams_of teams.now) paths.items) }
{
    let mut paths = Vec::new(alloc);
    for process in 0..teams.members() {
        paths.push(Path::of(alloc, teams, process)?)?;
    }
    Ok(paths)
}
