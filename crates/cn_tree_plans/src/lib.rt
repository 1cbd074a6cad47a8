//! Plan trees in memory: the teams that meet at each node, the meeting there, and what each process
//! judges by its response and by what it sees of the state behind it.
//!
//! [`TreePlan::new`] makes a [`TreePlan`] of a table, [`Teams`] and a [`Meeting`] for each node,
//! and checks each node; a [`TreePlanFault`] says where a process cannot tell who came first:
//!
//! ```text
//! let plan = TreePlan::new(alloc, &table, teams, meetings)?;
//! for place in plan.path(process) {
//!     // Write the value to the register of place.team, do plan.operation(place.node, process),
//!     // look by plan.sight(place.node): saw is the number of the state or of the response that
//!     // it shows, or 0 where nobody looks.
//!     let first = plan.judge(place.node, process, response, saw);
//!     // Go on with the value in the register of that team.
//! }
//! ```
#![tactic(auto)]

mod fault;
mod fitting;
mod judged;
pub mod laws;
mod making;
mod meeting;
mod path;
mod place;
mod plan;
mod shown;
mod sights;
mod teams;

pub use fault::TreePlanFault;
pub use fitting::are_meetings;
pub use judged::Judged;
pub use meeting::Meeting;
pub use place::Place;
pub use plan::{Cost, TreePlan};
pub use teams::Teams;
