//! The search for the shortest plan tree, and for its cost.
#![tactic(auto)]

mod building;
mod choosing;
mod examples;
mod greatest;
mod least;
mod loads;
mod looks;
mod meetings;
mod ordering;
mod plan;
mod roots;
mod search;
mod sizes;

pub use greatest::{greatest_cost, greatest_plan};
pub use least::least_cost;
pub use looks::Looks;
pub use plan::shortest_plan;

#[cfg(test)]
mod tests;
