//! The tests of plan trees: schedules by hand.
#![tactic(auto)]

#[cfg(test)]
mod four;
#[cfg(test)]
mod peek;
