//! The tests of `cn_app`: what no contract says and no run of the program shows.
//!
//! A test calls public functions with readers, writers and gates of a caller, which the program
//! does not have. The expected answers come from outside the program, as in `tests/rows`.
#![tactic(auto)]

#[cfg(test)]
mod kept;
#[cfg(test)]
mod runs;
#[cfg(test)]
mod serve;
#[cfg(test)]
mod streams;
