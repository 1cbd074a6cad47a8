//! The model of all protocols, and what consensus needs: a type with which some protocol solves
//! wait-free consensus for n processes, from registers and readable objects of the type, is
//! n-discerning.
//!
//! In this world a protocol is any program for each process, with local states and contents of
//! registers of any type, any number of registers and objects, and one atomic step at a time. The
//! world of `cn_agree` is another: there the one protocol is that of a plan, and `World` is the
//! state of its round. `cn_solvable` shows that the second is a case of the first.
#![tactic(auto)]

pub mod laws;
