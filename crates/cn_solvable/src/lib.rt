//! The converse, and the theorem: a type solves consensus for n processes exactly if it is
//! n-discerning, so the number found below the limit is the consensus number.
//!
//! Two worlds meet here. In the world of `cn_consensus` a protocol is any program for each process,
//! with any local states, and its step leads from one configuration to the next. In the world of
//! `cn_agree` there is one kind of protocol, that of a plan: its steps lead from one `World` of a
//! round to the next. This crate makes the second a case of the first: the protocol of a round is a
//! protocol of the model, and steps as the round does.
#![tactic(auto)]

pub mod laws;
