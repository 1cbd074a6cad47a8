//! Consensus without reads: what types are worth whose objects are never read.
//!
//! The model is that of `cn_consensus`: a protocol without reads is one of its protocols. It gets to
//! know of objects by responses alone, so types whose states cannot be read are those that it
//! serves. The definitions that speak of tables alone are those of `cn_unread`.
#![tactic(auto)]

pub mod laws;
