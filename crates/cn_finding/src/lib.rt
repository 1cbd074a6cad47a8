//! The finding of a search: the number of a type up to a limit, with the evidence for it.
//!
//! A [`Finding`] is what `cn_search` answers, and what a certificate of `cn_cert` says of a type.
//! The definition of the right one is here, so that the search, certificates and their checker
//! share it and nothing else. By [`laws::one_finding`] there is one finding for a type and a limit.
#![tactic(auto)]

mod finding;
pub mod laws;
mod limits;

pub use finding::Finding;
pub use limits::{GREATEST_LIMIT, LEAST_LIMIT};
