//! Recoverable consensus: a type solves it for n processes exactly if it is n-recording, so the
//! recoverable number found below the limit is the recoverable consensus number.
//!
//! The world is the model of `cn_consensus` with one more event: a process crashes, loses its local
//! state, and starts again with its input. Registers and objects keep their contents. `cn_recover`
//! knows no protocols: it computes for how many processes a type has a recording witness. The laws
//! of this crate say what that number means.
#![tactic(auto)]

pub mod laws;
