//! Objects that are not read: what a search for consensus numbers without reads needs of a table.
//!
//! Without reads a process gets to know of an object by responses alone. Above the number of a type
//! lie the numbers for which no choice is *defended* in a game on two runs, and *traps* show that
//! there is no such choice. Below it lie the numbers for which responses, with operations that
//! change nothing (*views* of one such operation, *collects* of several) or with further operations
//! (*nodes*), tell the team that began. *Signs* do so for every number. States that no responses tell
//! apart can be *merged*.
//!
//! What these mean for protocols is in `cn_unread_laws`.
#![tactic(auto)]

pub mod laws;
