//! The lines of a service.

pub mod threads;
