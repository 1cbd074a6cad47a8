//! Finds, checks, explains and draws a type of its own, and serves a counter to threads that agree
//! by objects of this type.
#![tactic(auto)]

mod finder;
mod server;
mod texts;

use crate::finder::find_number;
use crate::server::{counter_log, serve, tell_log};
use anyhow::Result;

fn main(rt: HostRuntime) -> Result<()> {
    let certificate = find_number(&rt, rt.alloc())?;
    let core = counter_log(rt.alloc(), certificate.as_str())?;
    let log = serve(&rt, rt.alloc(), core)?;
    tell_log(&rt, &log)
}
