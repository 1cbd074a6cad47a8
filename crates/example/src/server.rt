//! Serves a counter to two threads, over a log opened from a certificate.
//!
//! A gate stops the first call of process 1. The other calls are answered all the same, and then
//! the process goes on with its call. What is printed holds for every schedule.
ghost use Rattle.std.specs.Prelude.{◌≡◌, ◌<◌, [], All, IfOk, length};
ghost use Rattle.cn_log.specs.Linearized.{IsLinearized};
ghost use Rattle.cn_log.specs.Opening.{setting};
ghost use Rattle.example.specs.Ready.{IsReady};

use crate::texts::{counter, ticket_roll};
use anyhow::{Context, Result};
use cn_cert::read_certificate;
use cn_check::check;
use cn_check::laws::accepted_witnesses_fit;
use cn_hall::{AlwaysOn, Gate, Go, Hall, Seat, open};
use cn_log::LogCore;
use cn_proto::Plan;
use cn_table::{Operation, read_table};
use std::alloc::Global;
use std::sync::Wait;
use std::thread::{Threads, map_vec};

/// The plan of the witness in a certificate of the ticket roll, which is checked first.
fn certified_plan(alloc: Global, certificate: &str) -> Result<Plan> {
    let table = read_table(alloc, ticket_roll().as_bytes())?;
    let certificate = read_certificate(alloc, certificate.as_bytes())?;
    accepted_witnesses_fit();
    check(&table, &certificate)?;
    let witness = certificate.witness.as_ref().context("no witness")?;
    Ok(Plan::from_witness(alloc, &table, witness)?)
}

/// A log of eight slots for a counter, with nothing in it. Its plan comes from the certificate.
pub(crate) fn counter_log(alloc: Global, certificate: &str) -> Result<LogCore>
    ensures new { IfOk result (λ core. core.schedule ≡ []) }
    ensures operation { IfOk result (λ core. 0 < length core.opening.object.operations) }
{
    let plan = certified_plan(alloc, certificate)?;
    let counter = read_table(alloc, counter().as_bytes())?;
    let zero = counter.find_state("0").context("no state 0")?;
    counter.find_operation("inc").context("no operation inc")?;
    Ok(LogCore::new(alloc, &plan, &counter, zero, 8)?)
}

/// Stops process 1 before the third step of a call; it keeps its last answer.
#[derive(Drop)]
struct StopsOne(Go);

impl Gate for StopsOne {
    ghost says = { λ gate. gate.0 };

    ghost asks = { λ _ _ _ _. Unit {0} };

    fn before(&mut self, seat: &Seat, step: u32) -> Go {
        let stops = seat.process() == 1 && step == 3;
        self.0 = if stops { Go::Stop } else { Go::On };
        self.0
    }

    fn said(&self) -> Go {
        self.0
    }
}

/// Each process goes on with its call, or else increments the counter, in a thread of its own.
fn turn<R: Threads + Wait + Sync>(rt: &R, hall: &Hall, seats: Vec<Seat>) -> Result<Vec<Seat>>
    requires { All (IsReady hall.now) seats.items }
    ensures ready { IfOk result (λ new. All (IsReady hall.now) new.items) }
    ensures count { IfOk result (λ new. length new.items ≡ length seats.items) }
{
    let go_on = |seat: Seat| -> Seat
        requires { IsReady hall.now seat }
        ensures { IsReady hall.entry.now result }
    {
        let mut seat = seat;
        let _ = if seat.in_call() {
            hall.resume(rt, &mut seat, &mut AlwaysOn)
        } else {
            hall.call(rt, &mut seat, Operation(0), &mut StopsOne(Go::On))
        };
        seat
    };
    Ok(map_vec(rt, seats, &go_on)?)
}

/// Serves two turns to the threads, and closes the hall.
pub(crate) fn serve<R: Threads + Wait + Sync + Print>(
    rt: &R,
    alloc: Global,
    core: LogCore,
) -> Result<LogCore>
    requires { 0 < length core.opening.object.operations }
    ensures { IfOk result (λ log. IsLinearized (setting log) log.schedule) }
{
    println!(rt; "{} processes", core.processes())?;
    let (hall, seats) = open(rt, alloc, core)?;
    let seats = turn(rt, &hall, seats)?;
    let stopped = seats.iter().filter(|seat| seat.in_call()).count();
    println!(rt; "stopped calls: {stopped}")?;
    let seats = turn(rt, &hall, seats)?;
    Ok(hall.close(rt, seats))
}

/// Each entry is an increment. Its process depends on the schedule; its response does not.
pub(crate) fn tell_log<R: Print>(rt: &R, log: &LogCore) -> Result<()> {
    let (counter, mut state) = (log.opening().object(), log.opening().start());
    let inc = counter.find_operation("inc").context("no operation inc")?;
    for _entry in log.entries() {
        let (response, next) = counter.apply(inc, state);
        println!(rt; "inc: {}", counter.response_name(response))?;
        state = next;
    }
    Ok(())
}
