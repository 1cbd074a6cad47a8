//! The calls of all processes, with a thread for each process.
ghost use Rattle.std.specs.Prelude.{◌≡◌, ◌<◌, [], ℕ, All, IfOk, Some, length, slice_get};
ghost use Rattle.cn_proto.specs.Plan.{processes_of};
ghost use Rattle.cn_hall.specs.declared.call.Go.TheVariants.{On};
ghost use Rattle.cn_service.specs.Serving.{HasServed};
ghost use Rattle.cn_service.specs.Workers.{EachHasOneGate, HaveRoom};
ghost use Rattle.cn_service.specs.declared.serving.ServeFault.TheVariants.{OutOfMemory};

use crate::workers::{ProcessHistory, answer_each};
use cn_hall::{Gate, open};
use cn_log::LogCore;
use std::alloc::{AllocError, Global};
use std::sync::Wait;
use std::thread::Threads;

/// What the threads leave: the replies to the calls of each process, and the log.
#[derive(Drop)]
pub struct ServiceHistory {
    /// Place `p` holds those of process `p`.
    pub processes: Vec<ProcessHistory>,
    /// The log.
    pub core: LogCore,
}

/// Why calls were not served.
#[derive(Clone, Copy)]
pub enum ServeFault {
    /// A thread could not be started.
    Thread,
    /// Memory ran out.
    OutOfMemory,
}

/// Room for the replies to the calls of each process.
fn make_rooms(alloc: Global, calls: &[Vec<u8>]) -> Result<Vec<ProcessHistory>, AllocError>
    ensures count { IfOk result (λ v. length v.items ≡ length calls.now) }
    ensures room { IfOk result (λ v. HaveRoom calls.now v.items) }
{
    let mut rooms = Vec::with_capacity(alloc, calls.len())?;
    for operations in calls {
        let replies = Vec::with_capacity(alloc, operations.len())?;
        rooms.push_reserved(ProcessHistory {
            replies,
            fault: None,
        });
    }
    Ok(rooms)
}

/// Makes a gate for each process: place `p` holds that of process `p`.
fn make_gates<G: Gate + Drop, F: Fn(u8) -> G>(
    alloc: Global,
    processes: u8,
    make_gate: F,
) -> Result<Vec<G>, AllocError>
    requires calls { F.IsAlwaysCallable make_gate }
    requires on { (p : ℕ) (g : _) → F.post make_gate p g → G.says g ≡ On }
    ensures count { IfOk result (λ v. length v.items ≡ processes) }
    ensures on { IfOk result (λ v. All (λ g. G.says g ≡ On) v.items) }
    ensures made { IfOk result (λ v. (p : ℕ) (g : _) → slice_get v.items p ≡ Some g
        → F.post make_gate p g) }
{
    let mut gates = Vec::with_capacity(alloc, usize::from(processes))?;
    for process in 0..processes {
        gates.push_reserved(make_gate(process));
    }
    Ok(gates)
}

/// Makes the calls of each process, one after the other, in a thread of its own, on a core in which
/// nothing has happened. `calls` has a list for each process, of operations of the object. The
/// calls of a process ask the gate that was made for it. Returns once every thread has ended.
///
/// # Errors
///
/// `Thread` if a thread could not be started: those that run finish first. `OutOfMemory` only
/// before the first thread starts: no call takes memory.
pub fn serve_calls<R: Threads + Wait + Sync, G: Gate + Send + Drop, F: Fn(u8) -> G>(
    rt: &R,
    alloc: Global,
    make_gate: F,
    core: LogCore,
    calls: &[Vec<u8>],
) -> Result<ServiceHistory, ServeFault>
    requires empty { core.schedule ≡ [] }
    requires processes { length calls.now ≡ processes_of core.opening.plan }
    requires operations { All (λ c. All (λ o. o < length core.opening.object.operations) c.items)
        calls.now }
    requires gates { F.IsAlwaysCallable make_gate }
    requires on { (p : ℕ) (g : _) → F.post make_gate p g → G.says g ≡ On }
    ensures opening { IfOk result (λ served. served.core.opening ≡ core.opening) }
    ensures count { IfOk result (λ served. length served.processes.items ≡ length calls.now) }
    ensures served { IfOk result (λ served. (p : ℕ) (c w : _) → slice_get calls.now p ≡ Some c
        → slice_get served.processes.items p ≡ Some w
        → HasServed served.core p c.items w.replies.items w.fault) }
    ensures gates { IfOk result (λ served. EachHasOneGate G.asks G.says
        (λ p g. F.post make_gate p g) served.core served.processes.items) }
{
    let rooms = make_rooms(alloc, calls)?;
    let gates = make_gates(alloc, core.processes(), make_gate)?;
    let Ok((hall, seats)) = open(rt, alloc, core) else {
        return Err(ServeFault::OutOfMemory);
    };
    let Some((seats, worked)) = answer_each(rt, &hall, seats, rooms, gates, calls) else {
        return Err(ServeFault::Thread);
    };
    let core = hall.close(rt, seats);
    Ok(ServiceHistory {
        processes: worked,
        core,
    })
}

impl From<AllocError> for ServeFault {
    ghost from_gives = { λ _ e. e ≡ OutOfMemory };

    fn from(_e: AllocError) -> ServeFault {
        ServeFault::OutOfMemory
    }
}
