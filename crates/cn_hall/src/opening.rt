//! A hall over a core, with its seats.
ghost use Rattle.std.specs.Prelude.{◌≡◌, ◌≤◌, ◌<◌, [], None, Some, ℕ, All, IfErr, IfOk, length};
ghost use Rattle.std.specs.List.{slice_get};
ghost use Rattle.std.specs.Vec.{vec_capacity};
ghost use Rattle.cn_proto.specs.Plan.{processes_of};
ghost use Rattle.cn_hall.specs.Answers.{own};
ghost use Rattle.cn_hall.specs.FaultText.{open_fault_name, open_fault_number};
ghost use Rattle.cn_hall.specs.Rule.{first_view};
ghost use Rattle.cn_hall.specs.Seats.{IsSeatOf, KnowsOnly, note_in, pending, seat_state};
ghost use Rattle.cn_hall.specs.declared.opening.OpenFault.TheVariants.{OutOfMemory};
ghost use Rattle.crossbeam_queue.specs.Passes.{view, IsPassOf, ruled_capacity};

use crate::hall::Hall;
use crate::rule::{Item, Knows, Pass, Queue};
use crate::seat::Seat;
use crate::standing::Standing;
use crate::transfers;
use cn_log::LogCore;
use std::alloc::Global;
use std::error::Error;
use std::sync::Wait;
use std::{fmt, thread};

/// Why a hall did not open.
#[derive(Drop)]
pub enum OpenFault {
    /// Memory ran out. The fault hands the core back unchanged.
    OutOfMemory(LogCore),
}

impl OpenFault {
    /// The number of the fault.
    pub fn number(&self) -> u8
        // promise: fault-texts
        ensures { result ≡ open_fault_number self.now }
    {
        match self {
            OpenFault::OutOfMemory(_) => 1,
        }
    }

    /// The name of the fault.
    pub fn name(&self) -> &'static str
        // promise: fault-texts
        ensures { result.now ≡ open_fault_name self.now }
    {
        match self {
            OpenFault::OutOfMemory(_) => "OutOfMemory",
        }
    }
}

/// The number and the name.
impl fmt::Display for OpenFault {
    ghost use Rattle.std.specs.Prelude.{Some};
    ghost use Rattle.cn_hall.specs.FaultText.{open_fault_text};

    ghost output = { λ fault. Some (open_fault_text fault) };

    fn fmt<W: fmt::Write>(&self, f: &mut fmt::Formatter<W>) -> fmt::Result {
        let (number, name) = (self.number(), self.name());
        write!(f, "{number} {name}")
    }
}

impl fmt::Debug for OpenFault {
    fn fmt<W: fmt::Write>(&self, f: &mut fmt::Formatter<W>) -> fmt::Result {
        fmt::Display::fmt(self, f)
    }
}

impl Error for OpenFault {}

/// Opens a hall over a core. Place p of the vector holds the seat of process p.
///
/// # Errors
///
/// `OutOfMemory` if memory runs out, with the core.
pub fn open<R: Wait>(rt: &R, alloc: Global, core: LogCore) -> Result<(Hall, Vec<Seat>), OpenFault>
    // promise: seats-of-a-hall
    ensures count { IfOk result (λ r. length r.1.items ≡ processes_of core.opening.plan) }
    // promise: seats-of-a-hall
    ensures seats { IfOk result (λ r. (p : ℕ) → p < processes_of core.opening.plan
        → slice_get r.1.items p ≡ Some (seat_state r.0 p core)) }
    // promise: seats-of-a-hall
    ensures of { IfOk result (λ r. All (IsSeatOf r.0) r.1.items) }
    // promise: seats-of-a-hall
    ensures core { IfOk result (λ r. All (λ s. s.core ≡ core) r.1.items) }
    // promise: seats-of-a-hall
    ensures idle { IfOk result (λ r. core.schedule ≡ [] → All (λ s. pending s ≡ None) r.1.items) }
    // promise: seats-of-a-hall
    ensures own { IfOk result (λ r. core.schedule ≡ [] → All (λ s. own s ≡ []) r.1.items) }
    // promise: seats-of-a-hall
    ensures fault { IfErr result (λ e. e ≡ OutOfMemory core) }
{
    let Ok(seats) = Vec::with_capacity(alloc, usize::from(core.processes())) else {
        return Err(OpenFault::OutOfMemory(core));
    };
    let Ok((queue, pass)) = Queue::ruled(alloc, 1) else {
        return Err(OpenFault::OutOfMemory(core));
    };
    let seats = seat_each(rt, &queue, pass, seats, core);
    Ok((Hall { queue }, seats))
}

/// Puts the core in, and seats each process.
fn seat_each<R: Wait>(
    rt: &R,
    queue: &Queue,
    pass: Pass,
    seats: Vec<Seat>,
    core: LogCore,
) -> Vec<Seat>
    requires queue { IsPassOf queue.now pass × (ruled_capacity queue.now ≡ 1) }
    requires first { view pass ≡ first_view }
    requires empty { seats.items ≡ [] }
    requires room { processes_of core.opening.plan ≤ vec_capacity seats }
    ensures count { length result.items ≡ processes_of core.opening.plan }
    ensures seats { (p : ℕ) → p < processes_of core.opening.plan
        → slice_get result.items p ≡ Some (seat_state queue.now.table.shared.table_id p core) }
{
    let mut pass = pass;
    let mut seats = seats;
    let processes = core.processes();
    let events = core.schedule().len();
    let capacity = core.capacity();
    let standing = Standing::of(&core, 0);
    transfers::put_first(rt, queue, &mut pass, Item { core, seated: 1 });
    let mut root = queue.another::<Knows>(&mut pass);
    seats.push_reserved(Seat {
        process: 0,
        capacity,
        standing,
        pass,
    });
    for process in 1..processes {
        let mine = queue.another::<Knows>(&mut root);
        seats.push_reserved(sit(rt, queue, mine, process, events));
    }
    seats
}

/// Seats a process. It waits until the process is the next to be seated and the core has this many
/// events, as the pass knows it.
fn sit<R: Wait>(rt: &R, queue: &Queue, pass: Pass, process: u8, events: usize) -> Seat
    requires queue { IsPassOf queue.now pass × (ruled_capacity queue.now ≡ 1) }
    requires knows { KnowsOnly (view pass) (note_in (view pass)) }
    requires events { length (note_in (view pass)).schedule ≡ events }
    requires process { process < processes_of (note_in (view pass)).opening.plan }
    requires few { process < 255 }
    ensures { result ≡ seat_state queue.now.table.shared.table_id process (note_in (view pass)) }
{
    let mut pass = pass;
    for _ in rt.forever() {
        let item = transfers::take(rt, queue, &mut pass);
        if item.seated == process && item.core.schedule().len() == events {
            let capacity = item.core.capacity();
            let standing = Standing::of(&item.core, process);
            let Item { core, seated } = item;
            let item = Item {
                core,
                seated: seated + 1,
            };
            transfers::put_seat(rt, queue, &mut pass, item);
            return Seat {
                process,
                capacity,
                standing,
                pass,
            };
        }
        transfers::put_back(rt, queue, &mut pass, item);
        thread::yield_now();
    }
    unreachable!()
}
