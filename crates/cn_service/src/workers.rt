//! Threads that make the calls of the processes, one thread for each seat of a hall.
ghost use Rattle.std.specs.Prelude.{◌≡◌, IfSome};
ghost use Rattle.std.specs.Thread.{IsSync};
ghost use Rattle.cn_hall.specs.declared.call.Go.TheVariants.{On};
ghost use Rattle.cn_service.specs.Workers.{GateWasAsked, HasRoom, HasWorked, HaveAnswered, IsAnswer, MayAnswer, MayStart, MayWork};

use cn_hall::{CallFault, Gate, Hall, Reply, Seat};
use cn_table::Operation;
use std::snapshot::Snapshot;
use std::sync::Wait;
use std::thread;
use std::thread::{Promise, PromisedHandle, Scope, Threads};

/// The replies to the calls of a process, in order, and the fault of the call behind them that has no
/// reply, if there is one.
#[derive(Drop)]
pub struct ProcessHistory {
    /// The replies, in the order of the calls.
    pub replies: Vec<Reply>,
    /// Why the call behind them has no reply.
    pub fault: Option<CallFault>,
}

/// Makes the calls of one process, one after the other, until one has no reply.
fn answer<R: Wait, G: Gate + Drop>(
    rt: &R,
    hall: &Hall,
    seat: Seat,
    room: ProcessHistory,
    gate: G,
    operations: &[u8],
) -> (Seat, ProcessHistory)
    requires seat { MayWork hall.now operations.now seat }
    requires room { HasRoom operations.now room }
    requires gate { G.says gate ≡ On }
    ensures worked { HasWorked operations.now seat result.0 result.1.replies.items result.1.fault }
    ensures asked { GateWasAsked G.asks G.says seat gate result.0 result.1.fault }
{
    let mut seat = seat;
    let mut gate = gate;
    let ProcessHistory { mut replies, .. } = room;
    for operation in operations {
        match hall.call(rt, &mut seat, Operation(*operation), &mut gate) {
            Ok(reply) => replies.push_reserved(reply),
            Err(fault) => {
                let fault = Some(fault);
                return (seat, ProcessHistory { replies, fault });
            }
        }
    }
    let fault = None;
    (seat, ProcessHistory { replies, fault })
}

/// What the thread of a process starts with: its seat, room for its replies, its gate and its calls.
#[derive(Drop)]
struct Worker<'s, G> {
    seat: Seat,
    room: ProcessHistory,
    gate: G,
    operations: &'s Vec<u8>,
}

/// What the thread of a process promises.
#[derive(Drop)]
struct AnswerOf<G> {
    seat: Snapshot<Seat>,
    gate: Snapshot<G>,
    operations: Snapshot<Vec<u8>>,
}

impl<G: Gate> Promise<(Seat, ProcessHistory)> for AnswerOf<G> {
    ghost use Rattle.cn_service.specs.Workers.{IsAnswer};

    ghost kept_by = { λ p r.
        IsAnswer G.asks G.says p.operations.value.items p.seat.value p.gate.value r.0 r.1 };
}

/// Starts a thread of a scope that makes the calls of one process. Answers `None` if it could not be
/// started.
fn start<'s, E, R: Wait + Sync, G: Gate + Send + Drop + 's>(
    scope: &Scope<'s, E>,
    rt: &'s R,
    hall: &'s Hall,
    worker: Worker<'s, G>,
) -> Option<PromisedHandle<(Seat, ProcessHistory), AnswerOf<G>>>
    requires rt { IsSync R.row }
    requires worker { MayStart G.says hall.now worker.operations.now.items worker.seat worker.room
        worker.gate }
    ensures { IfSome result (λ child. (child.promise.seat.value ≡ worker.entry.seat)
        × (child.promise.gate.value ≡ worker.entry.gate)
        × (child.promise.operations.value ≡ worker.entry.operations.now)) }
{
    let Worker {
        seat,
        room,
        gate,
        operations,
    } = worker;
    let promise = AnswerOf {
        seat: Snapshot::of(&seat),
        gate: Snapshot::of(&gate),
        operations: Snapshot::of(operations),
    };
    let child = scope.spawn_with(
        promise,
        move || -> (Seat, ProcessHistory)
            requires { MayStart G.says hall.now operations.now.items seat room gate }
            ensures { IsAnswer G.asks G.says operations.entry.now.items seat gate result.0 result.1 }
        { answer(rt, hall, seat, room, gate, operations) },
    );
    child.ok()
}

/// Makes the calls of one process in a thread of its own, and those of the others beside it. Answers
/// `None` if a thread could not be started.
#[cycle(answers)]
fn answer_beside<R: Threads + Wait + Sync, G: Gate + Send + Drop>(
    rt: &R,
    hall: &Hall,
    worker: Worker<'_, G>,
    seats: Vec<Seat>,
    rooms: Vec<ProcessHistory>,
    gates: Vec<G>,
    calls: &[Vec<u8>],
) -> Option<((Vec<Seat>, Vec<ProcessHistory>), (Seat, ProcessHistory))>
    requires worker { MayStart G.says hall.now worker.operations.now.items worker.seat worker.room
        worker.gate }
    requires others { MayAnswer G.says hall.now calls.now seats.items rooms.items gates.items }
    ensures others { IfSome result (λ r.
        HaveAnswered G.asks G.says calls.now seats rooms gates.items r.0.0 r.0.1) }
    ensures worker { IfSome result (λ r. IsAnswer G.asks G.says worker.entry.operations.now.items
        worker.entry.seat worker.entry.gate r.1.0 r.1.1) }
{
    thread::scope(
        thread::scope_env(),
        rt,
        move |scope| -> Option<((Vec<Seat>, Vec<ProcessHistory>), (Seat, ProcessHistory))>
            requires rt { IsSync R.row }
            requires worker { MayStart G.says hall.now worker.operations.now.items worker.seat
                worker.room worker.gate }
            requires others { MayAnswer G.says hall.now calls.now seats.items rooms.items
                gates.items }
            ensures others { IfSome result (λ r. HaveAnswered G.asks G.says calls.entry.now seats
                rooms gates.items r.0.0 r.0.1) }
            ensures worker { IfSome result (λ r. IsAnswer G.asks G.says
                worker.entry.operations.now.items worker.entry.seat worker.entry.gate r.1.0 r.1.1) }
        {
            let child = start(scope, rt, hall, worker)?;
            let others = answer_each(rt, hall, seats, rooms, gates, calls);
            let last = child.join(rt);
            Some((others?, last))
        },
    )
}

/// Makes the calls of all seats, with a thread of a scope for each seat, and joins the threads.
/// Each thread takes its seat, its gate and its room for replies from the ends of the vectors.
/// Answers `None` if a thread could not be started.
#[cycle(answers)]
pub(crate) fn answer_each<R: Threads + Wait + Sync, G: Gate + Send + Drop>(
    rt: &R,
    hall: &Hall,
    seats: Vec<Seat>,
    rooms: Vec<ProcessHistory>,
    gates: Vec<G>,
    calls: &[Vec<u8>],
) -> Option<(Vec<Seat>, Vec<ProcessHistory>)>
    requires { MayAnswer G.says hall.now calls.now seats.items rooms.items gates.items }
    ensures { IfSome result (λ r.
        HaveAnswered G.asks G.says calls.now seats rooms gates.items r.0 r.1) }
{
    let (mut seats, mut rooms, mut gates) = (seats, rooms, gates);
    let Some(seat) = seats.pop() else {
        return Some((seats, rooms));
    };
    let (Some(room), Some(gate)) = (rooms.pop(), gates.pop()) else {
        unreachable!()
    };
    let worker = Worker {
        seat,
        room,
        gate,
        operations: &calls[seats.len()],
    };
    let (others, last) = answer_beside(rt, hall, worker, seats, rooms, gates, calls)?;
    let (mut seats, mut worked) = others;
    seats.push_reserved(last.0);
    worked.push_reserved(last.1);
    Some((seats, worked))
}
