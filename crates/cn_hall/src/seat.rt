//! A seat of a hall.
ghost use Rattle.std.specs.Prelude.{◌≡◌, ◌≢◌, ◌≤◌, ◌↔◌, IsFalse, IsTrue, None, length};
ghost use Rattle.cn_hall.specs.Seats.{pending, entries_seen, slots_seen};

use crate::rule::Pass;
use crate::standing::Standing;
use std::marker::Model;

/// A thread's share of a hall: a process, its progress, and the core as it was when the seat last
/// put an event in. Any thread can take a seat.
#[derive(Drop)]
pub struct Seat {
    pub(crate) process: u8,
    pub(crate) capacity: u16,
    pub(crate) standing: Standing,
    pub(crate) pass: Pass,
}

impl Model for Seat {
    ghost use Rattle.std.specs.Prelude.{◌≡◌, ◌<◌, []};
    ghost use Rattle.cn_proto.specs.Plan.{processes_of};
    ghost use Rattle.cn_hall.specs.Seats.{IsLog, IsOfSeat, IsStanding, SeatState, core_of, is_held};
    ghost use Rattle.crossbeam_queue.specs.Passes.{view as known};

    ghost Value = { SeatState };

    ghost view = { λ s. record {
      hall = s.pass.table_id;
      process = s.process;
      core = core_of (known s.pass);
      held = is_held (known s.pass).held;
    } };

    ghost invariant = { λ s. let core = core_of (known s.pass) in
        (s.pass.me.1 ≡ []) × IsOfSeat (known s.pass) s.process core
        × (s.process < processes_of core.opening.plan) × (s.capacity ≡ core.opening.capacity)
        × IsStanding core s.process s.standing × IsLog core };
}

impl Seat {
    /// The process of the seat.
    pub fn process(&self) -> u8
        // promise: parts-of-a-seat
        ensures { result ≡ self.now.process }
    {
        self.process
    }

    /// Whether the process is in a call. If so, `Hall::resume` goes on with it; else `Hall::call`
    /// makes one.
    pub fn in_call(&self) -> bool
        // promise: parts-of-a-seat
        ensures call { IsTrue result ↔ (pending self.now ≢ None) }
        // promise: parts-of-a-seat
        ensures idle { IsFalse result ↔ (pending self.now ≡ None) }
    {
        self.standing.in_call
    }

    /// The number of entries that the seat has seen, in the slots that its process has replayed.
    /// `Hall::meet` compares this number.
    pub fn seen_len(&self) -> u16
        // promise: parts-of-a-seat
        ensures number { result ≡ length (entries_seen self.now) }
    {
        self.standing.entries
    }

    /// The number of slots that the seat has seen, which its process has replayed. At the capacity
    /// of the log, `Hall::call` answers `LogFull` at once.
    pub fn seen_slots(&self) -> u16
        // promise: parts-of-a-seat
        ensures number { result ≡ length (slots_seen self.now) }
        // promise: parts-of-a-seat
        ensures range { result ≤ self.now.core.opening.capacity }
    {
        self.standing.slots
    }
}
