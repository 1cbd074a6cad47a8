//! Why an event cannot come, and why a list of events cannot be replayed.
ghost use Rattle.std.specs.Prelude.{◌≡◌, Some};
ghost use Rattle.cn_log.specs.Faults.{replay_fault};
ghost use Rattle.cn_log.specs.FaultText.{replay_fault_name, replay_fault_number, replay_fault_place};
ghost use Rattle.cn_log.specs.declared.fault.ReplayFault.TheVariants.{OutOfMemory};

use std::alloc::{AllocError, AllocFailed};
use std::error::Error;
use std::fmt;

/// Why an event cannot come: its place in the list of events, and the reason. If there are several
/// reasons, the answer is the first in this order.
#[derive(Clone, Copy, Debug, PartialEq, Eq)]
pub enum EventFault {
    /// The plan has no process of this number.
    NoSuchProcess(u64),
    /// The object has no operation of this number.
    NoSuchOperation(u64),
    /// A process makes a call while it is in one.
    NotIdle(u64),
    /// A process takes a step while it is in no call.
    Idle(u64),
    /// A process makes a call after it has replayed every slot.
    AtEnd(u64),
}

impl EventFault {
    /// The number of the fault, from 1.
    pub fn number(&self) -> u8
        // promise: fault-texts
        ensures { result ≡ replay_fault_number (replay_fault self.now) }
    {
        ReplayFault::from(*self).number()
    }

    /// The name of the fault.
    pub fn name(&self) -> &'static str
        // promise: fault-texts
        ensures { result.now ≡ replay_fault_name (replay_fault self.now) }
    {
        ReplayFault::from(*self).name()
    }

    /// The place of the event in the list.
    pub fn place(&self) -> u64
        // promise: fault-texts
        ensures { Some result ≡ replay_fault_place (replay_fault self.now) }
    {
        match self {
            EventFault::NoSuchProcess(place)
            | EventFault::NoSuchOperation(place)
            | EventFault::NotIdle(place)
            | EventFault::Idle(place)
            | EventFault::AtEnd(place) => *place,
        }
    }
}

/// The number, the name and the place.
impl fmt::Display for EventFault {
    ghost use Rattle.std.specs.Prelude.{Some};
    ghost use Rattle.cn_log.specs.Faults.{replay_fault};
    ghost use Rattle.cn_log.specs.FaultText.{replay_fault_text};

    ghost output = { λ fault. Some (replay_fault_text (replay_fault fault)) };

    fn fmt<W: fmt::Write>(&self, f: &mut fmt::Formatter<W>) -> fmt::Result {
        let fault = ReplayFault::from(*self);
        write!(f, "{fault}")
    }
}

impl Error for EventFault {}

/// Why a list of events cannot be replayed: an event that cannot come, as [`EventFault`] tells it,
/// or want of memory.
#[derive(Clone, Copy, Debug, PartialEq, Eq)]
pub enum ReplayFault {
    /// The plan has no process of this number.
    NoSuchProcess(u64),
    /// The object has no operation of this number.
    NoSuchOperation(u64),
    /// A process makes a call while it is in one.
    NotIdle(u64),
    /// A process takes a step while it is in no call.
    Idle(u64),
    /// A process makes a call after it has replayed every slot.
    AtEnd(u64),
    /// Memory ran out.
    OutOfMemory,
}

impl From<EventFault> for ReplayFault {
    ghost from_gives = { λ fault e. e ≡ replay_fault fault };

    fn from(fault: EventFault) -> ReplayFault {
        match fault {
            EventFault::NoSuchProcess(place) => ReplayFault::NoSuchProcess(place),
            EventFault::NoSuchOperation(place) => ReplayFault::NoSuchOperation(place),
            EventFault::NotIdle(place) => ReplayFault::NotIdle(place),
            EventFault::Idle(place) => ReplayFault::Idle(place),
            EventFault::AtEnd(place) => ReplayFault::AtEnd(place),
        }
    }
}

impl<T: Drop> From<AllocFailed<T>> for ReplayFault {
    ghost from_gives = { λ _ e. e ≡ OutOfMemory };

    fn from(_e: AllocFailed<T>) -> ReplayFault {
        ReplayFault::OutOfMemory
    }
}

impl From<AllocError> for ReplayFault {
    ghost from_gives = { λ _ e. e ≡ OutOfMemory };

    fn from(_e: AllocError) -> ReplayFault {
        ReplayFault::OutOfMemory
    }
}

impl ReplayFault {
    /// The number of the fault, from 1.
    pub fn number(&self) -> u8
        // promise: fault-texts
        ensures { result ≡ replay_fault_number self.now }
    {
        match self {
            ReplayFault::NoSuchProcess(_) => 1,
            ReplayFault::NoSuchOperation(_) => 2,
            ReplayFault::NotIdle(_) => 3,
            ReplayFault::Idle(_) => 4,
            ReplayFault::AtEnd(_) => 5,
            ReplayFault::OutOfMemory => 6,
        }
    }

    /// The name of the fault.
    pub fn name(&self) -> &'static str
        // promise: fault-texts
        ensures { result.now ≡ replay_fault_name self.now }
    {
        match self {
            ReplayFault::NoSuchProcess(_) => "NoSuchProcess",
            ReplayFault::NoSuchOperation(_) => "NoSuchOperation",
            ReplayFault::NotIdle(_) => "NotIdle",
            ReplayFault::Idle(_) => "Idle",
            ReplayFault::AtEnd(_) => "AtEnd",
            ReplayFault::OutOfMemory => "OutOfMemory",
        }
    }

    /// The place in the list, if the fault has one.
    pub fn place(&self) -> Option<u64>
        // promise: fault-texts
        ensures { result ≡ replay_fault_place self.now }
    {
        match self {
            ReplayFault::NoSuchProcess(place)
            | ReplayFault::NoSuchOperation(place)
            | ReplayFault::NotIdle(place)
            | ReplayFault::Idle(place)
            | ReplayFault::AtEnd(place) => Some(*place),
            ReplayFault::OutOfMemory => None,
        }
    }
}

/// The number, the name, and the place if the fault has one.
impl fmt::Display for ReplayFault {
    ghost use Rattle.std.specs.Prelude.{Some};
    ghost use Rattle.cn_log.specs.FaultText.{replay_fault_text};

    ghost output = { λ fault. Some (replay_fault_text fault) };

    fn fmt<W: fmt::Write>(&self, f: &mut fmt::Formatter<W>) -> fmt::Result {
        let (number, name) = (self.number(), self.name());
        match self.place() {
            None => write!(f, "{number} {name}"),
            Some(place) => write!(f, "{number} {name} {place}"),
        }
    }
}

impl Error for ReplayFault {}
