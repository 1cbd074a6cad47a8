//! Why a schedule did not run.
ghost use Rattle.std.specs.Prelude.{◌≡◌};
ghost use Rattle.cn_agree.specs.FaultText.{schedule_fault_name, schedule_fault_number, schedule_fault_place};
ghost use Rattle.cn_agree.specs.declared.fault.ScheduleFault.TheVariants.{OutOfMemory};

use std::alloc::AllocError;
use std::error::Error;
use std::fmt;

/// Why a schedule did not run. If two faults hold, the answer is the first in this order.
/// `OutOfMemory` comes only if no other fault holds.
#[derive(Clone, Copy, Debug, PartialEq, Eq)]
pub enum ScheduleFault {
    /// The number of inputs is not the number of processes.
    InputCount,
    /// The schedule names a process that does not exist, first at this place, from 0.
    NoSuchProcess(u64),
    /// Memory ran out.
    OutOfMemory,
}

impl From<AllocError> for ScheduleFault {
    ghost from_gives = { λ _ e. e ≡ OutOfMemory };

    fn from(_e: AllocError) -> ScheduleFault {
        ScheduleFault::OutOfMemory
    }
}

impl ScheduleFault {
    /// The number of the fault, from 1.
    pub fn number(&self) -> u8
        // promise: fault-texts
        ensures { result ≡ schedule_fault_number self.now }
    {
        match self {
            ScheduleFault::InputCount => 1,
            ScheduleFault::NoSuchProcess(_) => 2,
            ScheduleFault::OutOfMemory => 3,
        }
    }

    /// The name of the fault.
    pub fn name(&self) -> &'static str
        // promise: fault-texts
        ensures { result.now ≡ schedule_fault_name self.now }
    {
        match self {
            ScheduleFault::InputCount => "InputCount",
            ScheduleFault::NoSuchProcess(_) => "NoSuchProcess",
            ScheduleFault::OutOfMemory => "OutOfMemory",
        }
    }

    /// The place in the schedule, if the fault has one.
    pub fn place(&self) -> Option<u64>
        // promise: fault-texts
        ensures { result ≡ schedule_fault_place self.now }
    {
        match self {
            ScheduleFault::NoSuchProcess(place) => Some(*place),
            ScheduleFault::InputCount | ScheduleFault::OutOfMemory => None,
        }
    }
}

/// The number, the name, and the place if the fault has one.
impl fmt::Display for ScheduleFault {
    ghost use Rattle.std.specs.Prelude.{Some};
    ghost use Rattle.cn_agree.specs.FaultText.{schedule_fault_text};

    ghost output = { λ fault. Some (schedule_fault_text fault) };

    fn fmt<W: fmt::Write>(&self, f: &mut fmt::Formatter<W>) -> fmt::Result {
        let (number, name) = (self.number(), self.name());
        match self.place() {
            None => write!(f, "{number} {name}"),
            Some(place) => write!(f, "{number} {name} {place}"),
        }
    }
}

impl Error for ScheduleFault {}
