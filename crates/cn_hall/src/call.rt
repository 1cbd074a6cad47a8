//! The gate of a call, and why a call has no reply.
ghost use Rattle.std.specs.Prelude.{◌≡◌};
ghost use Rattle.cn_hall.specs.FaultText.{call_fault_name, call_fault_number};

use crate::seat::Seat;
use std::error::Error;
use std::fmt;

/// Whether a call goes on.
#[derive(Clone, Copy, Debug, PartialEq, Eq)]
pub enum Go {
    /// The call takes its next step.
    On,
    /// The call ends here without a reply, and stays pending.
    Stop,
}

/// The gate of a call. A call asks it before each step, while the seat does not hold the core.
pub trait Gate {
    ghost use Rattle.cn_hall.specs.declared.call.Go.{Go};
    ghost use Rattle.cn_hall.specs.Seats.{SeatState};
    ghost use Rattle.std.specs.Prelude.{◌≡◌, ℕ, false};

    ghost says: { Self → Go };

    /// The effect of a question on a gate: the gate before, the seat, the number of the step, and
    /// the gate after. Each gate has a relation of its own.
    ghost asks: { Self → SeatState → ℕ → Self → Type 0 };

    /// Whether the call takes its step of this number. The steps of one `call` or `resume` count
    /// from 1.
    fn before(&mut self, seat: &Seat, step: u32) -> Go
        // promise: gate
        requires free { seat.now.held ≡ false }
        // promise: gate
        ensures said { result ≡ says self.new }
        // promise: gate
        ensures asked { asks self.old seat.now step self.new };

    /// The last answer, or `On`. A caller tells by it whether a call may begin with the gate.
    fn said(&self) -> Go
        // promise: gate
        ensures { result ≡ says self.now };
}

/// A gate that lets every call go on.
#[derive(Drop)]
pub struct AlwaysOn;

impl Gate for AlwaysOn {
    ghost use Rattle.cn_hall.specs.declared.call.Go.TheVariants.{On};

    ghost says = { λ _. On };

    ghost asks = { λ _ _ _ _. Unit {0} };

    fn before(&mut self, _seat: &Seat, _step: u32) -> Go {
        Go::On
    }

    fn said(&self) -> Go {
        Go::On
    }
}

/// Why a call has no reply.
#[derive(Clone, Copy, Debug, PartialEq, Eq)]
pub enum CallFault {
    /// No slot holds the call, and the seat has seen every slot. The seat is in no call.
    LogFull,
    /// The gate stopped the call. The seat is in its call, and `resume` goes on with it.
    Stopped,
}

impl CallFault {
    /// The number of the fault, from 1.
    pub fn number(&self) -> u8
        // promise: fault-texts
        ensures { result ≡ call_fault_number self.now }
    {
        match self {
            CallFault::LogFull => 1,
            CallFault::Stopped => 2,
        }
    }

    /// The name of the fault.
    pub fn name(&self) -> &'static str
        // promise: fault-texts
        ensures { result.now ≡ call_fault_name self.now }
    {
        match self {
            CallFault::LogFull => "LogFull",
            CallFault::Stopped => "Stopped",
        }
    }
}

/// The number and the name.
impl fmt::Display for CallFault {
    ghost use Rattle.std.specs.Prelude.{Some};
    ghost use Rattle.cn_hall.specs.FaultText.{call_fault_text};

    ghost output = { λ fault. Some (call_fault_text fault) };

    fn fmt<W: fmt::Write>(&self, f: &mut fmt::Formatter<W>) -> fmt::Result {
        let (number, name) = (self.number(), self.name());
        write!(f, "{number} {name}")
    }
}

impl Error for CallFault {}
