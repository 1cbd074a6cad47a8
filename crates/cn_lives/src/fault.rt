//! Why a choice has no plan of lives.
ghost use Rattle.std.specs.Prelude.{◌≡◌};
ghost use Rattle.cn_lives.specs.declared.fault.RecordingFault.TheVariants.{OutOfMemory};

use std::alloc::AllocError;

/// Why a choice has no plan of lives. `OutOfMemory` can come in place of a plan.
#[derive(Clone, Copy, Debug, PartialEq, Eq)]
pub enum RecordingFault {
    /// The choice is no recording witness.
    NotRecording,
    /// Memory ran out.
    OutOfMemory,
}

impl From<AllocError> for RecordingFault {
    ghost from_gives = { λ _ e. e ≡ OutOfMemory };

    fn from(_e: AllocError) -> RecordingFault {
        RecordingFault::OutOfMemory
    }
}
