//! The progress of a process in the core.
ghost use Rattle.std.specs.Prelude.{◌<◌};
ghost use Rattle.cn_proto.specs.Plan.{processes_of};
ghost use Rattle.cn_hall.specs.Seats.{IsLog, IsStanding};

use crate::laws::cores_are_logs;
use cn_log::LogCore;

/// The progress of a process in the core: the numbers of entries and slots that it has seen, and
/// whether it is in a call.
#[derive(Clone, Copy)]
pub(crate) struct Standing {
    pub entries: u16,
    pub slots: u16,
    pub in_call: bool,
}

impl Standing {
    /// The progress of a process of the core.
    pub(crate) fn of(core: &LogCore, process: u8) -> Standing
        requires { process < processes_of core.now.opening.plan }
        ensures standing { IsStanding core.now process result }
        ensures log { IsLog core.now }
    {
        cores_are_logs(core);
        Standing {
            entries: core.replayed_entries(process),
            slots: core.replayed(process),
            in_call: !core.is_idle(process),
        }
    }
}
