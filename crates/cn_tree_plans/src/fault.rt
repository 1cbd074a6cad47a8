//! Why meetings have no plan tree.
ghost use Rattle.std.specs.Prelude.{◌≡◌};
ghost use Rattle.cn_tree_plans.specs.declared.fault.TreePlanFault.TheVariants.{OutOfMemory};

use std::alloc::{AllocError, AllocFailed};

/// Why meetings have no plan tree. `OutOfMemory` can come in place of any answer.
#[derive(Clone, Copy, Debug, PartialEq, Eq)]
pub enum TreePlanFault {
    /// The node is the first one that is no witness, and the process its least one to which two
    /// teams show the same.
    Meets { node: u8, process: u8 },
    /// Memory ran out.
    OutOfMemory,
}

impl<T: Drop> From<AllocFailed<T>> for TreePlanFault {
    ghost from_gives = { λ _ e. e ≡ OutOfMemory };

    fn from(_e: AllocFailed<T>) -> TreePlanFault {
        TreePlanFault::OutOfMemory
    }
}

impl From<AllocError> for TreePlanFault {
    ghost from_gives = { λ _ e. e ≡ OutOfMemory };

    fn from(_e: AllocError) -> TreePlanFault {
        TreePlanFault::OutOfMemory
    }
}
