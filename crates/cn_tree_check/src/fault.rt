//! Why a certificate of a plan tree is refused.
ghost use Rattle.std.specs.Prelude.{◌≡◌};
ghost use Rattle.cn_tree_check.specs.declared.fault.TreeCheckFault.TheVariants.{OutOfMemory};

use cn_tree_plans::TreePlanFault;
use std::alloc::AllocError;
use std::error::Error;
use std::fmt;

/// Why a certificate of a plan tree is refused, or was not judged.
///
/// Each fault has a number, from 1 to 6. Of the first five that a certificate has, the one with the
/// least number is answered.
#[derive(Clone, Copy, Debug, PartialEq, Eq)]
pub enum TreeCheckFault {
    /// The certificate is for a type of another name.
    OtherType,
    /// The teams are not those of a tree for as many processes as the certificate tells.
    NotATree,
    /// A node has a state or an operation that is none of the type, or not an operation for each of
    /// its processes, or its processes look by an operation that changes a state.
    BadMeeting,
    /// The node is the first one that is no witness, and the process its least one to which two
    /// teams show the same.
    Meets { node: u8, process: u8 },
    /// The greatest number of own steps of a process is another one.
    BadSteps,
    /// There was not enough memory.
    OutOfMemory,
}

impl From<AllocError> for TreeCheckFault {
    ghost from_gives = { λ _ e. e ≡ OutOfMemory };

    fn from(_e: AllocError) -> TreeCheckFault {
        TreeCheckFault::OutOfMemory
    }
}

impl From<TreePlanFault> for TreeCheckFault {
    ghost use Rattle.cn_tree_check.specs.Faults.{as_check_fault};

    ghost from_gives = { λ fault e. e ≡ as_check_fault fault };

    fn from(fault: TreePlanFault) -> TreeCheckFault {
        match fault {
            TreePlanFault::Meets { node, process } => TreeCheckFault::Meets { node, process },
            TreePlanFault::OutOfMemory => TreeCheckFault::OutOfMemory,
        }
    }
}

impl TreeCheckFault {
    ghost use Rattle.cn_tree_check.specs.FaultText.{tree_fault_name, tree_fault_number};

    /// The number of the fault.
    pub fn number(&self) -> u8
        // promise: fault-texts
        ensures { result ≡ tree_fault_number self.now }
    {
        match self {
            TreeCheckFault::OtherType => 1,
            TreeCheckFault::NotATree => 2,
            TreeCheckFault::BadMeeting => 3,
            TreeCheckFault::Meets { .. } => 4,
            TreeCheckFault::BadSteps => 5,
            TreeCheckFault::OutOfMemory => 6,
        }
    }

    /// The name of the fault.
    pub fn name(&self) -> &'static str
        // promise: fault-texts
        ensures { result.now ≡ tree_fault_name self.now }
    {
        match self {
            TreeCheckFault::OtherType => "OtherType",
            TreeCheckFault::NotATree => "NotATree",
            TreeCheckFault::BadMeeting => "BadMeeting",
            TreeCheckFault::Meets { .. } => "Meets",
            TreeCheckFault::BadSteps => "BadSteps",
            TreeCheckFault::OutOfMemory => "OutOfMemory",
        }
    }
}

impl fmt::Display for TreeCheckFault {
    ghost use Rattle.std.specs.Prelude.{Some};
    ghost use Rattle.cn_tree_check.specs.FaultText.{tree_fault_text};

    ghost output = { λ fault. Some (tree_fault_text fault) };

    fn fmt<W: fmt::Write>(&self, f: &mut fmt::Formatter<W>) -> fmt::Result {
        match self {
            TreeCheckFault::Meets { node, process } => write!(f, "4 Meets {node} {process}"),
            _ => write!(f, "{} {}", self.number(), self.name()),
        }
    }
}

impl Error for TreeCheckFault {}
