//! The local state of a process.
ghost use Rattle.std.specs.Prelude.{◌≡◌};
ghost use Rattle.cn_trees.specs.Consensus.{decision_of};
ghost use Rattle.cn_tree_rounds.specs.Worlds.{local_of};

use cn_table::Response;

/// The next action of a process at its place, with what it keeps for this action.
#[derive(Clone, Copy, Debug)]
pub(crate) enum Stage {
    /// It writes its value to the register of its team.
    Write,
    /// It applies its operation to the object.
    Apply,
    /// It looks at the object. Its operation got this response.
    Look(Response),
    /// It reads the register of the team that came first, by its judgement of this response of its
    /// operation, and of this that it saw: 0 where it does not look.
    Take(Response, u8),
}

/// The local state of a process.
#[derive(Clone, Copy, Debug)]
pub(crate) enum Local {
    /// It is at this place of its path, counted from its lowest node, with this value.
    Active {
        place: usize,
        value: u64,
        stage: Stage,
    },
    /// It has decided this value.
    Decided(u64),
}

impl Local {
    /// The decision, if it has one.
    pub(crate) fn decision(&self) -> Option<u64>
        ensures { result ≡ decision_of (local_of self.now) }
    {
        match self {
            Local::Active { .. } => None,
            Local::Decided(value) => Some(*value),
        }
    }
}
