//! The local state of a process.
ghost use Rattle.std.specs.Prelude.{◌≡◌};
ghost use Rattle.cn_lives.specs.declared.local.Local.TheVariants.{Active};
ghost use Rattle.cn_lives.specs.declared.local.Stage.TheVariants.{Write};

use cn_choice::Team;

/// The next action of a process at its place.
#[derive(Clone, Copy, Debug, PartialEq, Eq)]
pub enum Stage {
    /// It writes its value to the register of its team.
    Write,
    /// It reads the object, to see whether it is in the start state.
    Look,
    /// Alone in team A, it reads the register of team B.
    Peek,
    /// It applies its operation to the object.
    Act,
    /// It reads the object once more.
    Again,
    /// It reads the register of this team, which came first.
    Take(Team),
}

/// The local state of a process. A crash loses it.
#[derive(Clone, Copy, Debug, Drop)]
pub enum Local {
    /// The process is at this place of its path, counted from its lowest node, with this value.
    Active {
        /// The place.
        place: usize,
        /// The value.
        value: u64,
        /// The next action.
        stage: Stage,
    },
    /// The process has decided this value.
    Decided(u64),
}

impl Local {
    /// The first local state of a process with this input.
    pub(crate) fn first(input: u64) -> Local
        ensures { result ≡ Active 0 input Write }
    {
        Local::Active {
            place: 0,
            value: input,
            stage: Stage::Write,
        }
    }
}
