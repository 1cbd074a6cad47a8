//! What the processes of a meeting see of the state behind their operations.
use cn_table::Operation;

/// What each process of a meeting sees of the state behind its operation.
#[derive(Clone, Copy, Debug, PartialEq, Eq)]
pub enum Sight {
    /// It reads the state.
    State,
    /// It does not look.
    Nothing,
    /// It does this operation, which changes nothing, and sees the response.
    Response(Operation),
}

impl Sight {
    ghost use Rattle.std.specs.Prelude.{◌≡◌};
    ghost use Rattle.cn_meetings.specs.Meeting.{looks};
    ghost use Rattle.cn_meetings.specs.Sights.{reads, sight_of};

    /// Whether the state is read.
    pub fn reads(self) -> bool
        ensures { result ≡ reads self }
    {
        match self {
            Sight::State => true,
            Sight::Nothing | Sight::Response(_) => false,
        }
    }

    /// Whether a process takes a step to look.
    pub fn looks(self) -> bool
        ensures { result ≡ looks (sight_of self) }
    {
        match self {
            Sight::State | Sight::Response(_) => true,
            Sight::Nothing => false,
        }
    }
}
