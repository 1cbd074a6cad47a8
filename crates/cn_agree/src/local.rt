//! The local state of a process of a round.
ghost use Rattle.std.specs.Prelude.{◌≡◌};
ghost use Rattle.cn_agree.specs.Rounds.{decision_of};
ghost use Rattle.cn_agree.specs.Turns.{with_next};

use cn_table::{Response, State};

/// The next action of a process at its place, with what it keeps for this action.
#[derive(Clone, Copy, Debug, PartialEq, Eq)]
pub enum Stage {
    /// It writes its value to the register of its team.
    Write,
    /// It applies its operation to the object.
    Apply,
    /// It reads the object. Its operation got this response.
    Read(Response),
    /// It reads the register of the team that came first, by its judgement of this response of its
    /// operation and this state that it read.
    Take(Response, State),
}

/// The local state of a process.
#[derive(Clone, Copy, Debug, Drop)]
pub enum Local<V> {
    /// It has not begun.
    NotBegun,
    /// It is at this place of its path, counted from its lowest node, with this value.
    Active {
        place: usize,
        value: V,
        stage: Stage,
    },
    /// It has decided this value.
    Decided(V),
}

impl<V: Copy> Local<V> {
    /// Sets its next action, if it is at a place.
    pub(crate) fn go_on(&mut self, next: Stage)
        ensures { self.new ≡ with_next next self.old }
    {
        if let Local::Active { stage, .. } = self {
            *stage = next;
        }
    }

    /// The decision, if it has one.
    pub(crate) fn decision(&self) -> Option<V>
        ensures { result ≡ decision_of self.now }
    {
        match self {
            Local::Decided(value) => Some(*value),
            Local::NotBegun | Local::Active { .. } => None,
        }
    }
}
