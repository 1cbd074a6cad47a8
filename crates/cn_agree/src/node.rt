//! The objects and registers that processes share at a node.
ghost use Rattle.std.specs.Prelude.{◌≡◌};
ghost use Rattle.cn_agree.specs.World.{register, with_register};

use cn_choice::Team;
use cn_table::State;

/// The object of a node and the registers of its two teams, empty at first.
#[derive(Clone, Copy, Debug, Drop)]
pub struct Node<V> {
    /// The state of its object.
    pub state: State,
    /// The value in the register of team A.
    pub register_a: Option<V>,
    /// The value in the register of team B.
    pub register_b: Option<V>,
}

impl<V: Copy> Node<V> {
    pub(crate) fn register(&self, team: Team) -> &Option<V>
        ensures { result.now ≡ register self.now team }
    {
        match team {
            Team::A => &self.register_a,
            Team::B => &self.register_b,
        }
    }

    pub(crate) fn write(&mut self, team: Team, value: V)
        ensures { self.new ≡ with_register self.old team value }
    {
        match team {
            Team::A => self.register_a = Some(value),
            Team::B => self.register_b = Some(value),
        }
    }
}
