//! Forms in which the collisions that a search records are kept.
ghost use Rattle.std.specs.Prelude.{◌≡◌};

use cn_choice::{Choice, Collision};
use cn_collisions::RecordedOrders;
use std::alloc::{AllocError, Global};

/// A form of the recorded collisions of choices, in the order of the choices: a list of values, or
/// the text of such a list.
pub trait Evidence: Drop + Sized {
    ghost use Rattle.std.specs.Prelude.{List, [], ◌∷◌, ◌++◌, OnOk};
    ghost use Rattle.cn_choice.specs.Collisions.{Collision as CollisionOf};
    ghost use Rattle.cn_collisions.specs.Examination.{collision_with};

    /// These are the collisions that it keeps.
    ghost keeps: { Self → List CollisionOf → Type 0 };

    /// No collision.
    fn none(alloc: Global) -> Self
        ensures { keeps result [] };

    /// Appends the collision of a choice with these orders.
    fn add(&mut self, choice: &Choice, orders: RecordedOrders) -> Result<(), AllocError>
        ensures { (kept : List CollisionOf) → keeps self.old kept
            → OnOk result (keeps self.new (kept ++ collision_with choice.now orders ∷ [])) };

    /// Appends the collisions of another.
    fn append(&mut self, behind: Self) -> Result<(), AllocError>
        ensures { (kept more : List CollisionOf) → keeps self.old kept → keeps behind more
            → OnOk result (keeps self.new (kept ++ more)) };
}

impl Evidence for Vec<Collision> {
    ghost keeps = { λ list kept. list.items ≡ kept };

    fn none(alloc: Global) -> Vec<Collision> {
        Vec::new(alloc)
    }

    fn add(&mut self, choice: &Choice, orders: RecordedOrders) -> Result<(), AllocError> {
        self.push(orders.into_collision(choice))?;
        Ok(())
    }

    fn append(&mut self, behind: Vec<Collision>) -> Result<(), AllocError> {
        let mut behind = behind;
        Vec::append(self, &mut behind)
    }
}
