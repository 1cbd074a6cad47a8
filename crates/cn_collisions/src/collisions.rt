//! The first collision of a process.
ghost use Rattle.std.specs.Prelude.{◌≡◌, ◌<◌, ◌↔◌, [], ℕ, List, IsFalse, IsTrue};
ghost use Rattle.cn_choice.specs.Canonical.{raw_choice_of};
ghost use Rattle.cn_choice.specs.Collisions.{IsCollision};
ghost use Rattle.cn_choice.specs.FirstCollision.{IsFirstCollision};
ghost use Rattle.cn_table.specs.declared.limits.TheConstants.{MOST_RESPONSES, MOST_STATES};
ghost use Rattle.cn_choice.specs.declared.team.Team.TheVariants.{A, B};
ghost use Rattle.cn_stocks.specs.Pairs.{Has};
ghost use Rattle.cn_collisions.specs.Views.{IsAsked};

use crate::asked::Asked;
use crate::orders::{first_order_into, outcomes};
use arrayvec::ArrayVec;
use cn_choice::{MOST_PROCESSES, Team};
use cn_outcomes::bits::with;
use cn_stocks::pair_sets::PairSet;

/// The set of one pair.
fn only(response: u8, state: u8) -> PairSet
    requires response { response < MOST_RESPONSES }
    requires state { state < MOST_STATES }
    ensures { (r q : ℕ) → Has result r q ↔ ((r ≡ response) × (q ≡ state)) }
{
    let mut pairs = PairSet::none();
    pairs.add_states(response, with(0, state));
    pairs
}

/// Fills two empty lists with the first collision of the process, and answers whether it has one.
/// It is the collision with the least first order, and with it the least second order.
pub(crate) fn collision_of(
    asked: &Asked<'_>,
    alpha: &mut ArrayVec<u8, MOST_PROCESSES>,
    beta: &mut ArrayVec<u8, MOST_PROCESSES>,
) -> bool
    requires asked { IsAsked asked.now }
    requires empty { (alpha.old.items ≡ []) × (beta.old.items ≡ []) }
    ensures none { IsFalse result → (x y : List ℕ)
        → ¬ IsCollision asked.now.view.sets.now.table.now asked.now.view.raw.now
        asked.now.view.process x y }
    ensures unchanged { IsFalse result → (alpha.new.items ≡ []) × (beta.new.items ≡ []) }
    ensures first { IsTrue result → IsFirstCollision asked.now.view.sets.now.table.now
        asked.now.view.raw.now asked.now.view.process alpha.new.items beta.new.items }
{
    let pairs = outcomes(asked, Team::B);
    let Some((response, state)) = first_order_into(asked, Team::A, &pairs, alpha) else {
        return false;
    };
    let pair = only(response, state);
    let Some(_pair) = first_order_into(asked, Team::B, &pair, beta) else {
        unreachable!()
    };
    true
}
