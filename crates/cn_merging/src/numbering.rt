//! Classes with numbers.
ghost use Rattle.std.specs.Prelude.{◌≡◌, ◌<◌, ◌≤◌, ℕ, length};
ghost use Rattle.cn_merging.specs.Numbering.{AreOwnFirsts, IsNumbering};
ghost use Rattle.cn_table.specs.declared.limits.TheConstants.{MOST_STATES};

use arrayvec::ArrayVec;
use cn_table::MOST_STATES;

/// The first states of the classes, in order, and for each state the number of its class.
#[derive(Drop)]
pub(crate) struct Numbering {
    pub kept: ArrayVec<u8, MOST_STATES>,
    pub class_of: ArrayVec<u8, MOST_STATES>,
}

/// Numbers the classes in the order of their first states.
pub(crate) fn numbered(firsts: &[u8]) -> Numbering
    requires few { length firsts.now ≤ MOST_STATES }
    requires own { AreOwnFirsts firsts.now }
    ensures { IsNumbering (length firsts.now) firsts.now result.kept.items result.class_of.items }
{
    let mut kept = ArrayVec::new();
    let mut class_of = ArrayVec::new();
    for q in 0..firsts.len() {
        let first = firsts[q];
        if first as usize == q {
            class_of.push(kept.len() as u8);
            kept.push(first);
        } else {
            let class = class_of[first as usize];
            class_of.push(class);
        }
    }
    Numbering { kept, class_of }
}
