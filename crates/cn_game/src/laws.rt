//! The law of listed traps. A law is a function that does nothing: its contract is the law.
ghost use Rattle.std.specs.Prelude.{◌≤◌, ℕ, List};
ghost use Rattle.cn_table.specs.TypeTable.{TypeTable};
ghost use Rattle.cn_unread.specs.Defended.{IsDefendedFor};
ghost use Rattle.cn_game.specs.TrapLists.{IsTrapList};
ghost use Rattle.cn_game.specs.declared.trap.Turn.{Turn};

use cn_choice::laws::{live_list, witnesses_are_live};
use cn_unread::laws::{canonical_choices_are_enough, defended_choices_are_witnesses};

/// A type with a trap for all choices for n processes is not defended for n. New here.
pub fn listed_traps_refute()
    // promise: listed-traps-refute (IsTrapList, IsDefendedFor)
    ensures { (t : TypeTable) (n : ℕ) (trap : List Turn) → IsTrapList t n trap
        → ¬ IsDefendedFor t n }
{
    live_list();
    witnesses_are_live();
    canonical_choices_are_enough();
    defended_choices_are_witnesses();
}
