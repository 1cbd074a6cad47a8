//! The law of bounds. A law is a function that does nothing: its contract is the law.
ghost use Rattle.cn_table.specs.TypeTable.{IsTypeTable, TypeTable};
ghost use Rattle.cn_unread_number.specs.Bounds.{AreBounds};
ghost use Rattle.cn_unread_number.specs.Evidence.{AreShown};
ghost use Rattle.cn_unread_number.specs.declared.bounds.NumberBounds.{NumberBounds};
ghost use Rattle.cn_unread_number.specs.declared.evidence.LeastEvidence.{LeastEvidence};
ghost use Rattle.cn_unread_number.specs.declared.evidence.MostEvidence.{MostEvidence};

use cn_game::laws::listed_traps_refute;
use cn_table::laws::tables_are_closed;
use cn_unread::laws::{defended_choices_are_witnesses, telling_types_need_no_reads};

/// Bounds that evidence shows hold of the type.
pub fn shown_bounds_hold()
    // promise: number-without-reads (AreShown, AreBounds)
    ensures { (t : TypeTable) (low : LeastEvidence) (high : MostEvidence) (bounds : NumberBounds)
        → IsTypeTable t → AreShown t low high bounds → AreBounds t bounds }
{
    defended_choices_are_witnesses();
    listed_traps_refute();
    tables_are_closed();
    telling_types_need_no_reads();
}
