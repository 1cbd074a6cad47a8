//! The search for a visible choice.
ghost use Rattle.std.specs.Prelude.{◌≤◌, IfNone, IfSome};
ghost use Rattle.cn_choice.specs.Canonical.{FitsTable, raw_choice_of};
ghost use Rattle.cn_choice.specs.RawChoices.{IsRawChoice};
ghost use Rattle.cn_choice.specs.declared.limits.TheConstants.{MOST_PROCESSES};
ghost use Rattle.cn_unread.specs.Collects.{IsVisibleFor};
ghost use Rattle.cn_views.specs.VisibleChoices.{IsFirstVisible, NoneVisible};

use crate::looks::Looks;
use cn_choice::laws::live_list;
use cn_choice::{Choice, Choices};
use cn_table::Table;

/// The first live canonical choice for n processes whose teams some silent operations tell apart,
/// if it is among the first `most`. n is from 2 to [`MOST_PROCESSES`](cn_choice::MOST_PROCESSES).
///
/// Where there is one, the type solves consensus for n processes without reads. It takes no memory.
pub fn find_visible(table: &Table, n: u8, most: u32) -> Option<Choice>
    requires some { 2 ≤ n }
    requires few { n ≤ MOST_PROCESSES }
    // promise: visible-search (IsFirstVisible)
    ensures first { IfSome result (IsFirstVisible table.now n most) }
    // promise: visible-search
    ensures fits { IfSome result (λ choice. FitsTable table.now choice
        × IsRawChoice table.now n (raw_choice_of choice)) }
    // promise: visible-search (IsVisibleFor)
    ensures visible { IfSome result (λ choice. IsVisibleFor table.now n) }
    // promise: visible-search (NoneVisible)
    ensures none { IfNone result (NoneVisible table.now n most) }
{
    live_list();
    let looks = Looks::of(table);
    let mut left = most;
    for choice in Choices::new(table, n) {
        if left == 0 {
            return None;
        }
        if looks.tell(table, &choice) {
            return Some(choice);
        }
        left -= 1;
    }
    None
}
