//! Which operations needs connect.
ghost use Rattle.std.specs.Prelude.{◌≡◌, ◌<◌, ◌↔◌, ◌==◌, ℕ, All, IsTrue, if◌then◌else◌, length, slice_index};
ghost use Rattle.cn_table.specs.declared.limits.TheConstants.{MOST_OPERATIONS};
ghost use Rattle.cn_stock_check.specs.Needs.{AreKnown, ArePartsBy, HaveOneLabel, NeedsConnect};

use crate::needs::{Counts, Need, has_need};
use cn_table::MOST_OPERATIONS;

/// A label for each operation: operations with one label are in one part.
type Labels = [u8; MOST_OPERATIONS];

/// The labels with one in place of another.
fn with_one(labels: Labels, keep: u8, drop: u8) -> Labels
    ensures { (o : ℕ) → o < MOST_OPERATIONS → slice_index result o
        ≡ (if slice_index labels o == drop then keep else slice_index labels o) }
{
    let mut merged = labels;
    for operation in 0..MOST_OPERATIONS {
        if merged[operation] == drop {
            merged[operation] = keep;
        }
    }
    merged
}

/// The parts into which the operations fall by the needs that the counts have.
fn parts(needs: &[Need], counts: &Counts) -> Labels
    requires { AreKnown needs.now }
    ensures { ArePartsBy needs.now counts.now result }
{
    let mut labels = [0, 1, 2, 3, 4, 5, 6, 7];
    for need in needs {
        if has_need(counts, need) {
            let (keep, drop) = (labels[need.first as usize], labels[need.second as usize]);
            labels = with_one(labels, keep, drop);
        }
    }
    labels
}

/// Whether the operations that are there have one label.
fn have_one_label(counts: &Counts, labels: &Labels) -> bool
    ensures { IsTrue result ↔ HaveOneLabel counts.now labels.now }
{
    let mut found = None;
    for operation in 0..MOST_OPERATIONS {
        if counts[operation] == 0 {
            continue;
        }
        match found {
            None => found = Some(labels[operation]),
            Some(label) => {
                if labels[operation] != label {
                    return false;
                }
            }
        }
    }
    true
}

/// Whether the needs that the counts have connect the operations that are there.
pub(crate) fn are_connected(needs: &[Need], counts: &Counts) -> bool
    requires { AreKnown needs.now }
    ensures { IsTrue result ↔ NeedsConnect needs.now counts.now }
{
    have_one_label(counts, &parts(needs, counts))
}
