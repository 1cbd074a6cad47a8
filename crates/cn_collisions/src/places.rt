//! Where the stock of the operations of a choice stands.
ghost use Rattle.std.specs.Prelude.{◌≡◌, ◌<◌, ◌≤◌, ◌+◌, ◌++◌, ◌∷◌, [], ℕ, List, length, slice_index, All, IfSome, IsFalse, IsTrue};
ghost use Rattle.cn_stocks.specs.Stocks.{UpTo};
ghost use Rattle.cn_table.specs.declared.limits.TheConstants.{MOST_OPERATIONS};
ghost use Rattle.cn_choice.specs.declared.limits.TheConstants.{MOST_PROCESSES};
ghost use Rattle.cn_stocks.specs.Words.{times};
ghost use Rattle.cn_collisions.specs.Places.{HasPlace, HasRoomForMore, HasUpTo};
ghost use Rattle.cn_collisions.specs.Stands.{StandsAt};
ghost use Rattle.cn_collisions.specs.Levels.{AreSomeSets};

use crate::sets::Sets;
use cn_table::MOST_OPERATIONS;

/// Where a stock stands: its number of operations, and its place among the stocks with this number.
#[derive(Clone, Copy)]
pub(crate) struct StockPlace {
    pub size: u8,
    pub place: u32,
}

/// The place of the stock with one more of the operation, which is not below one of its own.
fn child_of(sets: &Sets<'_>, from: StockPlace, operation: u8) -> StockPlace
    requires sets { AreSomeSets sets.now }
    requires operation { operation < length sets.now.table.now.operations }
    requires room { HasRoomForMore sets.now operation from }
    ensures { (stock : List ℕ) → StandsAt sets.now from.size from.place stock
        → UpTo operation stock
        → StandsAt sets.now result.size result.place (stock ++ operation ∷ []) }
{
    let _operations = sets.table.operations();
    let level = &sets.stocks[from.size as usize + 1];
    let children = &level.children[from.place as usize];
    StockPlace {
        size: from.size + 1,
        place: children[operation as usize],
    }
}

/// How often each operation stands in the list.
fn counts_of(list: &[u8]) -> [u8; MOST_OPERATIONS]
    requires few { length list.now ≤ MOST_PROCESSES }
    requires known { All (λ operation. operation < MOST_OPERATIONS) list.now }
    ensures { (o : ℕ) → o < MOST_OPERATIONS → slice_index result o ≡ times o list.now }
{
    let mut counts = [0; MOST_OPERATIONS];
    for operation in list {
        counts[*operation as usize] += 1;
    }
    counts
}

/// The place of the stock to which copies of the operation are added. Their count is that of the
/// operation in the list.
fn with_copies(
    sets: &Sets<'_>,
    list: &[u8],
    operation: u8,
    count: u8,
    from: StockPlace,
) -> StockPlace
    requires sets { AreSomeSets sets.now }
    requires list { length list.now ≡ sets.now.n }
    requires operation { operation < length sets.now.table.now.operations }
    requires count { count ≡ times operation list.now }
    requires from { HasUpTo sets.now list.now operation from }
    ensures { HasUpTo sets.now list.now (operation + 1) result }
{
    let _list = list;
    let mut at = from;
    for _copy in 0..count {
        at = child_of(sets, at, operation);
    }
    at
}

/// The place of the stock of the operations of a list.
fn counted_place(sets: &Sets<'_>, list: &[u8]) -> u32
    requires sets { AreSomeSets sets.now }
    requires list { length list.now ≡ sets.now.n }
    requires known { All (λ operation. operation < length sets.now.table.now.operations) list.now }
    ensures { HasPlace sets.now list.now result }
{
    let end = sets.table.operations();
    let counts = counts_of(list);
    let mut at = StockPlace { size: 0, place: 0 };
    for operation in 0..end {
        at = with_copies(sets, list, operation, counts[operation as usize], at);
    }
    at.place
}

/// Whether the next element of two lists in their merged order is of the first list, after the
/// first elements of each.
fn is_first_next(a: &[u8], b: &[u8], from_a: usize, from_b: usize) -> bool
    requires left { from_a + from_b < length a.now + length b.now }
    requires first { from_a ≤ length a.now }
    requires second { from_b ≤ length b.now }
    ensures first { IsTrue result → from_a < length a.now }
    ensures second { IsFalse result → from_b < length b.now }
{
    from_a < a.len() && (from_b == b.len() || a[from_a] <= b[from_b])
}

/// The place of the stock of the operations of two lists that never fall. It is found in one walk
/// through both, in their merged order. There is none if the walk comes to a smaller operation.
fn merged_place(sets: &Sets<'_>, a: &[u8], b: &[u8]) -> Option<u32>
    requires sets { AreSomeSets sets.now }
    requires lists { length a.now + length b.now ≡ sets.now.n }
    requires first { All (λ operation. operation < length sets.now.table.now.operations) a.now }
    requires second { All (λ operation. operation < length sets.now.table.now.operations) b.now }
    ensures { IfSome result (HasPlace sets.now (a.now ++ b.now)) }
{
    let mut at = StockPlace { size: 0, place: 0 };
    let (mut from_a, mut last) = (0, 0);
    for taken in 0..a.len() + b.len() {
        let is_first = is_first_next(a, b, from_a, taken - from_a);
        let next = if is_first {
            a[from_a]
        } else {
            b[taken - from_a]
        };
        if next < last {
            return None;
        }
        last = next;
        at = child_of(sets, at, next);
        from_a += is_first as usize;
    }
    Some(at.place)
}

/// The place of the stock of the operations of a choice: those of both teams, in one list and
/// apart. A canonical choice needs one walk. For any other one each operation is counted.
pub(crate) fn place_of(sets: &Sets<'_>, list: &[u8], a: &[u8], b: &[u8]) -> u32
    requires sets { AreSomeSets sets.now }
    requires teams { list.now ≡ a.now ++ b.now }
    requires list { length list.now ≡ sets.now.n }
    requires known { All (λ operation. operation < length sets.now.table.now.operations) list.now }
    ensures { HasPlace sets.now list.now result }
{
    match merged_place(sets, a, b) {
        Some(place) => place,
        None => counted_place(sets, list),
    }
}
