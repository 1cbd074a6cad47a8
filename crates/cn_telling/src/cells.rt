//! The stocks within one stock.
ghost use Rattle.std.specs.Prelude.{◌≡◌, ◌<◌, ◌≤◌, ◌+◌, ◌++◌, ℕ, List, [], ◌∷◌, length, replicate, IfOk};
ghost use Rattle.cn_table.specs.declared.limits.TheConstants.{MOST_OPERATIONS};
ghost use Rattle.cn_stocks.specs.declared.limits.TheConstants.{MOST_SIZE};
ghost use Rattle.cn_stocks.specs.Stocks.{IsStock};
ghost use Rattle.cn_stocks.specs.Words.{HaveSame, IsKnown, times};
ghost use Rattle.cn_telling.specs.Cells.{AreCells, AreCellsOf, IsBelow};

use arrayvec::ArrayVec;
use cn_stocks::limits::MOST_SIZE;
use cn_stocks::stocks::Stock;
use cn_table::MOST_OPERATIONS;
use std::alloc::{AllocError, Global};

/// How often the operation stands in the list.
fn count_of(operations: &[u8], operation: u8) -> usize
    ensures { result ≡ times operation operations.now }
{
    let mut count = 0;
    for other in operations {
        if *other == operation {
            count += 1;
        }
    }
    count
}

/// The stock of no operation.
fn empty_stock() -> Stock
    ensures stock { IsStock MOST_OPERATIONS [] result }
    ensures items { result.operations.items ≡ [] }
{
    Stock {
        operations: ArrayVec::new(),
        greatest: 0,
        less: [None; MOST_OPERATIONS],
    }
}

/// The list with one operation more.
fn longer(list: &[u8], operation: u8) -> ArrayVec<u8, MOST_SIZE>
    requires { length list.now < MOST_SIZE }
    ensures { result.items ≡ list.now ++ operation ∷ [] }
{
    let mut items = ArrayVec::new();
    let _fits = items.try_extend_from_slice(list);
    items.push(operation);
    items
}

/// The place behind so many stocks.
fn next_place(stocks: usize) -> Result<u32, AllocError>
    ensures { IfOk result (λ place. place ≡ stocks) }
{
    if stocks > u32::MAX as usize {
        return Err(AllocError);
    }
    Ok(stocks as u32)
}

/// The last stocks of a list, of each of which one with one operation more is put behind them, in
/// their order.
#[derive(Clone, Copy)]
pub(crate) struct Block {
    /// Where the first of them stands.
    pub first: u32,
    /// How many they are.
    pub size: u32,
    /// The operation.
    pub operation: u8,
}

impl Block {
    ghost use Rattle.std.specs.Prelude.{◌≡◌, ◌<◌, ◌≤◌, ◌+◌, ◌^◌, ◌++◌, ℕ, List, [], ◌∷◌, length, IfOk, Some, slice_get};
    ghost use Rattle.cn_table.specs.declared.limits.TheConstants.{MOST_OPERATIONS};
    ghost use Rattle.cn_stocks.specs.declared.limits.TheConstants.{MOST_SIZE};
    ghost use Rattle.cn_stocks.specs.Stocks.{AreSmallerStocks, IsStock, items_at};
    ghost use Rattle.cn_telling.specs.Cells.{HaveRoom, IsUnderway, LinksNext};

    /// The links of the stock that has one operation more than that at the place. Without another
    /// operation it stands as far behind as it does itself.
    fn links(&self, list: &[Stock], place: u32) -> [Option<u32>; MOST_OPERATIONS]
        requires underway { IsUnderway self.now place list.now }
        requires inside { place < self.now.first + self.now.size }
        requires room { place + self.now.size < 2 ^ 32 }
        ensures smaller { (items : List ℕ) → items_at list.now place ≡ Some items
            → AreSmallerStocks list.now (items ++ self.now.operation ∷ []) result }
        ensures places { LinksNext self.now place result }
    {
        let stock = &list[place as usize];
        let mut less = [None; MOST_OPERATIONS];
        for other in 0..MOST_OPERATIONS {
            if other == self.operation as usize {
                continue;
            }
            if let Some(rest) = stock.less[other] {
                less[other] = Some(rest + self.size);
            }
        }
        less[self.operation as usize] = Some(place);
        less
    }

    /// The stock that has one operation more than that at the place.
    fn next(&self, list: &[Stock], place: u32) -> Stock
        requires underway { IsUnderway self.now place list.now }
        requires inside { place < self.now.first + self.now.size }
        requires room { place + self.now.size < 2 ^ 32 }
        requires short { HaveRoom list.now place }
        ensures stock { IsStock MOST_OPERATIONS list.now result }
        ensures items { (items : List ℕ) → items_at list.now place ≡ Some items
            → result.operations.items ≡ items ++ self.now.operation ∷ [] }
        ensures places { LinksNext self.now place result.less }
    {
        let less = self.links(list, place);
        Stock {
            operations: longer(list[place as usize].operations.as_slice(), self.operation),
            greatest: self.operation,
            less,
        }
    }

    /// Puts the stocks with one operation more behind those of the block.
    fn add_to(&self, list: &mut Vec<Stock>) -> Result<(), AllocError>
        requires underway { IsUnderway self.now self.now.first list.old.items }
        requires short { (i : ℕ) → HaveRoom list.old.items i }
        ensures all { IfOk result (λ _. IsUnderway self.now (self.now.first + self.now.size)
            list.new.items) }
        ensures kept { IfOk result (λ _. (i : ℕ) → i < length list.old.items
            → slice_get list.new.items i ≡ slice_get list.old.items i) }
    {
        let end = next_place(list.len())?;
        for place in self.first..end {
            // Its place is known to fit before it is made.
            let _at = next_place(list.len())?;
            let stock = self.next(list.as_slice(), place);
            list.push(stock)?;
        }
        Ok(())
    }
}

/// Puts those stocks behind the others that have the operation too, up to so many times.
fn add_operation(cells: &mut Vec<Stock>, operation: u8, count: usize) -> Result<(), AllocError>
    requires operation { operation < MOST_OPERATIONS }
    requires cells { (whole : List ℕ) × AreCells whole cells.old.items × IsBelow operation whole
        × (length whole + count ≤ MOST_SIZE) }
    ensures { (whole : List ℕ) → AreCells whole cells.old.items
        → IfOk result (λ _. AreCells (whole ++ replicate count operation) cells.new.items) }
{
    let mut first = 0;
    for _copy in 0..count {
        let end = next_place(cells.len())?;
        let block = Block {
            first,
            size: end - first,
            operation,
        };
        block.add_to(cells)?;
        first = end;
    }
    Ok(())
}

/// The stocks within the stock, each behind those that have one operation less. The last one is the
/// whole stock.
pub fn stocks_within(alloc: Global, operations: u8, stock: &[u8]) -> Result<Vec<Stock>, AllocError>
    requires few { operations ≤ MOST_OPERATIONS }
    requires known { IsKnown operations stock.now }
    requires short { length stock.now ≤ MOST_SIZE }
    ensures { IfOk result (λ cells. AreCellsOf stock.now cells.items) }
{
    let mut cells = Vec::new(alloc);
    cells.push(empty_stock())?;
    for operation in 0..operations {
        let count = count_of(stock, operation);
        add_operation(&mut cells, operation, count)?;
    }
    Ok(cells)
}
