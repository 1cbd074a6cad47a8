//! Stocks: lists of operations, of which a word may use each as often as it stands there.
ghost use Rattle.std.specs.Prelude.{◌≡◌, ◌<◌, ◌≤◌, ◌+◌, ◌++◌, ℕ, List, [], ◌∷◌, length, IfOk, Some, slice_index, slice_index_or};
ghost use Rattle.cn_table.specs.declared.limits.TheConstants.{MOST_OPERATIONS};
ghost use Rattle.cn_stocks.specs.declared.limits.TheConstants.{MOST_SIZE};
ghost use Rattle.cn_stocks.specs.Stocks.{AreAll, AreChildren, AreSmallerStocks, AreStocks, GoesOn, HasChildren, IsStock, UpTo, items_at};

use crate::counts::stock_count;
use crate::limits::MOST_SIZE;
use arrayvec::ArrayVec;
use cn_table::MOST_OPERATIONS;
use std::alloc::{AllocError, Global};

/// A list of operations, and where among the stocks of one operation less those stand that have one
/// of them less.
#[derive(Drop)]
pub struct Stock {
    /// The operations, none below an earlier one.
    pub operations: ArrayVec<u8, MOST_SIZE>,
    /// The greatest of them, or 0 where there is none.
    pub greatest: u8,
    /// For each operation that stands there, the place of the stock that has it once less.
    pub less: [Option<u32>; MOST_OPERATIONS],
}

impl Stock {
    ghost use Rattle.std.specs.Prelude.{◌≤◌, ◌<◌, ◌↔◌, IsTrue};
    ghost use Rattle.cn_table.specs.declared.limits.TheConstants.{MOST_OPERATIONS};
    ghost use Rattle.cn_stocks.specs.Stocks.{HasSmallerStocks};
    ghost use Rattle.cn_stocks.specs.Words.{times};

    /// Whether the operation stands in the stock.
    pub fn has(&self, operation: u8) -> bool
        requires operation { operation < MOST_OPERATIONS }
        requires linked { HasSmallerStocks self.now }
        ensures { IsTrue result ↔ (1 ≤ times operation self.now.operations.items) }
    {
        self.less[operation as usize].is_some()
    }
}

/// By operation, the place of the stock that has it once more.
pub type Children = [u32; MOST_OPERATIONS];

/// All stocks of one number of operations.
#[derive(Drop)]
pub struct Stocks {
    pub list: Vec<Stock>,
    /// For each stock of one operation less, where in the list those with one operation more stand.
    pub children: Vec<Children>,
}

/// The stock of no operation.
fn empty_stock(operations: u8) -> Stock
    ensures stock { IsStock operations [] result }
    ensures items { result.operations.items ≡ [] }
{
    let _operations = operations;
    Stock {
        operations: ArrayVec::new(),
        greatest: 0,
        less: [None; MOST_OPERATIONS],
    }
}

/// The list with one operation more.
fn longer(list: &[u8], operation: u8) -> ArrayVec<u8, MOST_SIZE>
    requires { length list.now < MOST_SIZE }
    ensures { result.items ≡ list.now ++ operation ∷ [] }
{
    let mut items = ArrayVec::new();
    let _fits = items.try_extend_from_slice(list);
    items.push(operation);
    items
}

/// The place of the child by this operation of the stock at the place.
fn child_place(children: &[Children], place: usize, operation: u8) -> u32
    requires place { place < length children.now }
    requires operation { operation < MOST_OPERATIONS }
    ensures { result ≡ slice_index (slice_index_or children.now place []) operation }
{
    children[place][operation as usize]
}

/// The place behind so many stocks. A place takes 4 bytes, since stocks can be many.
fn next_place(stocks: usize) -> Result<u32, AllocError>
    ensures { IfOk result (λ place. place ≡ stocks) }
{
    if stocks > u32::MAX as usize {
        return Err(AllocError);
    }
    Ok(stocks as u32)
}

impl Stocks {
    ghost use Rattle.std.specs.Prelude.{◌≡◌, ◌<◌, ◌≤◌, ◌+◌, ◌++◌, ℕ, List, [], ◌∷◌, length, IfOk, Some, vec_len};
    ghost use Rattle.cn_table.specs.declared.limits.TheConstants.{MOST_OPERATIONS};
    ghost use Rattle.cn_stocks.specs.declared.limits.TheConstants.{MOST_SIZE};
    ghost use Rattle.cn_stocks.specs.Stocks.{AreAll, AreSmallerStocks, AreStocks, GoesOn, HasChildren, IsStock, SomeAll, UpTo, items_at};

    /// For each operation the place of the stock with one of it less than the stock at the place
    /// has with one more of the given operation.
    fn less_with(
        &self,
        place: u32,
        operation: u8,
        operations: u8,
        n: u8,
    ) -> [Option<u32>; MOST_OPERATIONS]
        requires few { operations ≤ MOST_OPERATIONS }
        requires all { SomeAll operations n self.now }
        requires place { place < vec_len self.now.list }
        requires operation { operation < operations }
        requires up_to { (items : List ℕ) → items_at self.now.list.items place ≡ Some items
            → UpTo operation items }
        ensures { (items : List ℕ) → items_at self.now.list.items place ≡ Some items
            → AreSmallerStocks self.now.list.items (items ++ operation ∷ []) result }
    {
        let _n = n;
        let stock = &self.list[place as usize];
        let children = self.children.as_slice();
        let mut less = [None; MOST_OPERATIONS];
        for other in 0..operations {
            if let Some(rest) = stock.less[other as usize] {
                less[other as usize] = Some(child_place(children, rest as usize, operation));
            }
        }
        less[operation as usize] = Some(place);
        less
    }

    /// The stock at the place with one more of this operation, which is not below one of its own.
    fn child_of(&self, place: u32, operation: u8, operations: u8, n: u8) -> Stock
        requires few { operations ≤ MOST_OPERATIONS }
        requires all { SomeAll operations n self.now }
        requires short { n < MOST_SIZE }
        requires place { place < vec_len self.now.list }
        requires operation { operation < operations }
        requires up_to { (items : List ℕ) → items_at self.now.list.items place ≡ Some items
            → UpTo operation items }
        ensures stock { IsStock operations self.now.list.items result }
        ensures items { (items : List ℕ) → items_at self.now.list.items place ≡ Some items
            → result.operations.items ≡ items ++ operation ∷ [] }
    {
        let less = self.less_with(place, operation, operations, n);
        Stock {
            operations: longer(self.list[place as usize].operations.as_slice(), operation),
            greatest: operation,
            less,
        }
    }

    /// Adds the stocks that have one operation more than the stock at the place, each of them not
    /// below one of its own, and answers their places.
    fn add_children(
        &self,
        list: &mut Vec<Stock>,
        place: u32,
        operations: u8,
        n: u8,
    ) -> Result<Children, AllocError>
        requires few { operations ≤ MOST_OPERATIONS }
        requires all { SomeAll operations n self.now }
        requires short { n < MOST_SIZE }
        requires place { place < vec_len self.now.list }
        requires stocks { AreStocks operations self.now.list.items list.old.items }
        ensures stocks { IfOk result (λ _. AreStocks operations self.now.list.items
            list.new.items) }
        ensures row { IfOk result (HasChildren self.now.list.items list.new.items place
            operations) }
        ensures more { IfOk result (λ _. GoesOn list.old.items (n + 1) list.new.items) }
    {
        let mut row = [0; MOST_OPERATIONS];
        let greatest = self.list[place as usize].greatest;
        for operation in greatest..operations {
            let child = self.child_of(place, operation, operations, n);
            let at = next_place(list.len())?;
            row[operation as usize] = at;
            list.push(child)?;
        }
        Ok(row)
    }

    /// All stocks of one operation more; these have n.
    pub fn longer(&self, alloc: Global, operations: u8, n: u8) -> Result<Stocks, AllocError>
        requires few { operations ≤ MOST_OPERATIONS }
        requires all { SomeAll operations n self.now }
        requires short { n < MOST_SIZE }
        ensures { IfOk result (AreAll operations (n + 1) self.now.list.items) }
    {
        let count = next_place(self.list.len())?;
        let mut list = Vec::with_capacity(alloc, stock_count(operations, n + 1) as usize)?;
        let mut children = Vec::with_capacity(alloc, self.list.len())?;
        for place in 0..count {
            let row = self.add_children(&mut list, place, operations, n)?;
            children.push(row)?;
        }
        Ok(Stocks { list, children })
    }
}

/// The stock of no operation alone.
pub fn no_operation(alloc: Global, operations: u8) -> Result<Stocks, AllocError>
    ensures { IfOk result (AreAll operations 0 []) }
{
    let mut list = Vec::new(alloc);
    list.push(empty_stock(operations))?;
    let children = Vec::new(alloc);
    Ok(Stocks { list, children })
}
