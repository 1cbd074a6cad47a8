//! The live choices of one block, one after another.
ghost use Rattle.std.specs.Prelude.{◌≡◌, ◌<◌, ◌≤◌, ◌+◌, true, length, All, IsTrue};
ghost use Rattle.cn_table.specs.declared.limits.TheConstants.{MOST_OPERATIONS};
ghost use Rattle.cn_choice.specs.Live.{all_move, is_live};
ghost use Rattle.cn_choice.specs.LiveLeft.{AreMoving, first_choice, live_after, live_from};
ghost use Rattle.cn_choice.specs.declared.limits.TheConstants.{MOST_PROCESSES};

use crate::live::{are_marked, moving_operations};
use crate::rising::{advance_rising, copies_of};
use crate::short_list::list_of;
use crate::{Block, Choice};
use cn_table::laws::tables_are_valid;
use cn_table::{MOST_OPERATIONS, Table};
use std::marker::Model;

/// The first choice of the block.
fn first_of(block: &Block) -> Choice
    requires few { block.now.n ≤ MOST_PROCESSES }
    requires at_most_half { length block.now.a + length block.now.a ≤ block.now.n }
    ensures { result ≡ first_choice block.now.n block.now.state block.now.a }
{
    let a = list_of(block.a.as_slice());
    let others = block.n as usize - a.len();
    let b = if a.len() < others {
        copies_of(0, others)
    } else {
        list_of(a.as_slice())
    };
    let state = block.state;
    Choice { state, a, b }
}

/// Turns the choice into the next live one of its block, and answers whether there is one. Each of
/// its operations of team A leads away from the start state.
fn advance_live(table: &Table, moving: &[bool; MOST_OPERATIONS], choice: &mut Choice) -> bool
    requires moving { AreMoving table.now choice.old.state moving.now }
    requires a { all_move table.now choice.old.state choice.old.a ≡ true }
    requires known { All (λ operation. operation < length table.now.operations) choice.old.b }
    ensures next { live_after table.now choice.old ≡ live_from table.now result choice.new }
    ensures live { IsTrue result → is_live table.now choice.new ≡ true }
    ensures known { All (λ operation. operation < length table.now.operations) choice.new.b }
    ensures same { choice.new.state ≡ choice.old.state }
{
    let operations = table.operations();
    while advance_rising(&mut choice.b, operations) {
        if are_marked(moving, choice.b.as_slice()) {
            return true;
        }
    }
    false
}

/// Turns the choice into the first live one of its block from this one on, and answers whether
/// there is one.
fn find_live(table: &Table, moving: &[bool; MOST_OPERATIONS], choice: &mut Choice) -> bool
    requires moving { AreMoving table.now choice.old.state moving.now }
    requires a { All (λ operation. operation < length table.now.operations) choice.old.a }
    requires b { All (λ operation. operation < length table.now.operations) choice.old.b }
    ensures next { live_from table.now true choice.old ≡ live_from table.now result choice.new }
    ensures live { IsTrue result → is_live table.now choice.new ≡ true }
    ensures known { All (λ operation. operation < length table.now.operations) choice.new.b }
    ensures same { choice.new.state ≡ choice.old.state }
{
    tables_are_valid(table);
    if !are_marked(moving, choice.a.as_slice()) {
        return false;
    }
    if are_marked(moving, choice.b.as_slice()) {
        return true;
    }
    advance_live(table, moving, choice)
}

/// The live choices of a block of the table: the live canonical choices with its start state and
/// its operations of team A, which do not fall. It yields each choice once, in their order, holds
/// the current one, and takes no memory.
///
/// Contracts see it as the list of the choices from the current one on.
///
/// ```text
/// let mut choices = BlockChoices::new(&table, &block);
/// while let Some(choice) = choices.current() {
///     ..
///     choices.advance();
/// }
/// ```
#[derive(Drop)]
pub struct BlockChoices<'t> {
    table: &'t Table,
    moving: [bool; MOST_OPERATIONS],
    choice: Choice,
    left: bool,
}

impl<'t> Model for BlockChoices<'t> {
    ghost use Rattle.std.specs.Prelude.{◌≡◌, ◌<◌, List, All, IsTrue, length, true};
    ghost use Rattle.cn_choice.specs.Canonical.{Choice};
    ghost use Rattle.cn_choice.specs.Live.{is_live};
    ghost use Rattle.cn_choice.specs.LiveLeft.{AreMoving, live_from};

    ghost Value = { List Choice };

    ghost view = { λ s. live_from s.table.now s.left s.choice };

    ghost invariant = { λ s. AreMoving s.table.now s.choice.state s.moving
        × All (λ operation. operation < length s.table.now.operations) s.choice.b
        × (IsTrue s.left → is_live s.table.now s.choice ≡ true) };
}

impl<'t> BlockChoices<'t> {
    ghost use Rattle.std.specs.Prelude.{◌≡◌, ◌≤◌, ◌∷◌, [], List, drop, IfNone, IfSome};
    ghost use Rattle.cn_choice.specs.Blocks.{IsBlockOf};
    ghost use Rattle.cn_choice.specs.Canonical.{Choice as ChoiceOf};
    ghost use Rattle.cn_choice.specs.Live.{live_in};

    /// The live choices of the block.
    pub fn new(table: &'t Table, block: &Block) -> BlockChoices<'t>
        requires some { 2 ≤ block.now.n }
        requires is_block { IsBlockOf table.now block.now }
        // promise: live-blocks
        ensures { result ≡ live_in table.now block.now }
    {
        tables_are_valid(table);
        let moving = moving_operations(table, block.state);
        let mut choice = first_of(block);
        let left = find_live(table, &moving, &mut choice);
        BlockChoices {
            table,
            moving,
            choice,
            left,
        }
    }

    /// The current choice, if there is one.
    #[inline]
    // promise: live-blocks
    pub fn current(&self) -> Option<&Choice>
        ensures none { IfNone result (self.now ≡ []) }
        ensures some { IfSome result
            (λ choice. (rest : List ChoiceOf) × (self.now ≡ choice.now ∷ rest)) }
    {
        if self.left { Some(&self.choice) } else { None }
    }

    /// Goes on to the next choice. After the last one there is none, and nothing changes.
    #[inline]
    pub fn advance(&mut self)
        // promise: live-blocks
        ensures { self.new ≡ drop 1 self.old }
    {
        self.left = self.left && advance_live(self.table, &self.moving, &mut self.choice);
    }
}
