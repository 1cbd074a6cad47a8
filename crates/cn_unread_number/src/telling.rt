//! Types that need no reads: responses, or operations that change nothing, tell the state.
ghost use Rattle.std.specs.Prelude.{◌<◌, ◌↔◌, IfNone, IfSome, IsTrue, length};
ghost use Rattle.cn_unread.specs.Telling.{LooksTellStates, ResponsesTellStates};
ghost use Rattle.cn_unread_number.specs.Agreeing.{Agree, AgreesWithAll, IsSeen, TellsStates};
ghost use Rattle.cn_unread_number.specs.Bounds.{NeedsNoReads};
ghost use Rattle.cn_unread_number.specs.Evidence.{SomeLooksTellStates, TellsBy, TellsItsStates};
ghost use Rattle.cn_views.specs.LookTables.{AreLooksOf};

use cn_table::laws::{tables_are_closed, tables_are_valid};
use cn_table::{Operation, State, Table};
use cn_unread::laws::telling_types_need_no_reads;
use cn_views::Looks;

/// Whether the operation leads from both states to one, or answers something else in each.
fn agree(table: &Table, operation: Operation, p: State, q: State) -> bool
    requires operation { operation.0 < length table.now.operations }
    requires first { p.0 < length table.now.states }
    requires second { q.0 < length table.now.states }
    ensures { IsTrue result ↔ Agree table.now operation.0 p.0 q.0 }
{
    let (response, next) = table.apply(operation, p);
    let (other, other_next) = table.apply(operation, q);
    response.0 != other.0 || next.0 == other_next.0
}

/// Whether the operation agrees so in this state and each other.
fn agrees_with_all(table: &Table, operation: Operation, p: State) -> bool
    requires operation { operation.0 < length table.now.operations }
    requires state { p.0 < length table.now.states }
    ensures { IsTrue result ↔ AgreesWithAll table.now operation.0 p.0 }
{
    for q in 0..table.states() {
        if !agree(table, operation, p, State(q)) {
            return false;
        }
    }
    true
}

/// Whether the responses of the operation tell the state to which it leads.
fn tells_states(table: &Table, operation: Operation) -> bool
    requires { operation.0 < length table.now.operations }
    ensures { IsTrue result ↔ TellsStates table.now operation.0 }
{
    for p in 0..table.states() {
        if !agrees_with_all(table, operation, State(p)) {
            return false;
        }
    }
    true
}

/// Whether each operation leads to one state wherever it answers the same.
fn responses_tell_states(table: &Table) -> bool
    ensures { IsTrue result ↔ ResponsesTellStates table.now }
{
    for operation in 0..table.operations() {
        if !tells_states(table, Operation(operation)) {
            return false;
        }
    }
    true
}

/// Whether no other state looks like this one.
fn is_seen(table: &Table, looks: &Looks, p: State) -> bool
    requires looks { AreLooksOf table.now looks.now }
    requires state { p.0 < length table.now.states }
    ensures { IsTrue result ↔ IsSeen table.now looks.now.operations.items p.0 }
{
    for q in 0..table.states() {
        if q != p.0 && looks.are_alike(table, p, State(q)) {
            return false;
        }
    }
    true
}

/// Whether the silent operations of the table tell its states apart.
fn looks_tell_states(table: &Table, looks: &Looks) -> bool
    requires { AreLooksOf table.now looks.now }
    ensures all { IsTrue result ↔ LooksTellStates table.now looks.now.operations.items }
    ensures some { IsTrue result ↔ SomeLooksTellStates table.now }
{
    for p in 0..table.states() {
        if !is_seen(table, looks, State(p)) {
            return false;
        }
    }
    true
}

/// How a type tells its states.
#[derive(Clone, Copy, Debug, PartialEq, Eq)]
pub enum Telling {
    /// Where an operation gets one response, it leads to one state.
    Responses,
    /// Operations that change nothing answer differently in any two states.
    Looks,
}

/// How the type tells its states, if it does: it needs no reads then.
pub fn telling_of(table: &Table) -> Option<Telling>
    // promise: telling-types (TellsBy)
    ensures how { IfSome result (TellsBy table.now) }
    // promise: telling-types (NeedsNoReads)
    ensures needs { IfSome result (λ how. NeedsNoReads table.now) }
    // promise: telling-types (TellsItsStates)
    ensures none { IfNone result (¬ TellsItsStates table.now) }
{
    telling_types_need_no_reads();
    tables_are_closed();
    tables_are_valid(table);
    if responses_tell_states(table) {
        return Some(Telling::Responses);
    }
    if looks_tell_states(table, &Looks::of(table)) {
        return Some(Telling::Looks);
    }
    None
}
