//! Tables with some of their states, each of which stands for a class of states.
ghost use Rattle.std.specs.Prelude.{◌≡◌, ◌<◌, ℕ, All, IfOk, List, [], length, map, slice_index, slice_index_or, string_bytes};
ghost use Rattle.std.specs.List.{AllByRecursion};
ghost use Rattle.cn_table.specs.DraftView.{texts_view};
ghost use Rattle.cn_table.specs.FewerStates.{AreClasses, HasEntries, row_with, with_states};
ghost use Rattle.cn_table.specs.TableView.{transitions_view, transitions_views};
ghost use Rattle.cn_table.specs.TypeTable.{IsTypeTable, TypeTable};

use crate::table::{Table, Transitions, copy_texts};
use std::alloc::{AllocError, Global};

/// The names of these states, in this order.
fn names_of(alloc: Global, names: &[String], kept: &[u8]) -> Result<Vec<String>, AllocError>
    requires { All (λ q. q < length names.now) kept.now }
    ensures { IfOk result (λ copy. texts_view copy
        ≡ map (λ q. slice_index_or (map (λ s. string_bytes s) names.now) q []) kept.now) }
{
    let mut copy = Vec::new(alloc);
    for state in kept {
        let name = String::from_str(alloc, names[*state as usize].as_str())?;
        copy.push(name)?;
    }
    Ok(copy)
}

/// The responses in these states.
fn responses_in(alloc: Global, response: &[u8], kept: &[u8]) -> Result<Vec<u8>, AllocError>
    requires { All (λ q. q < length response.now) kept.now }
    ensures { IfOk result (λ copy. copy.items ≡ map (λ q. slice_index response.now q) kept.now) }
{
    let mut copy = Vec::new(alloc);
    for state in kept {
        copy.push(response[*state as usize])?;
    }
    Ok(copy)
}

/// The classes of the next states of these states.
fn next_classes(
    alloc: Global,
    next: &[u8],
    kept: &[u8],
    class_of: &[u8],
) -> Result<Vec<u8>, AllocError>
    requires known { All (λ q. q < length next.now) kept.now }
    requires class { All (λ q. q < length class_of.now) next.now }
    ensures { IfOk result (λ copy. copy.items
        ≡ map (λ q. slice_index class_of.now (slice_index next.now q)) kept.now) }
{
    let mut copy = Vec::new(alloc);
    for state in kept {
        copy.push(class_of[next[*state as usize] as usize])?;
    }
    Ok(copy)
}

fn row_with(
    alloc: Global,
    row: &Transitions,
    kept: &[u8],
    class_of: &[u8],
) -> Result<Transitions, AllocError>
    requires { HasEntries kept.now class_of.now (transitions_view row.now) }
    ensures { IfOk result (λ own. transitions_view own
        ≡ row_with kept.now class_of.now (transitions_view row.now)) }
{
    Ok(Transitions {
        name: String::from_str(alloc, row.name.as_str())?,
        response: responses_in(alloc, &row.response, kept)?,
        next: next_classes(alloc, &row.next, kept, class_of)?,
    })
}

fn rows_with(
    alloc: Global,
    rows: &[Transitions],
    kept: &[u8],
    class_of: &[u8],
) -> Result<Vec<Transitions>, AllocError>
    requires { AllByRecursion (HasEntries kept.now class_of.now) (map transitions_view rows.now) }
    ensures { IfOk result (λ own. transitions_views own
        ≡ map (row_with kept.now class_of.now) (map transitions_view rows.now)) }
{
    let mut own = Vec::new(alloc);
    for row in rows {
        let entries = row_with(alloc, row, kept, class_of)?;
        own.push(entries)?;
    }
    Ok(own)
}

impl Table {
    /// The table whose states are these, in this order: an operation answers in a state what it
    /// answers in the kept one, and leads to the class of the next state. The name and the
    /// responses are the same. States are given by their numbers, and classes by the places of
    /// their states among the kept ones.
    ///
    /// # Errors
    ///
    /// `AllocError` if memory runs out.
    pub fn with_states(
        &self,
        alloc: Global,
        kept: &[u8],
        class_of: &[u8],
    ) -> Result<Table, AllocError>
        requires { AreClasses self.now kept.now class_of.now }
        // promise: parts-of-a-table (with_states)
        ensures { IfOk result (λ table. table ≡ with_states self.now kept.now class_of.now) }
    {
        classes_make_a_table();
        Ok(Table {
            name: String::from_str(alloc, self.name.as_str())?,
            states: names_of(alloc, &self.states, kept)?,
            responses: copy_texts(alloc, &self.responses)?,
            operations: rows_with(alloc, &self.operations, kept, class_of)?,
        })
    }
}

/// A type table with some of its states, each of which stands for a class, is a type table.
pub fn classes_make_a_table()
    // promise: parts-of-a-table
    ensures { (t : TypeTable) (kept class_of : List ℕ) → IsTypeTable t → AreClasses t kept class_of
        → IsTypeTable (with_states t kept class_of) }
{}
