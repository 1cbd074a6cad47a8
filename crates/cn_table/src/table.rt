//! Type tables, the base of every later layer.
ghost use Rattle.std.specs.Prelude.{◌≡◌, ◌<◌, ◌≤◌, IfOk, IfSome, IsTrue, Some, length, map, option_map, slice_get, string_bytes};
ghost use Rattle.cn_table.specs.DraftView.{texts_view};
ghost use Rattle.cn_table.specs.TableView.{transitions_view, transitions_views};
ghost use Rattle.cn_table.specs.TypeTable.{transition, operation_names, IsTypeTable};
ghost use Rattle.cn_table.specs.Names.{is_name, number_of};
ghost use Rattle.cn_table.specs.declared.limits.TheConstants.{MOST_OPERATIONS, MOST_RESPONSES, MOST_STATES};

use crate::elements::{Operation, Response, State};
use crate::names::{HasName, number_of};
use std::alloc::{AllocError, Global};
use std::marker::Model;

/// One operation: its name, and for each state the numbers of the response and of the next state.
#[derive(Drop)]
pub(crate) struct Transitions {
    pub name: String,
    pub response: Vec<u8>,
    pub next: Vec<u8>,
}

impl HasName for Transitions {
    ghost name_of = { λ r. string_bytes r.name };

    fn name(&self) -> &str {
        &self.name
    }
}

/// A finite shared object type. It has 1 to [`MOST_STATES`](crate::MOST_STATES) states, 1 to
/// [`MOST_RESPONSES`](crate::MOST_RESPONSES) responses and 1 to
/// [`MOST_OPERATIONS`](crate::MOST_OPERATIONS) operations, each with a name. For each operation and
/// state it has one response and one next state.
///
/// Tables come from [`read_table`](crate::read_table). States, operations and responses have
/// numbers from 0, in the order of the file. Only calls that answer an `AllocError` take memory.
#[derive(Drop)]
pub struct Table {
    pub(crate) name: String,
    pub(crate) states: Vec<String>,
    pub(crate) responses: Vec<String>,
    pub(crate) operations: Vec<Transitions>,
}

impl Model for Table {
    ghost use Rattle.cn_table.specs.TypeTable.{TypeTable, table_code, IsTypeTable};
    ghost use Rattle.cn_table.specs.TableView.{table_view};

    ghost Value = { TypeTable };

    ghost coded = { table_code };

    ghost view = { table_view };

    ghost invariant = { λ t. IsTypeTable (table_view t) };
}

impl Table {
    /// The name of the type.
    pub fn name(&self) -> &str
        // promise: parts-of-a-table
        ensures value { result.now ≡ self.now.name }
        // promise: parts-of-a-table
        ensures named { IsTrue (is_name result.now) }
    {
        self.name.as_str()
    }

    /// How many states there are, from 1 to [`MOST_STATES`](crate::MOST_STATES).
    pub fn states(&self) -> u8
        // promise: parts-of-a-table
        ensures number { result ≡ length self.now.states }
        // promise: parts-of-a-table
        ensures range { (1 ≤ result) × (result ≤ MOST_STATES) }
        // promise: valid-tables
        ensures table { IsTypeTable self.now }
    {
        self.states.len() as u8
    }

    /// How many operations there are, from 1 to [`MOST_OPERATIONS`](crate::MOST_OPERATIONS).
    pub fn operations(&self) -> u8
        // promise: parts-of-a-table
        ensures number { result ≡ length self.now.operations }
        // promise: parts-of-a-table
        ensures range { (1 ≤ result) × (result ≤ MOST_OPERATIONS) }
    {
        self.operations.len() as u8
    }

    /// How many responses there are, from 1 to [`MOST_RESPONSES`](crate::MOST_RESPONSES).
    pub fn responses(&self) -> u8
        // promise: parts-of-a-table
        ensures number { result ≡ length self.now.responses }
        // promise: parts-of-a-table
        ensures range { (1 ≤ result) × (result ≤ MOST_RESPONSES) }
    {
        self.responses.len() as u8
    }

    /// The response that an operation gives in a state, and the next state.
    pub fn apply(&self, operation: Operation, state: State) -> (Response, State)
        requires operation { operation.0 < length self.now.operations }
        requires state { state.0 < length self.now.states }
        // promise: parts-of-a-table
        ensures value { (result.0.0, result.1.0) ≡ transition self.now operation.0 state.0 }
        // promise: parts-of-a-table
        ensures response { result.0.0 < length self.now.responses }
        // promise: parts-of-a-table
        ensures next { result.1.0 < length self.now.states }
    {
        let row = &self.operations[operation.0 as usize];
        let response = row.response.as_slice();
        let next = row.next.as_slice();
        let place = state.0 as usize;
        (Response(response[place]), State(next[place]))
    }

    /// The name of a state.
    pub fn state_name(&self, state: State) -> &str
        requires { state.0 < length self.now.states }
        // promise: parts-of-a-table
        ensures { slice_get self.now.states state.0 ≡ Some result.now }
    {
        self.states[state.0 as usize].as_str()
    }

    /// The name of an operation.
    pub fn operation_name(&self, operation: Operation) -> &str
        requires { operation.0 < length self.now.operations }
        // promise: parts-of-a-table
        ensures { slice_get (operation_names self.now) operation.0 ≡ Some result.now }
    {
        self.operations[operation.0 as usize].name.as_str()
    }

    /// The name of a response.
    pub fn response_name(&self, response: Response) -> &str
        requires { response.0 < length self.now.responses }
        // promise: parts-of-a-table
        ensures { slice_get self.now.responses response.0 ≡ Some result.now }
    {
        self.responses[response.0 as usize].as_str()
    }

    /// The state with this name, if there is one.
    pub fn find_state(&self, name: &str) -> Option<State>
        // promise: parts-of-a-table
        ensures number { option_map (λ q. q.0) result ≡ number_of self.now.states name.now }
        // promise: parts-of-a-table
        ensures range { IfSome result (λ q. q.0 < length self.now.states) }
    {
        let number = number_of(&self.states, name)?;
        Some(State(number as u8))
    }

    /// The operation with this name, if there is one.
    #[tactic(auto, using(crate::proofs::ListLemmas::map_twice))]
    pub fn find_operation(&self, name: &str) -> Option<Operation>
        // promise: parts-of-a-table
        ensures number { option_map (λ o. o.0) result
            ≡ number_of (operation_names self.now) name.now }
        // promise: parts-of-a-table
        ensures range { IfSome result (λ o. o.0 < length self.now.operations) }
    {
        let number = number_of(&self.operations, name)?;
        Some(Operation(number as u8))
    }

    /// The response with this name, if there is one.
    pub fn find_response(&self, name: &str) -> Option<Response>
        // promise: parts-of-a-table
        ensures number { option_map (λ r. r.0) result ≡ number_of self.now.responses name.now }
        // promise: parts-of-a-table
        ensures range { IfSome result (λ r. r.0 < length self.now.responses) }
    {
        let number = number_of(&self.responses, name)?;
        Some(Response(number as u8))
    }

    /// An equal table.
    ///
    /// # Errors
    ///
    /// `AllocError` if memory runs out.
    pub fn copy(&self, alloc: Global) -> Result<Table, AllocError>
        // promise: parts-of-a-table
        ensures { IfOk result (λ table. table ≡ self.now) }
    {
        Ok(Table {
            name: String::from_str(alloc, self.name.as_str())?,
            states: copy_texts(alloc, &self.states)?,
            responses: copy_texts(alloc, &self.responses)?,
            operations: copy_all_transitions(alloc, &self.operations)?,
        })
    }
}

pub(crate) fn copy_texts(alloc: Global, texts: &[String]) -> Result<Vec<String>, AllocError>
    ensures { IfOk result (λ copy. texts_view copy ≡ map (λ s. string_bytes s) texts.now) }
{
    let mut copy = Vec::new(alloc);
    for text in texts {
        copy.push(String::from_str(alloc, text.as_str())?)?;
    }
    Ok(copy)
}

pub(crate) fn copy_transitions(alloc: Global, row: &Transitions) -> Result<Transitions, AllocError>
    ensures { IfOk result (λ copy. transitions_view copy ≡ transitions_view row.now) }
{
    Ok(Transitions {
        name: String::from_str(alloc, row.name.as_str())?,
        response: row.response.to_vec(alloc)?,
        next: row.next.to_vec(alloc)?,
    })
}

pub(crate) fn copy_all_transitions(
    alloc: Global,
    rows: &[Transitions],
) -> Result<Vec<Transitions>, AllocError>
    ensures { IfOk result (λ copy. transitions_views copy ≡ map transitions_view rows.now) }
{
    let mut copy = Vec::new(alloc);
    for row in rows {
        copy.push(copy_transitions(alloc, row)?)?;
    }
    Ok(copy)
}
