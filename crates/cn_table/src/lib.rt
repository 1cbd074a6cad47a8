//! Type tables: finite shared object types, read from TOML.
//!
//! A type has states, responses and operations, each with a name. In each state, each operation
//! gives one response and leads to one next state. [`read_table`] reads a [`Table`] from the bytes
//! of a file, or answers a [`TableFault`] that says what is wrong. [`Table::apply`] applies one
//! operation. States, responses and operations are numbers from 0, and calls translate their names:
//!
//! ```text
//! let table = read_table(alloc, bytes)?;
//! if let (Some(zero), Some(tas)) = (table.find_state("zero"), table.find_operation("tas")) {
//!     let (response, next) = table.apply(tas, zero);
//!     println!(rt; "{} {}", table.response_name(response), table.state_name(next))?;
//! }
//! ```
//!
//! A caller can look further into a document that spells no table: [`draft`] has what the document
//! says before it is a table, [`keys`] has the values at its keys, and [`names`] has names and the
//! things with a name.
#![tactic(auto)]

mod document;
pub mod draft;
mod draft_faults;
mod elements;
mod fault;
mod fewer_states;
pub mod keys;
pub mod laws;
mod limits;
pub mod names;
mod other_entry;
mod reach;
mod read;
mod resolve;
mod restriction;
mod table;

pub use elements::{Operation, Response, State};
pub use fault::TableFault;
pub use fewer_states::classes_make_a_table;
pub use limits::{LONGEST_NAME, MOST_OPERATIONS, MOST_RESPONSES, MOST_STATES};
pub use names::is_name;
pub use other_entry::entry_makes_a_table;
pub use read::read_table;
pub use restriction::restriction_is_a_table;
pub use table::Table;
