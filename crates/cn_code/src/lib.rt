//! The program of a plan: consensus for its processes, as one file of source code.
//!
//! [`as_rust`] and [`as_c`] answer the text of the file, [`tree_as_rust`] and [`tree_as_c`] that of a
//! plan tree, and [`as_header`] and [`tree_as_header`] what it declares. The file depends on nothing
//! else. An object of the type stands behind a trait in Rust, and behind pointers to functions in C.
//! With an object to serve ([`Served`]) the program is also a wait-free object of its type. Both
//! languages have one writer: what differs are their words. By [`laws::names_are_plain`] no name of
//! the type ends a comment or a text in quotes, and by [`laws::served_names_are_plain`] none of the
//! object.
//!
//! ```text
//! let plan = Plan::from_witness(alloc, &table, &witness)?;
//! let counter = Served::new(object, start);
//! print!(rt; "{}", as_rust(alloc, &plan, Some(&counter))?)?;
//! ```
#![tactic(auto)]

mod code;
mod frame;
mod judgements;
mod keywords;
mod language;
pub mod laws;
mod names;
mod naming;
mod object;
mod places;
mod prefix;
mod served;
mod tree;
mod words;

pub use code::{as_c, as_header, as_rust};
pub use prefix::{LONGEST_PREFIX, Prefix};
pub use served::Served;
pub use tree::{tree_as_c, tree_as_header, tree_as_rust};
