//! The readers of commands, one for each shape of input: a table; a table and a checked
//! certificate; these and an object, for the opening of a log or for a program.

mod accepted;
mod checked;
mod opening;
mod plan_tree;
mod served_object;
mod stocks;
mod table;
mod unread;

pub use accepted::check_certificate;
pub use checked::{Checked, read_checked};
pub use opening::{OpeningArguments, read_opening};
pub use plan_tree::{check_tree_certificate, read_tree_certificate};
pub use served_object::{ServedPlan, read_served_plan, served_from};
pub use stocks::{check_stock_certificate, read_right_stock_certificate, read_stock_certificate};
pub use table::{read_certificate, read_object, read_table};
pub use unread::{check_unread_certificate, read_unread_certificate};
