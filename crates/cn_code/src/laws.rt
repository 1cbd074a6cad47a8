//! The laws that no name is taken for more than a name.
//!
//! A law is a function that does nothing: its contract is the law.
ghost use Rattle.std.specs.Prelude.{IsTrue};
ghost use Rattle.std.specs.List.{list_all};
ghost use Rattle.cn_table.specs.Names.{is_name};
ghost use Rattle.cn_code.specs.Frame.{names_in};

use crate::served::Served;
use cn_proto::Plan;
use cn_table::Table;
use cn_tree_plans::TreePlan;

/// Every text that a program has from its type is a name: lower case letters, digits and
/// underscores. So none ends the comment or the text in quotes in which it stands.
pub fn names_are_plain(plan: &Plan)
    // promise: programs-of-a-plan (names_in, is_name)
    ensures { IsTrue (list_all is_name (names_in plan.now.table)) }
{
    names_of_tables_are_plain(plan.table());
}

/// The same of the program of a plan tree.
pub fn tree_names_are_plain(plan: &TreePlan)
    // promise: programs-of-a-plan-tree (names_in, is_name)
    ensures { IsTrue (list_all is_name (names_in plan.now.table)) }
{
    names_of_tables_are_plain(plan.table());
}

/// The same of the object that a program serves.
pub fn served_names_are_plain(object: &Served)
    // promise: programs-of-a-plan (names_in, is_name)
    ensures { IsTrue (list_all is_name (names_in object.now.table)) }
{
    names_of_tables_are_plain(object.table());
}

fn names_of_tables_are_plain(table: &Table)
    ensures { IsTrue (list_all is_name (names_in table.now)) }
{
    let _known = table.states();
}
