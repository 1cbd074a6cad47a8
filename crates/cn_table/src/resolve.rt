//! From a draft to a table, with numbers for the entries of its rows.
ghost use Rattle.std.specs.Prelude.{◌≡◌, ◌≤◌, ◌<◌, ◌^◌, length, map, string_bytes, false};
ghost use Rattle.cn_table.specs.Reads.{Reads};
ghost use Rattle.cn_table.specs.DraftView.{row_view, draft_view};
ghost use Rattle.cn_table.specs.TableView.{transitions_view, transitions_views};
ghost use Rattle.cn_table.specs.Names.{number_of};
ghost use Rattle.cn_table.specs.Numbering.{numbers_of, row_from, rows_from, table_from};
ghost use Rattle.cn_table.specs.declared.limits.TheConstants.{MOST_RESPONSES, MOST_STATES};
ghost use Rattle.cn_table.specs.Faults.{has_bad_name, has_bad_count, has_repeated_name, has_bad_length};

use crate::draft::{Draft, DraftRow};
use crate::fault::TableFault;
use crate::names::number_of;
use crate::table::{Table, Transitions};
use std::alloc::Global;

/// The number of each text among the names.
fn numbers(alloc: Global, names: &[String], texts: &[String]) -> Result<Vec<u8>, TableFault>
    requires { length names.now ≤ 2 ^ 8 }
    ensures { Reads TableFault.UnknownName (λ v. v.items) result
        (numbers_of (map (λ s. string_bytes s) names.now) (map (λ s. string_bytes s) texts.now)) }
{
    let mut out = Vec::new(alloc);
    for text in texts {
        let number = number_of(names, text.as_str()).ok_or(TableFault::UnknownName)?;
        out.push(number as u8)?;
    }
    Ok(out)
}

#[tactic(auto, unfolding(crate::specs::Numbering::row_from))]
fn transitions(
    alloc: Global,
    states: &[String],
    responses: &[String],
    row: &DraftRow,
) -> Result<Transitions, TableFault>
    requires states { length states.now ≤ MOST_STATES }
    requires responses { length responses.now ≤ MOST_RESPONSES }
    ensures { Reads TableFault.UnknownName transitions_view result
        (row_from (map (λ s. string_bytes s) states.now) (map (λ s. string_bytes s) responses.now)
        (row_view row.now)) }
{
    let response = numbers(alloc, responses, &row.response)?;
    let next = numbers(alloc, states, &row.next)?;
    let name = String::from_str(alloc, row.name.as_str())?;
    Ok(Transitions {
        name,
        response,
        next,
    })
}

fn all_transitions(
    alloc: Global,
    states: &[String],
    responses: &[String],
    rows: &[DraftRow],
) -> Result<Vec<Transitions>, TableFault>
    requires states { length states.now ≤ MOST_STATES }
    requires responses { length responses.now ≤ MOST_RESPONSES }
    ensures { Reads TableFault.UnknownName transitions_views result
        (rows_from (map (λ s. string_bytes s) states.now) (map (λ s. string_bytes s) responses.now)
        (map row_view rows.now)) }
{
    let mut out = Vec::new(alloc);
    for row in rows {
        out.push(transitions(alloc, states, responses, row)?)?;
    }
    Ok(out)
}

/// The table of a draft that has none of the other faults.
#[tactic(auto, unfolding(crate::specs::Numbering::table_from))]
pub(crate) fn table_from(alloc: Global, draft: Draft) -> Result<Table, TableFault>
    requires names { has_bad_name (draft_view draft) ≡ false }
    requires counts { has_bad_count (draft_view draft) ≡ false }
    requires distinct { has_repeated_name (draft_view draft) ≡ false }
    requires lengths { has_bad_length (draft_view draft) ≡ false }
    ensures { Reads TableFault.UnknownName (λ t. t) result (table_from (draft_view draft)) }
{
    let operations = all_transitions(alloc, &draft.states, &draft.responses, &draft.operations)?;
    let Draft {
        name,
        states,
        responses,
        operations: _,
    } = draft;
    Ok(Table {
        name,
        states,
        responses,
        operations,
    })
}
