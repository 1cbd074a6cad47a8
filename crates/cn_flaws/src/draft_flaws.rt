//! The flaws of a draft: names, counts, lengths of rows and their entries.
ghost use Rattle.std.specs.Prelude.{codes, ◌≡◌, ◌+◌, ◌<◌, ◌++◌, OnOk, IfOk, drop, length, map, string_bytes, take};
ghost use Rattle.cn_table.specs.Draft.{row_names};
ghost use Rattle.cn_table.specs.DraftView.{draft_view, row_view, texts_view};
ghost use Rattle.cn_flaws.specs.Flaws.{flaws_view, each, list_word, bad_name, bad_names, name_flaws, bad_count, count_flaws, places_of, last_place, repeated, repeat_at, repeats, repeat_flaws, stands_in};
ghost use Rattle.cn_flaws.specs.Flaws.{bad_length, row_lengths, length_flaws, unknown_entry, row_entries, entry_flaws, draft_flaws};
ghost use Rattle.cn_flaws.specs.FlawPath.{key_path, name_path};
ghost use Rattle.cn_flaws.specs.FlawText.{bad_name_text, too_many_text, too_few_text, repeated_text, length_text, entry_text, names_in_brackets};

use crate::flaw::{Flaw, push_flaw};
use crate::flaw_text::{
    entries_text, in_quotes, names_in_brackets, operation_text, places_text, states_text,
};
use crate::path::{Holder, NameList, path_to_item, path_to_key, path_to_list, path_to_name};
use cn_table::draft::{Draft, DraftRow};
use cn_table::names::{has_namesake, number_of};
use cn_table::{LONGEST_NAME, MOST_OPERATIONS, MOST_RESPONSES, MOST_STATES, TableFault, is_name};
use std::alloc::{AllocError, Global};

fn bad_name_text(alloc: Global, what: &str, name: &str) -> Result<String, AllocError>
    ensures { IfOk result (λ s. string_bytes s ≡ bad_name_text what.now name.now) }
{
    let name = in_quotes(alloc, name)?;
    let most = LONGEST_NAME;
    format!(in alloc; "{what} {name}: 1 to {most} of a-z, 0-9, _")
}

/// Appends the name of the type if it is no name.
fn push_bad_type(alloc: Global, flaws: &mut Vec<Flaw>, name: &str) -> Result<(), AllocError>
    ensures { OnOk result (flaws_view flaws.new
        ≡ flaws_view flaws.old
        ++ bad_name (key_path Holder.Root (codes "name")) (codes "name") name.now) }
{
    if !is_name(name) {
        let path = path_to_key(alloc, Holder::Root, "name")?;
        let text = bad_name_text(alloc, "name", name)?;
        push_flaw(flaws, TableFault::BadName, path, text)?;
    }
    Ok(())
}

/// Appends the name in a list with this index if it is no name.
fn push_bad_name(
    alloc: Global,
    flaws: &mut Vec<Flaw>,
    list: NameList,
    i: usize,
    name: &str,
) -> Result<(), AllocError>
    ensures { OnOk result (flaws_view flaws.new
        ≡ flaws_view flaws.old ++ bad_name (name_path list i) (list_word list) name.now) }
{
    if !is_name(name) {
        let path = path_to_name(alloc, list, i)?;
        let text = bad_name_text(alloc, list.word(), name)?;
        push_flaw(flaws, TableFault::BadName, path, text)?;
    }
    Ok(())
}

fn push_bad_names(
    alloc: Global,
    flaws: &mut Vec<Flaw>,
    list: NameList,
    names: &[String],
) -> Result<(), AllocError>
    ensures { OnOk result (flaws_view flaws.new
        ≡ flaws_view flaws.old ++ bad_names list (map (λ s. string_bytes s) names.now)) }
{
    for (i, name) in names.iter().enumerate() {
        push_bad_name(alloc, flaws, list, i, name.as_str())?;
    }
    Ok(())
}

fn operation_names(alloc: Global, rows: &[DraftRow]) -> Result<Vec<String>, AllocError>
    ensures { IfOk result (λ names. texts_view names ≡ row_names (map row_view rows.now)) }
{
    let mut names = Vec::new(alloc);
    for row in rows {
        names.push(String::from_str(alloc, row.name.as_str())?)?;
    }
    Ok(names)
}

/// Appends the bad names of the type, the states, the responses and the operations.
#[tactic(auto, unfolding(crate::specs::Flaws::name_flaws))]
fn push_name_flaws(alloc: Global, flaws: &mut Vec<Flaw>, draft: &Draft) -> Result<(), AllocError>
    ensures { OnOk result (flaws_view flaws.new
        ≡ flaws_view flaws.old ++ name_flaws (draft_view draft.now)) }
{
    push_bad_type(alloc, flaws, draft.name.as_str())?;
    push_bad_names(alloc, flaws, NameList::States, &draft.states)?;
    push_bad_names(alloc, flaws, NameList::Responses, &draft.responses)?;
    let operations = operation_names(alloc, &draft.operations)?;
    push_bad_names(alloc, flaws, NameList::Operations, &operations)
}

fn too_many_text(alloc: Global, what: &str, most: usize, count: usize) -> Result<String, AllocError>
    ensures { IfOk result (λ s. string_bytes s ≡ too_many_text what.now most count) }
{
    format!(in alloc; "{count} {what}s; at most {most}")
}

fn too_few_text(alloc: Global, what: &str) -> Result<String, AllocError>
    ensures { IfOk result (λ s. string_bytes s ≡ too_few_text what.now) }
{
    format!(in alloc; "0 {what}s; at least 1")
}

fn push_bad_count(
    alloc: Global,
    flaws: &mut Vec<Flaw>,
    list: NameList,
    most: usize,
    count: usize,
) -> Result<(), AllocError>
    ensures { OnOk result (flaws_view flaws.new
        ≡ flaws_view flaws.old ++ bad_count list most count) }
{
    if count < 1 {
        let path = path_to_list(alloc, list)?;
        let text = too_few_text(alloc, list.word())?;
        push_flaw(flaws, TableFault::Count, path, text)?;
    } else if count > most {
        let path = path_to_list(alloc, list)?;
        let text = too_many_text(alloc, list.word(), most, count)?;
        push_flaw(flaws, TableFault::Count, path, text)?;
    }
    Ok(())
}

/// Appends the counts of states, responses and operations that are too small or too great.
#[tactic(auto, unfolding(crate::specs::Flaws::count_flaws))]
fn push_count_flaws(alloc: Global, flaws: &mut Vec<Flaw>, draft: &Draft) -> Result<(), AllocError>
    ensures { OnOk result (flaws_view flaws.new
        ≡ flaws_view flaws.old ++ count_flaws (draft_view draft.now)) }
{
    let states = draft.states.as_slice();
    let responses = draft.responses.as_slice();
    let operations = draft.operations.as_slice();
    push_bad_count(alloc, flaws, NameList::States, MOST_STATES, states.len())?;
    push_bad_count(
        alloc,
        flaws,
        NameList::Responses,
        MOST_RESPONSES,
        responses.len(),
    )?;
    push_bad_count(
        alloc,
        flaws,
        NameList::Operations,
        MOST_OPERATIONS,
        operations.len(),
    )
}

/// The places at which a name stands.
fn places_of(alloc: Global, names: &[String], name: &str) -> Result<Vec<usize>, AllocError>
    ensures { IfOk result (λ places. places.items
        ≡ places_of name.now 0 (map (λ s. string_bytes s) names.now)) }
{
    let mut places = Vec::new(alloc);
    for (i, other) in names.iter().enumerate() {
        if other.as_str() == name {
            places.push(i)?;
        }
    }
    Ok(places)
}

fn repeated_text(
    alloc: Global,
    what: &str,
    places: &[usize],
    name: &str,
) -> Result<String, AllocError>
    ensures { IfOk result (λ s. string_bytes s ≡ repeated_text what.now places.now name.now) }
{
    let all = if places.len() == 2 { "both" } else { "all" };
    let places = places_text(alloc, what, places)?;
    let name = in_quotes(alloc, name)?;
    format!(in alloc; "{places} are {all} called {name}")
}

/// The last of these places, or `i` if there are none.
fn last_place(i: usize, places: &[usize]) -> usize
    ensures { result ≡ last_place i places.now }
{
    places.last().copied().unwrap_or(i)
}

/// Appends a name that stands at place `i` and again behind, with all its places.
fn push_repeated(
    alloc: Global,
    flaws: &mut Vec<Flaw>,
    list: NameList,
    names: &[String],
    i: usize,
    name: &str,
) -> Result<(), AllocError>
    ensures { OnOk result (flaws_view flaws.new ≡ flaws_view flaws.old
        ++ repeated list (map (λ s. string_bytes s) names.now) i name.now) }
{
    let places = places_of(alloc, names, name)?;
    let path = path_to_name(alloc, list, last_place(i, &places))?;
    let text = repeated_text(alloc, list.word(), &places, name)?;
    push_flaw(flaws, TableFault::Repeated, path, text)
}

/// Whether the name stands before this place.
fn stands_before(names: &[String], i: usize, name: &str) -> bool
    requires { i < length names.now }
    ensures { result ≡ stands_in (take i (map (λ s. string_bytes s) names.now)) name.now }
{
    has_namesake(&names[..i], name)
}

/// Whether the name stands behind this place.
fn stands_behind(names: &[String], i: usize, name: &str) -> bool
    requires { i < length names.now }
    ensures { result ≡ stands_in (drop (i + 1) (map (λ s. string_bytes s) names.now)) name.now }
{
    has_namesake(&names[i + 1..], name)
}

/// Appends a flaw if the name at this place stands there first, and again behind.
fn push_repeat_at(
    alloc: Global,
    flaws: &mut Vec<Flaw>,
    list: NameList,
    names: &[String],
    i: usize,
    name: &str,
) -> Result<(), AllocError>
    requires { i < length names.now }
    ensures { OnOk result (flaws_view flaws.new ≡ flaws_view flaws.old
        ++ repeat_at list (map (λ s. string_bytes s) names.now) i name.now) }
{
    if stands_before(names, i, name) || !stands_behind(names, i, name) {
        return Ok(());
    }
    push_repeated(alloc, flaws, list, names, i, name)
}

fn push_repeats(
    alloc: Global,
    flaws: &mut Vec<Flaw>,
    list: NameList,
    names: &[String],
) -> Result<(), AllocError>
    ensures { OnOk result (flaws_view flaws.new
        ≡ flaws_view flaws.old ++ repeats list (map (λ s. string_bytes s) names.now)) }
{
    for (i, name) in names.iter().enumerate() {
        push_repeat_at(alloc, flaws, list, names, i, name.as_str())?;
    }
    Ok(())
}

/// Appends the names that stand more than once.
#[tactic(auto, unfolding(crate::specs::Flaws::repeat_flaws))]
fn push_repeat_flaws(alloc: Global, flaws: &mut Vec<Flaw>, draft: &Draft) -> Result<(), AllocError>
    ensures { OnOk result (flaws_view flaws.new
        ≡ flaws_view flaws.old ++ repeat_flaws (draft_view draft.now)) }
{
    push_repeats(alloc, flaws, NameList::States, &draft.states)?;
    push_repeats(alloc, flaws, NameList::Responses, &draft.responses)?;
    let operations = operation_names(alloc, &draft.operations)?;
    push_repeats(alloc, flaws, NameList::Operations, &operations)
}

fn length_text(
    alloc: Global,
    operation: &str,
    row: &str,
    count: usize,
    states: usize,
) -> Result<String, AllocError>
    ensures { IfOk result (λ s. string_bytes s ≡ length_text operation.now row.now count states) }
{
    let entries = entries_text(alloc, count)?;
    let there = states_text(alloc, states)?;
    format!(in alloc; "{operation}: {row} has {entries}, {there}")
}

fn push_bad_length(
    alloc: Global,
    flaws: &mut Vec<Flaw>,
    i: usize,
    operation: &str,
    row: &str,
    count: usize,
    states: usize,
) -> Result<(), AllocError>
    ensures { OnOk result (flaws_view flaws.new
        ≡ flaws_view flaws.old ++ bad_length i operation.now row.now count states) }
{
    if count != states {
        let path = path_to_key(alloc, Holder::Operation(i), row)?;
        let text = length_text(alloc, operation, row, count, states)?;
        push_flaw(flaws, TableFault::RowLength, path, text)?;
    }
    Ok(())
}

fn push_row_lengths(
    alloc: Global,
    flaws: &mut Vec<Flaw>,
    states: usize,
    i: usize,
    row: &DraftRow,
) -> Result<(), AllocError>
    ensures { OnOk result (flaws_view flaws.new
        ≡ flaws_view flaws.old ++ row_lengths states i (row_view row.now)) }
{
    let operation = operation_text(alloc, i, row.name.as_str())?;
    let place = operation.as_str();
    push_bad_length(
        alloc,
        flaws,
        i,
        place,
        "response",
        row.response.len(),
        states,
    )?;
    push_bad_length(alloc, flaws, i, place, "next", row.next.len(), states)
}

fn push_all_lengths(
    alloc: Global,
    flaws: &mut Vec<Flaw>,
    states: usize,
    rows: &[DraftRow],
) -> Result<(), AllocError>
    ensures { OnOk result (flaws_view flaws.new
        ≡ flaws_view flaws.old ++ each (row_lengths states) 0 (map row_view rows.now)) }
{
    for (i, row) in rows.iter().enumerate() {
        push_row_lengths(alloc, flaws, states, i, row)?;
    }
    Ok(())
}

/// Appends the rows that lack an entry for each state.
#[tactic(auto, unfolding(crate::specs::Flaws::length_flaws))]
fn push_length_flaws(alloc: Global, flaws: &mut Vec<Flaw>, draft: &Draft) -> Result<(), AllocError>
    ensures { OnOk result (flaws_view flaws.new
        ≡ flaws_view flaws.old ++ length_flaws (draft_view draft.now)) }
{
    push_all_lengths(alloc, flaws, draft.states.len(), &draft.operations)
}

fn entry_text(
    alloc: Global,
    operation: &str,
    row: &str,
    k: usize,
    text: &str,
    what: &str,
    names: &str,
) -> Result<String, AllocError>
    ensures { IfOk result (λ s. string_bytes s
        ≡ entry_text operation.now row.now k text.now what.now names.now) }
{
    let text = in_quotes(alloc, text)?;
    format!(in alloc; "{operation}, {row}[{k}]: {text} is no {what}{names}")
}

fn push_unknown_entries(
    alloc: Global,
    flaws: &mut Vec<Flaw>,
    i: usize,
    operation: &str,
    row: &str,
    what: &str,
    names: &[String],
    texts: &[String],
) -> Result<(), AllocError>
    ensures { OnOk result (flaws_view flaws.new
        ≡ flaws_view flaws.old
        ++ each (unknown_entry i operation.now row.now what.now (map (λ s. string_bytes s) names.now))
        0 (map (λ s. string_bytes s) texts.now)) }
{
    let brackets = names_in_brackets(alloc, names)?;
    for (k, text) in texts.iter().enumerate() {
        if number_of(names, text.as_str()).is_none() {
            let path = path_to_item(alloc, Holder::Operation(i), row, k)?;
            let flaw_text = entry_text(
                alloc,
                operation,
                row,
                k,
                text.as_str(),
                what,
                brackets.as_str(),
            )?;
            push_flaw(flaws, TableFault::UnknownName, path, flaw_text)?;
        }
    }
    Ok(())
}

fn push_row_entries(
    alloc: Global,
    flaws: &mut Vec<Flaw>,
    states: &[String],
    responses: &[String],
    i: usize,
    row: &DraftRow,
) -> Result<(), AllocError>
    ensures { OnOk result (flaws_view flaws.new
        ≡ flaws_view flaws.old
        ++ row_entries (map (λ s. string_bytes s) states.now)
        (map (λ s. string_bytes s) responses.now) i (row_view row.now)) }
{
    let operation = operation_text(alloc, i, row.name.as_str())?;
    let place = operation.as_str();
    push_unknown_entries(
        alloc,
        flaws,
        i,
        place,
        "response",
        "response",
        responses,
        &row.response,
    )?;
    push_unknown_entries(alloc, flaws, i, place, "next", "state", states, &row.next)
}

fn push_all_entries(
    alloc: Global,
    flaws: &mut Vec<Flaw>,
    states: &[String],
    responses: &[String],
    rows: &[DraftRow],
) -> Result<(), AllocError>
    ensures { OnOk result (flaws_view flaws.new
        ≡ flaws_view flaws.old
        ++ each
        (row_entries (map (λ s. string_bytes s) states.now)
        (map (λ s. string_bytes s) responses.now)) 0 (map row_view rows.now)) }
{
    for (i, row) in rows.iter().enumerate() {
        push_row_entries(alloc, flaws, states, responses, i, row)?;
    }
    Ok(())
}

/// Appends the entries that name no response or no state.
#[tactic(auto, unfolding(crate::specs::Flaws::entry_flaws))]
fn push_entry_flaws(alloc: Global, flaws: &mut Vec<Flaw>, draft: &Draft) -> Result<(), AllocError>
    ensures { OnOk result (flaws_view flaws.new
        ≡ flaws_view flaws.old ++ entry_flaws (draft_view draft.now)) }
{
    push_all_entries(
        alloc,
        flaws,
        &draft.states,
        &draft.responses,
        &draft.operations,
    )
}

/// Appends the flaws of a draft.
#[tactic(auto, unfolding(crate::specs::Flaws::draft_flaws))]
pub(crate) fn push_draft_flaws(
    alloc: Global,
    flaws: &mut Vec<Flaw>,
    draft: &Draft,
) -> Result<(), AllocError>
    ensures { OnOk result (flaws_view flaws.new
        ≡ flaws_view flaws.old ++ draft_flaws (draft_view draft.now)) }
{
    push_name_flaws(alloc, flaws, draft)?;
    push_count_flaws(alloc, flaws, draft)?;
    push_repeat_flaws(alloc, flaws, draft)?;
    push_length_flaws(alloc, flaws, draft)?;
    push_entry_flaws(alloc, flaws, draft)
}
