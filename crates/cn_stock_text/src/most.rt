//! Why the number is no more.
ghost use Rattle.std.specs.Prelude.{◌≡◌, ◌≤◌, ◌++◌, All, IfSome, OnOk, length, option_map, string_bytes};
ghost use Rattle.cn_table.specs.declared.limits.TheConstants.{MOST_STATES};
ghost use Rattle.cn_joins.specs.Joins.{IsJoin};
ghost use Rattle.cn_stock_text.specs.Most.{alike_line, count_words, joins_text, more_line, most_text, one_team_line, open_line, theorem_line, told, untold};

use crate::joins::push_joins;
use crate::limits::MOST_TOLD;
use cn_joins::Join;
use cn_table::Table;
use std::alloc::AllocError;

/// Appends how many joins there are.
fn push_count(text: &mut String, count: usize) -> Result<(), AllocError>
    ensures { OnOk result (string_bytes text.new ≡ string_bytes text.old ++ count_words count) }
{
    match count {
        0 => text.push_str(
            "no join is needed, since no two operations of the type lead from a state to different ones.\n",
        ),
        1 => text.push_str(
            "1 join; in both of its runs some process gets the response behind the slash and reads the state left.\n",
        ),
        _ => write!(
            text,
            "{count} joins; in both runs of each some process gets the response behind the slash and reads the state left.\n"
        ),
    }
}

/// The joins that are told: all, or the first of them.
#[tactic(auto, using(std::proofs::lemmas::List::take_min))]
fn told(all: bool, joins: &[Join]) -> &[Join]
    ensures { result.now ≡ told all joins.now }
{
    if all {
        joins
    } else {
        &joins[..MOST_TOLD.min(joins.len())]
    }
}

/// How many joins are not told.
fn untold(all: bool, joins: &[Join]) -> usize
    ensures { result ≡ untold all joins.now }
{
    if all {
        0
    } else {
        joins.len().saturating_sub(MOST_TOLD)
    }
}

/// Appends how many joins more there are.
fn push_more(text: &mut String, more: usize) -> Result<(), AllocError>
    ensures { OnOk result (string_bytes text.new ≡ string_bytes text.old ++ more_line more) }
{
    if more == 0 {
        return Ok(());
    }
    write!(text, "  and {more} more (--all tells them)\n")
}

/// Why processes with one operation are in one team.
fn alike_line<'a>(n: u8) -> &'a str
    ensures { result.now ≡ alike_line n }
{
    if n == 2 {
        "  Two processes with one operation cannot tell either: done twice in a row, it gets the same response both times.\n"
    } else {
        "  Processes with one operation are in one team: a third one sees the same, whichever of them is first.\n"
    }
}

/// Appends that n processes are one team, by so many joins.
fn push_one_team(text: &mut String, count: usize, n: u8) -> Result<(), AllocError>
    ensures { OnOk result (string_bytes text.new
        ≡ string_bytes text.old ++ one_team_line count n) }
{
    if count == 0 {
        return Ok(());
    }
    write!(
        text,
        "  From each state, the joins whose runs {n} processes can do put all of them into one team; \
         operations that lead from each state to the same one count as one.\n"
    )
}

/// Appends that no protocol does it for n processes.
fn push_theorem(text: &mut String, n: u8) -> Result<(), AllocError>
    ensures { OnOk result (string_bytes text.new ≡ string_bytes text.old ++ theorem_line n) }
{
    write!(
        text,
        "No protocol at all does it for {n}: this is proved (docs/PROVED.md).\n"
    )
}

/// Appends why the number is not n.
fn push_joins_text(
    text: &mut String,
    table: &Table,
    all: bool,
    n: u8,
    joins: &[Join],
) -> Result<(), AllocError>
    requires { All (IsJoin table.now) joins.now }
    ensures { OnOk result (string_bytes text.new
        ≡ string_bytes text.old ++ joins_text table.now all n joins.now) }
{
    let count = joins.len();
    write!(text, "Why not {n}: ")?;
    push_count(text, count)?;
    push_joins(text, table, told(all, joins))?;
    push_more(text, untold(all, joins))?;
    text.push_str(alike_line(n))?;
    push_one_team(text, count, n)?;
    push_theorem(text, n)
}

/// Without an upper bound: that every number is shown, or that there are no joins.
fn open_line<'a>(at_least: Option<u8>) -> &'a str
    ensures { result.now ≡ open_line at_least }
{
    match at_least {
        None => "It is so for each number of processes: this is proved (docs/PROVED.md).\n",
        Some(_) => "The certificate shows no upper bound.\n",
    }
}

/// Appends why the number is no more than the upper bound, if there is one.
pub(crate) fn push_most(
    text: &mut String,
    table: &Table,
    all: bool,
    at_least: Option<u8>,
    at_most: Option<u8>,
    most: &Option<Vec<Join>>,
) -> Result<(), AllocError>
    requires few { IfSome at_most (λ m. m ≤ MOST_STATES) }
    requires joins { IfSome most.now (λ joins. All (IsJoin table.now) joins.items) }
    ensures { OnOk result (string_bytes text.new ≡ string_bytes text.old
        ++ most_text table.now all at_least at_most (option_map (λ joins. joins.items) most.now)) }
{
    let Some(m) = at_most else {
        return text.push_str(open_line(at_least));
    };
    let Some(joins) = most else {
        return text.push_str(open_line(at_least));
    };
    push_joins_text(text, table, all, m + 1, joins.as_slice())
}
