//! Sentences on numbers without reads.
ghost use Rattle.std.specs.Prelude.{◌≡◌, ◌<◌, ◌++◌, codes, flat_map, length, string_bytes, All, OnOk};
ghost use Rattle.cn_sentences.specs.Unread.{answer_text, answers_text, follow_up_line, listed_operation, looks_line, merged_line, merged_text, next_steps, open_line, operations_told, other_team, search_line, sign_search, telling_line, undecided, undecided_line, unread_sight_text};
ghost use Rattle.cn_unread_reasons.specs.Known.{IsKnownAnswer, IsKnownFollowUp, IsKnownMerged, IsKnownSigns, IsKnownUnreadSight, IsKnownUnreadWitness};

use cn_choice::Team;
use cn_further::FollowUp;
use cn_pieces::push_pieces;
use cn_table::{Operation, Table};
use cn_unread_number::{NumberBounds, Telling};
use cn_unread_reasons::{Answer, MergedState, SignWitness, UnreadSight, UnreadWitness};
use std::alloc::AllocError;

/// A state and the one that stands for it.
#[tactic(auto, unfolding(crate::specs::Unread::merged_line))]
fn push_merged_line(
    text: &mut String,
    given: &Table,
    table: &Table,
    merged: MergedState,
) -> Result<(), AllocError>
    requires { IsKnownMerged given.now table.now merged }
    ensures { OnOk result (string_bytes text.new
        ≡ string_bytes text.old ++ merged_line given.now table.now merged) }
{
    let state = given.state_name(merged.state);
    let class = table.state_name(merged.class);
    push_pieces(
        text,
        &[
            "No operations tell ",
            state,
            " from ",
            class,
            ", so they are one state here.\n",
        ],
    )
}

fn push_merged_lines(
    text: &mut String,
    given: &Table,
    table: &Table,
    merged: &[MergedState],
) -> Result<(), AllocError>
    requires { All (IsKnownMerged given.now table.now) merged.now }
    ensures { OnOk result (string_bytes text.new
        ≡ string_bytes text.old ++ flat_map (merged_line given.now table.now) merged.now) }
{
    for state in merged {
        push_merged_line(text, given, table, *state)?;
    }
    Ok(())
}

/// Writes a line for each state for which another one stands, and then an empty line; nothing if
/// there are none.
///
/// # Errors
///
/// `AllocError` if memory runs out, as of each function here that writes. The text may then have a
/// part of what was to be written.
#[tactic(auto, unfolding(crate::specs::Unread::merged_text))]
pub fn push_merged(
    text: &mut String,
    given: &Table,
    table: &Table,
    merged: &[MergedState],
) -> Result<(), AllocError>
    requires { All (IsKnownMerged given.now table.now) merged.now }
    // promise: parts-of-explanations (merged_text)
    ensures { OnOk result (string_bytes text.new
        ≡ string_bytes text.old ++ merged_text given.now table.now merged.now) }
{
    if merged.is_empty() {
        return Ok(());
    }
    push_merged_lines(text, given, table, merged)?;
    push_pieces(text, &["\n"])
}

/// Why a type needs no reads, if it tells its states.
pub fn telling_line<'a>(telling: Option<Telling>) -> &'a str
    ensures { result.now ≡ telling_line telling }
{
    match telling {
        None => "",
        Some(Telling::Responses) => {
            "The response to each operation tells the state that it leaves, so no process needs a read.\n"
        }
        Some(Telling::Looks) => {
            "Operations that change nothing tell all states apart, so no process needs a read.\n"
        }
    }
}

/// The response to an operation, behind a word.
#[tactic(auto, unfolding(crate::specs::Unread::answer_text))]
fn push_answer(
    text: &mut String,
    table: &Table,
    before: &str,
    answer: Answer,
) -> Result<(), AllocError>
    requires { IsKnownAnswer table.now answer }
    ensures { OnOk result (string_bytes text.new
        ≡ string_bytes text.old ++ answer_text table.now before.now answer) }
{
    let (response, operation) = (
        table.response_name(answer.response),
        table.operation_name(answer.operation),
    );
    push_pieces(text, &[before, response, " from ", operation])
}

fn push_other_answers(
    text: &mut String,
    table: &Table,
    answers: &[Answer],
) -> Result<(), AllocError>
    requires { All (IsKnownAnswer table.now) answers.now }
    ensures { OnOk result (string_bytes text.new ≡ string_bytes text.old
        ++ flat_map (answer_text table.now (codes ", ")) answers.now) }
{
    for answer in answers {
        push_answer(text, table, ", ", *answer)?;
    }
    Ok(())
}

/// Several answers: the first behind a word, the others behind commas.
fn push_answers(
    text: &mut String,
    table: &Table,
    before: &str,
    answers: &[Answer],
) -> Result<(), AllocError>
    requires { All (IsKnownAnswer table.now) answers.now }
    // promise: parts-of-explanations (answers_text)
    ensures { OnOk result (string_bytes text.new
        ≡ string_bytes text.old ++ answers_text table.now before.now answers.now) }
{
    let [first, others @ ..] = answers else {
        return Ok(());
    };
    push_answer(text, table, before, *first)?;
    push_other_answers(text, table, others)
}

/// Writes what a process gets: the response to its operation of the choice, and the answers to what
/// it does then.
#[tactic(auto, unfolding(crate::specs::Unread::unread_sight_text))]
pub fn push_unread_sight(
    text: &mut String,
    table: &Table,
    sight: &UnreadSight,
) -> Result<(), AllocError>
    requires { IsKnownUnreadSight table.now sight.now }
    // promise: parts-of-explanations (unread_sight_text)
    ensures { OnOk result (string_bytes text.new
        ≡ string_bytes text.old ++ unread_sight_text table.now sight.now) }
{
    push_pieces(text, &["got ", table.response_name(sight.response)])?;
    push_answers(text, table, ", then ", sight.answers.as_slice())
}

/// That each process looks, if there is something to look with.
#[tactic(auto, unfolding(crate::specs::Unread::looks_line))]
fn push_looks_line(text: &mut String, mark: &str, looks: &[Operation]) -> Result<(), AllocError>
    ensures { OnOk result (string_bytes text.new
        ≡ string_bytes text.old ++ looks_line mark.now (length looks.now)) }
{
    if looks.is_empty() {
        return Ok(());
    }
    push_pieces(
        text,
        &[
            mark,
            "Then each process does every operation that changes nothing, in order.\n",
        ],
    )
}

/// The further operation of who gets a response.
#[tactic(auto, unfolding(crate::specs::Unread::follow_up_line))]
fn push_follow_up(
    text: &mut String,
    table: &Table,
    mark: &str,
    follow_up: FollowUp,
) -> Result<(), AllocError>
    requires { IsKnownFollowUp table.now follow_up }
    ensures { OnOk result (string_bytes text.new
        ≡ string_bytes text.old ++ follow_up_line table.now mark.now follow_up) }
{
    let response = table.response_name(follow_up.response);
    let operation = table.operation_name(follow_up.operation);
    let further = table.operation_name(follow_up.further);
    push_pieces(
        text,
        &[
            mark,
            "Who gets ",
            response,
            " from ",
            operation,
            " then does ",
            further,
            ".\n",
        ],
    )
}

fn push_follow_ups(
    text: &mut String,
    table: &Table,
    mark: &str,
    follow_ups: &[FollowUp],
) -> Result<(), AllocError>
    requires { All (IsKnownFollowUp table.now) follow_ups.now }
    ensures { OnOk result (string_bytes text.new ≡ string_bytes text.old
        ++ flat_map (follow_up_line table.now mark.now) follow_ups.now) }
{
    for follow_up in follow_ups {
        push_follow_up(text, table, mark, *follow_up)?;
    }
    Ok(())
}

/// Writes what the processes of a witness do behind their operations of the choice, in lines with a
/// mark.
pub fn push_next_steps(
    text: &mut String,
    table: &Table,
    mark: &str,
    witness: &UnreadWitness,
) -> Result<(), AllocError>
    requires { IsKnownUnreadWitness table.now witness.now }
    // promise: parts-of-explanations (next_steps)
    ensures { OnOk result (string_bytes text.new
        ≡ string_bytes text.old ++ next_steps table.now mark.now witness.now) }
{
    push_looks_line(text, mark, witness.looks.as_slice())?;
    push_follow_ups(text, table, mark, witness.follow_ups.as_slice())
}

/// An operation behind a word.
#[tactic(auto, unfolding(crate::specs::Unread::listed_operation))]
fn push_operation(
    text: &mut String,
    table: &Table,
    before: &str,
    operation: Operation,
) -> Result<(), AllocError>
    requires { operation.0 < length table.now.operations }
    ensures { OnOk result (string_bytes text.new
        ≡ string_bytes text.old ++ listed_operation table.now before.now operation.0) }
{
    push_pieces(text, &[before, table.operation_name(operation)])
}

fn push_other_operations(
    text: &mut String,
    table: &Table,
    operations: &[u8],
) -> Result<(), AllocError>
    requires { All (λ o. o < length table.now.operations) operations.now }
    ensures { OnOk result (string_bytes text.new ≡ string_bytes text.old
        ++ flat_map (listed_operation table.now (codes ", ")) operations.now) }
{
    for operation in operations {
        push_operation(text, table, ", ", Operation(*operation))?;
    }
    Ok(())
}

/// Operations, with a comma between two.
fn push_operations(text: &mut String, table: &Table, operations: &[u8]) -> Result<(), AllocError>
    requires { All (λ o. o < length table.now.operations) operations.now }
    ensures { OnOk result (string_bytes text.new
        ≡ string_bytes text.old ++ operations_told table.now operations.now) }
{
    let [first, others @ ..] = operations else {
        return Ok(());
    };
    push_operation(text, table, "", Operation(*first))?;
    push_other_operations(text, table, others)
}

/// The name of the other team.
fn other_team<'a>(team: Team) -> &'a str
    ensures { result.now ≡ other_team team }
{
    match team {
        Team::A => Team::B.name(),
        Team::B => Team::A.name(),
    }
}

/// For which signs each process looks, and how.
#[tactic(auto, unfolding(crate::specs::Unread::search_line))]
fn push_search_line(
    text: &mut String,
    table: &Table,
    mark: &str,
    signs: &SignWitness,
) -> Result<(), AllocError>
    requires { IsKnownSigns table.now signs.now }
    ensures { OnOk result (string_bytes text.new
        ≡ string_bytes text.old ++ search_line table.now mark.now signs.now) }
{
    let side = signs.choice.side.name();
    push_pieces(text, &[mark, "Then each process does "])?;
    push_operations(text, table, signs.choice.further.as_slice())?;
    push_pieces(
        text,
        &[" again and again, until it gets a sign of team ", side],
    )?;
    push_answers(text, table, ": ", signs.signs.as_slice())?;
    push_pieces(text, &[".\n"])
}

/// Writes for which signs each process looks, and what it does with no sign, in lines with a mark.
#[tactic(auto, unfolding(crate::specs::Unread::sign_search))]
pub fn push_sign_search(
    text: &mut String,
    table: &Table,
    mark: &str,
    signs: &SignWitness,
) -> Result<(), AllocError>
    requires { IsKnownSigns table.now signs.now }
    // promise: parts-of-explanations (sign_search)
    ensures { OnOk result (string_bytes text.new
        ≡ string_bytes text.old ++ sign_search table.now mark.now signs.now) }
{
    let other = other_team(signs.choice.side);
    push_search_line(text, table, mark, signs)?;
    push_pieces(
        text,
        &[mark, "Who never gets one decides for team ", other, ".\n"],
    )
}

/// That no upper bound is known.
pub fn open_line<'a>() -> &'a str
    ensures { result.now ≡ open_line }
{
    "No upper bound was found.\n"
}

#[tactic(auto, unfolding(crate::specs::Unread::undecided_line))]
fn push_undecided_line(text: &mut String, n: u8) -> Result<(), AllocError>
    ensures { OnOk result (string_bytes text.new ≡ string_bytes text.old ++ undecided_line n) }
{
    write!(text, "Whether it is more than {n} is not decided.\n")
}

/// Writes what bounds leave open, if they do not decide the number.
pub fn push_undecided(text: &mut String, bounds: NumberBounds) -> Result<(), AllocError>
    // promise: parts-of-explanations (undecided)
    ensures { OnOk result (string_bytes text.new ≡ string_bytes text.old ++ undecided bounds) }
{
    match bounds {
        NumberBounds::Exactly(_) | NumberBounds::Infinite => Ok(()),
        NumberBounds::Between(least, _) | NumberBounds::AtLeast(least) => {
            push_undecided_line(text, least)
        }
    }
}
