//! Parts of a certificate, read from JSON values.
ghost use Rattle.std.specs.Prelude.{◌≡◌, IfOk, IfSome, is_some};
ghost use Rattle.serde_json.specs.View.{view};
ghost use Rattle.cn_cert.specs.CertificateText.{choice_data, number_data};
ghost use Rattle.cn_choice.specs.TeamNames.{team_name};
ghost use Rattle.serde_json.specs.Data.{string};
ghost use Rattle.cn_unread_cert.specs.Kinds.{are_choice_parts, are_further_parts, are_sign_parts, byte_limits, is_array, is_list, is_row, is_run, is_side};
ghost use Rattle.cn_unread_cert.specs.UnreadText.{each_data, further_data, run_number, signs_data};

use crate::kinds::{Kind, items};
use crate::part::Part;
use arrayvec::ArrayVec;
use cn_choice::{Choice, MOST_PROCESSES, Team};
use cn_further::{FollowUp, Further};
use cn_game::{Board, Run, Standing, Turn};
use cn_signs::SignChoice;
use cn_table::{Operation, Response, State};
use serde_json::Value;
use std::alloc::{AllocError, Global};

/// A part that comes several times in an array, and that is read.
pub(crate) trait Reading: Part + Kind + Sized {
    ghost use Rattle.std.specs.Prelude.{◌≡◌, IfSome, is_some};
    ghost use Rattle.serde_json.specs.View.{view};
    ghost use Rattle.cn_unread_cert.specs.Kinds.{byte_limits};

    /// Reads the part; none if the value is of another kind, or has too great a number.
    fn read(value: &Value) -> Option<Self>
        ensures told { is_some result ≡ Self.kind byte_limits (view value.now) }
        ensures same { IfSome result (λ part. view value.now ≡ Self.json part) };
}

/// Reads an array of at most 8 parts.
fn read_list<T: Reading + Default>(value: &Value) -> Option<ArrayVec<T, MOST_PROCESSES>>
    ensures told { is_some result ≡ is_list (T.kind byte_limits) byte_limits (view value.now) }
    ensures same { IfSome result (λ parts. view value.now ≡ each_data T.json parts.items) }
{
    let list = items(value)?;
    if list.len() > MOST_PROCESSES {
        return None;
    }
    let mut parts = ArrayVec::new();
    for item in list {
        parts.push(T::read(item)?);
    }
    Some(parts)
}

/// Reads an array of parts.
pub(crate) fn read_array<T: Reading>(
    alloc: Global,
    value: &Value,
) -> Result<Option<Vec<T>>, AllocError>
    ensures told { IfOk result (λ o. is_some o
        ≡ is_array (T.kind byte_limits) (view value.now)) }
    ensures same { IfOk result (λ o. IfSome o (λ parts. view value.now
        ≡ each_data T.json parts.items)) }
{
    let Some(list) = items(value) else {
        return Ok(None);
    };
    let mut parts = Vec::new(alloc);
    for item in list {
        let Some(part) = T::read(item) else {
            return Ok(None);
        };
        parts.push(part)?;
    }
    Ok(Some(parts))
}

impl Reading for u8 {
    fn read(value: &Value) -> Option<u8> {
        match value.as_u64() {
            Some(n) if n <= 255 => Some(n as u8),
            _ => None,
        }
    }
}

/// Reads the number of a run.
fn read_run(value: &Value) -> Option<Run>
    ensures told { is_some result ≡ is_run (view value.now) }
    ensures same { IfSome result (λ run. view value.now ≡ number_data (run_number run)) }
{
    match value.as_u64() {
        Some(1) => Some(Run::First),
        Some(2) => Some(Run::Second),
        _ => None,
    }
}

/// Reads the name of a team.
fn read_side(value: &Value) -> Option<Team>
    ensures told { is_some result ≡ is_side (view value.now) }
    ensures same { IfSome result (λ team. view value.now ≡ string (team_name team)) }
{
    let name = value.as_str()?;
    if name == "A" {
        Some(Team::A)
    } else if name == "B" {
        Some(Team::B)
    } else {
        None
    }
}

pub(crate) fn read_choice(value: &Value) -> Option<Choice>
    ensures told { is_some result ≡ is_row (are_choice_parts byte_limits) (view value.now) }
    ensures same { IfSome result (λ choice. view value.now ≡ choice_data choice) }
{
    let [state, a, b] = items(value)? else {
        return None;
    };
    let state = State(u8::read(state)?);
    let a = read_list(a)?;
    let b = read_list(b)?;
    Some(Choice { state, a, b })
}

impl Reading for FollowUp {
    fn read(value: &Value) -> Option<FollowUp> {
        let [o, r, f] = items(value)? else {
            return None;
        };
        let operation = Operation(u8::read(o)?);
        let response = Response(u8::read(r)?);
        let further = Operation(u8::read(f)?);
        Some(FollowUp {
            operation,
            response,
            further,
        })
    }
}

pub(crate) fn read_signs(value: &Value) -> Option<SignChoice>
    ensures told { is_some result ≡ is_row (are_sign_parts byte_limits) (view value.now) }
    ensures same { IfSome result (λ signs. view value.now ≡ signs_data signs) }
{
    let [state, single, many, further, side] = items(value)? else {
        return None;
    };
    let state = State(u8::read(state)?);
    let single = Operation(u8::read(single)?);
    let many = Operation(u8::read(many)?);
    let further = read_list(further)?;
    let side = read_side(side)?;
    Some(SignChoice {
        state,
        single,
        many,
        further,
        side,
    })
}

impl Reading for Standing {
    fn read(value: &Value) -> Option<Standing> {
        match items(value)? {
            [] => Some(Standing::Lost),
            [o] => Some(Standing::Poised(Operation(u8::read(o)?))),
            [o, r, run] => {
                let operation = Operation(u8::read(o)?);
                let response = Response(u8::read(r)?);
                match read_run(run)? {
                    Run::First => Some(Standing::AheadInFirst(operation, response)),
                    Run::Second => Some(Standing::AheadInSecond(operation, response)),
                }
            }
            _ => None,
        }
    }
}

impl Reading for Turn {
    fn read(value: &Value) -> Option<Turn> {
        let [first, second, standings, process, run] = items(value)? else {
            return None;
        };
        let first = State(u8::read(first)?);
        let second = State(u8::read(second)?);
        let standings = read_list(standings)?;
        let process = u8::read(process)?;
        let run = read_run(run)?;
        let board = Board {
            first,
            second,
            standings,
        };
        Some(Turn {
            board,
            process,
            run,
        })
    }
}

pub(crate) fn read_further(alloc: Global, value: &Value) -> Result<Option<Further>, AllocError>
    ensures told { IfOk result (λ o. is_some o
        ≡ is_row (are_further_parts byte_limits) (view value.now)) }
    ensures same { IfOk result (λ o. IfSome o (λ further. view value.now ≡ further_data further)) }
{
    let Some([state, a, b, follow_ups]) = items(value) else {
        return Ok(None);
    };
    let follow_ups = read_array(alloc, follow_ups)?;
    let (Some(state), Some(a), Some(b), Some(follow_ups)) = (
        u8::read(state),
        read_list(a),
        read_list(b),
        follow_ups,
    ) else {
        return Ok(None);
    };
    let state = State(state);
    let choice = Choice { state, a, b };
    Ok(Some(Further { choice, follow_ups }))
}
