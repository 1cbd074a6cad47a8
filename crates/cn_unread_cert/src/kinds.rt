//! Whether JSON values have the kinds of the parts of a certificate.
ghost use Rattle.std.specs.Prelude.{◌≡◌, IfSome, map, option_map};
ghost use Rattle.std.specs.List.{list_all};
ghost use Rattle.serde_json.specs.View.{view};
ghost use Rattle.cn_cert.specs.Values.{items_of};
ghost use Rattle.cn_unread_cert.specs.Kinds.{are_choice_parts, are_further_parts, are_sign_parts, is_array, is_list, is_row, is_run, is_side};
ghost use Rattle.cn_unread_cert.specs.UnreadText.{list_data};

use crate::limits::Limits;
use cn_further::FollowUp;
use cn_game::{Standing, Turn};
use serde_json::Value;

/// A part that comes several times in an array: which values are of its kind.
pub(crate) trait Kind {
    ghost use Rattle.std.specs.Prelude.{◌≡◌, Bool};
    ghost use Rattle.serde_json.specs.Data.{Data};
    ghost use Rattle.serde_json.specs.View.{view};
    ghost use Rattle.cn_unread_cert.specs.declared.limits.Limits.{Limits as LimitsOf};

    ghost kind: { LimitsOf → Data → Bool };

    /// Whether the value is of the kind.
    fn is(value: &Value, limits: Limits) -> bool
        ensures { result ≡ kind limits (view value.now) };
}

/// The items of an array.
pub(crate) fn items(value: &Value) -> Option<&[Value]>
    ensures items { option_map (λ items. map view items.now) result
        ≡ items_of (view value.now) }
    ensures array { IfSome result (λ items. view value.now ≡ list_data (map view items.now)) }
{
    match value.as_array() {
        Some(list) => Some(list.as_slice()),
        None => None,
    }
}

/// Whether all values are of the kind.
fn are_all<K: Kind>(values: &[Value], limits: Limits) -> bool
    ensures { result ≡ list_all (K.kind limits) (map view values.now) }
{
    for value in values {
        if !K::is(value, limits) {
            return false;
        }
    }
    true
}

/// Whether it is an array of values of the kind.
pub(crate) fn is_array<K: Kind>(value: &Value, limits: Limits) -> bool
    ensures { result ≡ is_array (K.kind limits) (view value.now) }
{
    match items(value) {
        Some(list) => are_all::<K>(list, limits),
        None => false,
    }
}

/// Whether it is an array of values of the kind, and not too long.
fn is_list<K: Kind>(value: &Value, limits: Limits) -> bool
    ensures { result ≡ is_list (K.kind limits) limits (view value.now) }
{
    match items(value) {
        Some(list) => list.len() <= limits.list && are_all::<K>(list, limits),
        None => false,
    }
}

/// A number.
impl Kind for u8 {
    ghost use Rattle.cn_unread_cert.specs.Kinds.{is_number};

    ghost kind = { is_number };

    fn is(value: &Value, limits: Limits) -> bool {
        match value.as_u64() {
            Some(n) => n <= limits.number,
            None => false,
        }
    }
}

/// Whether it is the number of a run.
fn is_run(value: &Value) -> bool
    ensures { result ≡ is_run (view value.now) }
{
    match value.as_u64() {
        Some(n) => n == 1 || n == 2,
        None => false,
    }
}

pub(crate) fn is_choice(value: &Value, limits: Limits) -> bool
    ensures { result ≡ is_row (are_choice_parts limits) (view value.now) }
{
    match items(value) {
        Some([state, a, b]) => {
            u8::is(state, limits) && is_list::<u8>(a, limits) && is_list::<u8>(b, limits)
        }
        _ => false,
    }
}

impl Kind for FollowUp {
    ghost use Rattle.cn_unread_cert.specs.Kinds.{is_follow_up};

    ghost kind = { is_follow_up };

    fn is(value: &Value, limits: Limits) -> bool {
        match items(value) {
            Some([o, r, f]) => u8::is(o, limits) && u8::is(r, limits) && u8::is(f, limits),
            _ => false,
        }
    }
}

pub(crate) fn is_further(value: &Value, limits: Limits) -> bool
    ensures { result ≡ is_row (are_further_parts limits) (view value.now) }
{
    match items(value) {
        Some([state, a, b, follow_ups]) => {
            u8::is(state, limits)
                && is_list::<u8>(a, limits)
                && is_list::<u8>(b, limits)
                && is_array::<FollowUp>(follow_ups, limits)
        }
        _ => false,
    }
}

/// Whether it is the name of a team.
fn is_side(value: &Value) -> bool
    ensures { result ≡ is_side (view value.now) }
{
    match value.as_str() {
        Some(side) => side == "A" || side == "B",
        None => false,
    }
}

pub(crate) fn are_signs(value: &Value, limits: Limits) -> bool
    ensures { result ≡ is_row (are_sign_parts limits) (view value.now) }
{
    match items(value) {
        Some([state, single, many, further, side]) => {
            u8::is(state, limits)
                && u8::is(single, limits)
                && u8::is(many, limits)
                && is_list::<u8>(further, limits)
                && is_side(side)
        }
        _ => false,
    }
}

impl Kind for Standing {
    ghost use Rattle.cn_unread_cert.specs.Kinds.{is_standing};

    ghost kind = { is_standing };

    fn is(value: &Value, limits: Limits) -> bool {
        match items(value) {
            Some([]) => true,
            Some([o]) => u8::is(o, limits),
            Some([o, r, run]) => u8::is(o, limits) && u8::is(r, limits) && is_run(run),
            _ => false,
        }
    }
}

impl Kind for Turn {
    ghost use Rattle.cn_unread_cert.specs.Kinds.{is_turn};

    ghost kind = { is_turn };

    fn is(value: &Value, limits: Limits) -> bool {
        match items(value) {
            Some([first, second, standings, process, run]) => {
                u8::is(first, limits)
                    && u8::is(second, limits)
                    && is_list::<Standing>(standings, limits)
                    && u8::is(process, limits)
                    && is_run(run)
            }
            _ => false,
        }
    }
}
