//! Whether JSON values have the kinds of the parts of a certificate.
ghost use Rattle.std.specs.Prelude.{◌≡◌, IfSome, map, option_map};
ghost use Rattle.std.specs.List.{list_all};
ghost use Rattle.serde_json.specs.View.{view};
ghost use Rattle.cn_cert.specs.Values.{items_of};
ghost use Rattle.cn_stock_cert.specs.Kinds.{are_lasting_parts, are_team_parts, is_array, is_row};
ghost use Rattle.cn_stock_cert.specs.StockText.{list_data};

use cn_joins::Join;
use serde_json::Value;

/// A part that comes several times in an array: which values are of its kind, with no number above
/// the greatest.
pub(crate) trait Kind {
    ghost use Rattle.std.specs.Prelude.{◌≡◌, Bool, ℕ};
    ghost use Rattle.serde_json.specs.Data.{Data};
    ghost use Rattle.serde_json.specs.View.{view};

    ghost kind: { ℕ → Data → Bool };

    /// Whether the value is of the kind.
    fn is(value: &Value, most: u64) -> bool
        ensures { result ≡ kind most (view value.now) };
}

/// The items of an array.
pub(crate) fn items(value: &Value) -> Option<&[Value]>
    ensures items { option_map (λ items. map view items.now) result
        ≡ items_of (view value.now) }
    ensures array { IfSome result (λ items. view value.now ≡ list_data (map view items.now)) }
{
    match value.as_array() {
        Some(list) => Some(list.as_slice()),
        None => None,
    }
}

/// Whether all values are of the kind.
fn are_all<K: Kind>(values: &[Value], most: u64) -> bool
    ensures { result ≡ list_all (K.kind most) (map view values.now) }
{
    for value in values {
        if !K::is(value, most) {
            return false;
        }
    }
    true
}

/// Whether it is an array of values of the kind.
pub(crate) fn is_array<K: Kind>(value: &Value, most: u64) -> bool
    ensures { result ≡ is_array (K.kind most) (view value.now) }
{
    match items(value) {
        Some(list) => are_all::<K>(list, most),
        None => false,
    }
}

/// A number.
impl Kind for u8 {
    ghost use Rattle.cn_stock_cert.specs.Kinds.{is_number};

    ghost kind = { is_number };

    fn is(value: &Value, most: u64) -> bool {
        match value.as_u64() {
            Some(n) => n <= most,
            None => false,
        }
    }
}

pub(crate) fn is_choice(value: &Value, most: u64) -> bool
    ensures { result ≡ is_row (are_team_parts most) (view value.now) }
{
    match items(value) {
        Some([state, a, b]) => {
            u8::is(state, most) && is_array::<u8>(a, most) && is_array::<u8>(b, most)
        }
        _ => false,
    }
}

pub(crate) fn are_lasting(value: &Value, most: u64) -> bool
    ensures { result ≡ is_row (are_lasting_parts most) (view value.now) }
{
    match items(value) {
        Some([state, many, single, alone, behind, first]) => {
            u8::is(state, most)
                && u8::is(many, most)
                && u8::is(single, most)
                && is_array::<u8>(alone, most)
                && is_array::<u8>(behind, most)
                && is_array::<u8>(first, most)
        }
        _ => false,
    }
}

impl Kind for Join {
    ghost use Rattle.cn_stock_cert.specs.Kinds.{is_join};

    ghost kind = { is_join };

    fn is(value: &Value, most: u64) -> bool {
        match items(value) {
            Some([state, first, place, second, other]) => {
                u8::is(state, most)
                    && is_array::<u8>(first, most)
                    && u8::is(place, most)
                    && is_array::<u8>(second, most)
                    && u8::is(other, most)
            }
            _ => false,
        }
    }
}
