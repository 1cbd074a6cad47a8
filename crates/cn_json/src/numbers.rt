//! The numbers of a type as JSON.
ghost use Rattle.std.specs.Prelude.{◌≡◌, IfOk, string_bytes};
ghost use Rattle.serde_json.specs.Written.{compact_text};
ghost use Rattle.cn_json.specs.Numbers.{bounds_data, classification_data, exact_data, limited_data, recoverable_members, type_number_data, without_read_members};
ghost use Rattle.cn_json.specs.Tokens.{Appends, members_rest, value_tokens};

use crate::json_text::JsonText;
use crate::json_text::Primitive::{Byte, Text};
use cn_reasons::TypeNumber;
use cn_search::ConsensusNumber;
use cn_unread_number::NumberBounds;
use std::alloc::{AllocError, Global};

/// The numbers of a type.
#[derive(Clone, Copy, Debug)]
pub struct Classification<'a> {
    /// The name of the type.
    pub name: &'a str,
    /// Its consensus number.
    pub number: TypeNumber,
    /// Its recoverable number, if it is asked for.
    pub recoverable: Option<TypeNumber>,
    /// What is known of its number without reads, if that is asked for.
    pub without_read: Option<NumberBounds>,
}

/// Writes a number with no limit: the number, or `"infinite"`.
pub(crate) fn write_exact(out: &mut JsonText, number: ConsensusNumber) -> Result<(), AllocError>
    ensures { Appends result out.old out.new (value_tokens (exact_data number)) }
{
    match number {
        ConsensusNumber::Finite(n) => out.number(u64::from(n)),
        ConsensusNumber::Infinite => out.text("infinite"),
    }
}

/// Writes a number up to a limit: 1 where there is none, and `{"at_least":N}` where it is the
/// limit.
fn write_limited(out: &mut JsonText, limit: u8, number: Option<u8>) -> Result<(), AllocError>
    ensures { Appends result out.old out.new (value_tokens (limited_data limit number)) }
{
    match number {
        None => out.number(1),
        Some(n) if n < limit => out.number(u64::from(n)),
        Some(n) => out.object(&[("at_least", Byte(n))]),
    }
}

pub(crate) fn write_type_number(out: &mut JsonText, number: TypeNumber) -> Result<(), AllocError>
    ensures { Appends result out.old out.new (value_tokens (type_number_data number)) }
{
    match number {
        TypeNumber::Exact(number) => write_exact(out, number),
        TypeNumber::UpTo(limit, number) => write_limited(out, limit, number),
    }
}

/// Writes what is known of a number without reads: the number; `"infinite"`;
/// `{"at_least":N,"at_most":M}`; or `{"at_least":N}`.
pub(crate) fn write_bounds(out: &mut JsonText, bounds: NumberBounds) -> Result<(), AllocError>
    ensures { Appends result out.old out.new (value_tokens (bounds_data bounds)) }
{
    match bounds {
        NumberBounds::Exactly(n) => out.number(u64::from(n)),
        NumberBounds::Infinite => out.text("infinite"),
        NumberBounds::Between(least, most) => out.object(&[
            ("at_least", Byte(least)),
            ("at_most", Byte(most)),
        ]),
        NumberBounds::AtLeast(least) => out.object(&[("at_least", Byte(least))]),
    }
}

/// Writes the number without reads, if it is there, and the end of the object.
fn write_without_read(
    out: &mut JsonText,
    without_read: Option<NumberBounds>,
) -> Result<(), AllocError>
    ensures { Appends result out.old out.new (members_rest (without_read_members without_read)) }
{
    let Some(bounds) = without_read else {
        return out.end_object();
    };
    out.key("without_read")?;
    write_bounds(out, bounds)?;
    out.end_object()
}

/// Writes the recoverable number and the number without reads, each if it is there, and the end of
/// the object.
fn write_recoverable(
    out: &mut JsonText,
    recoverable: Option<TypeNumber>,
    without_read: Option<NumberBounds>,
) -> Result<(), AllocError>
    ensures { Appends result out.old out.new
        (members_rest (recoverable_members recoverable (without_read_members without_read))) }
{
    let Some(number) = recoverable else {
        return write_without_read(out, without_read);
    };
    out.key("recoverable")?;
    write_type_number(out, number)?;
    write_without_read(out, without_read)
}

fn write_classification(
    out: &mut JsonText,
    classification: Classification<'_>,
) -> Result<(), AllocError>
    ensures { Appends result out.old out.new
        (value_tokens (classification_data classification.entry)) }
{
    out.begin_object()?;
    out.member("name", Text(classification.name))?;
    out.key("number")?;
    write_type_number(out, classification.number)?;
    write_recoverable(out, classification.recoverable, classification.without_read)
}

/// The numbers of a type, as one compact JSON object: `{"name":..,"number":..}`, and behind these
/// `"recoverable":..`, if the recoverable number is asked for, and `"without_read":..`, if the number
/// without reads is. A number is
///
/// - `N`: it is this number, with no limit and up to any limit above it;
/// - `"infinite"`, with no limit;
/// - `{"at_least":N}`: it is at least the limit N.
///
/// A number without reads is `N`, `"infinite"`, `{"at_least":N,"at_most":M}` or `{"at_least":N}`.
///
/// # Errors
///
/// `AllocError` if memory runs out.
pub fn classification_json(
    alloc: Global,
    classification: Classification<'_>,
) -> Result<String, AllocError>
    // promise: answers-as-json (classification_data: type_number_data, recoverable_members,
    //     without_read_members)
    // promise: forms-by-classify
    ensures { IfOk result (λ text. string_bytes text
        ≡ compact_text (classification_data classification.entry)) }
{
    let mut out = JsonText::new(alloc);
    write_classification(&mut out, classification)?;
    Ok(out.finish())
}
