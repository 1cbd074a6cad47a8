//! Changes that raise the number of a type.
ghost use Rattle.std.specs.Prelude.{◌≡◌, ◌++◌, IfOk, OnOk, Some, flat_map};
ghost use Rattle.cn_changes.specs.Raises.{raise_to, raises_in, raises_in_order, raises_of};

use crate::greatest::{GREATEST_RANK, Numbered, greatest_first};
use crate::less::is_less;
use crate::numbers::{NextNumbers, agreed};
use crate::targets::Target;
use cn_table::Response;
use cn_unread_number::NumberBounds;
use std::alloc::{AllocError, Global};

/// A change that raises the number of a type.
#[derive(Clone, Copy, Debug, PartialEq, Eq)]
pub struct Raise {
    /// The entry, and the next state to which it leads.
    pub target: Target,
    /// The response that it gives; none if the number is the same with each one.
    pub response: Option<Response>,
    /// The number of the type with the change.
    pub number: NumberBounds,
}

impl Numbered for Raise {
    ghost number_of = { λ r. r.number };

    fn number(&self) -> NumberBounds {
        self.number
    }
}

/// Pushes the change if it raises the number.
fn push_raise(raises: &mut Vec<Raise>, number: NumberBounds, raise: Raise) -> Result<(), AllocError>
    ensures { OnOk result (raises.new.items
        ≡ raises.old.items ++ raise_to number raise.target raise.response raise.number) }
{
    if is_less(number, raise.number) {
        raises.push(raise)?;
    }
    Ok(())
}

/// Pushes each of the changes that raises the number, with its response.
fn push_each(
    raises: &mut Vec<Raise>,
    number: NumberBounds,
    told: &NextNumbers,
) -> Result<(), AllocError>
    ensures { OnOk result (raises.new.items ≡ raises.old.items
        ++ flat_map (λ r. raise_to number told.now.target (Some r.change.response) r.number)
        told.now.numbers.items) }
{
    for r in told.numbers.as_slice() {
        push_raise(
            raises,
            number,
            Raise {
                target: told.target,
                response: Some(r.change.response),
                number: r.number,
            },
        )?;
    }
    Ok(())
}

/// Pushes the changes of an entry to one next state that raise the number.
fn push_raises_in(
    raises: &mut Vec<Raise>,
    number: NumberBounds,
    told: &NextNumbers,
) -> Result<(), AllocError>
    ensures { OnOk result (raises.new.items ≡ raises.old.items ++ raises_in number told.now) }
{
    match agreed(told.numbers.as_slice()) {
        Some(raised) => push_raise(
            raises,
            number,
            Raise {
                target: told.target,
                response: None,
                number: raised,
            },
        ),
        None => push_each(raises, number, told),
    }
}

/// The changes that raise the number, by their entries and next states.
fn raises_in_order(
    alloc: Global,
    number: NumberBounds,
    nexts: &[NextNumbers],
) -> Result<Vec<Raise>, AllocError>
    ensures { IfOk result (λ raises. raises.items ≡ raises_in_order number nexts.now) }
{
    let mut raises = Vec::new(alloc);
    for told in nexts {
        push_raises_in(&mut raises, number, told)?;
    }
    Ok(raises)
}

/// The changes that raise the number, those to a greater number first, and else by their entries and
/// next states. Where the number is the same with each response, they are told as one, with no
/// response.
///
/// # Errors
///
/// `AllocError` if memory runs out.
pub fn raises_of(
    alloc: Global,
    number: NumberBounds,
    nexts: &[NextNumbers],
) -> Result<Vec<Raise>, AllocError>
    // promise: numbers-of-changes (raises_of: greatest_first)
    ensures { IfOk result (λ raises. raises.items ≡ raises_of number nexts.now) }
{
    let raises = raises_in_order(alloc, number, nexts)?;
    greatest_first(alloc, GREATEST_RANK, raises.as_slice())
}
