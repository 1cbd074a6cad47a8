//! Operations, as lists give them: by number or by name.
ghost use Rattle.std.specs.Prelude.{◌≡◌, IfOk};
ghost use Rattle.cn_io.specs.Arguments.Operations.{operation_in, operation_of, operations_in};

use crate::arguments::lists::{Item, has_digits_only};
use cn_table::{Table, is_name};
use std::alloc::{AllocError, Global};
use std::marker::Model;

/// The name that a list gives an operation, by the rules of tables.
#[derive(Drop)]
pub struct OperationName<'a> {
    text: &'a str,
}

impl<'a> Model for OperationName<'a> {
    ghost use Rattle.std.specs.Prelude.{ℕ, List};

    ghost Value = { List ℕ };

    ghost view = { λ name. name.text.now };
}

/// An operation, as a list gives it.
#[derive(Drop)]
pub enum OperationWord<'a> {
    /// By its number, from 0 to 255.
    Number(u8),
    /// By its name.
    Name(OperationName<'a>),
}

impl<'a> OperationWord<'a> {
    /// The number that the operation has in this object; where the object has no operation of the
    /// name, how many operations there are, which is the number of none.
    pub fn operation_in(&self, object: &Table) -> u8
        // promise: operations-of-lists
        ensures { result ≡ operation_in object.now self.now }
    {
        match self {
            OperationWord::Number(number) => *number,
            OperationWord::Name(name) => match object.find_operation(name.text) {
                Some(operation) => operation.0,
                None => object.operations(),
            },
        }
    }
}

impl<'a> Item<'a> for OperationWord<'a> {
    ghost item_of = { operation_of };

    fn read(text: &'a str) -> Option<OperationWord<'a>> {
        if has_digits_only(text) {
            return Some(OperationWord::Number(u8::read(text)?));
        }
        if !is_name(text) {
            return None;
        }
        Some(OperationWord::Name(OperationName { text }))
    }
}

/// The numbers that the operations have in this object, as for [`OperationWord::operation_in`].
pub(crate) fn operations_in(
    alloc: Global,
    words: &[OperationWord<'_>],
    object: &Table,
) -> Result<Vec<u8>, AllocError>
    ensures { IfOk result (λ numbers. numbers.items ≡ operations_in object.now words.now) }
{
    let mut numbers = Vec::new(alloc);
    for word in words {
        numbers.push(word.operation_in(object))?;
    }
    Ok(numbers)
}
