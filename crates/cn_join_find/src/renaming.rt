//! Joins of some of a table's operations, under the numbers that these have in the table.
ghost use Rattle.std.specs.Prelude.{◌≡◌, All, IfOk, length, map};
ghost use Rattle.cn_stocks.specs.Words.{IsKnown};
ghost use Rattle.cn_join_find.specs.Renaming.{IsOfFirst, renamed, renamed_placed};

use cn_joins::{Join, PlacedWord};
use cn_table::Operation;
use std::alloc::{AllocError, Global};

/// The word with the number of each operation in the table.
fn renamed_word(
    alloc: Global,
    numbers: &[Operation],
    old: &PlacedWord,
) -> Result<PlacedWord, AllocError>
    requires { IsKnown (length numbers.now) old.now.word }
    ensures { IfOk result (λ new. new ≡ renamed_placed (map (λ o. o.0) numbers.now) old.now) }
{
    let mut word = Vec::with_capacity(alloc, old.word.len())?;
    for operation in &old.word {
        let number = numbers[*operation as usize];
        word.push(number.0)?;
    }
    let place = old.place;
    Ok(PlacedWord { word, place })
}

/// The join with the number of each operation in the table.
fn renamed_join(alloc: Global, numbers: &[Operation], old: &Join) -> Result<Join, AllocError>
    requires { IsOfFirst (length numbers.now) old.now }
    ensures { IfOk result (λ new. new ≡ renamed (map (λ o. o.0) numbers.now) old.now) }
{
    let first = renamed_word(alloc, numbers, &old.first)?;
    let second = renamed_word(alloc, numbers, &old.second)?;
    let start = old.start;
    Ok(Join {
        start,
        first,
        second,
    })
}

/// The joins with the number of each operation in the table.
pub(crate) fn renamed_joins(
    alloc: Global,
    numbers: &[Operation],
    old: &[Join],
) -> Result<Vec<Join>, AllocError>
    requires { All (IsOfFirst (length numbers.now)) old.now }
    ensures { IfOk result (λ new. new.items ≡ map (renamed (map (λ o. o.0) numbers.now)) old.now) }
{
    let mut joins = Vec::with_capacity(alloc, old.len())?;
    for join in old {
        let new = renamed_join(alloc, numbers, join)?;
        joins.push(new)?;
    }
    Ok(joins)
}
