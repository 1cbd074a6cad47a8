//! The writer of texts: pieces, numbers and spaces behind a text.
//!
//! A sentence is one call of [`push_pieces`], or of `write!` if it has numbers. [`push_number`] writes
//! a number alone, and [`push_padding`] fills a cell of a column.
//!
//! ```text
//! push_pieces(&mut text, &["from state ", start, ", one process does ", operation, ".\n"])?;
//! push_padding(&mut text, width, operation)?;
//! ```
#![tactic(auto)]

ghost use Rattle.std.specs.Prelude.{◌≡◌, ◌++◌, OnOk, decimal, flat_map, string_bytes};
ghost use Rattle.cn_pieces.specs.Pieces.{padding, spaces};

use std::alloc::AllocError;

/// Appends the pieces to the text, one behind the other.
///
/// # Errors
///
/// Fails only for want of memory, and may then have appended a part of the pieces. So do all
/// functions of this crate.
pub fn push_pieces(text: &mut String, pieces: &[&str]) -> Result<(), AllocError>
    ensures { OnOk result (string_bytes text.new
        ≡ string_bytes text.old ++ flat_map (λ piece. piece.now) pieces.now) }
{
    for piece in pieces {
        text.push_str(*piece)?;
    }
    Ok(())
}

/// Appends the number in decimal digits, with no zero before them.
pub fn push_number(text: &mut String, number: u64) -> Result<(), AllocError>
    // promise: lines-of-replies
    ensures { OnOk result (string_bytes text.new ≡ string_bytes text.old ++ decimal number) }
{
    if number < 10 {
        return text.push(char::from(b'0' + number as u8));
    }
    let mut buffer = itoa::Buffer::new();
    text.push_str(buffer.format(number))
}

/// Appends this number of spaces.
pub fn push_spaces(text: &mut String, count: usize) -> Result<(), AllocError>
    ensures { OnOk result (string_bytes text.new ≡ string_bytes text.old ++ spaces count) }
{
    for i in 0..count {
        text.push_str(" ")?;
    }
    Ok(())
}

/// Appends the spaces that fill a cell up to a width; none if the cell is wider.
pub fn push_padding(text: &mut String, width: usize, cell: &str) -> Result<(), AllocError>
    ensures { OnOk result (string_bytes text.new
        ≡ string_bytes text.old ++ padding width cell.now) }
{
    push_spaces(text, width.saturating_sub(cell.len()))
}
