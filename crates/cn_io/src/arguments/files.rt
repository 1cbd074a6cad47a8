//! Arguments whose text stands in a file.
ghost use Rattle.std.specs.Prelude.{◌≡◌};
ghost use Rattle.cn_io.specs.Arguments.Files.{without_line_feed, GivesArgument};
ghost use Rattle.cn_io.specs.Streams.Reading.{HasRead, IsUnread};

use crate::fault::{AppFault, Argument, Source};
use crate::streams::text::Text;
use std::alloc::Global;
use std::io::Read;

/// The bytes without the line feed at the end, where there is one.
fn without_line_feed(bytes: &[u8]) -> &[u8]
    ensures { result.now ≡ without_line_feed bytes.now }
{
    if !bytes.is_empty() && bytes[bytes.len() - 1] == b'\n' {
        return &bytes[..bytes.len() - 1];
    }
    bytes
}

/// Reads the text of an argument from a reader, as that of the file which the word `@FILE` names:
/// at most [`MOST_ARGUMENT_BYTES`](crate::MOST_ARGUMENT_BYTES) bytes of UTF-8, with one line feed
/// at the end or none, which is left out.
///
/// # Errors
///
/// The first of these: the reader fails, or gives more bytes; they are no UTF-8, and then
/// `Argument(argument)`. Want of memory can stand in place of any answer.
pub fn read_argument<R: Read>(
    alloc: Global,
    text: &mut Text<R>,
    argument: Argument,
) -> Result<String, AppFault>
    requires { IsUnread text.old }
    // promise: text-of-an-argument
    ensures read { HasRead (Source.Argument argument) R.remaining text.old text.new }
    // promise: text-of-an-argument (GivesArgument)
    ensures text { GivesArgument argument text.new result }
{
    text.fill(Source::Argument(argument))?;
    match str::from_utf8(without_line_feed(&text.bytes)) {
        Ok(written) => Ok(String::from_str(alloc, written)?),
        Err(_) => Err(AppFault::Argument(argument)),
    }
}
