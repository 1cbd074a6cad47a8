//! Names, and the things that have one.
ghost use Rattle.std.specs.Prelude.{◌≡◌, ◌<◌, ℕ, List, IfSome, length, map, string_bytes};
ghost use Rattle.std.specs.List.{list_all, list_any, position};
ghost use Rattle.std.specs.Str.{bytes_eq};
ghost use Rattle.cn_table.specs.Names.{is_name_byte, is_name, has_repeat, number_of};

use crate::limits::LONGEST_NAME;

fn is_name_byte(b: u8) -> bool
    ensures { result ≡ is_name_byte b }
{
    matches!(b, b'a'..=b'z' | b'0'..=b'9' | b'_')
}

fn has_name_bytes(text: &str) -> bool
    ensures { result ≡ list_all is_name_byte text.now }
{
    text.bytes().all(|b| is_name_byte(b))
}

/// Whether a text is a name: 1 to [`LONGEST_NAME`](crate::LONGEST_NAME) small letters, digits and
/// underscores.
pub fn is_name(text: &str) -> bool
    // promise: names
    ensures { result ≡ is_name text.now }
{
    text.len() >= 1 && text.len() <= LONGEST_NAME && has_name_bytes(text)
}

/// A thing that has a text for its name.
pub trait HasName {
    ghost name_of: { Self → List ℕ };

    /// The text, which need not be a name.
    fn name(&self) -> &str
        ensures { result.now ≡ name_of self.now };
}

impl HasName for String {
    ghost name_of = { λ s. string_bytes s };

    fn name(&self) -> &str {
        self
    }
}

fn all_go_by_names<T: HasName>(things: &[T]) -> bool
    ensures { result ≡ list_all (λ x. is_name (T.name_of x)) things.now }
{
    things.iter().all(|thing| is_name(thing.name()))
}

/// Whether the text of each thing is a name.
pub fn have_names<T: HasName>(things: &[T]) -> bool
    // promise: names
    ensures { result ≡ list_all is_name (map T.name_of things.now) }
{
    all_go_by_names(things)
}

/// Whether one of the things has this name.
pub fn has_namesake<T: HasName>(things: &[T], name: &str) -> bool
    // promise: names
    ensures { result ≡ list_any (λ x. bytes_eq (T.name_of x) name.now) things.now }
{
    things.iter().any(|thing| thing.name() == name)
}

/// Whether two of the things have the same name.
pub(crate) fn have_repeat<T: HasName>(things: &[T]) -> bool
    ensures { result ≡ has_repeat (map T.name_of things.now) }
{
    for (i, thing) in things.iter().enumerate() {
        if has_namesake(&things[i + 1..], thing.name()) {
            return true;
        }
    }
    false
}

fn position_of<T: HasName>(things: &[T], name: &str) -> Option<usize>
    ensures { result ≡ position (λ x. bytes_eq (T.name_of x) name.now) things.now }
{
    things.iter().position(|thing| thing.name() == name)
}

/// The number of the thing with this name, if there is one: its place among the things.
// promise: names
pub fn number_of<T: HasName>(things: &[T], name: &str) -> Option<usize>
    ensures number { result ≡ number_of (map T.name_of things.now) name.now }
    ensures range { IfSome result (λ i. i < length things.now) }
{
    position_of(things, name)
}
