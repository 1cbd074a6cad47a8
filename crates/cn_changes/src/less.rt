//! Which of two numbers is less, by what is known of them.
ghost use Rattle.std.specs.Prelude.{◌≡◌};
ghost use Rattle.cn_changes.specs.Less.{is_below, is_less, least_of, most_of, same_bounds};

use cn_unread_number::NumberBounds;

/// The greatest number that the bounds leave, if there is one.
fn most_of(bounds: NumberBounds) -> Option<u8>
    ensures { result ≡ most_of bounds }
{
    match bounds {
        NumberBounds::Exactly(n) | NumberBounds::Between(_, n) => Some(n),
        NumberBounds::Infinite | NumberBounds::AtLeast(_) => None,
    }
}

/// The least number that the bounds leave, if it is finite.
pub(crate) fn least_of(bounds: NumberBounds) -> Option<u8>
    ensures { result ≡ least_of bounds }
{
    match bounds {
        NumberBounds::Exactly(n) | NumberBounds::Between(n, _) | NumberBounds::AtLeast(n) => {
            Some(n)
        }
        NumberBounds::Infinite => None,
    }
}

/// Whether a greatest number, if there is one, is less than a least one, or than an infinite one.
fn is_below(most: Option<u8>, least: Option<u8>) -> bool
    ensures { result ≡ is_below most least }
{
    match (most, least) {
        (None, _) => false,
        (Some(_), None) => true,
        (Some(most), Some(least)) => most < least,
    }
}

/// Whether the first number is less than the second one, by what is known of them: each number that
/// the first bounds leave is less than each that the second leave.
pub fn is_less(first: NumberBounds, second: NumberBounds) -> bool
    // promise: numbers-of-changes (is_less)
    ensures { result ≡ is_less first second }
{
    is_below(most_of(first), least_of(second))
}

/// Whether the same is known of both numbers.
pub fn is_same(first: NumberBounds, second: NumberBounds) -> bool
    // promise: numbers-of-changes (same_bounds)
    ensures { result ≡ same_bounds first second }
{
    match (first, second) {
        (NumberBounds::Exactly(m), NumberBounds::Exactly(n)) => m == n,
        (NumberBounds::Infinite, NumberBounds::Infinite) => true,
        (NumberBounds::Between(l, m), NumberBounds::Between(p, q)) => l == p && m == q,
        (NumberBounds::AtLeast(m), NumberBounds::AtLeast(n)) => m == n,
        (_, _) => false,
    }
}
