//! Lists of operations that never fall, in lexicographic order.
ghost use Rattle.std.specs.Prelude.{◌≡◌, ◌<◌, ◌≤◌, ◌+◌, ◌-◌, ◌∷◌, ◌++◌, [], ℕ, false, length, replicate, take, get_or, All, IfNone, IfSome, IsTrue, OnSome};
ghost use Rattle.cn_choice.specs.declared.limits.TheConstants.{MOST_PROCESSES};
ghost use Rattle.cn_choice.specs.Canonical.{second_lists};
ghost use Rattle.cn_choice.specs.Rising.{rising_after};

use arrayvec::ArrayVec;
use cn_choice::MOST_PROCESSES;

/// The first list of this length: zeros.
pub(crate) fn zeros(count: usize) -> ArrayVec<u8, MOST_PROCESSES>
    requires { count ≤ MOST_PROCESSES }
    ensures { result.items ≡ replicate count 0 }
{
    let mut list = ArrayVec::new();
    for _k in 0..count {
        list.push(0);
    }
    list
}

/// The first list of team B that goes with this list of team A, for n processes.
pub(crate) fn first_beside(a: &[u8], n: u8) -> ArrayVec<u8, MOST_PROCESSES>
    requires half { length a.now + length a.now ≤ n }
    requires few { n ≤ MOST_PROCESSES }
    ensures first { (limit : ℕ) → 1 ≤ limit
        → second_lists limit n a.now ≡ result.items ∷ rising_after limit result.items }
    ensures known { (limit : ℕ) → 1 ≤ limit → All (λ x. x < limit) a.now
        → All (λ x. x < limit) result.items }
    ensures long { length a.now + length result.items ≡ n }
{
    if a.len() + a.len() < n as usize {
        zeros(n as usize - a.len())
    } else {
        let mut list = ArrayVec::new();
        let _fits = list.try_extend_from_slice(a);
        list
    }
}

/// Each number from the place on becomes one more than that at the place.
fn raise_from(list: &mut [u8], place: usize)
    requires place { place < length list.old }
    requires small { get_or list.old place 0 < 255 }
    ensures { list.new
        ≡ take place list.old ++ replicate (length list.old - place) (get_or list.old place 0 + 1) }
{
    let value = list[place] + 1;
    // Mostly the place is the last one, and no loop has to begin.
    list[place] = value;
    for later in place + 1..list.len() {
        list[later] = value;
    }
}

/// Turns the list into the next one of its length that never falls, with numbers below the limit,
/// and answers the place from which on it changed. After the last list there is none, and it stays
/// unchanged.
pub(crate) fn step_from(list: &mut [u8], limit: u8) -> Option<usize>
    requires { 1 ≤ limit }
    ensures more { OnSome result
        (rising_after limit list.old ≡ list.new ∷ rising_after limit list.new) }
    ensures last { IfNone result (rising_after limit list.old ≡ []) }
    ensures known { All (λ x. x < limit) list.old → All (λ x. x < limit) list.new }
    ensures long { length list.new ≡ length list.old }
    ensures inside { IfSome result (λ place. place < length list.old) }
    ensures front { IfSome result (λ place. take place list.new ≡ take place list.old) }
{
    for place in (0..list.len()).rev() {
        if list[place] < limit - 1 {
            raise_from(list, place);
            return Some(place);
        }
    }
    None
}

/// Turns the list into the next one of its length that never falls, with numbers below the limit,
/// and answers whether there is one. The last list stays unchanged.
pub(crate) fn step(list: &mut [u8], limit: u8) -> bool
    requires { 1 ≤ limit }
    ensures more { IsTrue result
        → rising_after limit list.old ≡ list.new ∷ rising_after limit list.new }
    ensures last { result ≡ false → rising_after limit list.old ≡ [] }
    ensures known { All (λ x. x < limit) list.old → All (λ x. x < limit) list.new }
    ensures long { length list.new ≡ length list.old }
{
    step_from(list, limit).is_some()
}
