//! Words of joins, and what they show.
ghost use Rattle.std.specs.Prelude.{◌≡◌, ◌<◌, ◌↔◌, All, Contains, IsTrue, length};
ghost use Rattle.cn_table.specs.Run.{state_after};
ghost use Rattle.cn_joins.specs.Joins.{IsPlacedWord, asked, pair_of_word};

use cn_joins::PlacedWord;
use cn_table::{Operation, Response, State, Table};

/// Whether all operations of the word are those of the table.
fn are_known(table: &Table, word: &[u8]) -> bool
    ensures { IsTrue result ↔ All (λ o. o < length table.now.operations) word.now }
{
    let operations = table.operations();
    word.iter().all(|o| *o < operations)
}

/// Whether the word is one of operations of the table, and has its place.
pub(crate) fn is_word(table: &Table, placed: &PlacedWord) -> bool
    ensures { IsTrue result ↔ IsPlacedWord table.now placed.now }
{
    (placed.place as usize) < placed.word.len() && are_known(table, placed.word.as_slice())
}

/// Whether the number is one of these.
pub(crate) fn is_among(numbers: &[u8], number: u8) -> bool
    ensures { IsTrue result ↔ Contains numbers.now number }
{
    numbers.contains(&number)
}

/// The operations of the word.
pub(crate) fn operations_of(placed: &PlacedWord) -> &[u8]
    ensures { result.now ≡ placed.now.word }
{
    placed.word.as_slice()
}

/// The state that the word leaves.
fn state_left(table: &Table, start: State, word: &[u8]) -> State
    requires word { All (λ o. o < length table.now.operations) word.now }
    requires start { start.0 < length table.now.states }
    ensures left { result.0 ≡ state_after table.now start.0 word.now }
    ensures known { result.0 < length table.now.states }
{
    let mut state = start;
    for operation in word {
        let (_, next) = table.apply(Operation(*operation), state);
        state = next;
    }
    state
}

/// The operation at the place of the word.
pub(crate) fn asked(placed: &PlacedWord) -> u8
    requires { placed.now.place < length placed.now.word }
    ensures { result ≡ asked placed.now }
{
    placed.word[placed.place as usize]
}

/// What the word shows the operation at its place.
pub(crate) fn pair_of(table: &Table, start: State, placed: &PlacedWord) -> (Response, State)
    requires word { IsPlacedWord table.now placed.now }
    requires start { start.0 < length table.now.states }
    ensures { (result.0.0, result.1.0) ≡ pair_of_word table.now start.0 placed.now }
{
    let word = placed.word.as_slice();
    let place = placed.place as usize;
    let before = state_left(table, start, &word[..place]);
    let (response, _) = table.apply(Operation(word[place]), before);
    (response, state_left(table, start, word))
}
