//! Reasons for numbers of worked types.

use crate::{MostReason, Play, UnreadExplanation};
use cn_table::read_table;
use cn_unread_number::NumberBounds;
use std::alloc::Global;
use std::test::Fail;
use std::thread::Threads;

/// A queue with room for one of two letters.
fn queue_of_one() -> &'static str {
    "name = \"queue_1\"
states = [\"q\", \"qa\", \"qb\"]
responses = [\"ok\", \"full\", \"empty\", \"a\", \"b\"]
[[operation]]
name = \"enq_a\"
response = [\"ok\", \"full\", \"full\"]
next = [\"qa\", \"qa\", \"qb\"]
[[operation]]
name = \"enq_b\"
response = [\"ok\", \"full\", \"full\"]
next = [\"qb\", \"qa\", \"qb\"]
[[operation]]
name = \"deq\"
response = [\"empty\", \"a\", \"b\"]
next = [\"q\", \"q\", \"q\"]
"
}

/// A bit that one process finds unset.
fn test_and_set() -> &'static str {
    "name = \"test_and_set\"
states = [\"unset\", \"set\"]
responses = [\"won\", \"lost\"]
[[operation]]
name = \"tas\"
response = [\"won\", \"lost\"]
next = [\"set\", \"set\"]
"
}

/// A bit that is written once, with an operation that answers it.
fn sticky_bit() -> &'static str {
    "name = \"sticky_bit\"
states = [\"unset\", \"zero\", \"one\"]
responses = [\"done\", \"unset\", \"zero\", \"one\"]
[[operation]]
name = \"write_0\"
response = [\"done\", \"done\", \"done\"]
next = [\"zero\", \"zero\", \"one\"]
[[operation]]
name = \"write_1\"
response = [\"done\", \"done\", \"done\"]
next = [\"one\", \"zero\", \"one\"]
[[operation]]
name = \"look\"
response = [\"unset\", \"zero\", \"one\"]
next = [\"unset\", \"zero\", \"one\"]
"
}

/// A bit that nothing tells.
fn silent_bit() -> &'static str {
    "name = \"silent_bit\"
states = [\"unset\", \"zero\", \"one\"]
responses = [\"done\"]
[[operation]]
name = \"write_0\"
response = [\"done\", \"done\", \"done\"]
next = [\"zero\", \"zero\", \"one\"]
[[operation]]
name = \"write_1\"
response = [\"done\", \"done\", \"done\"]
next = [\"one\", \"zero\", \"one\"]
"
}

/// A word with compare-and-swaps that answer whether they were done.
fn compare_and_swap() -> &'static str {
    "name = \"cas_3_bool\"
states = [\"0\", \"1\", \"2\"]
responses = [\"yes\", \"no\"]
[[operation]]
name = \"cas01\"
response = [\"yes\", \"no\", \"no\"]
next = [\"1\", \"1\", \"2\"]
[[operation]]
name = \"cas02\"
response = [\"yes\", \"no\", \"no\"]
next = [\"2\", \"1\", \"2\"]
[[operation]]
name = \"cas10\"
response = [\"no\", \"yes\", \"no\"]
next = [\"0\", \"0\", \"2\"]
[[operation]]
name = \"cas12\"
response = [\"no\", \"yes\", \"no\"]
next = [\"0\", \"2\", \"2\"]
[[operation]]
name = \"cas20\"
response = [\"no\", \"no\", \"yes\"]
next = [\"0\", \"1\", \"0\"]
[[operation]]
name = \"cas21\"
response = [\"no\", \"no\", \"yes\"]
next = [\"0\", \"1\", \"1\"]
"
}

/// A queue of two letters with room for two, and a look at the oldest.
fn peek_queue() -> &'static str {
    "name = \"peek_queue_2\"
states = [\"q\", \"qa\", \"qb\", \"qaa\", \"qab\", \"qba\", \"qbb\"]
responses = [\"ok\", \"full\", \"empty\", \"a\", \"b\"]
[[operation]]
name = \"enq_a\"
response = [\"ok\", \"ok\", \"ok\", \"full\", \"full\", \"full\", \"full\"]
next = [\"qa\", \"qaa\", \"qba\", \"qaa\", \"qab\", \"qba\", \"qbb\"]
[[operation]]
name = \"enq_b\"
response = [\"ok\", \"ok\", \"ok\", \"full\", \"full\", \"full\", \"full\"]
next = [\"qb\", \"qab\", \"qbb\", \"qaa\", \"qab\", \"qba\", \"qbb\"]
[[operation]]
name = \"deq\"
response = [\"empty\", \"a\", \"b\", \"a\", \"a\", \"b\", \"b\"]
next = [\"q\", \"q\", \"q\", \"qa\", \"qb\", \"qa\", \"qb\"]
[[operation]]
name = \"peek\"
response = [\"empty\", \"a\", \"b\", \"a\", \"a\", \"b\", \"b\"]
next = [\"q\", \"qa\", \"qb\", \"qaa\", \"qab\", \"qba\", \"qbb\"]
"
}

/// What shows the lower bound of a number, and for how many processes.
#[derive(Clone, Copy, Debug, PartialEq, Eq)]
enum Shown {
    Nothing,
    Seen(u8),
    Told(u8),
    Helped(u8),
    Signs,
}

/// What bounds it from above; of a trap, for how many processes it is, of how many choices, and how
/// many of them have plays with an end.
#[derive(Clone, Copy, Debug, PartialEq, Eq)]
enum Bounded {
    No,
    WithReads,
    Trap(u8, usize, usize),
}

/// What is told of a number: with the number of states for which others stand.
#[derive(Clone, Copy, Debug, PartialEq, Eq)]
struct Told {
    bounds: NumberBounds,
    shown: Shown,
    bounded: Bounded,
    merged: usize,
}

/// What shows the lower bound.
fn shown_by(explanation: &UnreadExplanation) -> Shown {
    if explanation.signs.is_some() {
        return Shown::Signs;
    }
    let Some(witness) = &explanation.witness else {
        return Shown::Nothing;
    };
    if explanation.telling.is_some() {
        Shown::Told(witness.processes)
    } else if witness.follow_ups.is_empty() {
        Shown::Seen(witness.processes)
    } else {
        Shown::Helped(witness.processes)
    }
}

/// How many of the plays have an end.
fn ended(plays: &[Play]) -> usize {
    plays.iter().filter(|play| play.end.is_some()).count()
}

/// What bounds the number from above.
fn bounded_by(explanation: &UnreadExplanation) -> Bounded {
    match &explanation.most {
        MostReason::Open | MostReason::EachNumber => Bounded::No,
        MostReason::WithReads { rule: _ } => Bounded::WithReads,
        MostReason::Trap(trap) => {
            Bounded::Trap(trap.processes, trap.count, ended(trap.plays.as_slice()))
        }
    }
}

/// What is told of the number of the table that the text spells.
fn reasons_of<T: Threads + Sync>(
    rt: &T,
    alloc: Global,
    text: &str,
    all: bool,
) -> Result<Told, Fail> {
    let table = read_table(alloc, text.as_bytes())?;
    let explanation = UnreadExplanation::new(rt, alloc, table, all)?;
    Ok(Told {
        bounds: explanation.bounds,
        shown: shown_by(&explanation),
        bounded: bounded_by(&explanation),
        merged: explanation.merged.len(),
    })
}

/// Types that tell their states, and one of which nothing tells.
#[test]
fn reasons_with_reads(rt: HostRuntime) -> Result<(), Fail> {
    let alloc = rt.alloc();
    let two = Told {
        bounds: NumberBounds::Exactly(2),
        shown: Shown::Told(2),
        bounded: Bounded::WithReads,
        merged: 0,
    };
    let one = Told {
        bounds: NumberBounds::Exactly(1),
        shown: Shown::Nothing,
        bounded: Bounded::WithReads,
        merged: 2,
    };
    assert!(rt; reasons_of(&rt, alloc, test_and_set(), false)? == two);
    assert!(rt; reasons_of(&rt, alloc, silent_bit(), false)? == one);
    assert!(rt; reasons_of(&rt, alloc, sticky_bit(), false)?.bounded == Bounded::No);
    Ok(())
}

/// Types whose numbers are less than with reads: the adversary wins for one process more.
#[test]
fn reasons_by_traps(rt: HostRuntime) -> Result<(), Fail> {
    let alloc = rt.alloc();
    let queue = Told {
        bounds: NumberBounds::Exactly(2),
        shown: Shown::Seen(2),
        bounded: Bounded::Trap(3, 8, 8),
        merged: 0,
    };
    let swaps = reasons_of(&rt, alloc, compare_and_swap(), false)?;
    assert!(rt; reasons_of(&rt, alloc, queue_of_one(), true)? == queue);
    assert!(rt; swaps.shown == Shown::Helped(3));
    assert!(rt; matches!(swaps.bounded, Bounded::Trap(4, _, 1)));
    Ok(())
}

/// A type with signs for every number of processes.
#[test]
fn reasons_by_signs(rt: HostRuntime) -> Result<(), Fail> {
    let table = read_table(rt.alloc(), peek_queue().as_bytes())?;
    let explanation = UnreadExplanation::new(&rt, rt.alloc(), table, false)?;
    assert!(rt; explanation.bounds == NumberBounds::Infinite);
    assert!(rt; shown_by(&explanation) == Shown::Signs);
    assert!(rt;
        explanation
            .signs
            .is_some_and(|found| !found.signs.is_empty())
    );
    Ok(())
}
