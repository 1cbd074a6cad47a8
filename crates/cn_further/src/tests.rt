//! Tests of what no contract says: which further operations tell the teams, and that the search
//! finds them.

use crate::{FollowUp, Further, FurtherAnswer, FurtherSight, find_further};
use arrayvec::ArrayVec;
use cn_choice::{Choice, Team};
use cn_table::{Operation, Response, State, Table, read_table};
use std::alloc::Global;
use std::test::Fail;

/// Compare-and-swap on three values that answers only whether it has swapped.
fn swaps(alloc: Global) -> Result<Table, Fail> {
    let text = "name = \"cas_3_bool\"
states = [\"0\", \"1\", \"2\"]
responses = [\"yes\", \"no\"]
[[operation]]
name = \"cas01\"
response = [\"yes\", \"no\", \"no\"]
next = [\"1\", \"1\", \"2\"]
[[operation]]
name = \"cas02\"
response = [\"yes\", \"no\", \"no\"]
next = [\"2\", \"1\", \"2\"]
[[operation]]
name = \"cas10\"
response = [\"no\", \"yes\", \"no\"]
next = [\"0\", \"0\", \"2\"]
[[operation]]
name = \"cas12\"
response = [\"no\", \"yes\", \"no\"]
next = [\"0\", \"2\", \"2\"]
[[operation]]
name = \"cas20\"
response = [\"no\", \"no\", \"yes\"]
next = [\"0\", \"1\", \"0\"]
[[operation]]
name = \"cas21\"
response = [\"no\", \"no\", \"yes\"]
next = [\"0\", \"1\", \"1\"]
";
    Ok(read_table(alloc, text.as_bytes())?)
}

/// A queue with room for one of two letters.
fn queue_of_one(alloc: Global) -> Result<Table, Fail> {
    let text = "name = \"queue_1\"
states = [\"q\", \"qa\", \"qb\"]
responses = [\"ok\", \"full\", \"empty\", \"a\", \"b\"]
[[operation]]
name = \"enq_a\"
response = [\"ok\", \"full\", \"full\"]
next = [\"qa\", \"qa\", \"qb\"]
[[operation]]
name = \"enq_b\"
response = [\"ok\", \"full\", \"full\"]
next = [\"qb\", \"qa\", \"qb\"]
[[operation]]
name = \"deq\"
response = [\"empty\", \"a\", \"b\"]
next = [\"q\", \"q\", \"q\"]
";
    Ok(read_table(alloc, text.as_bytes())?)
}

/// One process does cas01 in state 0, two do cas02; of these does `further` whoever gets "no".
fn swaps_with(alloc: Global, further: u8) -> Result<Further, Fail> {
    let (mut a, mut b, mut follow_ups) = (ArrayVec::new(), ArrayVec::new(), Vec::new(alloc));
    a.push(0);
    b.push(1);
    b.push(1);
    follow_ups.push(FollowUp {
        operation: Operation(1),
        response: Response(1),
        further: Operation(further),
    })?;
    let state = State(0);
    let choice = Choice { state, a, b };
    Ok(Further { choice, follow_ups })
}

#[test]
fn a_further_swap_tells_three(rt: HostRuntime) -> Result<(), Fail> {
    let table = swaps(rt.alloc())?;
    for further in 0..7 {
        let tells = swaps_with(rt.alloc(), further)?.tells(rt.alloc(), &table, 3)?;
        assert!(rt; tells == Some(further == 5), "with operation {further}");
    }
    let swaps = swaps_with(rt.alloc(), 5)?;
    assert!(rt; swaps.tells(rt.alloc(), &table, 2)? == Some(false));
    assert!(rt; swaps.tells(rt.alloc(), &table, 4)? == Some(false));
    Ok(())
}

#[test]
fn the_further_swap_is_found(rt: HostRuntime) -> Result<(), Fail> {
    let table = swaps(rt.alloc())?;
    let further = find_further(rt.alloc(), &table, 3, 1_000)?.ok_or("none for three")?;
    assert!(rt; further.choice.state.0 == 0);
    assert!(rt; further.choice.a.as_slice() == [0].as_slice());
    assert!(rt; further.choice.b.as_slice() == [1, 1].as_slice());
    assert!(rt; further.follow_ups.len() == 1);
    assert!(rt; further.follow_ups[0].operation.0 == 1);
    assert!(rt; further.follow_ups[0].response.0 == 1);
    assert!(rt; further.follow_ups[0].further.0 == 5);
    assert!(rt; find_further(rt.alloc(), &table, 3, 1)?.is_none());
    Ok(())
}

#[test]
fn none_is_found_for_more(rt: HostRuntime) -> Result<(), Fail> {
    let table = swaps(rt.alloc())?;
    assert!(rt; find_further(rt.alloc(), &table, 4, 10_000)?.is_none());
    let table = queue_of_one(rt.alloc())?;
    assert!(rt; find_further(rt.alloc(), &table, 2, 10_000)?.is_some());
    assert!(rt; find_further(rt.alloc(), &table, 3, 10_000)?.is_none());
    Ok(())
}

#[test]
fn the_further_swap_is_seen(rt: HostRuntime) -> Result<(), Fail> {
    let table = swaps(rt.alloc())?;
    let further = find_further(rt.alloc(), &table, 3, 1_000)?.ok_or("none for three")?;
    let sights = further.sights(rt.alloc(), &table, 3)?;
    let (yes, no) = (Response(0), Response(1));
    // A process sees its own swap, or that it was late and what the further swap answers.
    let seen = [
        (0, Team::A, yes, None),
        (0, Team::B, no, None),
        (1, Team::A, no, Some(no)),
        (1, Team::B, yes, None),
        (1, Team::B, no, Some(yes)),
        (2, Team::A, no, Some(no)),
        (2, Team::B, yes, None),
        (2, Team::B, no, Some(yes)),
    ];
    assert!(rt; sights.len() == seen.len());
    for (process, first, response, answer) in seen {
        let further = answer.map(|response| FurtherAnswer {
            operation: Operation(5),
            response,
        });
        let sight = FurtherSight {
            process,
            first,
            response,
            further,
        };
        assert!(rt; sights.contains(&sight), "{sight:?}");
    }
    Ok(())
}
