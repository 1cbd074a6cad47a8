//! Stocks that tell, and the greatest number of operations of which some stock splits.
use crate::fixtures::table_of;
use crate::types;
use cn_stocks::Threading;
use cn_telling::{exact_split, exact_split_by, greatest_told, last_search};
use std::test::Fail;

/// The greatest of 3 to 5 is the number of the type if that is more than 2, and 5 at most.
#[test]
fn known_types_split(rt: HostRuntime) -> Result<(), Fail> {
    for (text, expected) in [
        (types::test_and_set(), None),
        (types::idle(), None),
        (types::binary_register(), None),
        (types::fetch_and_add_2(), None),
        (types::binary_swap(), None),
        (types::sticky_bit(), Some(5)),
        (types::three_shot(), Some(3)),
        (types::counter_3(), None),
    ] {
        let table = table_of(rt.alloc(), text)?;
        let found = exact_split(&rt, rt.alloc(), &table, 5, Threading::One)?;
        assert!(rt; found == expected);
    }
    Ok(())
}

/// A search up to where no stock tells tells where stocks split.
#[test]
fn a_last_search_tells_of_splits(rt: HostRuntime) -> Result<(), Fail> {
    for (text, expected) in [
        (types::test_and_set(), None),
        (types::sticky_bit(), Some(5)),
        (types::three_shot(), Some(3)),
    ] {
        let alloc = rt.alloc();
        let table = table_of(alloc, text)?;
        let last = last_search(&rt, alloc, &table, 5, Threading::One)?;
        assert!(rt; exact_split_by(alloc, &table, 5, &last)? == expected);
    }
    Ok(())
}

/// The state of a sticky bit tells who was first, and that of an idle object nothing.
#[test]
fn states_tell(rt: HostRuntime) -> Result<(), Fail> {
    for (text, expected) in [(types::idle(), None), (types::sticky_bit(), Some(5))] {
        let table = table_of(rt.alloc(), text)?;
        let found = greatest_told(&rt, rt.alloc(), &table, 5, Threading::Many)?;
        assert!(rt; found == expected);
    }
    Ok(())
}
