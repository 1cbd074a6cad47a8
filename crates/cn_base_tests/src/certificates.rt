//! The full texts of certificates of the worked types: those of version 1, and those of findings,
//! which have version 2.

pub fn test_and_set_at_3() -> &'static str {
    r#"{"collisions":[[0,[0],[0,0],1,[0,1],[2,1]],[1,[0],[0,0],0,[0],[1,0]]],"limit":3,"number":2,"type":"test_and_set","version":1,"witness":[0,[0],[0]]}"#
}

pub fn found_test_and_set_at_3() -> &'static str {
    r#"{"collisions":[[0,[0],[0,0],1,[0,1],[2,1]]],"limit":3,"number":2,"type":"test_and_set","version":2,"witness":[0,[0],[0]]}"#
}

pub fn found_sticky_bit_at_5() -> &'static str {
    r#"{"collisions":[],"limit":5,"number":5,"type":"sticky_bit","version":2,"witness":[0,[0],[1,1,1,1]]}"#
}

pub fn found_sticky_bit_at_6() -> &'static str {
    r#"{"collisions":[],"limit":6,"number":6,"type":"sticky_bit","version":2,"witness":[0,[0],[1,1,1,1,1]]}"#
}

pub fn found_sticky_bit_at_7() -> &'static str {
    r#"{"collisions":[],"limit":7,"number":7,"type":"sticky_bit","version":2,"witness":[0,[0],[1,1,1,1,1,1]]}"#
}

pub fn found_sticky_bit_at_8() -> &'static str {
    r#"{"collisions":[],"limit":8,"number":8,"type":"sticky_bit","version":2,"witness":[0,[0],[1,1,1,1,1,1,1]]}"#
}
