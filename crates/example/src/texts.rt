//! The texts of two tables, in place of files.

/// A roll with two tickets: `take` gives the first ticket, then the second, then none.
pub(crate) fn ticket_roll() -> &'static str {
    r#"name = "ticket_roll"
states = ["full", "half", "empty"]
responses = ["a", "b", "none"]
[[operation]]
name = "take"
response = ["a", "b", "none"]
next = ["half", "empty", "empty"]
"#
}

/// A counter modulo 4.
pub(crate) fn counter() -> &'static str {
    r#"name = "counter"
states = ["0", "1", "2", "3"]
responses = ["0", "1", "2", "3"]
[[operation]]
name = "inc"
response = ["0", "1", "2", "3"]
next = ["1", "2", "3", "0"]
"#
}
