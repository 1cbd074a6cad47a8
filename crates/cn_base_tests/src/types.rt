//! The worked types, with their tables as in the folder `types` of the repository. They are
//! functions and no constants, so that a proof meets each text in one place alone.

pub fn test_and_set() -> &'static str {
    r#"name = "test_and_set"
states = ["zero", "one"]
responses = ["zero", "one"]
[[operation]]
name = "tas"
response = ["zero", "one"]
next = ["one", "one"]
"#
}

pub fn idle() -> &'static str {
    r#"name = "idle"
states = ["only"]
responses = ["ok"]
[[operation]]
name = "nop"
response = ["ok"]
next = ["only"]
"#
}

pub fn binary_register() -> &'static str {
    r#"name = "binary_register"
states = ["zero", "one"]
responses = ["ok"]
[[operation]]
name = "write0"
response = ["ok", "ok"]
next = ["zero", "zero"]
[[operation]]
name = "write1"
response = ["ok", "ok"]
next = ["one", "one"]
"#
}

pub fn fetch_and_add_2() -> &'static str {
    r#"name = "fetch_and_add_2"
states = ["zero", "one"]
responses = ["zero", "one"]
[[operation]]
name = "add"
response = ["zero", "one"]
next = ["one", "zero"]
"#
}

pub fn binary_swap() -> &'static str {
    r#"name = "binary_swap"
states = ["zero", "one"]
responses = ["zero", "one"]
[[operation]]
name = "swap0"
response = ["zero", "one"]
next = ["zero", "zero"]
[[operation]]
name = "swap1"
response = ["zero", "one"]
next = ["one", "one"]
"#
}

pub fn sticky_bit() -> &'static str {
    r#"name = "sticky_bit"
states = ["unset", "zero", "one"]
responses = ["zero", "one"]
[[operation]]
name = "put0"
response = ["zero", "zero", "one"]
next = ["zero", "zero", "one"]
[[operation]]
name = "put1"
response = ["one", "zero", "one"]
next = ["one", "zero", "one"]
"#
}

pub fn three_shot() -> &'static str {
    r#"name = "three_shot"
states = ["bot", "a1", "a2", "b1", "b2", "dead"]
responses = ["a", "b", "none"]
[[operation]]
name = "x"
response = ["a", "a", "a", "b", "b", "none"]
next = ["a1", "a2", "dead", "b2", "dead", "dead"]
[[operation]]
name = "y"
response = ["b", "a", "a", "b", "b", "none"]
next = ["b1", "a2", "dead", "b2", "dead", "dead"]
"#
}

pub fn counter_3() -> &'static str {
    r#"name = "counter_3"
states = ["0", "1", "2"]
responses = ["0", "1", "2"]
[[operation]]
name = "inc"
response = ["0", "1", "2"]
next = ["1", "2", "0"]
"#
}

pub fn wide() -> &'static str {
    r#"name = "wide"
states = ["s0", "s1", "s2", "s3", "s4", "s5", "s6", "s7", "s8", "s9", "s10", "s11", "s12", "s13", "s14", "s15"]
responses = ["ok"]
[[operation]]
name = "o0"
response = ["ok", "ok", "ok", "ok", "ok", "ok", "ok", "ok", "ok", "ok", "ok", "ok", "ok", "ok", "ok", "ok"]
next = ["s0", "s1", "s2", "s3", "s4", "s5", "s6", "s7", "s8", "s9", "s10", "s11", "s12", "s13", "s14", "s15"]
[[operation]]
name = "o1"
response = ["ok", "ok", "ok", "ok", "ok", "ok", "ok", "ok", "ok", "ok", "ok", "ok", "ok", "ok", "ok", "ok"]
next = ["s0", "s1", "s2", "s3", "s4", "s5", "s6", "s7", "s8", "s9", "s10", "s11", "s12", "s13", "s14", "s15"]
[[operation]]
name = "o2"
response = ["ok", "ok", "ok", "ok", "ok", "ok", "ok", "ok", "ok", "ok", "ok", "ok", "ok", "ok", "ok", "ok"]
next = ["s0", "s1", "s2", "s3", "s4", "s5", "s6", "s7", "s8", "s9", "s10", "s11", "s12", "s13", "s14", "s15"]
[[operation]]
name = "o3"
response = ["ok", "ok", "ok", "ok", "ok", "ok", "ok", "ok", "ok", "ok", "ok", "ok", "ok", "ok", "ok", "ok"]
next = ["s0", "s1", "s2", "s3", "s4", "s5", "s6", "s7", "s8", "s9", "s10", "s11", "s12", "s13", "s14", "s15"]
[[operation]]
name = "o4"
response = ["ok", "ok", "ok", "ok", "ok", "ok", "ok", "ok", "ok", "ok", "ok", "ok", "ok", "ok", "ok", "ok"]
next = ["s0", "s1", "s2", "s3", "s4", "s5", "s6", "s7", "s8", "s9", "s10", "s11", "s12", "s13", "s14", "s15"]
[[operation]]
name = "o5"
response = ["ok", "ok", "ok", "ok", "ok", "ok", "ok", "ok", "ok", "ok", "ok", "ok", "ok", "ok", "ok", "ok"]
next = ["s0", "s1", "s2", "s3", "s4", "s5", "s6", "s7", "s8", "s9", "s10", "s11", "s12", "s13", "s14", "s15"]
[[operation]]
name = "o6"
response = ["ok", "ok", "ok", "ok", "ok", "ok", "ok", "ok", "ok", "ok", "ok", "ok", "ok", "ok", "ok", "ok"]
next = ["s0", "s1", "s2", "s3", "s4", "s5", "s6", "s7", "s8", "s9", "s10", "s11", "s12", "s13", "s14", "s15"]
[[operation]]
name = "o7"
response = ["ok", "ok", "ok", "ok", "ok", "ok", "ok", "ok", "ok", "ok", "ok", "ok", "ok", "ok", "ok", "ok"]
next = ["s0", "s1", "s2", "s3", "s4", "s5", "s6", "s7", "s8", "s9", "s10", "s11", "s12", "s13", "s14", "s15"]
"#
}
