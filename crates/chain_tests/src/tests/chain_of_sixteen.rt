//! The text of a plan with a long chain of relays.
/// Sixteen relays: z at 3-0-0, a at 3-1-0, and so on to o at 3-15-0. Each sends titles of 49 to the next, and the last one
/// sends them to 2-0-1.
pub(crate) const CHAIN_OF_SIXTEEN: &str = r#"version = 1
node = [
    { name = "z", point = "3-0-0", row = [{ selector = "4:0:1:4", prefix = "49", first = { relay = "a" } }] },
    { name = "a", point = "3-1-0", row = [{ selector = "4:0:1:4", prefix = "49", first = { relay = "b" } }] },
    { name = "b", point = "3-2-0", row = [{ selector = "4:0:1:4", prefix = "49", first = { relay = "c" } }] },
    { name = "c", point = "3-3-0", row = [{ selector = "4:0:1:4", prefix = "49", first = { relay = "d" } }] },
    { name = "d", point = "3-4-0", row = [{ selector = "4:0:1:4", prefix = "49", first = { relay = "e" } }] },
    { name = "e", point = "3-5-0", row = [{ selector = "4:0:1:4", prefix = "49", first = { relay = "f" } }] },
    { name = "f", point = "3-6-0", row = [{ selector = "4:0:1:4", prefix = "49", first = { relay = "g" } }] },
    { name = "g", point = "3-7-0", row = [{ selector = "4:0:1:4", prefix = "49", first = { relay = "h" } }] },
    { name = "h", point = "3-8-0", row = [{ selector = "4:0:1:4", prefix = "49", first = { relay = "i" } }] },
    { name = "i", point = "3-9-0", row = [{ selector = "4:0:1:4", prefix = "49", first = { relay = "j" } }] },
    { name = "j", point = "3-10-0", row = [{ selector = "4:0:1:4", prefix = "49", first = { relay = "k" } }] },
    { name = "k", point = "3-11-0", row = [{ selector = "4:0:1:4", prefix = "49", first = { relay = "l" } }] },
    { name = "l", point = "3-12-0", row = [{ selector = "4:0:1:4", prefix = "49", first = { relay = "m" } }] },
    { name = "m", point = "3-13-0", row = [{ selector = "4:0:1:4", prefix = "49", first = { relay = "n" } }] },
    { name = "n", point = "3-14-0", row = [{ selector = "4:0:1:4", prefix = "49", first = { relay = "o" } }] },
    { name = "o", point = "3-15-0", row = [{ selector = "4:0:1:4", prefix = "49", first = { final = "2-0-1" } }] },
]
[[cover]]
node = "a"
selector = "4:0:1:4"
ssn = 6
prefix = "49"
least = 12
most = 12
allowed = ["2-0-1/6"]
"#;
