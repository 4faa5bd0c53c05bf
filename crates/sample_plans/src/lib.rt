//! Texts of plans that the tests of several crates read. Each is a whole plan file.
#![tactic(auto)]

/// A relay that sends titles of 49 to 2-0-1, and to 2-0-2 if 2-0-1 is closed.
pub const BACKED: &str = r#"version = 1
[[node]]
name = "a"
point = "1-0-2"
subsystems = [8]
[[node.row]]
selector = "4:0:1:4"
prefix = "49"
first = { final = "2-0-1", ssn = 6 }
backup = { final = "2-0-2", ssn = 6 }
[[cover]]
node = "a"
selector = "4:0:1:4"
ssn = 6
prefix = "49"
least = 12
most = 12
allowed = ["2-0-1/6", "2-0-2/6"]
"#;

/// A relay with the same two targets, of which the cover does not allow 2-0-2.
pub const BACKUP_FORBIDDEN: &str = r#"version = 1
[[node]]
name = "a"
point = "1-0-2"
[[node.row]]
selector = "4:0:1:4"
prefix = "49"
first = { final = "2-0-1", ssn = 6 }
backup = { final = "2-0-2", ssn = 6 }
[[cover]]
node = "a"
selector = "4:0:1:4"
ssn = 6
prefix = "49"
least = 12
most = 12
allowed = ["2-0-1/6"]
"#;

/// A relay that sends titles of 49 to 2-0-1, which is the only target.
pub const ONE_TARGET: &str = r#"version = 1
[[node]]
name = "a"
point = "1-0-2"
subsystems = [8]
concerned = ["1-0-7", "2-0-1"]
[[node.row]]
selector = "4:0:1:4"
prefix = "49"
first = { final = "2-0-1", ssn = 6 }
[[cover]]
node = "a"
selector = "4:0:1:4"
ssn = 6
prefix = "49"
least = 12
most = 12
allowed = ["2-0-1/6", "2-0-2/6"]
"#;

/// A relay that has a row for only some of the covered titles.
pub const ROW_OF_SOME: &str = r#"version = 1
[[node]]
name = "a"
point = "1-0-2"
[[node.row]]
selector = "4:0:1:4"
prefix = "4917"
first = { final = "2-0-1", ssn = 6 }
[[cover]]
node = "a"
selector = "4:0:1:4"
ssn = 6
prefix = "49"
least = 12
most = 12
allowed = ["2-0-1/6"]
"#;

/// Two relays, of which the first replaces 49 by 0 and changes the nature of address to 3.
pub const ROAMING: &str = r#"version = 1
[[node]]
name = "a"
point = "1-0-2"
[[node.row]]
selector = "4:0:1:4"
prefix = "49"
first = { relay = "b", strip = 2, put = "0", selector = "4:0:1:3" }
[[node]]
name = "b"
point = "1-0-3"
[[node.row]]
selector = "4:0:1:3"
prefix = "0"
first = { final = "2-0-1" }
[[cover]]
node = "a"
selector = "4:0:1:4"
ssn = 6
prefix = "49"
least = 12
most = 12
allowed = ["2-0-1/6"]
"#;

/// Two relays without rows, and a cover of three to four digits at the first.
pub const NO_ROWS: &str = r#"version = 1
[[node]]
name = "a"
point = "1-0-2"
[[node]]
name = "b"
point = "1-0-3"
[[cover]]
node = "a"
selector = "4:0:1:4"
ssn = 6
prefix = "49"
least = 3
most = 4
allowed = []
"#;

/// A relay with nested prefixes, in no order: most of them begin another one.
pub const NESTED_PREFIXES: &str = r#"version = 2
[[node]]
name = "a"
point = "1-0-2"
row = [
    { selector = "4:0:1:4", prefix = "1111", targets = [{ final = "2-0-1" }] },
    { selector = "4:0:1:4", prefix = "11", targets = [{ final = "2-0-1" }] },
    { selector = "4:0:1:4", prefix = "", targets = [{ final = "2-0-1" }] },
    { selector = "4:0:1:4", prefix = "111", targets = [{ final = "2-0-1" }] },
    { selector = "4:0:1:4", prefix = "1", targets = [{ final = "2-0-1" }] },
    { selector = "4:0:1:4", prefix = "1112", targets = [{ final = "2-0-1" }] },
    { selector = "4:0:1:4", prefix = "11111", targets = [{ final = "2-0-1" }] },
]
[[cover]]
node = "a"
selector = "4:0:1:4"
ssn = 6
prefix = "1"
least = 1
most = 9
allowed = []
"#;
