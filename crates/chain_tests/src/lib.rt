//! Tests of coupled relays. They check what no command shows: the number of connection sections of one relay after each
//! message. They also run chains, and check what ends are handed and the lines of connections.
//!
//! What a command shows is a case of the program `worked_cases`. Plans are given as texts, messages as hexadecimal octets. A
//! comment beside the octets of a message says what they are (Q.713 section 4).
#![tactic(auto)]

#[cfg(test)]
mod tests;
