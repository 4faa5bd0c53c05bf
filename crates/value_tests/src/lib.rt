//! Tests of calls of the libraries with values that no command hands them: octets, digits and markings, messages and their
//! layouts, segments, traces in pieces, packets, look-ups, tables of ranks, covers and titles.
//!
//! What a command shows is a case of the program `worked_cases`. Messages are given as octets, plans as texts.
#![tactic(auto)]

#[cfg(test)]
mod tests;
