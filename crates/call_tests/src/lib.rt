//! Tests of `run` that no command over real files shows. They are calls over files and sinks in memory, failing ones among
//! them, and several workers beside the publisher.
//!
//! What a command shows is a case of the program `worked_cases`.
#![tactic(auto)]

#[cfg(test)]
mod tests;
