//! Values that no command hands the libraries.
mod captures;
mod checks;
mod lookups;
mod messages;
mod packets;
mod plans;
mod replay_lines;
mod segments;
mod sent_ways;
mod surveys;
mod titles;
mod traces;
mod values;
mod writing;
