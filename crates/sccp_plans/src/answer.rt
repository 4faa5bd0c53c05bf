//! The answer of a command that has yet to print its text.
use sccp_base::Octets;
use sccp_work::Status;

/// The answer on what a command was asked, and its text.
#[derive(Drop)]
pub struct Answer {
    pub status: Status,
    pub text: Octets,
}
