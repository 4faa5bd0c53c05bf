//! What is reported of a file.
use sccp_base::Octets;
use sccp_work::Status;

/// The answer on a file, and all that is printed.
#[derive(Drop)]
pub struct Report {
    pub status: Status,
    pub text: Octets,
}
