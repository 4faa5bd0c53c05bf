//! One entry of the record that a relay keeps of the data it passed on.
use sccp_base::{Octets, Reference};

/// Data (DT1) that belonged to a section while it was established: the section's own reference, the M bit and the data.
#[derive(Drop)]
pub struct Passed {
    pub own: Reference,
    pub more: bool,
    pub payload: Octets,
}
