//! Called and calling addresses as values and as octets (ITU-T Q.713 sections 3.4 and 3.5). An address has an indicator,
//! and may have a point code, a subsystem number and a global title. A title has four kinds of heading, and digits.
//!
//! `read` gives the address that octets are, or the first fault from left to right. `write` gives the octets of an
//! address. The layer above may rely on two facts. `read` gives an address exactly if the octets are one, and then only
//! that one. What `write` gives for an address from `read`, or with a title from `Title::global`, is read as that address.
#![tactic(auto)]

mod address;
mod encoding;
mod fault;
mod reading;

pub use address::{Address, Title, digits_of, selector_of};
pub use encoding::write;
pub use fault::AddressFault;
pub use reading::read;
