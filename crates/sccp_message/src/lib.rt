//! Messages of SCCP, as octets and as values (Q.713 sections 2 to 4).
//!
//! `decode` gives the message that octets are, of any of the twenty types, or the first test that fails. `encode` gives
//! the octets of a message, or the part or the pointer that does not fit. Every optional parameter is kept unchanged; the
//! contents of those known to the type are tested.
//!
//! The layer above may rely on three facts. A message is read exactly if the octets say it, and then only that one. Only
//! the first fault is answered. What is written for a sound message is read as that message, so two such messages are
//! equal exactly if their octets are.
#![tactic(auto)]

mod canonical_form;
mod cause;
mod class;
mod decoding;
mod encode_fault;
mod encoding;
mod fault;
mod fields;
mod message;
mod params;
mod round_trip;
mod surveying;
mod unitdata;

pub use canonical_form::{canonical, canonical_as};
pub use cause::{CauseTable, cause_text};
pub use class::wants_return;
pub use decoding::decode;
pub use encode_fault::EncodeFault;
pub use encoding::encode;
pub use fault::DecodeFault;
pub use message::Message;
pub use params::param;
pub use round_trip::{equal_by_octets, written_reads};
pub use surveying::survey;
