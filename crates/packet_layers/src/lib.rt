//! What a captured packet carries: the chunks of an SCTP packet (RFC 9260) in IP over any of several links, a message of
//! MTP3 with its point codes (Q.704), or a message of SCCP alone.
//!
//! The crates above may rely on two calls. `found_in` gives exactly what the definitions find in the octets of a packet, and
//! everything that it lends is in those octets. `m2pa` does the same for a message of M2PA (RFC 4165), which may be in several
//! chunks.
#![tactic(auto)]

mod adaptation;
mod chunk_fault;
mod data;
mod fault;
mod flow;
mod found;
mod ip;
mod ipv6;
mod layer;
mod links;
mod mtp;
mod numbers;
mod sctp;
mod single;
mod transfer;

pub use adaptation::m2pa;
pub use chunk_fault::ChunkFault;
pub use data::Data;
pub use fault::Fault;
pub use flow::Flow;
pub use found::Found;
pub use layer::Layer;
pub use links::found_in;
pub use transfer::Transfer;
