//! The packets of a capture file: a pcap file (draft-ietf-opsawg-pcap) or a pcapng file (draft-ietf-opsawg-pcapng). The file may
//! arrive in any pieces.
//!
//! The layer above may rely on this: what a `Reader` has reported of its pieces is what the definitions give for all octets
//! together. A packet is reported as soon as its last octet has arrived.
#![tactic(auto)]

mod blocks;
mod expected;
mod fed;
mod file_fault;
mod file_kind;
mod held;
mod laws;
mod numbers;
mod order;
mod pieces;
mod progress;
mod reader;
mod records;
mod section;
mod step;
mod units;

pub use fed::Fed;
pub use file_fault::{Damage, FileFault};
pub use held::{BadPacket, Held, Packet, PacketOctets};
pub use laws::{
    beginnings_give_first_packets, pcap_files_are_read, pcapng_files_are_read,
    what_is_read_is_pcap, what_is_read_is_pcapng,
};
pub use order::Order;
pub use reader::Reader;
