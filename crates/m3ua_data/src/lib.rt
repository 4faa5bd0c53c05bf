//! The DATA message of M3UA (RFC 4666, sections 3.2 and 3.3.1), which carries messages of SCCP over IP.
//!
//! The layer above may rely on this. Octets are read exactly if they are a DATA message with sound contents, into the one
//! list of parameters that they have. A refusal is the first test that fails, and what is written is read again.
#![tactic(auto)]

mod carrying;
mod data;
mod decoding;
mod encoding;
mod fault;
mod fields;
mod numbers;
mod payload;
mod round_trip;
mod tagged;
mod too_long;

pub use carrying::carried;
pub use data::Data;
pub use decoding::decode;
pub use encoding::encode;
pub use fault::DataFault;
pub use payload::Carried;
pub use round_trip::{one_message, written_reads};
pub use tagged::Tagged;
pub use too_long::TooLong;
