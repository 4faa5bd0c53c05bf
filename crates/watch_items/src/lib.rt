//! What a file gives to a watch of relays: the items of a text of DATA messages of M3UA (RFC 4666), one a line, or those of a capture
//! file.
//!
//! The crates above may rely on this. Each line of a text gives one item: a message, whose number is that of the line, or what is said
//! of a line without one (`items_of`, `specs/Items`). A capture gives items as its packets arrive: the messages of SCCP between two
//! points, which are counted, and the line on each thing that is not one (`CaptureItems`, `specs/Captures`). In either no two messages
//! have one number. The first four octets of a file say whether it is a capture (`is_capture`, `specs/Front`).
#![tactic(auto)]

mod capture_items;
mod chunks;
mod entry;
mod found;
mod front;
mod item;
mod messages;
mod packet_items;
mod reading;

pub use capture_items::CaptureItems;
pub use front::is_capture;
pub use item::Item;
pub use reading::items_of;
