//! Values that every layer of SCCP names (ITU-T Q.713 sections 3.2 to 3.5 and 3.9, Q.714 section 5). They are octets and
//! lists, point codes, local references, digits of a global title, selectors of a translation, and node names. Marks say
//! what is prohibited.
//!
//! Contracts see each value as what it means: a number, a list of digits, a list of octets. The layers above may rely
//! on three facts. Digits are the half-octets of their octets. A marking is an ascending list of marks. Each reader of
//! a text accepts exactly its forms.
#![tactic(auto)]

mod boxed;
mod digits;
mod digits_fault;
mod list;
mod mark;
mod marking;
mod name;
mod octets;
mod out_of_memory;
mod point_code;
mod reference;
mod selector;
mod seven;
mod text;

pub use boxed::Boxed;
pub use digits::Digits;
pub use digits_fault::DigitsFault;
pub use list::List;
pub use mark::Mark;
pub use marking::Marking;
pub use name::Name;
pub use octets::Octets;
pub use out_of_memory::OutOfMemory;
pub use point_code::PointCode;
pub use reference::Reference;
pub use selector::Selector;
pub use seven::Seven;
pub use text::{byte, cut, decimal};
