//! A running chain of coupled relays: the relays of a plan, the ends around them, and the links between their points. Links
//! keep the order of their messages (Q.714 section 3).
//!
//! A world keeps its history: the list of its accepted offers and of its deliveries. The layer above may rely on this: each
//! call answers and leaves what the definitions of `couple_chain` say of the world after this history. So the laws on
//! histories hold of it, whatever the order in which the links deliver. Lack of memory, and each other fault, leave a world
//! as it was.
#![tactic(auto)]

mod answering;
mod asking;
mod laws;
mod line;
mod lines;
mod link;
mod offering;
mod pieces;
mod stage;
mod world;

pub use laws::offers_are_of_the_message;
pub use line::{Line, Piece};
pub use world::World;
