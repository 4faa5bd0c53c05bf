//! Files to read and a sink to write to, each with a count of its faults.
//!
//! A program that is generic over `Files` and `Sink` is proved for whatever they may answer. Its own promises may rely on
//! these. `begin` leaves the whole contents of the name. `take` gives the next octets that are left, and 0 only at the
//! end. `put` takes one or more octets from the front. A fault changes only the count, and `Failed` is answered only if
//! the count rose.
//!
//! `RealFiles` and `RealSink` are the edge to the system, which shows no contents. The kinds in memory show theirs.
//! `SoundFiles` and `SoundSink` fail only if they have to; `MemoryFiles` and `MemorySink` also fail at chosen calls.
#![tactic(auto)]

mod append;
mod bookmark;
mod count;
mod fault;
mod files;
mod in_pieces;
mod memory_files;
mod memory_sink;
mod real_files;
mod real_sink;
mod schedule;
mod sink;
mod sound_files;
mod sound_sink;

pub use fault::IoFault;
pub use files::Files;
pub use in_pieces::InPieces;
pub use memory_files::MemoryFiles;
pub use memory_sink::MemorySink;
pub use real_files::RealFiles;
pub use real_sink::RealSink;
pub use sink::Sink;
pub use sound_files::SoundFiles;
pub use sound_sink::SoundSink;
