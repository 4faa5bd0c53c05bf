//! The answers of a pool.
use sccp_base::Octets;

/// What a pool answers to a segment that it takes (Q.714 section 4.1).
#[derive(Drop)]
pub enum Taken {
    /// The message is not whole yet.
    More,
    /// The message is whole, and this is its data.
    Whole(Octets),
    /// Something was given up.
    Dropped(Why),
}

/// Why a segment, or what had arrived of a message, was given up.
#[derive(Clone, Copy)]
pub enum Why {
    /// The segment is not a first one, and no message of its key is under way. The segment was given up.
    NotFirst,
    /// A segment was lost, or arrived twice. The segment was given up, with what had arrived before.
    OutOfStep,
    /// A first segment arrived while a message of its key was under way. What had arrived of that was given up; the segment
    /// was taken.
    Restarted,
}
