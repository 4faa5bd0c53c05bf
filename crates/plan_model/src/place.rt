//! Places in a plan, for reports of faults.
use crate::key::Key;

/// The place of a plan's fault, and the key that has it: the top, a node, a node's row, or a cover. Nodes, rows and covers are
/// counted from 0.
#[derive(Clone, Copy)]
pub enum Place {
    Top(Key),
    Node(usize, Key),
    Row(usize, usize, Key),
    Cover(usize, Key),
}
