//! The places where the halves of a cut node may go.

/// Where the two halves of a node that was cut go.
#[derive(Clone, Copy)]
pub enum Place {
    /// Into the parent, in place of the entry that named the node.
    PullUp,
    /// Into a new node between the parent and the halves.
    Intermediate,
    /// Into a new topmost node.
    NewRoot,
}
