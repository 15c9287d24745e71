//! The records of the table, by their numbers.

/// A record of the table, by its number. Nodes and leaves are numbered from 0, each kind by itself.
#[derive(Clone, Copy)]
pub enum Rec {
    Node(u32),
    Leaf(u32),
}

impl Default for Rec {
    ghost use Rattle.std.specs.Prelude.{◌≡◌};

    /// Returns the first node record, with which a list fills its unused elements.
    fn default() -> Rec
        ensures { result ≡ Rec.Node 0 }
    {
        Rec::Node(0)
    }
}
