//! What a change stores, and where.

ghost use Rattle.std.specs.Prelude.{◌≡◌};
ghost use Rattle.rowex_writing.specs.store.Retiring.{is_root as is_the_root};

pub mod ending;
pub mod publishing;
pub mod valuing;

use compound_node::Entry;
use insert_cases::PathNode;
use rowex_core::Spot;

/// The one store of a change.
#[derive(Clone, Copy)]
pub(crate) struct Store<'a> {
    /// The spot whose word is stored.
    pub spot: Spot,
    /// The entry that is named there; `None` for an empty root.
    pub entry: Option<Entry>,
    /// The locked nodes that stay. They are unlocked afterwards, the first one first.
    pub kept: &'a [PathNode],
}

/// Returns whether `spot` is the root.
pub(crate) fn is_root(spot: Spot) -> bool
    ensures { result ≡ is_the_root spot }
{
    match spot {
        Spot::Root => true,
        Spot::Slot { .. } | Spot::Value { .. } => false,
    }
}
