//! Where the words of entries, values and locks stand.

ghost use Rattle.std.specs.Prelude.{◌≡◌};
ghost use Rattle.rowex_core.specs.Events.{spot_word, target_word};
ghost use Rattle.rowex_table.specs.Rule.{HasEntrySlot};

use record_words::{FIRST_ENTRY, Location, STATE_OFFSET, VALUE_OFFSET};
use rowex_core::{Spot, Target};

/// Returns the location of `spot`: the root, a slot of a node record, from 0 to 31, or the value of a leaf record.
pub(crate) fn spot_location(spot: Spot) -> Location
    requires { HasEntrySlot spot }
    ensures { result ≡ spot_word spot }
{
    match spot {
        Spot::Root => Location::Root,
        Spot::Slot { node, slot } => Location::NodeWord {
            node,
            offset: FIRST_ENTRY as u8 + slot,
        },
        Spot::Value { leaf } => Location::LeafWord {
            leaf,
            offset: VALUE_OFFSET,
        },
    }
}

/// Returns the location of the word by which `target` is locked: the anchor, or a node's state.
pub(crate) fn lock_location(target: Target) -> Location
    ensures { result ≡ target_word target }
{
    match target {
        Target::Anchor => Location::Anchor,
        Target::Node(node) => Location::NodeWord {
            node,
            offset: STATE_OFFSET,
        },
    }
}
