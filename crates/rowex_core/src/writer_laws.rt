//! The laws of a writer's publish, in words. The functions do nothing: their contracts are the laws.

ghost use Rattle.rowex_core.specs.Writers.{LedIsInTree, PublishIsLegal, OwnedAfterPublish, SlotIsStored, ValueIsLegal};

/// Let a pass store an entry word at the root or in a slot, under its lock. After the store let the words of a node there still encode one.
/// Let the versions allow this as the publish of a tree with other leaves. Then the store is a legal publish. It makes that tree, and the
/// change that the versions tell.
pub fn allowed_store_is_legal_publish()
    ensures { PublishIsLegal }
{}

/// Let a pass have locked what names a leaf. Its store of a value of 64 bits to that leaf is a legal publish, which links no record anew
/// and unlinks none.
pub fn guarded_store_of_value_is_legal_publish()
    ensures { ValueIsLegal }
{}

/// Let words encode a node, and let an entry of lesser height be stored in one of its slots. Then the words encode the node with that entry
/// there.
pub fn stored_slot_is_shown()
    ensures { SlotIsStored }
{}

/// A node that was in the tree in a version since a pass's pin is in the tree now if its state is live.
pub fn led_live_node_is_in_tree()
    ensures { LedIsInTree }
{}

/// Let a pass own just those records that its publish links anew. After the publish it owns just those records that the publish unlinked.
/// Of its locks of nodes it has just those of nodes still linked.
pub fn publisher_owns_what_it_unlinked()
    ensures { OwnedAfterPublish }
{}
