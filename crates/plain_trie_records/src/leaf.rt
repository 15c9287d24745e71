//! A leaf's record.

use key_bits::Key;

/// A leaf's record: a key with its value.
#[derive(Drop)]
pub struct LeafRecord {
    // The value stands first, beside the key's count and first bytes: so one line of memory has all of a short key's record.
    /// The value that the key has.
    pub value: u64,
    /// The key.
    pub key: Key,
}
