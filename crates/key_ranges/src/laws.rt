//! Laws of ranges of keys. The functions do nothing: their contracts are the laws.

ghost use Rattle.key_ranges.specs.Statements.{PrefixIsRange};

/// The keys that begin with a prefix are those from the prefix itself to `last_with_prefix` of it, both included.
pub fn prefix_is_a_range()
    ensures { PrefixIsRange }
{}
