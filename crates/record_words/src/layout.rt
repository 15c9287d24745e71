//! Where each record of a table stands among its words.

ghost use Rattle.std.specs.Prelude.{ℕ, ◌≡◌, ◌<◌, ◌≤◌, ◌+◌, ◌*◌, ◌/◌, ◌^◌};
ghost use Rattle.record_words.specs.Limits.{IsStockPassCount, IsRecordCount};

use crate::{
    ANCHOR_WORD, EPOCH_WORD, FIRST_PIN, LARGE_WORDS, LEAF_WORDS, LINE_WORDS, MAX_LEAVES, MAX_NODES,
    MAX_PASSES, MAX_STOCK_PASSES, MEDIUM_WORDS, NODE_WORDS, ROOT_WORD, SHORT_WORDS, WIDE_WORDS,
    WORD_BYTES,
};

/// Which number is out of range: of passes, node records or leaf records. They are tested in this order.
#[derive(Clone, Copy, Debug)]
pub enum LayoutFault {
    Passes = 1,
    Nodes = 2,
    Leaves = 3,
}

/// How many passes, node records and leaf records a table has.
///
/// Its words are the epoch, the root, six that say how many records of each kind are uncommitted, the anchor, a pin for each pass, the node
/// records and the leaf records. Words between these keep apart what different threads write. They and the six have no location.
#[derive(Clone, Copy)]
pub struct Layout {
    /// 1 to `MAX_STOCK_PASSES`.
    pub passes: u32,
    /// At least 1.
    pub nodes: u32,
    /// At least 1, of all classes together.
    pub leaves: u32,
    /// The leaf records below this number are short.
    pub medium_from: u32,
    /// Leaf records from `medium_from` on and below this number are medium ones.
    pub large_from: u32,
    /// Leaf records from `large_from` on and below this number are large ones.
    pub wide_from: u32,
    /// Leaf records from `wide_from` on and below this number are wide ones, and all others are long.
    pub long_from: u32,
    ghost passes_in_range: { IsStockPassCount passes },
    ghost nodes_in_range: { IsRecordCount nodes },
    ghost leaves_in_range: { IsRecordCount leaves },
    ghost classes_in_order: { (medium_from ≤ large_from) × (large_from ≤ wide_from) × (wide_from ≤ long_from) × (long_from ≤ leaves) },
}

/// The sizes of leaf records. A key goes to a record of the smallest class with room for it; where none of these was free lately, to a
/// larger one.
#[derive(Clone, Copy)]
pub enum LeafClass {
    /// 4 words, for keys to 8 bytes.
    Short,
    /// 6 words, for keys to 24 bytes.
    Medium,
    /// 10 words, for keys to 56 bytes.
    Large,
    /// 14 words, for keys to 88 bytes.
    Wide,
    /// 33 words, for keys of any length.
    Long,
}

impl LeafClass {
    ghost use Rattle.std.specs.Prelude.{◌≡◌, ◌<◌};
    ghost use Rattle.record_words.specs.Layout.{class_size};
    ghost use Rattle.record_words.specs.declared.TheConstants.{LEAF_CLASSES};

    /// Returns how many words a leaf record of this class has.
    pub fn words(self) -> usize
        ensures { result ≡ class_size self }
    {
        match self {
            LeafClass::Short => SHORT_WORDS,
            LeafClass::Medium => MEDIUM_WORDS,
            LeafClass::Large => LARGE_WORDS,
            LeafClass::Wide => WIDE_WORDS,
            LeafClass::Long => LEAF_WORDS,
        }
    }

    /// Returns the number of this class, by size: from 0 for `Short`, the smallest, to 4 for `Long`.
    pub fn index(self) -> usize
        ensures { result < LEAF_CLASSES }
    {
        match self {
            LeafClass::Short => 0,
            LeafClass::Medium => 1,
            LeafClass::Large => 2,
            LeafClass::Wide => 3,
            LeafClass::Long => 4,
        }
    }
}

/// How many records of each kind and class a table has.
#[derive(Clone, Copy, Debug, PartialEq, Eq)]
pub struct Stock {
    pub nodes: u32,
    /// Leaf records for keys to 8 bytes.
    pub short: u32,
    /// Leaf records for keys to 24 bytes.
    pub medium: u32,
    /// Leaf records for keys to 56 bytes.
    pub large: u32,
    /// Leaf records for keys to 88 bytes.
    pub wide: u32,
    /// Leaf records for keys of any length.
    pub long: u32,
}

/// What stands at a word of a table.
#[derive(Clone, Copy)]
pub enum Location {
    Epoch,
    Root,
    Anchor,
    /// The pin of a pass.
    Pin(u16),
    /// A word of a node record.
    NodeWord { node: u32, offset: u8 },
    /// A word of a leaf record.
    LeafWord { leaf: u32, offset: u8 },
}

impl Layout {
    ghost use Rattle.std.specs.Prelude.{ℕ, ◌≡◌, ◌↔◌, ◌<◌, ◌≤◌, ◌+◌, ◌*◌, IfOk, Err};
    ghost use Rattle.record_words.specs.Limits.{IsPassCount, IsStockPassCount, IsNodeCount, IsLeafCount, IsRecordCount};
    ghost use Rattle.record_words.specs.Layout.{node_start, class_size, leaf_size, leaf_start, word_count, address, HasStock, leaves_of, IsInTable, IsLocationOf};

    /// Returns the layout of a table for `passes` passes, 1 to 64, with `nodes` node records, 1 to 65,535. It has `leaves` leaf records, 1
    /// to 262,143, all long. The fault names the first of the three numbers that is out of range.
    pub fn of(passes: u32, nodes: u32, leaves: u32) -> Result<Layout, LayoutFault>
        ensures ok { IfOk result (λ layout. (layout.passes ≡ passes) × (layout.nodes ≡ nodes) × (layout.leaves ≡ leaves) × (layout.long_from ≡ 0)) }
        ensures passes { (result ≡ Err LayoutFault.Passes) ↔ ¬ IsPassCount passes }
        ensures nodes { (result ≡ Err LayoutFault.Nodes) ↔ (IsPassCount passes × ¬ IsNodeCount nodes) }
        ensures leaves { (result ≡ Err LayoutFault.Leaves) ↔ (IsPassCount passes × IsNodeCount nodes × ¬ IsLeafCount leaves) }
    {
        if passes < 1 || passes > MAX_PASSES {
            return Err(LayoutFault::Passes);
        }
        if nodes < 1 || nodes > MAX_NODES {
            return Err(LayoutFault::Nodes);
        }
        if leaves < 1 || leaves > MAX_LEAVES {
            return Err(LayoutFault::Leaves);
        }
        Ok(Layout {
            passes,
            nodes,
            leaves,
            medium_from: 0,
            large_from: 0,
            wide_from: 0,
            long_from: 0,
        })
    }

    /// Returns the layout of a table for `passes` passes, 1 to `MAX_STOCK_PASSES`, with the records of `stock`. A stock must have 1 to
    /// 4,294,967,295 node records. It must have 1 to 4,294,967,295 leaf records, of all classes together. The fault names the first number
    /// that is out of range, in the order of passes, nodes and leaves.
    pub fn with_stock(passes: u32, stock: Stock) -> Result<Layout, LayoutFault>
        ensures ok { IfOk result (λ layout. (layout.passes ≡ passes) × HasStock layout stock) }
        ensures passes { (result ≡ Err LayoutFault.Passes) ↔ ¬ IsStockPassCount passes }
        ensures nodes { (result ≡ Err LayoutFault.Nodes) ↔ (IsStockPassCount passes × ¬ IsRecordCount stock.nodes) }
        ensures leaves { (result ≡ Err LayoutFault.Leaves) ↔ (IsStockPassCount passes × IsRecordCount stock.nodes × ¬ IsRecordCount (leaves_of stock)) }
    {
        if passes < 1 || passes > MAX_STOCK_PASSES {
            return Err(LayoutFault::Passes);
        }
        if stock.nodes < 1 {
            return Err(LayoutFault::Nodes);
        }
        let medium_from = stock.short as u64;
        let large_from = medium_from + stock.medium as u64;
        let wide_from = large_from + stock.large as u64;
        let long_from = wide_from + stock.wide as u64;
        let leaves = long_from + stock.long as u64;
        if leaves < 1 || leaves > u32::MAX as u64 {
            return Err(LayoutFault::Leaves);
        }
        Ok(Layout {
            passes,
            nodes: stock.nodes,
            leaves: leaves as u32,
            medium_from: medium_from as u32,
            large_from: large_from as u32,
            wide_from: wide_from as u32,
            long_from: long_from as u32,
        })
    }

    /// Returns the number of the word with the pin of `pass`.
    pub fn pin(&self, pass: u16) -> usize
        ensures { result ≡ FIRST_PIN + LINE_WORDS * pass }
    {
        FIRST_PIN + LINE_WORDS * pass as usize
    }

    /// Returns the number of the first word of the node record `number`.
    pub fn node(&self, number: u32) -> usize
        ensures { result ≡ node_start self.now number }
    {
        FIRST_PIN + LINE_WORDS * self.passes as usize + NODE_WORDS * number as usize
    }

    /// Returns the class of the leaf record `number`; `Long` for a number behind the last record.
    pub fn class_of(&self, number: u32) -> LeafClass
        ensures { class_size result ≡ leaf_size self.now number }
    {
        if number >= self.long_from {
            LeafClass::Long
        } else if number < self.medium_from {
            LeafClass::Short
        } else if number < self.large_from {
            LeafClass::Medium
        } else if number < self.wide_from {
            LeafClass::Large
        } else {
            LeafClass::Wide
        }
    }

    /// Returns how many words the leaf record `number` has, 4 to 33.
    pub fn leaf_size(&self, number: u32) -> usize
        ensures size { result ≡ leaf_size self.now number }
        ensures few { (SHORT_WORDS ≤ result) × (result ≤ LEAF_WORDS) }
    {
        self.class_of(number).words()
    }

    /// Returns the number of the first leaf record with at least `words` words, or how many leaf records there are if none has so many. All
    /// before it have fewer, and all from it on have enough. No class has more than 33 words. For more than these the result is where the
    /// long records begin, or would begin, and those from it on have too few.
    pub fn first_leaf_with(&self, words: usize) -> u32
        ensures below { (q : ℕ) → q < result → leaf_size self.now q < words }
        ensures from { words ≤ LEAF_WORDS → (q : ℕ) → result ≤ q → words ≤ leaf_size self.now q }
        ensures few { result ≤ self.now.leaves }
    {
        if words <= SHORT_WORDS {
            0
        } else if words <= MEDIUM_WORDS {
            self.medium_from
        } else if words <= LARGE_WORDS {
            self.large_from
        } else if words <= WIDE_WORDS {
            self.wide_from
        } else {
            self.long_from
        }
    }

    /// Returns the number behind the last leaf record of the class to which the leaf record `number` belongs.
    pub fn class_end(&self, number: u32) -> u32
        requires { number < self.now.leaves }
        ensures upto { (number < result) × (result ≤ self.now.leaves) }
        ensures same { (q : ℕ) → number ≤ q → q < result → leaf_size self.now q ≡ leaf_size self.now number }
    {
        if number < self.medium_from {
            self.medium_from
        } else if number < self.large_from {
            self.large_from
        } else if number < self.wide_from {
            self.wide_from
        } else if number < self.long_from {
            self.long_from
        } else {
            self.leaves
        }
    }

    /// Returns the number of the first word of the leaf record `number`.
    pub fn leaf(&self, number: u32) -> usize
        ensures { result ≡ leaf_start self.now number }
    {
        self.node(self.nodes)
            + SHORT_WORDS * number as usize
            + (MEDIUM_WORDS - SHORT_WORDS) * number.saturating_sub(self.medium_from) as usize
            + (LARGE_WORDS - MEDIUM_WORDS) * number.saturating_sub(self.large_from) as usize
            + (WIDE_WORDS - LARGE_WORDS) * number.saturating_sub(self.wide_from) as usize
            + (LEAF_WORDS - WIDE_WORDS) * number.saturating_sub(self.long_from) as usize
    }

    /// Returns how many words the table has.
    pub fn words(&self) -> usize
        ensures { result ≡ word_count self.now }
    {
        self.leaf(self.leaves)
    }

    /// Returns how many bytes the table takes.
    pub fn bytes(&self) -> usize
        ensures { result ≡ WORD_BYTES * word_count self.now }
    {
        WORD_BYTES * self.words()
    }

    /// Returns the number of the word at `location`.
    pub fn address(&self, location: Location) -> usize
        ensures { result ≡ address self.now location }
    {
        match location {
            Location::Epoch => EPOCH_WORD,
            Location::Root => ROOT_WORD,
            Location::Anchor => ANCHOR_WORD,
            Location::Pin(pass) => self.pin(pass),
            Location::NodeWord { node, offset } => self.node(node) + offset as usize,
            Location::LeafWord { leaf, offset } => self.leaf(leaf) + offset as usize,
        }
    }

    /// Returns the one location of the table whose word has the number `word`. `None` for the words that keep others apart, and for a
    /// number behind the table.
    pub fn location(&self, word: usize) -> Option<Location>
        ensures { IsLocationOf self.now word result }
    {
        match word {
            EPOCH_WORD => Some(Location::Epoch),
            ROOT_WORD => Some(Location::Root),
            ANCHOR_WORD => Some(Location::Anchor),
            _ if word < FIRST_PIN => None,
            _ if word < self.node(0) => {
                let within = word - FIRST_PIN;
                (within % LINE_WORDS == 0).then_some(Location::Pin((within / LINE_WORDS) as u16))
            }
            _ if word < self.leaf(0) => {
                let within = word - self.node(0);
                Some(Location::NodeWord {
                    node: (within / NODE_WORDS) as u32,
                    offset: (within % NODE_WORDS) as u8,
                })
            }
            _ if word < self.words() => Some(self.leaf_location(word)),
            _ => None,
        }
    }

    /// Returns the location of the word with the number `word`, a word of a leaf record.
    fn leaf_location(&self, word: usize) -> Location
        requires { (leaf_start self.now 0 ≤ word) × (word < word_count self.now) }
        ensures here { address self.now result ≡ word }
        ensures in_table { IsInTable self.now result }
    {
        if word < self.leaf(self.medium_from) {
            locate_leaf_word(0, SHORT_WORDS, word - self.leaf(0))
        } else if word < self.leaf(self.large_from) {
            let within = word - self.leaf(self.medium_from);
            locate_leaf_word(self.medium_from, MEDIUM_WORDS, within)
        } else if word < self.leaf(self.wide_from) {
            let within = word - self.leaf(self.large_from);
            locate_leaf_word(self.large_from, LARGE_WORDS, within)
        } else if word < self.leaf(self.long_from) {
            let within = word - self.leaf(self.wide_from);
            locate_leaf_word(self.wide_from, WIDE_WORDS, within)
        } else {
            let within = word - self.leaf(self.long_from);
            locate_leaf_word(self.long_from, LEAF_WORDS, within)
        }
    }
}

/// Returns the location of the word that stands `within` words behind the first word of the leaf record `first`. That record and those
/// behind it have `size` words each.
fn locate_leaf_word(first: u32, size: usize, within: usize) -> Location
    requires size { (1 ≤ size) × (size ≤ LEAF_WORDS) }
    requires few { first + within / size < 2 ^ 32 }
    ensures { (behind : ℕ) × (offset : ℕ) × (result ≡ Location.LeafWord (first + behind) offset) × (size * behind + offset ≡ within) × (offset < size) }
{
    Location::LeafWord {
        leaf: first + (within / size) as u32,
        offset: (within % size) as u8,
    }
}
