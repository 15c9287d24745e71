//! The words of the shared table: where each record stands, and how states, entries, nodes and leaves are packed.
//!
//! A node record has these words:
//!
//! ```text
//! offset  0      state
//!         1..25  its head
//!        26..57  entry words of places 0 to 31; unused: 0
//! ```
//!
//! The columns of a node decide the kind of its head ([`kind_of`]). Near columns have their bits in sixteen bytes of a key, from the first
//! column's byte on, and none is the bit that says that there is a byte; these sixteen end at most at byte 240. A head is narrow if all its
//! columns are near, and at most 8. It is middle if all are near, and 9 to 16, and else wide. A word of a head in which it has nothing is
//! all ones.
//!
//! ```text
//! index   narrow (kind 1)            middle (kind 2)              wide (kind 0)
//!  0      count + 2^8 * columns + 2^16 * height + 2^32 * first byte + 2^40 * kind; a wide head has first byte 0
//!  columns 1 indexes, 2 masks        1, 2 indexes, 3, 4 masks     1 ..8  four positions a word; unused: 65535
//!  rows    3 ..6 eight a word        5 ..12 four a word           9 ..24 two a word
//! ```
//!
//! Parts of a word are counted from its lowest bits. An index is a column's byte less the first one, and a mask its bit in that byte, a
//! byte each. Column j has lane 15-j of 16 lanes, and a narrow head has no word for the first eight: so the lanes in which a key has a 1
//! are its dense key. A lane without a column has 0 and 0. Rows have their highest 8, 16 or 32 bits, the others are 0; unused rows are all
//! ones.
//!
//! And a leaf record these:
//!
//! ```text
//! offset  0      state
//!         1      the value
//!         2      the key's length in bytes, 0 to 240
//!         3 ..   the key's bytes, eight a word, the first in the highest eight bits; other bytes of
//!                the last word are 0, and the words behind it may be anything
//! ```
//!
//! ## Heads by kind: where what stands
//!
//! `specs/Kinds` says which kind columns take, and what the lanes of near ones are. `specs/Packed` has the words: `column_words`,
//! `row_words`, `kind_words`, and `fixed_words`, which takes the kind of the columns. So the words of a head stay a function of the head.
//! `specs/HeadParts` has the parts that a search loads, and `AreNumbersOf`, what the first word tells. `specs/Decoding` says what words
//! tell, whatever they are.
//!
//! | function | its contract |
//! |---|---|
//! | `kind_of` | the definition `kind_of` |
//! | `read_numbers` | numbers, kind and first byte of each node with this word |
//! | `HeadNumbers::row_of`, `read_position` | the row, the position, as read of the words at `index_of_row`, `index_of_position`, `index_of_mask` |
//! | `first_position_of` | the first position, as read of the word at `index_of_first_position` |
//! | `positions_in`, `rows_in` | all columns, all rows of each node with these words, as lanes: whatever reads a whole head goes through these two |
//! | `near_lanes_of`, `near_positions` | near columns to lanes, and back |
//! | `extract_near` | the dense key for near columns |
//! | `search_narrow`, `search_middle` | the slot to which a key's bits lead; wide heads have `extract_dense_key` and `search_row_words` |
//! | `put_columns`, `put_rows`, `put_head` | the words are `column_words`, `row_words`, those of the head |
//! | `affected_slots`, `add_leaf`, `drop_entry`, `close_fork`, `read_node` | as of words of one kind |
//!
//! Near columns and their lanes are in the lemma files `NearLanes`, `NearSpelling` and `NearDense`. `HeadsByKind` and `TellingHead` say
//! what each part of a head's words tells, and `HeadPut` how they are written.
//!
//! A search loads the first word, and then as many as its kind says. Whoever reads one row or position of a locked node loads the first
//! word before. A word of rows can be all ones although it has a row: that row is, and all behind it are unused. So whoever stores only the
//! words that say something may leave it out, too. A replay decodes by the kind, makes the words anew and compares all of them.
//!
//! # What carries the proof
//!
//! The format is stated by spelling: for each value, which word stands where (`state_word`, `entry_word`, `leaf_words`, `node_words`).
//! `IsReading` says once what reading is, for states, entries, leaves, nodes and heads. Each value that words spell is the result, and a
//! result is a value that they spell. Both directions and the exact `Bad` follow. A leaf is spelled by its words up to the end of its key
//! (`up_to_key`).
//!
//! A node's columns decide the kind of its head (`kind_of`), so its words are a function of the head. Two decoders (`positions_in`,
//! `rows_in`) read every kind as lanes, and all but the search goes through them; the search has one form for each kind.
//!
//! Changes of words as they stand are equal to packing the changed value: `add_leaf`, `drop_entry`, `affected_slots` and others. A word
//! belongs to at most one location (`Layout::location`). `Layout`'s and `Stock`'s functions give exactly the asked numbers, or refuse the
//! first out of range.
#![tactic(auto)]

mod affected;
mod entry;
mod fixed;
mod kind;
mod layout;
mod leaf;
mod near;
mod node;
mod numbers;
mod origins;
mod records;
mod search;
mod state;
mod stock;

pub use affected::affected_slots;
pub use entry::{pack_entry, read_entry, read_some_entry};
use key_bits::MAX_BYTES;
pub use kind::{HeadKind, kind_of};
pub use layout::{Layout, LayoutFault, LeafClass, Location, Stock};
pub use leaf::{count_key_words, count_leaf_words, key_word_at, pack_leaf, write_key_word};
pub use node::{add_leaf, can_take_leaf, close_fork, drop_entry, pack_head, pack_node, read_node};
pub use numbers::{
    HeadNumbers, first_position_of, index_of_first_position, kind_number, read_numbers,
};
pub use origins::Origins;
pub use partial_keys::MAX_ENTRIES;
pub use records::Rec;
pub use search::{extract_dense_key, search_middle, search_narrow, search_row_words};
pub use state::{
    LEAST_OBSOLETE, Tag, obsolete_word, pack_state, read_obsolete_epoch, unpack_state,
};

/// Epochs are below this number, and at least 1. So a state word, 8 times the epoch and 4, has 64 bits.
pub const EPOCHS: u64 = 1 << 60;

/// The word of a pin that is not set. One that is set has an epoch.
pub const NO_PIN: u64 = 0;

/// How many passes a table of `Layout::of` has at most.
pub const MAX_PASSES: u32 = 64;

/// How many passes a table of `Layout::with_stock` has at most.
pub const MAX_STOCK_PASSES: u32 = 1_024;

/// How many node records a table of `Layout::of` has at most.
pub const MAX_NODES: u32 = 65_535;

/// How many leaf records a table of `Layout::of` has at most.
pub const MAX_LEAVES: u32 = 262_143;

/// How many bytes a word has.
pub const WORD_BYTES: usize = 8;

/// How many words a cache line has.
pub const CACHE_LINE_WORDS: usize = 8;

/// How many words a processor may fetch together: two cache lines, since with one it often fetches the one beside it. Words that different
/// threads often write stand at least so far apart. Then no two share a line, nor two lines that are fetched together, wherever in memory
/// the table begins. So no thread's writes slow down what another does.
pub const LINE_WORDS: usize = 16;

/// The word of the epoch. Gets, scans and changes load it and the root, so these two may share a line.
pub const EPOCH_WORD: usize = 0;

/// The word of the root.
pub const ROOT_WORD: usize = 1;

/// The first of the words that say how many records are uncommitted, the last ones of each kind. They stand `LINE_WORDS` from the words of
/// epoch and root, since they are often loaded and seldom written.
pub const FIRST_UNCOMMITTED: usize = LINE_WORDS;

/// The word of the anchor, more than a line's words behind the root.
pub const ANCHOR_WORD: usize = 2 * LINE_WORDS;

/// The word of the first pin. Each further pin stands `LINE_WORDS` behind the one before, and the first record as far behind the last.
pub const FIRST_PIN: usize = 3 * LINE_WORDS;

/// The offset of a record's state, its first word. What is behind it is counted by an index, from 0 on.
pub const STATE_OFFSET: u8 = 0;

/// The offset of the first word behind a record's state, the one with index 0.
pub const FIELDS_OFFSET: u8 = 1;

/// The offset of the word with a node's numbers of entries and of columns, and with its height.
pub const NUMBERS_OFFSET: u8 = 1;

/// The offset of the word with a leaf's value.
pub const VALUE_OFFSET: u8 = 1;

/// The offset of the word with the length of a leaf's key, in bytes.
pub const LENGTH_OFFSET: u8 = 2;

/// The offset of the first word with bytes of a leaf's key, eight each.
pub const KEY_OFFSET: u8 = 3;

/// The index of the word with a node's numbers, the first of its head.
pub const NUMBERS_INDEX: usize = 0;

/// The index of the word with a leaf's value.
pub const VALUE_INDEX: usize = 0;

/// The index of the word with the length of a leaf's key.
pub const LENGTH_INDEX: usize = 1;

/// The index of the first word with bytes of a leaf's key.
pub const FIRST_KEY_WORD: usize = 2;

/// How many words a node's head has, from index 0 on: those of the numbers, the positions and the rows.
pub const HEAD_WORDS: usize = 25;

/// The index of the first word with columns, in a wide head the positions of four. The word of the numbers stands before it.
pub const FIRST_POSITIONS: usize = 1;

/// The index of the first word with rows of a wide head, two each. The words of the numbers and the positions stand before it.
pub const FIRST_ROWS: usize = 9;

/// How many words of a wide head have rows, two each.
pub const ROW_WORDS: usize = HEAD_WORDS - FIRST_ROWS;

/// How many bytes of a key have the bits at near columns.
pub const WINDOW_BYTES: usize = 16;

/// The number in the first word of a narrow head that tells its kind.
pub const NARROW_KIND: u64 = 1;

/// The number in the first word of a middle head that tells its kind. A wide head has 0 there.
pub const MIDDLE_KIND: u64 = 2;

/// How many columns a narrow head has at most.
pub const NARROW_COLUMNS: usize = 8;

/// How many columns a middle head has at most.
pub const MIDDLE_COLUMNS: usize = 16;

/// How many words of a narrow head say something.
pub const NARROW_HEAD_WORDS: usize = 7;

/// How many words of a middle head say something.
pub const MIDDLE_HEAD_WORDS: usize = 13;

/// The index of the first word with rows of a narrow head, eight each.
pub const FIRST_NARROW_ROWS: usize = 3;

/// The index of the first word with rows of a middle head, four each.
pub const FIRST_MIDDLE_ROWS: usize = 5;

/// The offset at which a node record has its first entry: its state and its head stand before the entries.
pub const FIRST_ENTRY: usize = 1 + HEAD_WORDS;

/// How many words of a node are loaded or filled together: the positions of a wide head, half of its rows, or as many slots. A node's slots
/// are `MAX_ENTRIES / SLOT_GROUP` such groups.
pub const SLOT_GROUP: usize = 8;

/// The bit of an entry's word from which on a child node's height stands.
pub const HEIGHT_BIT: u32 = 34;

/// How many words a node record has: its state, those of its head and those of its entries.
pub const NODE_WORDS: usize = FIRST_ENTRY + MAX_ENTRIES;

/// How many words a node record has besides its state.
pub const NODE_FIELDS: usize = NODE_WORDS - 1;

/// How many words the bytes of the longest key take.
pub const KEY_WORDS: usize = (MAX_BYTES + 7) / 8;

/// How many words a long leaf record has: its state, the value, the key's length and its bytes.
pub const LEAF_WORDS: usize = 1 + FIRST_KEY_WORD + KEY_WORDS;

/// How many words a leaf has besides its state, whatever words its record has: those past the record's are 0.
pub const LEAF_FIELDS: usize = LEAF_WORDS - 1;

/// How many classes of leaf records there are.
pub const LEAF_CLASSES: usize = 5;

/// How many kinds of records a table has: nodes, and each class of leaf records.
pub const RECORD_KINDS: usize = 1 + LEAF_CLASSES;

/// How many words a short leaf record has.
pub const SHORT_WORDS: usize = 4;

/// How many words a medium leaf record has.
pub const MEDIUM_WORDS: usize = 6;

/// How many words a large leaf record has.
pub const LARGE_WORDS: usize = 10;

/// How many words a wide leaf record has.
pub const WIDE_WORDS: usize = 14;

/// How many bytes the longest key of a short leaf record has: 8.
pub const SHORT_BYTES: usize = WORD_BYTES * (SHORT_WORDS - 1 - FIRST_KEY_WORD);

/// How many bytes the longest key of a medium leaf record has: 24.
pub const MEDIUM_BYTES: usize = WORD_BYTES * (MEDIUM_WORDS - 1 - FIRST_KEY_WORD);

/// How many bytes the longest key of a large leaf record has: 56.
pub const LARGE_BYTES: usize = WORD_BYTES * (LARGE_WORDS - 1 - FIRST_KEY_WORD);

/// How many bytes the longest key of a wide leaf record has: 88.
pub const WIDE_BYTES: usize = WORD_BYTES * (WIDE_WORDS - 1 - FIRST_KEY_WORD);

/// For how many keys `Stock::for_keys` has one node record.
pub const KEYS_A_NODE: u32 = 3;

/// For how many keys `Stock::for_keys` has one leaf record to spare.
pub const KEYS_A_SPARE_LEAF: u32 = 3;

/// How many keys count as few: one node has room for all of them.
pub const FEW_KEYS: u32 = 32;

/// How many node records and leaf records `Stock::for_keys` has to spare for few keys.
pub const FEW_SPARE: u32 = 1;

/// How many node records and leaf records `Stock::for_keys` has to spare at least for more than `FEW_KEYS` keys.
pub const LEAST_SPARE: u32 = 10;

/// For how many keys `Stock::for_keys` has one more record of each kind to spare, if there are more than `FEW_KEYS`.
pub const KEYS_A_SPARE: u32 = 16;

/// How many records of each kind `Stock::for_keys` has to spare at most, however many the keys are.
pub const MOST_SPARE: u32 = 512;

/// Why words can't be read: they are those of no value.
#[derive(Clone, Copy)]
pub enum WordFault {
    Bad = 1,
}
