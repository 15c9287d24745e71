//! What a table is made of.

use record_words::Layout;

/// The layout and the first words of a table. `loads` says whether these show pairs that were loaded, or a new table.
#[derive(Drop)]
pub(crate) struct FirstWords {
    pub layout: Layout,
    pub loads: bool,
    pub words: Vec<u64>,
}
