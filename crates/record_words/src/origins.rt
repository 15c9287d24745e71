//! Where the records of a table begin, with what is known of it added up once.

ghost use Rattle.std.specs.Prelude.{◌≡◌};
ghost use Rattle.record_words.specs.Layout.{address, leaf_start, node_start};

use crate::{
    LARGE_WORDS, LEAF_WORDS, Layout, Location, MEDIUM_WORDS, NODE_WORDS, SHORT_WORDS, WIDE_WORDS,
};

/// Where the records of a table begin. A table and a walk over it keep this at hand, so that the layout's numbers are not added up for
/// each record: that of a leaf is found by comparisons and one product.
#[derive(Clone, Copy)]
pub struct Origins {
    /// How many passes and records the table has.
    pub layout: Layout,
    /// Where the first node record begins.
    nodes: usize,
    /// Where the first leaf record begins, which is short if any is.
    short: usize,
    /// Where the first medium leaf record begins, or would.
    medium: usize,
    /// Where the first large leaf record begins, or would.
    large: usize,
    /// Where the first wide leaf record begins, or would.
    wide: usize,
    /// Where the first long leaf record begins, or would.
    long: usize,
    ghost nodes_is: { nodes ≡ node_start layout 0 },
    ghost short_is: { short ≡ leaf_start layout 0 },
    ghost medium_is: { medium ≡ leaf_start layout layout.medium_from },
    ghost large_is: { large ≡ leaf_start layout layout.large_from },
    ghost wide_is: { wide ≡ leaf_start layout layout.wide_from },
    ghost long_is: { long ≡ leaf_start layout layout.long_from },
}

impl Origins {
    /// Returns the origins of a table of `layout`.
    pub fn of(layout: Layout) -> Origins
        ensures { result.layout ≡ layout }
    {
        Origins {
            layout,
            nodes: layout.node(0),
            short: layout.leaf(0),
            medium: layout.leaf(layout.medium_from),
            large: layout.leaf(layout.large_from),
            wide: layout.leaf(layout.wide_from),
            long: layout.leaf(layout.long_from),
        }
    }

    /// Returns the number of the first word of the node record `number`.
    #[inline(always)]
    pub fn start_of_node(&self, number: u32) -> usize
        ensures { result ≡ node_start self.now.layout number }
    {
        self.nodes + NODE_WORDS * number as usize
    }

    /// Returns the number of the first word of the leaf record `number`.
    #[inline(always)]
    pub fn start_of_leaf(&self, number: u32) -> usize
        ensures { result ≡ leaf_start self.now.layout number }
    {
        let layout = &self.layout;
        if number >= layout.long_from {
            self.long + LEAF_WORDS * (number - layout.long_from) as usize
        } else if number < layout.medium_from {
            self.short + SHORT_WORDS * number as usize
        } else if number < layout.large_from {
            self.medium + MEDIUM_WORDS * (number - layout.medium_from) as usize
        } else if number < layout.wide_from {
            self.large + LARGE_WORDS * (number - layout.large_from) as usize
        } else {
            self.wide + WIDE_WORDS * (number - layout.wide_from) as usize
        }
    }

    /// Returns the number of the word at `location`.
    #[inline(always)]
    pub fn address(&self, location: Location) -> usize
        ensures { result ≡ address self.now.layout location }
    {
        match location {
            Location::NodeWord { node, offset } => self.start_of_node(node) + offset as usize,
            Location::LeafWord { leaf, offset } => self.start_of_leaf(leaf) + offset as usize,
            _ => self.layout.address(location),
        }
    }
}
