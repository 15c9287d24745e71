//! What a pass keeps between calls to make changes with: lists that a change fills, and hints where free records are.

ghost use Rattle.std.specs.Prelude.{◌≡◌};
ghost use Rattle.rowex_writing.specs.build.Walks.{left_below};

use crate::build::hints::Hint;
use bounded_vec::BoundedVec;
use record_words::LEAF_CLASSES;
use rowex_core::Rec;

/// The most records that one change makes: a leaf, two nodes for each node of the longest way, and one above them.
pub(crate) const MOST_MADE: usize = 4_322;

/// The most records that one change unlinks: the nodes of the longest way, and a leaf.
pub(crate) const MOST_GONE: usize = 2_161;

/// What a pass makes changes with: lists of the records that a change makes and unlinks, and hints where free ones are, kept between calls.
#[derive(Drop)]
pub struct Build {
    /// The records made for the change, claimed and filled with their words, the first one made first.
    pub made: BoundedVec<Rec, MOST_MADE>,
    /// The records that the change unlinks, as it lists them.
    pub gone: BoundedVec<Rec, MOST_GONE>,
    /// Where claims of node records begin.
    pub nodes: Hint,
    /// The walk of the change's claims over the node records.
    pub walk: NodeWalk,
    /// Where claims of leaf records begin, for each class, the smallest first.
    pub leaves: [Hint; LEAF_CLASSES],
}

/// The walk of a change's claims over the node records. Each is tried once, but for spare ones. The first claim finds how many are committed,
/// and the walk goes over these.
#[derive(Clone, Copy)]
pub struct NodeWalk {
    /// How many node records are not yet tried: those that the walk has left, and those from `end` on.
    pub left: u32,
    /// The walk goes over the node records below this number. They are all those of the table until the first claim.
    pub end: u32,
    /// Whether a claim that finds none of them free commits the next one, and claims that. So removals do.
    pub commits: bool,
}

impl NodeWalk {
    /// Returns a walk over all node records of a table that has `nodes` of them. Where `commits`, a claim may commit more.
    #[inline(always)]
    pub fn begin(nodes: u32, commits: bool) -> NodeWalk
        ensures { (result.left ≡ nodes) × (result.end ≡ nodes) × (result.commits ≡ commits) }
    {
        NodeWalk {
            left: nodes,
            end: nodes,
            commits,
        }
    }

    /// Returns how many of the records below `end` are not yet tried, in a table that has `nodes` node records.
    #[inline(always)]
    pub(crate) fn left_below_end(self, nodes: u32) -> u32
        ensures { result ≡ left_below nodes self }
    {
        self.left.saturating_sub(nodes.saturating_sub(self.end))
    }
}

impl Build {
    /// Begins a change's claims of node records, in a table that has `nodes` of them. Where `commits`, a claim may commit more. The records in
    /// `made` stay. Inline, since it is short.
    #[inline(always)]
    pub(crate) fn begin_claims(&mut self, nodes: u32, commits: bool)
        ensures made { self.new.made.items ≡ self.old.made.items }
        ensures walk { (self.new.walk.left ≡ nodes) × (self.new.walk.end ≡ nodes) × (self.new.walk.commits ≡ commits) }
    {
        self.nodes.next = self.nodes.stretch.start();
        self.walk = NodeWalk::begin(nodes, commits);
    }
}
