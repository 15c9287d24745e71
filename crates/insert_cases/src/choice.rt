//! The choice of the insertion case, from the way (path) of a search.

ghost use Rattle.std.specs.Prelude.{◌≡◌, ◌↔◌, ℕ, ◌+◌, ◌<◌, IsTrue, length};
ghost use Rattle.key_bits.specs.Bits.{IsFirstDifference};
ghost use Rattle.node_tries.specs.Growth.{affected_first, affected_count};
ghost use Rattle.tries.specs.Keys.{Key as KeyBytes};
ghost use Rattle.tries.specs.Place.{spot};
ghost use Rattle.tries.specs.Tree.{Tree, IsTrie, IsBuilt, subtrie};
ghost use Rattle.insert_cases.specs.Levels.{IsLevel, IsChosen, IsChainEnd, IsPullUp};
ghost use Rattle.tries.specs.Search.{found};
ghost use Rattle.insert_cases.specs.Ways.{IsWay, IsAffectedNode, case_of, stage, body};

use partial_keys::MAX_ENTRIES;

/// A node on the way of a search, topmost first, and the entry that the search took there.
#[derive(Clone, Copy, Default)]
pub struct PathNode {
    /// The node's record number.
    pub number: u32,
    /// The node's stored height.
    pub height: u16,
    /// The node's first position.
    pub first_position: u16,
    /// How many entries the node has.
    pub count: u8,
    /// The slot that the search took.
    pub slot: u8,
}

/// What is done at the affected node.
#[derive(Clone, Copy)]
pub enum Case {
    /// A new node of two entries takes the place of the one affected leaf.
    LeafPushdown,
    /// A copy with the new entry takes the node's place.
    NormalInsert,
    /// The node is full: its root fork goes up.
    Overflow,
}

/// The affected node of an insertion, by its index `level` on the way, its affected slots from `first` to `last`, and what is done there.
///
/// So it tells which nodes are replaced. `LeafPushdown` replaces none, and stores into slot `first` of the affected node. `NormalInsert`
/// replaces the affected node. `Overflow` replaces the nodes from the affected one up to `pull_up_chain_end`, but for an affected node that
/// stays whole as one half.
///
/// `NormalInsert` and `Overflow` store into `slot` of the node above the uppermost of these, or at the root. A writer locks all these
/// nodes, also one that stays whole, and what it stores into.
#[derive(Clone, Copy)]
pub struct Choice {
    pub level: usize,
    pub first: u8,
    pub last: u8,
    pub case: Case,
}

/// Returns the index on `way`, which isn't empty, of the last node whose first position is below `position`; 0 if there is none.
pub fn last_level_before(way: &[PathNode], position: u16) -> usize
    requires { 0 < length way.now }
    ensures { IsLevel way.now position result }
{
    let mut level = 0;
    for (i, step) in way.iter().enumerate() {
        if step.first_position < position {
            level = i;
        }
    }
    level
}

/// Returns the affected node and the case of an insertion after a search along `way` that ended at a leaf with another key. `level` is what
/// `last_level_before` returns for the position where the two keys first differ. In the node there, the entries from `first` to `last` are
/// affected. If that is one entry, and the path goes on below it, the whole next node is affected instead.
pub fn choose_case(way: &[PathNode], level: usize, first: u8, last: u8) -> Choice
    requires { level < length way.now }
    ensures chosen { IsChosen way.now level first last result }
    ensures affected { (k : KeyBytes) (t : Tree) (p : ℕ) → IsTrie t → IsBuilt t → IsWay k t way.now → IsFirstDifference k (found k t).key p →
        IsLevel way.now p level →
        affected_first p (spot k (subtrie (body (stage k t level)))) (subtrie (body (stage k t level))) ≡ first →
        affected_count p (spot k (subtrie (body (stage k t level)))) (subtrie (body (stage k t level))) + first ≡ last + 1 → IsAffectedNode k p t result }
{
    let step = way[level];
    if first < last {
        return Choice {
            level,
            first,
            last,
            case: case_at_node(step, false),
        };
    }
    if level + 1 < way.len() {
        let child = way[level + 1];
        return Choice {
            level: level + 1,
            first: 0,
            last: child.count.saturating_sub(1),
            case: case_at_node(child, false),
        };
    }
    Choice {
        level,
        first,
        last,
        case: case_at_node(step, true),
    }
}

/// Returns what is done at the affected node, that of `step`. `one_leaf` says whether one leaf alone is affected, which is pushed down if
/// the node is higher than 1. Else a node with room gets the entry, and a full one overflows.
fn case_at_node(step: PathNode, one_leaf: bool) -> Case
    ensures { result ≡ case_of step.height step.count one_leaf }
{
    if one_leaf && step.height > 1 {
        Case::LeafPushdown
    } else if (step.count as usize) < MAX_ENTRIES {
        Case::NormalInsert
    } else {
        Case::Overflow
    }
}

/// Returns the index on `way` of the uppermost node that is remade if the node at index `level` overflows: that node, or one above it. The
/// halves of a full node go into its parent if the parent is one higher, and a full parent overflows in turn.
pub fn pull_up_chain_end(way: &[PathNode], level: usize) -> usize
    requires { level < length way.now }
    ensures { IsChainEnd way.now level result }
{
    let mut end = level;
    while end > 0 && is_pulled_up(way[end], way[end - 1]) {
        end -= 1;
    }
    end
}

/// Returns whether `child` is full, and its parent `parent` is one higher, so that what rises from `child` goes into `parent`.
fn is_pulled_up(child: PathNode, parent: PathNode) -> bool
    ensures { IsTrue result ↔ ((child.count ≡ 32) × IsPullUp child.height parent.height) }
{
    child.count as usize == MAX_ENTRIES && is_pull_up(child.height, parent.height)
}

/// Returns whether what rises from a node of the height `child_height` goes into its parent, of the height `parent_height`: the parent is
/// one higher. If it is higher still, a new node goes between them.
pub fn is_pull_up(child_height: u16, parent_height: u16) -> bool
    ensures { IsTrue result ↔ IsPullUp child_height parent_height }
{
    child_height < parent_height && parent_height - child_height == 1
}
