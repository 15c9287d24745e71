//! A node with one entry more: whole, or cut in two where it was full.

ghost use Rattle.std.specs.Prelude.{◌≡◌, ◌↔◌, ◌<◌, IsTrue, length, false, true, if◌then◌else◌};
ghost use Rattle.node_tries.specs.Piece.{size, Place as At, Fork};
ghost use Rattle.node_tries.specs.Growth.{grown, IsAffected};
ghost use Rattle.node_tries.specs.Changes.{AtRootFork};
ghost use Rattle.compound_node.specs.Halves.{HalfShows, CutShows};
ghost use Rattle.compound_node.specs.Nodes.{piece, IsEntry, IsLawfulNode, IsBuiltFrom};
ghost use Rattle.node_tries.specs.Grafts.{grafted, IsAbovePath};
ghost use Rattle.insert_cases.specs.Grown.{GrownShows, IsCutOf, is_whole, keeps_node, keeps_side, half_piece};

use compound_node::{Cut, Entry, Half, Node};
use partial_keys::MAX_ENTRIES;

/// A node with one entry more.
#[derive(Drop)]
pub enum Grown {
    /// The one node that has them all.
    One(Node),
    /// The root fork of 33 entries and its two sides. `Half::Same` stands for the node that was handed in.
    Two(Cut),
}

/// Returns `node` with `entry` added. A new fork at `position` parts `entry` from the entries from `first` to `last`, which
/// `Node::affected` returns. `bit` is the bit of the entry's key at `position`. `entry` stands behind those entries if `bit` is true, else
/// before them. If there is room, the result is one node. Else it is the root fork of all 33 entries, with its two sides. One side is then
/// `node` as it is, exactly if `position` is before the first fork of `node`.
pub fn grow(node: &Node, first: u8, last: u8, position: u16, bit: bool, entry: Entry) -> Grown
    requires range { IsAffected (piece node.now) position first last }
    requires position { position < 65535 }
    requires entry { IsEntry entry }
    ensures shows { GrownShows node.now result (grown position bit entry first (piece node.now)) }
    ensures whole { IsTrue (is_whole result) ↔ (length node.now.entries < 32) }
    ensures same { IsTrue (keeps_node result) ↔ ((is_whole result ≡ false) × AtRootFork (λ p zero one. position < p) (piece node.now)) }
{
    if (node.count() as usize) < MAX_ENTRIES {
        return Grown::One(node.insert(first, last, position, bit, entry));
    }
    Grown::Two(grow_full(node, first, last, position, bit, entry))
}

/// Returns the full node `node` with `entry` added, as a cut of all 33 entries. A new fork at `position` parts `entry` from the affected
/// entries `first` to `last`. `entry` stands behind these if `bit` is true, else before them. The node is cut at its root fork, and `entry`
/// goes into one of the halves. If `position` is below the root fork's, the cut is there: the whole node is one side, `Half::Same`, and
/// `entry` the other.
pub fn grow_full(node: &Node, first: u8, last: u8, position: u16, bit: bool, entry: Entry) -> Cut
    requires full { length node.now.entries ≡ 32 }
    requires range { IsAffected (piece node.now) position first last }
    requires position { position < 65535 }
    requires entry { IsEntry entry }
    ensures shows { IsCutOf node.now result (grown position bit entry first (piece node.now)) }
    ensures same { IsTrue (keeps_side result) ↔ AtRootFork (λ p zero one. position < p) (piece node.now) }
{
    prove!(node.count() as usize == MAX_ENTRIES);
    if position < node.first_position() {
        return keep_node_whole(position, bit, entry);
    }
    cut_and_grow(node, first, last, position, bit, entry)
}

/// Returns the cut at `position` whose sides are the node that was handed in, whole, and `entry`. `entry` is the 1 side if `bit` is true,
/// else the 0 side.
fn keep_node_whole(position: u16, bit: bool, entry: Entry) -> Cut
    ensures position { result.position ≡ position }
    ensures zero { result.zero ≡ (if bit then Half.Same else Half.One entry) }
    ensures one { result.one ≡ (if bit then Half.One entry else Half.Same) }
{
    if bit {
        Cut {
            position,
            zero: Half::Same,
            one: Half::One(entry),
        }
    } else {
        Cut {
            position,
            zero: Half::One(entry),
            one: Half::Same,
        }
    }
}

/// Returns the cut of the full node `node` at its root fork. `entry` is added to the half with the affected entries `first` to `last`. A
/// new fork at `position`, a greater number than the root fork's, parts `entry` from these. `entry` stands behind them if `bit` is true,
/// else before them. Each half has fewer than 32 entries, so there is room for it.
fn cut_and_grow(node: &Node, first: u8, last: u8, position: u16, bit: bool, entry: Entry) -> Cut
    requires lawful { IsLawfulNode node.now }
    requires range { IsAffected (piece node.now) position first last }
    requires below { AtRootFork (λ p zero one. p < position) (piece node.now) }
    requires position { position < 65535 }
    requires entry { IsEntry entry }
    ensures { CutShows result (grown position bit entry first (piece node.now)) }
{
    let Cut {
        position: root,
        zero,
        one,
    } = node.cut();
    let front = half_count(&zero);
    if first < front {
        let zero = Half::Many(grow_half(zero, first, last, position, bit, entry));
        Cut {
            position: root,
            zero,
            one,
        }
    } else {
        let one = Half::Many(grow_half(one, first - front, last - front, position, bit, entry));
        Cut {
            position: root,
            zero,
            one,
        }
    }
}

/// Returns the number of entries of `half`, a side of a cut and not `Half::Same`.
fn half_count(half: &Half) -> u8
    requires { HalfShows half.now (half_piece half.now) }
    ensures { result ≡ size (half_piece half.now) }
{
    match half {
        Half::Many(node) => node.count(),
        Half::One(_) => 1,
        Half::Same => unreachable!(),
    }
}

/// Returns the node of `half`, a side of a cut with fewer than 32 entries, with `entry` beside its affected entries `first` to `last`. A
/// fork at `position` parts `entry` from these. `entry` stands behind them if `bit` is true, else before them.
fn grow_half(half: Half, first: u8, last: u8, position: u16, bit: bool, entry: Entry) -> Node
    requires half { HalfShows half (half_piece half) }
    requires room { size (half_piece half) < 32 }
    requires range { IsAffected (half_piece half) position first last }
    requires position { position < 65535 }
    requires entry { IsEntry entry }
    ensures { IsBuiltFrom result (grown position bit entry first (half_piece half)) }
{
    match half {
        Half::Many(mut node) => {
            node.add_entry(first, last, position, bit, entry);
            node
        }
        Half::One(other) => {
            if bit {
                Node::pair(position, other, entry)
            } else {
                Node::pair(position, entry, other)
            }
        }
        Half::Same => unreachable!(),
    }
}

/// Returns `node` with a fork of `zero` and `one` at `position` in place of the entry in `slot`. `position` is above those of all forks on
/// the path to `slot`. The result is one node if `node` has fewer than 32 entries. Else it is a cut of 33 entries, as [`pull_up_full`]
/// makes it. No side of it is `node` as it is.
pub fn pull_up(node: &Node, slot: u8, position: u16, zero: Entry, one: Entry) -> Grown
    requires place { slot < length node.now.entries }
    requires path { IsAbovePath position slot (piece node.now) }
    requires position { position < 65535 }
    requires zero { IsEntry zero }
    requires one { IsEntry one }
    ensures shows { GrownShows node.now result (grafted slot (Fork position (At zero) (At one)) (piece node.now)) }
    ensures whole { IsTrue (is_whole result) ↔ (length node.now.entries < 32) }
    ensures same { keeps_node result ≡ false }
{
    if (node.count() as usize) < MAX_ENTRIES {
        let mut grown = node.copy();
        put_fork(&mut grown, slot, position, zero, one);
        return Grown::One(grown);
    }
    Grown::Two(pull_up_full(node, slot, position, zero, one))
}

/// Puts a fork of `zero` and `one` at `position` in place of the entry in `slot` of the full node `node`. Returns a cut of all 33 entries.
/// `position` is above those of all forks on the path to `slot`. The node is cut at its root fork, and the new fork stands in one of the
/// halves. Neither half is `Half::Same`.
pub fn pull_up_full(node: &Node, slot: u8, position: u16, zero: Entry, one: Entry) -> Cut
    requires full { length node.now.entries ≡ 32 }
    requires place { slot < length node.now.entries }
    requires path { IsAbovePath position slot (piece node.now) }
    requires position { position < 65535 }
    requires zero { IsEntry zero }
    requires one { IsEntry one }
    ensures shows { IsCutOf node.now result (grafted slot (Fork position (At zero) (At one)) (piece node.now)) }
    ensures same { keeps_side result ≡ false }
{
    prove!(node.count() as usize == MAX_ENTRIES);
    let Cut {
        position: root,
        zero: front,
        one: rest,
    } = node.cut();
    let count = half_count(&front);
    if slot < count {
        let front = Half::Many(fork_half(front, slot, position, zero, one));
        Cut {
            position: root,
            zero: front,
            one: rest,
        }
    } else {
        let rest = Half::Many(fork_half(rest, slot - count, position, zero, one));
        Cut {
            position: root,
            zero: front,
            one: rest,
        }
    }
}

/// Returns the node of `half`, a side of a cut with fewer than 32 entries. It has a fork of `zero` and `one` at `position` in place of the
/// entry in `slot`. `position` is above those of all forks on the path to `slot`.
fn fork_half(half: Half, slot: u8, position: u16, zero: Entry, one: Entry) -> Node
    requires half { HalfShows half (half_piece half) }
    requires room { size (half_piece half) < 32 }
    requires place { slot < size (half_piece half) }
    requires path { IsAbovePath position slot (half_piece half) }
    requires position { position < 65535 }
    requires zero { IsEntry zero }
    requires one { IsEntry one }
    ensures { IsBuiltFrom result (grafted slot (Fork position (At zero) (At one)) (half_piece half)) }
{
    match half {
        Half::Many(mut node) => {
            put_fork(&mut node, slot, position, zero, one);
            node
        }
        Half::One(_) => Node::pair(position, zero, one),
        Half::Same => unreachable!(),
    }
}

/// Puts a fork of `zero` and `one` at `position` in the place of the entry in `slot` of `node`, which has fewer than 32 entries. `position`
/// is above those of all forks on the path to `slot`. The height is computed anew: one above the greatest of the entries that the node has
/// then.
pub fn put_fork(node: &mut Node, slot: u8, position: u16, zero: Entry, one: Entry)
    requires room { length node.old.entries < 32 }
    requires place { slot < length node.old.entries }
    requires path { IsAbovePath position slot (piece node.old) }
    requires position { position < 65535 }
    requires zero { IsEntry zero }
    requires one { IsEntry one }
    ensures { IsBuiltFrom node.new (grafted slot (Fork position (At zero) (At one)) (piece node.old)) }
{
    prove!((node.count() as usize) < MAX_ENTRIES);
    // A leaf stands in for the old entry, whose height doesn't count. The higher entry is added first, so that the height is above both.
    node.set_entry(slot, Entry::Leaf(0));
    if zero.height() <= one.height() {
        node.add_entry(slot, slot, position, true, one);
        node.set_entry(slot, zero);
    } else {
        node.add_entry(slot, slot, position, false, zero);
        node.set_entry(slot + 1, one);
    }
}
