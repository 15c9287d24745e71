//! A builder: the words of a table that is being made, and the pieces of its tree so far.

ghost use Rattle.std.specs.declared.cmp.Ordering.TheVariants.{Less};
ghost use Rattle.finite_map.specs.Maps.{key_order};
ghost use Rattle.record_words.specs.declared.state.Tag.TheVariants.{Free as FreeTag};
ghost use Rattle.record_words.specs.declared.TheConstants.{FIRST_UNCOMMITTED, LEAF_CLASSES, RECORD_KINDS};
ghost use Rattle.record_words.specs.State.{state_word};
ghost use Rattle.std.specs.Prelude.{ℕ, suc, ◌≡◌, ◌≢◌, ◌↔◌, ◌+◌, ◌-◌, max, ◌≤◌, ◌<◌, ◌++◌, ◌∷◌, [], if◌then◌else◌, get_or, Err, IfOk, IfSome, IsNone, IsTrue, false, List, OnOk, OnErr, Option as Maybe, Some, length};
ghost use Rattle.std.specs.Vec.{vec_len};
ghost use Rattle.bulk_load.specs.Finished.{HasHeader, IsFinished, LinksCommitted};
ghost use Rattle.bulk_load.specs.Loading.{CanJoin, CanPart, HasCursors, HasNodesFor, HasSameFields, HasSpace, EndsInLeaf, FitsOneNode, IsOnePiece, IsJoined, IsOfLeaves, IsLoading, IsPiece, IsNextLeaf, IsStackOf, IsTreeOf, KeepsLeaves, KeepsNodes, MayTakeNext, MayTakePlaceOf};
ghost use Rattle.bulk_load.specs.Stacks.{LeftPiece, whole_of, with_right};
ghost use Rattle.bulk_load.specs.Tables.{IsRootless, end_of_class, leaf_class, state_in};
ghost use Rattle.bulk_load.specs.Views.{IsAboveLast, IsTakenLeaf};
ghost use Rattle.record_words.specs.Layout.{leaf_size, uncommitted_in, word_count};
ghost use Rattle.record_words.specs.Leaf.{words_for};
ghost use Rattle.node_tries.specs.Piece.{Place};
ghost use Rattle.record_words.specs.Entry.{HasEntryWord};
ghost use Rattle.tries.specs.Content.{Item, item, items};
ghost use Rattle.tries.specs.Keys.{IsParted};
ghost use Rattle.tries.specs.Tree.{Tree, subtrie};
ghost use Rattle.record_words.specs.declared.records.Rec.TheVariants.{Leaf as a_leaf};

use crate::records::{put_leaf, put_node, put_root, put_uncommitted};
use crate::tips::{Tip, build_node, merge_tips};
use compound_node::Entry;
use key_bits::{Key, mismatch};
use record_words::{
    ANCHOR_WORD, EPOCH_WORD, LEAF_CLASSES, Layout, MAX_ENTRIES, RECORD_KINDS, Tag,
    count_leaf_words, pack_state,
};
use std::alloc::{AllocError, Global};

/// Why a pair was not taken. The pairs before it stay.
#[derive(Clone, Copy, PartialEq, Eq)]
pub enum LoadFault {
    /// The key is not above the last one.
    NotRising,
    /// No leaf record with room for the key is left.
    LeavesFull,
    /// Too few node records are left.
    NodesFull,
    /// Memory is refused.
    Memory,
}

/// A piece of the tree, whose tips stand together: how many they are, and the height that a node of them has.
#[derive(Clone, Copy)]
pub(crate) struct StackedPiece {
    pub(crate) count: usize,
    pub(crate) height: u16,
}

/// Where the next leaf belongs.
#[derive(Clone, Copy)]
pub(crate) struct NextLeaf {
    /// Of the fork before the leaf; 0 for the first leaf.
    fork_position: u16,
    /// Of the leaf's record.
    record_number: u32,
}

/// How two pieces become one: which of them is closed before, and the height of a node of all.
#[derive(Clone, Copy)]
struct JoinPlan {
    closes_left: bool,
    closes_right: bool,
    height: u16,
}

/// The words of a table, the last key, and the pieces of the tree so far.
#[derive(Drop)]
pub(crate) struct Builder {
    pub(crate) layout: Layout,
    pub(crate) words: Vec<u64>,
    last: Key,
    tips: Vec<Tip>,
    pieces: Vec<StackedPiece>,
    /// How many node records are taken: those with the lowest numbers.
    pub(crate) nodes: u32,
    /// The number of the first leaf record of each class that is not taken, or of where that would be.
    pub(crate) leaves: [u32; LEAF_CLASSES],
}

impl Builder {
    /// Returns a builder that has taken no pair, for a table of `layout`. `AllocError` if memory is refused.
    pub(crate) fn new(alloc: Global, layout: Layout) -> Result<Builder, AllocError>
        ensures { IfOk result (λ builder. (builder.layout ≡ layout) × IsLoading builder []) }
    {
        let mut words = Vec::from_elem(alloc, 0u64, layout.words())?;
        words[EPOCH_WORD] = 1;
        words[ANCHOR_WORD] = pack_state(Tag::Live);
        Ok(Builder {
            layout,
            words,
            last: Key::empty(),
            tips: Vec::new(alloc),
            pieces: Vec::new(alloc),
            nodes: 0,
            leaves: [
                0,
                layout.medium_from,
                layout.large_from,
                layout.wide_from,
                layout.long_from,
            ],
        })
    }

    /// Returns where the leaf of `key` belongs: the position of the fork before it, and a free record with room for it. The error is
    /// `NotRising` exactly if `key` isn't above the last one. Else it is `LeavesFull` if no leaf record with room for `key` is free. Else
    /// it is `NodesFull` exactly if too few node records may be left, by what is planned (`HasNodesFor`). Then the table has no more node
    /// records than pairs were taken. If it has two or more, at least 32 pairs were taken.
    pub(crate) fn find_next_leaf(&self, key: &Key) -> Result<NextLeaf, LoadFault>
        requires { (xs : List Item) × IsLoading self.now xs }
        ensures next_leaf { IfOk result (λ next_leaf. IsNextLeaf self.now key.now next_leaf.fork_position next_leaf.record_number) }
        ensures rising { (xs : List Item) → IsLoading self.now xs → (result ≡ Err LoadFault.NotRising) ↔ ¬ IsAboveLast xs key.now }
        ensures leaves { (xs : List Item) → IsLoading self.now xs → result ≡ Err LoadFault.LeavesFull →
            (n : ℕ) → n < self.now.layout.leaves → words_for (length key.now) ≤ leaf_size self.now.layout n → IsTakenLeaf xs n }
        ensures lacks { result ≡ Err LoadFault.NodesFull → ¬ HasNodesFor self.now 1 }
        ensures nodes { (xs : List Item) → IsLoading self.now xs → result ≡ Err LoadFault.NodesFull → self.now.layout.nodes ≤ length xs }
        ensures many { (xs : List Item) → IsLoading self.now xs → result ≡ Err LoadFault.NodesFull → 2 ≤ self.now.layout.nodes → 32 ≤ length xs }
    {
        let fork_position = self.fork_before(key)?;
        let Some(record_number) = self.find_leaf(count_leaf_words(key)) else {
            return Err(LoadFault::LeavesFull);
        };
        if !self.has_nodes() {
            return Err(LoadFault::NodesFull);
        }
        Ok(NextLeaf {
            fork_position,
            record_number,
        })
    }

    /// Makes room for one tip more, and one piece more, and changes nothing else. The error is `Memory` if memory is refused. Then some
    /// room may have been made.
    pub(crate) fn reserve(&mut self) -> Result<(), LoadFault>
        ensures same { HasSameFields self.old self.new }
        ensures ok { OnOk result (HasSpace self.new) }
        ensures err { OnErr result (result ≡ Err LoadFault.Memory) }
    {
        if self.tips.reserve(1).is_err() {
            return Err(LoadFault::Memory);
        }
        if self.pieces.reserve(1).is_err() {
            return Err(LoadFault::Memory);
        }
        Ok(())
    }

    /// Takes `key` with `value` as the last pair so far. `next_leaf` is what `find_next_leaf` returned for `key`. There is room for one tip
    /// more and one piece more, which `reserve` has made. The pieces at forks behind the leaf's fork are joined first.
    pub(crate) fn take(&mut self, next_leaf: NextLeaf, key: &Key, value: u64)
        requires next_leaf { IsNextLeaf self.old key.now next_leaf.fork_position next_leaf.record_number }
        requires space { HasSpace self.old }
        requires loading { (xs : List Item) × IsLoading self.old xs }
        ensures taken { (xs : List Item) → IsLoading self.old xs → IsLoading self.new (xs ++ item next_leaf.record_number key.now value ∷ []) }
        ensures layout { self.new.layout ≡ self.old.layout }
    {
        self.join_behind(next_leaf.fork_position);
        self.add_leaf(next_leaf.fork_position, next_leaf.record_number, key, value);
    }

    /// Makes one tree of all pieces, if there are any, and writes the root's entry. Of each kind the first records are committed, as many as
    /// `committed` says, and those that are taken, with one node more. After this the words are finished: they show a tree of the taken
    /// leaves, or none, and at least one node record is in no tree.
    pub(crate) fn close_all(&mut self, committed: &[u32; RECORD_KINDS])
        requires { (xs : List Item) × IsLoading self.old xs }
        ensures finished { (xs : List Item) → IsLoading self.old xs → IsFinished self.old.layout self.new.words.items xs }
        ensures committed { LinksCommitted self.old.layout self.new.words.items }
        ensures all { ((kind : ℕ) → kind < RECORD_KINDS → get_or committed.now kind 0 ≡ 4294967295) → (kind : ℕ) → uncommitted_in self.new.words.items kind ≡ 0 }
    {
        let leaves = self.leaves;
        if self.pieces.is_empty() {
            self.put_header(None, &leaves, committed);
            return;
        }
        let entry = self.close_tree();
        self.put_header(Some(entry), &leaves, committed);
    }

    /// Writes the root's entry, and how many records of each kind are uncommitted (`count_uncommitted`). All other words stay.
    fn put_header(
        &mut self,
        entry: Option<Entry>,
        leaves: &[u32; LEAF_CLASSES],
        committed: &[u32; RECORD_KINDS],
    )
        requires room { FIRST_UNCOMMITTED + RECORD_KINDS ≤ length self.old.words.items }
        requires entry { HasEntryWord entry }
        ensures put { HasHeader entry self.old.words.items self.new.words.items }
        ensures nodes { uncommitted_in self.new.words.items 0 ≤ self.old.layout.nodes - self.old.nodes }
        ensures leaves { (class : ℕ) → class < LEAF_CLASSES →
            uncommitted_in self.new.words.items (suc class) ≤ end_of_class self.old.layout class - get_or leaves.now class 0 }
        ensures all { ((kind : ℕ) → kind < RECORD_KINDS → get_or committed.now kind 0 ≡ 4294967295) → (kind : ℕ) → uncommitted_in self.new.words.items kind ≡ 0 }
    {
        let counts = self.count_uncommitted(leaves, committed);
        let words = self.words.as_mut_slice();
        put_uncommitted(words, &counts);
        put_root(words, entry);
    }

    /// Returns how many records of each kind are uncommitted, if of each kind the first records are committed, as many as `committed` says,
    /// and those that are taken, with one node more. `leaves` has the number of the first leaf record of each class that isn't taken.
    fn count_uncommitted(
        &self,
        leaves: &[u32; LEAF_CLASSES],
        committed: &[u32; RECORD_KINDS],
    ) -> [u32; RECORD_KINDS]
        ensures nodes { get_or result 0 0 ≤ self.now.layout.nodes - self.now.nodes }
        ensures leaves { (class : ℕ) → class < LEAF_CLASSES → get_or result (suc class) 0 ≤ end_of_class self.now.layout class - get_or leaves.now class 0 }
        ensures all { (kind : ℕ) → kind < RECORD_KINDS → get_or committed.now kind 0 ≡ 4294967295 → get_or result kind 0 ≡ 0 }
    {
        let layout = &self.layout;
        [
            count_from(layout.nodes, self.nodes.saturating_add(1), committed[0]),
            count_from(layout.medium_from, leaves[0], committed[1]),
            count_from(
                layout.large_from,
                leaves[1],
                layout.medium_from.saturating_add(committed[2]),
            ),
            count_from(
                layout.wide_from,
                leaves[2],
                layout.large_from.saturating_add(committed[3]),
            ),
            count_from(
                layout.long_from,
                leaves[3],
                layout.wide_from.saturating_add(committed[4]),
            ),
            count_from(
                layout.leaves,
                leaves[4],
                layout.long_from.saturating_add(committed[5]),
            ),
        ]
    }

    /// Makes one tree of all pieces, of which there is one at least. Returns the entry that leads to it: a leaf's, or that of a node with
    /// all remaining tips. The tree's leaves are those that were taken. At least one node record is left.
    fn close_tree(&mut self) -> Entry
        requires { (xs : List Item) × IsStackOf self.old xs }
        ensures tree { (xs : List Item) → IsStackOf self.old xs → (t : Tree) × IsTreeOf self.new t × (items t ≡ xs) × (subtrie t ≡ Place result) }
        ensures entry { HasEntryWord (Some result) }
        ensures spare { self.new.nodes < self.new.layout.nodes }
        ensures layout { self.new.layout ≡ self.old.layout }
    {
        self.join_all();
        let count = self.tips.len();
        self.close_piece(0, count, count > 1);
        self.tips[0].entry
    }

    /// Returns the position of the fork between the last key and `key`; 0 for the first key. The error is `NotRising`, exactly if `key` is
    /// not above the last one.
    fn fork_before(&self, key: &Key) -> Result<u16, LoadFault>
        ensures first { IfOk result (λ p. vec_len self.now.pieces ≡ 0 → p ≡ 0) }
        ensures parted { IfOk result (λ p. 0 < vec_len self.now.pieces → IsParted p self.now.last key.now) }
        ensures above { OnOk result (0 < vec_len self.now.pieces → key_order self.now.last key.now ≡ Less) }
        ensures fault { OnErr result ((result ≡ Err LoadFault.NotRising) × (0 < vec_len self.now.pieces) × (key_order self.now.last key.now ≢ Less)) }
    {
        if self.pieces.is_empty() {
            return Ok(0);
        }
        let Some(position) = mismatch(&self.last, key) else {
            return Err(LoadFault::NotRising);
        };
        if key.bit(position) {
            Ok(position)
        } else {
            Err(LoadFault::NotRising)
        }
    }

    /// Returns the number of a free leaf record of at least `words` words; `None` if there is none. It is the next record of the first
    /// class that has such a record. So a short key takes no long record while a short one is free.
    fn find_leaf(&self, words: usize) -> Option<u32>
        requires { length self.now.words.items ≡ word_count self.now.layout }
        ensures found { IfSome result (λ n. (n < self.now.layout.leaves) × (words ≤ leaf_size self.now.layout n) ×
            (state_in self.now.layout self.now.words.items (a_leaf n) ≡ state_word FreeTag) × (get_or self.now.leaves (leaf_class self.now.layout n) 0 ≡ n)) }
        ensures none { HasCursors self.now → IsNone result → (n : ℕ) → n < self.now.layout.leaves → words ≤ leaf_size self.now.layout n →
            state_in self.now.layout self.now.words.items (a_leaf n) ≢ state_word FreeTag }
    {
        for class in 0..LEAF_CLASSES {
            let number = self.leaves[class];
            if self.layout.leaf_size(number) >= words && self.is_free(class, number) {
                return Some(number);
            }
        }
        None
    }

    /// Returns whether the leaf record `number` is of the class with the number `class`, and free.
    fn is_free(&self, class: usize, number: u32) -> bool
        requires { length self.now.words.items ≡ word_count self.now.layout }
        ensures { IsTrue result ↔ ((number < self.now.layout.leaves) × (leaf_class self.now.layout number ≡ class) ×
            (state_in self.now.layout self.now.words.items (a_leaf number) ≡ state_word FreeTag)) }
    {
        number < self.layout.leaves
            && class_number(&self.layout, number) == class
            && self.words[self.layout.leaf(number)] == pack_state(Tag::Free)
    }

    /// Returns whether, by one of three bounds, node records are left to close all pieces with one leaf more, and one besides. That leaf is
    /// one tip and one piece more. The first bound is two records for each piece: a join makes one piece of two and closes both at most,
    /// and the last piece takes one. The second is one record for each tip: a node takes the place of two tips or more. The third is that
    /// one node has room for all tips (`fits_one_node`).
    fn has_nodes(&self) -> bool
        ensures { IsTrue result ↔ HasNodesFor self.now 1 }
    {
        let left = self.layout.nodes.saturating_sub(self.nodes) as usize;
        left / 2 > self.pieces.len() || left > self.tips.len() || self.fits_one_node()
    }

    /// Returns whether no node record is taken, one node has room for all tips and one more, and another node record is left.
    fn fits_one_node(&self) -> bool
        ensures { IsTrue result ↔ FitsOneNode self.now 1 }
    {
        self.nodes == 0 && self.tips.len() < MAX_ENTRIES && self.layout.nodes > 1
    }

    /// Writes the leaf of `key` and `value` into the free record `leaf`, which has room for them. Puts the leaf on top as a piece of its
    /// own, behind a fork at `fork`. There is memory for one tip and one piece more. The record after `leaf` is then the next of its class.
    fn add_leaf(&mut self, fork: u16, leaf: u32, key: &Key, value: u64)
        requires space { HasSpace self.old }
        requires leaf { leaf < self.old.layout.leaves }
        requires room { words_for (length key.now) ≤ leaf_size self.old.layout leaf }
        requires free { state_in self.old.layout self.old.words.items (a_leaf leaf) ≡ state_word FreeTag }
        requires table { IsRootless self.old.layout self.old.words.items }
        ensures taken { (xs : List Item) → HasNodesFor self.old 1 → MayTakeNext self.old xs fork key.now →
            EndsInLeaf self.new (xs ++ item leaf key.now value ∷ []) }
        ensures cursors { HasCursors self.old → get_or self.old.leaves (leaf_class self.old.layout leaf) 0 ≡ leaf → HasCursors self.new }
        ensures layout { self.new.layout ≡ self.old.layout }
    {
        put_leaf(self.words.as_mut_slice(), &self.layout, leaf, key, value);
        self.tips.push_reserved(Tip {
            fork,
            entry: Entry::Leaf(leaf),
        });
        self.pieces.push_reserved(StackedPiece {
            count: 1,
            height: 0,
        });
        self.last = key.copy();
        self.leaves[class_number(&self.layout, leaf)] = leaf + 1;
    }

    /// Joins the pieces at forks behind `position`, from the last one on. It ends when the fork before the top piece is before `position`,
    /// or the piece is the only one. Leaf records stay, and node records are left for as many more leaves as before.
    fn join_behind(&mut self, position: u16)
        requires { (xs : List Item) × CanJoin self.old xs position }
        ensures behind { (xs : List Item) → CanJoin self.old xs position → CanPart self.new xs position }
        ensures kept { KeepsNodes self.old self.new }
    {
        'joins: while self.pieces.len() > 1 {
            let count = self.pieces[self.pieces.len() - 1].count;
            if self.tips[self.tips.len() - count].fork < position {
                return;
            }
            self.join_last();
        }
    }

    /// Joins all pieces, of which there is one at least, into one with at most 32 tips and the same leaves. Node records are left to close
    /// that piece, and one besides. The loop's label names it for the proof.
    fn join_all(&mut self)
        requires { (xs : List Item) × IsStackOf self.old xs }
        ensures alone { (xs : List Item) → IsStackOf self.old xs → (t : Tree) × IsOnePiece self.new t xs }
        ensures layout { self.new.layout ≡ self.old.layout }
    {
        'joins: while self.pieces.len() > 1 {
            self.join_last();
        }
    }

    /// Makes one piece of the last two pieces, at the fork between them. A piece that is lower than the other one is closed before. If one
    /// node then has no room for their tips, each piece of several tips is closed (`plan_join`). Leaf records stay, and node records are
    /// left for as many more leaves as before.
    fn join_last(&mut self)
        requires several { 2 ≤ vec_len self.old.pieces }
        requires stack { (xs : List Item) × IsStackOf self.old xs }
        ensures joined { (xs : List Item) (s : IsStackOf self.old xs) → IsJoined self.new xs s.levels }
        ensures pieces { vec_len self.new.pieces + 1 ≡ vec_len self.old.pieces }
        ensures kept { KeepsNodes self.old self.new }
    {
        let top = self.pieces.len() - 1;
        let (left, right) = (self.pieces[top - 1], self.pieces[top]);
        let plan = plan_join(left, right);
        let behind = self.close_piece(0, right.count, plan.closes_right);
        let count = self.close_piece(behind, left.count, plan.closes_left) + behind;
        let _ = self.pieces.pop();
        self.pieces[top - 1] = StackedPiece {
            count,
            height: plan.height,
        };
    }

    /// Closes the piece of `count` tips before the last `behind` ones, if `closes` is true: a node of its tips is written, and the node's
    /// entry replaces them. For that the piece has 2 to 32 tips, and a node record is left. Returns how many tips the piece has afterwards:
    /// 1 if it was closed, and else `count`. The tree keeps its leaves, and the builder its layout, its last key and its leaf records.
    /// `pieces` stays, too: the caller writes the count there.
    fn close_piece(&mut self, behind: usize, count: usize, closes: bool) -> usize
        requires fits { behind + count ≤ vec_len self.old.tips }
        requires room { IsTrue closes → (2 ≤ count) × (count ≤ 32) × (self.old.nodes < self.old.layout.nodes) }
        requires piece { (ls : List LeftPiece) × (z : Tree) × (right : Maybe LeftPiece) × IsPiece self.old ls z right count behind }
        ensures closed { (ls : List LeftPiece) (z : Tree) (right : Maybe LeftPiece) → IsPiece self.old ls z right count behind →
            (y : Tree) × MayTakePlaceOf y z result × IsTreeOf self.new (whole_of ls (with_right y right)) }
        ensures pieces { self.new.pieces ≡ self.old.pieces }
        ensures nodes { self.new.nodes ≡ self.old.nodes + (if closes then 1 else 0) }
        ensures count { result ≡ (if closes then 1 else count) }
        ensures tips { vec_len self.new.tips + count ≡ vec_len self.old.tips + result }
        ensures kept { KeepsLeaves self.old self.new }
    {
        if !closes {
            return count;
        }
        self.write_piece(behind, count);
        1
    }

    /// Writes a node of the `count` tips, 2 to 32, before the last `behind` ones, and replaces these tips by the node's entry. The tree
    /// keeps its leaves, and the builder its layout, its last key, its leaf records and `pieces`. Never inline: the memory of its locals is
    /// cleared at each call.
    #[inline(never)]
    fn write_piece(&mut self, behind: usize, count: usize)
        requires fits { behind + count ≤ vec_len self.old.tips }
        requires room { (2 ≤ count) × (count ≤ 32) × (self.old.nodes < self.old.layout.nodes) }
        requires piece { (ls : List LeftPiece) × (z : Tree) × (right : Maybe LeftPiece) × IsPiece self.old ls z right count behind }
        ensures closed { (ls : List LeftPiece) (z : Tree) (right : Maybe LeftPiece) → IsPiece self.old ls z right count behind →
            (y : Tree) × MayTakePlaceOf y z 1 × IsTreeOf self.new (whole_of ls (with_right y right)) }
        ensures pieces { self.new.pieces ≡ self.old.pieces }
        ensures nodes { self.new.nodes ≡ self.old.nodes + 1 }
        ensures tips { vec_len self.new.tips + count ≡ vec_len self.old.tips + 1 }
        ensures kept { KeepsLeaves self.old self.new }
    {
        let start = self.tips.len() - behind - count;
        let node = build_node(&self.tips[start..start + count]);
        let number = self.nodes;
        put_node(self.words.as_mut_slice(), &self.layout, number, &node);
        self.nodes = number + 1;
        let height = node.height();
        merge_tips(&mut self.tips, start, count, Entry::Node { number, height });
    }
}

/// Returns the number of the class of the leaf record `number`, from 0 for the shortest on.
fn class_number(layout: &Layout, number: u32) -> usize
    ensures class { result ≡ leaf_class layout.now number }
    ensures few { result < LEAF_CLASSES }
{
    if number < layout.medium_from {
        0
    } else if number < layout.large_from {
        1
    } else if number < layout.wide_from {
        2
    } else if number < layout.long_from {
        3
    } else {
        4
    }
}

/// Returns how `left` and `right`, of at most 32 tips each, become one piece. The lower one is closed if it has several tips, so that its
/// node stands beside entries of the other. If one node then has no room for all tips, each piece of several tips is closed. `height` is
/// that of a node of the tips left. If both are pieces of leaves alone that fit one node, neither is closed, and `height` is 1.
fn plan_join(left: StackedPiece, right: StackedPiece) -> JoinPlan
    requires { (left.count ≤ 32) × (right.count ≤ 32) }
    ensures few { (if result.closes_left then 1 else left.count) + (if result.closes_right then 1 else right.count) ≤ 32 }
    ensures left { IsTrue result.closes_left → 2 ≤ left.count }
    ensures right { IsTrue result.closes_right → 2 ≤ right.count }
    ensures even { IsOfLeaves left → IsOfLeaves right → left.count + right.count ≤ 32 → (result.closes_left ≡ false) × (result.closes_right ≡ false) }
    ensures low { IsOfLeaves left → IsOfLeaves right → result.closes_left ≡ false → result.closes_right ≡ false → result.height ≡ 1 }
{
    let height = left.height.max(right.height).max(1);
    let closes_left = left.height < height && left.count > 1;
    let closes_right = right.height < height && right.count > 1;
    let left_count = if closes_left { 1 } else { left.count };
    let right_count = if closes_right { 1 } else { right.count };
    if left_count + right_count <= MAX_ENTRIES {
        return JoinPlan {
            closes_left,
            closes_right,
            height,
        };
    }
    JoinPlan {
        closes_left: left.count > 1,
        closes_right: right.count > 1,
        height: height.saturating_add(1),
    }
}

/// Returns how many numbers below `end` are neither below `taken` nor below `committed`.
fn count_from(end: u32, taken: u32, committed: u32) -> u32
    ensures { result ≡ end - max taken committed }
{
    end.saturating_sub(taken.max(committed))
}
