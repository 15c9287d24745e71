//! A loader: the words of a table, made from pairs whose keys rise.

use crate::builder::{Builder, LoadFault};
use key_bits::Key;
use record_words::{LEAF_CLASSES, Layout, RECORD_KINDS};
use std::alloc::{AllocError, Global};
use std::marker::Model;

/// The words of a table into which pairs are loaded. Contracts see the layout of the table, and the leaf records that were taken, with
/// their keys and values, in key order.
#[derive(Drop)]
pub struct Loader {
    builder: Builder,
}

impl Model for Loader {
    ghost use Rattle.bulk_load.specs.Views.{LoadView};

    ghost Value = { LoadView };

    ghost use Rattle.bulk_load.specs.Loading.{IsLoading, items_in};

    ghost view = { λ l. record { layout = l.builder.layout; items = items_in l.builder } };

    ghost invariant = { λ l. IsLoading l.builder (items_in l.builder) };
}

impl Loader {
    ghost use Rattle.std.specs.Prelude.{◌≡◌, ◌↔◌, ◌≤◌, ◌<◌, ℕ, Err, IfOk, OnErr, OnOk, get_or, length};
    ghost use Rattle.tries.specs.Content.{item};
    ghost use Rattle.record_words.specs.Layout.{uncommitted_in};
    ghost use Rattle.record_words.specs.declared.records.Rec.TheVariants.{Node as a_node};
    ghost use Rattle.versions.specs.State.{IsLinked};
    ghost use Rattle.versions.specs.Told.{items_of};
    ghost use Rattle.rowex_core.specs.Events.{IsLoad, after, loaded_tree};
    ghost use Rattle.rowex_core.specs.Opening.{opening};
    ghost use Rattle.rowex_core.specs.Words.{Shows};
    ghost use Rattle.bulk_load.specs.Finished.{LinksCommitted};
    ghost use Rattle.bulk_load.specs.Tables.{leaf_class};
    ghost use Rattle.record_words.specs.declared.TheConstants.{RECORD_KINDS};
    ghost use Rattle.bulk_load.specs.Views.{HasNoRoomFor, IsAboveLast, IsTakenLeaf, load_act, no_items, with_item};

    /// Returns a loader that has taken no pair, for a table of `layout`. `AllocError` if memory is refused.
    pub fn new(alloc: Global, layout: Layout) -> Result<Loader, AllocError>
        ensures { IfOk result (λ loader. loader ≡ no_items layout) }
    {
        Ok(Loader {
            builder: Builder::new(alloc, layout)?,
        })
    }

    /// Returns how many passes and records the table has.
    pub fn layout(&self) -> Layout
        ensures { result ≡ self.now.layout }
    {
        self.builder.layout
    }

    /// Returns the number of the first node record that is not taken so far: just those with lower numbers are taken. It is a hint of where
    /// claims begin. So the contract has its bound alone: it is at most the number of pairs taken.
    pub fn first_free_node(&self) -> u32
        ensures { result ≤ length self.now.items }
    {
        self.builder.nodes
    }

    /// Returns for each class the number of its first leaf record that is not taken, or the number behind its last. Just the records of the
    /// class below that number are taken.
    pub fn first_free_leaves(&self) -> [u32; LEAF_CLASSES]
        ensures { (n : ℕ) → n < self.now.layout.leaves → IsTakenLeaf self.now.items n ↔ (n < get_or result (leaf_class self.now.layout n) 0) }
    {
        self.builder.leaves
    }

    /// Takes `key` with `value`, as the last pair. The error is `NotRising` exactly if `key` isn't above the last one. It is `LeavesFull`
    /// only if no leaf record with room for `key` is left. It is `NodesFull` only if the table has no more node records than pairs were
    /// taken. In a table of two node records or more it comes after 32 pairs at the earliest. It is `Memory` if memory is refused. After an
    /// error the pairs are as before.
    pub fn push(&mut self, key: &Key, value: u64) -> Result<(), LoadFault>
        ensures taken { OnOk result ((n : ℕ) × (self.new ≡ with_item self.old (item n key.now value))) }
        ensures refused { OnErr result (self.new ≡ self.old) }
        ensures rising { (result ≡ Err LoadFault.NotRising) ↔ ¬ IsAboveLast self.old.items key.now }
        ensures leaves { result ≡ Err LoadFault.LeavesFull → HasNoRoomFor self.old key.now }
        ensures nodes { result ≡ Err LoadFault.NodesFull → self.old.layout.nodes ≤ length self.old.items }
        ensures many { result ≡ Err LoadFault.NodesFull → 2 ≤ self.old.layout.nodes → 32 ≤ length self.old.items }
    {
        let next_leaf = self.builder.find_next_leaf(key)?;
        self.builder.reserve()?;
        self.builder.take(next_leaf, key, value);
        Ok(())
    }

    /// Returns the words of the table, as `HotTable::new_loaded` takes them. They show one tree, or none, whose leaves are those that were
    /// taken. At least one node record stands in no tree, and all records are committed. It asks for no memory, and never fails.
    pub fn finish(self) -> Vec<u64>
        ensures load { IsLoad self.layout result.items }
        ensures shows { Shows (after (opening self.layout) 0 (load_act result.items)) result.items }
        ensures items { items_of (loaded_tree self.layout result.items) ≡ self.items }
        ensures spare { (n : ℕ) × (n < self.layout.nodes) × ¬ IsLinked (loaded_tree self.layout result.items) (a_node n) }
        ensures committed { (kind : ℕ) → uncommitted_in result.items kind ≡ 0 }
    {
        self.finish_reserved(&[u32::MAX; RECORD_KINDS])
    }

    /// Returns the words of the table, as `finish` does. Of each kind the first records are committed, as many as `committed` says: of nodes, and
    /// then of each leaf class. So are those that were taken, with one node more. The others are uncommitted.
    pub fn finish_reserved(self, committed: &[u32; RECORD_KINDS]) -> Vec<u64>
        ensures load { IsLoad self.layout result.items }
        ensures shows { Shows (after (opening self.layout) 0 (load_act result.items)) result.items }
        ensures items { items_of (loaded_tree self.layout result.items) ≡ self.items }
        ensures spare { (n : ℕ) × (n < self.layout.nodes) × ¬ IsLinked (loaded_tree self.layout result.items) (a_node n) }
        ensures committed { LinksCommitted self.layout result.items }
        ensures all { ((kind : ℕ) → kind < RECORD_KINDS → get_or committed.now kind 0 ≡ 4294967295) → (kind : ℕ) → uncommitted_in result.items kind ≡ 0 }
    {
        let mut builder = self.builder;
        builder.close_all(committed);
        builder.words
    }
}
