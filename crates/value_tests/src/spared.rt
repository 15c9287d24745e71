//! What a full call costs while another pass stays in a call: one sweep of all records, and no second one until it has gone on.

use crate::shared::*;
use hot_index::{Event, Gate, Handle, Index, Key, Reply, TryFault};
use rowex_core::Act;
use std::process::Abort;
use std::test::*;

/// How many nodes are asked for. The index has one more.
const NODES: u32 = 8;

/// How many leaves there are.
const LEAVES: u32 = 3;

/// A handle: a pass with a reference to its index.
type Guest<'a> = Handle<&'a Index>;

/// A gate that lets another pass make three tries to insert `key` once its own pass is pinned, and then remove `held`.
#[derive(Drop)]
struct Stopper<'a> {
    other: Guest<'a>,
    key: Key,
    held: Key,
    /// How many steps each try made that was refused for want of a leaf; 0 for any other.
    steps: [u64; 3],
    /// Whether the key was removed.
    removed: bool,
    /// How many steps one more try made, after the removal.
    after: u64,
}

impl<'a> Gate for Stopper<'a> {
    ghost becomes = { λ _ _ _. Unit {0} };

    /// At the pin of its own pass, lets the other pass make its three tries, the removal, and one more try.
    fn at(&mut self, event: &Event) {
        if matches!(event.act, Act::SetPin { .. }) {
            self.steps = [
                count_full_try(&mut self.other, &self.key),
                count_full_try(&mut self.other, &self.key),
                count_full_try(&mut self.other, &self.key),
            ];
            self.removed = has_removed(&mut self.other, &self.held);
            self.after = count_full_try(&mut self.other, &self.key);
        }
    }
}

/// Tries to insert `key`. Returns how many steps that made, if it was refused for want of a leaf; else 0.
fn count_full_try(guest: &mut Guest, key: &Key) -> u64 {
    let mut counter = Counter { steps: 0 };
    let (index, pass) = (guest.index, &mut guest.pass);
    match index.try_insert_with(pass, key, 1, &mut counter) {
        Err(TryFault::FullLeaves) => counter.steps,
        _ => 0,
    }
}

/// Tries to remove `key`. Returns whether it was removed.
fn has_removed(guest: &mut Guest, key: &Key) -> bool {
    let (index, pass) = (guest.index, &mut guest.pass);
    matches!(index.try_remove(pass, key), Ok(Reply::Removed(_)))
}

/// Tries to insert `key`. Returns whether it was inserted.
fn has_inserted(guest: &mut Guest, key: &Key) -> bool {
    let (index, pass) = (guest.index, &mut guest.pass);
    matches!(index.try_insert(pass, key, 1), Ok(Reply::Inserted))
}

/// One pass fills an index of two, and then tries to insert while the other is in a call. Its first try sweeps all records: it makes a load
/// for each, beside the steps of the next two, which sweep nothing. The key that it removes then stays held back. So one more try is full,
/// again without a sweep. Once the call has ended, the next try finds the record.
#[test]
fn a_full_call_sweeps_once_while_another_is_pinned(rt: HostRuntime) {
    let (index, mut passes) = make_index_of_size(&rt, rt.alloc(), 2, NODES, LEAVES);
    let mut pinned = pop_pass(&rt, &index, &mut passes);
    let mut other = Handle::new(&index, pop_pass(&rt, &index, &mut passes));
    for byte in [0u8, 1, 2] {
        assert!(rt; has_inserted(&mut other, &key(&rt, &[byte])));
    }
    let mut gate = Stopper {
        other,
        key: key(&rt, &[3]),
        held: key(&rt, &[1]),
        steps: [0; 3],
        removed: false,
        after: 0,
    };
    let found = index.get_with(&mut pinned, &key(&rt, &[0]), &mut gate);
    assert!(rt; found == Some(1));
    let Stopper {
        mut other,
        key: new,
        held: _held,
        steps: [first, second, third],
        removed,
        after,
    } = gate;
    assert!(rt; second > 0 && second == third);
    assert!(rt; first.saturating_sub(second) >= u64::from(NODES + 1 + LEAVES));
    assert!(rt; removed && after > 0 && after <= second.saturating_add(64));
    assert!(rt; has_inserted(&mut other, &new));
}
