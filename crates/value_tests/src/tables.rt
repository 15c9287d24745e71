//! Tables that are made from sorted pairs, by value.

use crate::nodes::{key, words_of_leaf, words_of_three};
use bulk_load::{LoadFault, Loader};
use record_words::Layout;
use std::alloc::Global;
use std::process::Abort;

/// Returns a loader for a table of two passes with so many `nodes` and `leaves`. Panics if there is no such table, or no memory.
fn new_loader(rt: &impl Abort, alloc: Global, nodes: u32, leaves: u32) -> Loader {
    let Ok(layout) = Layout::of(2, nodes, leaves) else {
        panic!(rt; "no layout");
    };
    match Loader::new(alloc, layout) {
        Ok(loader) => loader,
        Err(_) => panic!(rt; "no memory"),
    }
}

/// Pushes the key of the one byte `byte`, with its number as the value. Asserts that the pair is refused as `want` says, or is taken if
/// `want` is `None`.
fn expect_push(rt: &impl Abort, loader: &mut Loader, byte: u8, want: Option<LoadFault>) {
    let answer = loader.push(&key(rt, &[byte]), u64::from(byte));
    assert!(rt; answer.err() == want, "{byte}");
}

/// Returns the words of a table of two passes with eight nodes and leaves, which has the keys a, b and c alone.
fn words_of_table() -> [u64; 808] {
    let mut words = [0; 808];
    words[0] = 1;
    words[1] = (1 << 34) + 2;
    words[32] = 2;
    words[80] = 2;
    words[81..138].copy_from_slice(&words_of_three());
    for i in 0..3u8 {
        let start = 544 + 33 * i as usize;
        words[start] = 2;
        let byte = b'a' + i;
        words[start + 1..start + 33].copy_from_slice(&words_of_leaf(byte, u64::from(byte)));
    }
    words
}

/// Three keys make the words of `words_of_table`, worked out by hand from `docs/FORMATS.md`. A key that is not above the last one is
/// refused, and changes none of these words.
#[test]
fn three_keys_are_loaded(rt: HostRuntime) {
    let mut loader = new_loader(&rt, rt.alloc(), 8, 8);
    for (byte, want) in [
        (b'a', None),
        (b'a', Some(LoadFault::NotRising)),
        (b'b', None),
        (b'a', Some(LoadFault::NotRising)),
        (b'c', None),
        (b'c', Some(LoadFault::NotRising)),
    ] {
        expect_push(&rt, &mut loader, byte, want);
    }
    let words = loader.finish();
    assert!(rt; words.as_slice() == words_of_table().as_slice());
}

/// Without a free record a key is refused: of the table's leaves, or of its nodes, of which one is left for removals. So with one node a
/// second key is refused, and with two the thirty-third.
#[test]
fn keys_without_records_are_refused(rt: HostRuntime) {
    for (nodes, leaves, taken, want) in [
        (8, 2, 2, LoadFault::LeavesFull),
        (1, 8, 1, LoadFault::NodesFull),
        (2, 40, 32, LoadFault::NodesFull),
    ] {
        let mut loader = new_loader(&rt, rt.alloc(), nodes, leaves);
        for byte in 0..taken {
            expect_push(&rt, &mut loader, byte, None);
        }
        expect_push(&rt, &mut loader, taken, Some(want));
    }
}
