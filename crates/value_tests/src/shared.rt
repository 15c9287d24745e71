//! What the tests share: keys, and an index with its passes.

ghost use Rattle.std.specs.Prelude.{All};
ghost use Rattle.hot_index_calls.specs.Passes.{Owns};

use hot_index::{
    ClosedHandle, ClosedPass, Event, Gate, Handle, Index, IndexFault, Key, Pass, create,
};
use std::alloc::Global;
use std::process::Abort;

/// A gate that counts steps.
#[derive(Drop)]
pub struct Counter {
    pub steps: u64,
}

impl Gate for Counter {
    ghost becomes = { λ _ _ _. Unit {0} };

    /// Counts the step.
    fn at(&mut self, _event: &Event) {
        self.steps = self.steps.wrapping_add(1);
    }
}

/// Returns the key with the bytes `bytes`; panics if they are more than 240.
pub fn key(rt: &impl Abort, bytes: &[u8]) -> Key {
    match Key::from_bytes(bytes) {
        Ok(key) => key,
        Err(_) => panic!(rt; "over 240 bytes"),
    }
}

/// Returns the lowest and the highest of all keys.
pub fn ends(rt: &impl Abort) -> (Key, Key) {
    (key(rt, b""), key(rt, &[255; 240]))
}

/// Returns an index of two nodes and eight leaves with `passes` passes, and these passes. Where memory is refused once, the next call makes
/// it.
pub fn make_index(rt: &impl Abort, alloc: Global, passes: u32) -> (Index, Vec<Pass>)
    ensures { All (Owns result.0) result.1.items }
{
    make_index_of_size(rt, alloc, passes, 2, 8)
}

/// Returns an index of these numbers of passes, node and leaf records, and its passes. Where memory is refused once, the next call makes
/// it. Panics if a number is out of range.
pub fn make_index_of_size(
    rt: &impl Abort,
    alloc: Global,
    passes: u32,
    nodes: u32,
    leaves: u32,
) -> (Index, Vec<Pass>)
    ensures { All (Owns result.0) result.1.items }
{
    match create(alloc, passes, nodes, leaves) {
        Ok(made) => made,
        Err(fault) => {
            assert!(rt; matches!(fault, IndexFault::Memory));
            make_index_again(rt, alloc, passes, nodes, leaves)
        }
    }
}

/// Creates the index of `make_index_of_size` at a second try. Panics if that is refused too.
fn make_index_again(
    rt: &impl Abort,
    alloc: Global,
    passes: u32,
    nodes: u32,
    leaves: u32,
) -> (Index, Vec<Pass>)
    ensures { All (Owns result.0) result.1.items }
{
    match create(alloc, passes, nodes, leaves) {
        Ok(made) => made,
        Err(_) => panic!(rt; "no index"),
    }
}

/// Takes the last of `passes`, which are of `index`, out of them. Panics if there is none.
pub fn pop_pass(rt: &impl Abort, index: &Index, passes: &mut Vec<Pass>) -> Pass
    requires { All (Owns index.now) passes.old.items }
    ensures one { Owns index.now result }
    ensures rest { All (Owns index.now) passes.new.items }
{
    let _ = index;
    match passes.pop() {
        Some(pass) => pass,
        None => panic!(rt; "no pass"),
    }
}

/// Opens the handle `closed`, with buffers of `alloc`. Panics if memory is refused.
pub fn open_handle<'a>(
    rt: &impl Abort,
    alloc: Global,
    closed: ClosedHandle<&'a Index>,
) -> Handle<&'a Index> {
    match closed.open(alloc) {
        Ok(handle) => handle,
        Err(_) => panic!(rt; "no memory"),
    }
}

/// Takes the last of `passes` out, and opens a handle of it at `index`. Panics if there is none.
pub fn open_last_handle<'a>(
    rt: &impl Abort,
    alloc: Global,
    index: &'a Index,
    passes: &mut Vec<ClosedPass>,
) -> Handle<&'a Index>
    requires { All (Owns index.now) passes.old.items }
    ensures { All (Owns index.now) passes.new.items }
{
    match passes.pop() {
        Some(pass) => open_handle(rt, alloc, ClosedHandle::new(index, pass)),
        None => panic!(rt; "no pass"),
    }
}
