//! How the index is used: two threads fill it at the same time, their passes meet, and several kinds of calls find what both wrote.
#![tactic(auto)]

ghost use Rattle.std.specs.Prelude.{◌≡◌, ℕ, [], ◌∷◌, IfSome, Some, length, slice_get};
ghost use Rattle.finite_map.specs.declared.Call.TheVariants.{Insert};
ghost use Rattle.hot_index_calls.specs.Passes.{IsNewPass, Owns, PassView};
ghost use Rattle.hot_example.specs.Ended.{HasMadeCalls, HaveEnded};

use hot_index::{Cursor, Handle, Index, IndexFault, Key, Pairs, Pass, create, total};
use std::io;
use std::io::ErrorKind;
use std::sync::Wait;
use std::thread::{Threads, join};

/// Inserts the key of `one` and then that of `two`, each with its value, by the calls of `handle`. A key that has a value already keeps it.
/// A key is left out if no record is free. Returns the handle, at the same index. If its pass was new, these two calls are all that it has
/// asked.
fn put_both<'a, R: Wait>(
    rt: &R,
    mut handle: Handle<&'a Index>,
    one: (&Key, u64),
    two: (&Key, u64),
) -> Handle<&'a Index>
    ensures index { result.index ≡ handle.entry.index }
    ensures asked { (q : ℕ) → IsNewPass q handle.entry.pass → HasMadeCalls q (Insert one.entry.0.now one.entry.1 ∷ Insert two.entry.0.now two.entry.1 ∷ []) result }
{
    // The handle is opened: its pass belongs to its index.
    let _pass = &handle.pass;
    let _ = handle.insert(rt, one.0, one.1);
    let _ = handle.insert(rt, two.0, two.1);
    handle
}

/// Inserts keys by two threads, each with one of `handles`, of new passes: `ash` and `oak` by the first, `oak` and `yew` by the second.
/// Then it lets these passes meet, and returns the handles. They must be new, numbers 0 and 1, and the only passes of the index. The
/// passes' calls have ended in one run, and so are linearizable.
fn fill_together<'a, R: Threads + Wait + Sync>(
    rt: &R,
    handles: (Handle<&'a Index>, Handle<&'a Index>),
    ash: &Key,
    oak: &Key,
    yew: &Key,
) -> (Handle<&'a Index>, Handle<&'a Index>)
    requires index { handles.1.index ≡ handles.0.index }
    requires alone { handles.0.index.layout.passes ≡ 2 }
    requires first { IsNewPass 0 handles.0.pass }
    requires second { IsNewPass 1 handles.1.pass }
    ensures { HaveEnded handles.entry.0.index (Insert ash.now 1 ∷ Insert oak.now 2 ∷ []) (Insert oak.now 3 ∷ Insert yew.now 4 ∷ []) result.0 result.1 }
{
    // Each thread has a handle of its own: a pass, at the index.
    let (first, second) = handles;
    let (first, second) = join(
        rt,
        || -> Handle<&Index>
            ensures index { result.index ≡ first.entry.index }
            ensures asked { (q : ℕ) → IsNewPass q first.entry.pass → HasMadeCalls q (Insert ash.entry.now 1 ∷ Insert oak.entry.now 2 ∷ []) result }
        { put_both(rt, first, (ash, 1), (oak, 2)) },
        || -> Handle<&Index>
            ensures index { result.index ≡ second.entry.index }
            ensures asked { (q : ℕ) → IsNewPass q second.entry.pass → HasMadeCalls q (Insert oak.entry.now 3 ∷ Insert yew.entry.now 4 ∷ []) result }
        { put_both(rt, second, (oak, 3), (yew, 4)) },
    );

    // Once they have met, each has seen what both wrote; the first insert of a key stays.
    first.meet(second)
}

/// Returns `passes`, which must be the two new passes of the index, in their order. The result is never `None`, but no clause says so.
/// Contracts name the index; the code doesn't read it.
fn take_both(_index: &Index, mut passes: Vec<Pass>) -> Option<(Pass, Pass)>
    requires count { length passes.items ≡ 2 }
    requires each { (q : ℕ) (p : PassView) → slice_get passes.items q ≡ Some p → Owns _index.now p × IsNewPass q p }
    ensures first { IfSome result (λ both. Owns _index.now both.0 × IsNewPass 0 both.0) }
    ensures second { IfSome result (λ both. Owns _index.now both.1 × IsNewPass 1 both.1) }
{
    let second = passes.pop()?;
    let first = passes.pop()?;
    Some((first, second))
}

/// Fills an index by two threads, and prints what they find. The error is one of memory refused, or of a write that failed.
fn run_example<R: Threads + Wait + AllocGlobal + Print + Sync>(rt: &R) -> io::Result<()> {
    let (ash, oak, yew) = (key("ash")?, key("oak")?, key("yew")?);
    // Two passes, 64 node records and 1,024 leaf records.
    let (index, passes) = create(rt.alloc(), 2, 64, 1024).map_err(as_error)?;
    let Some((first, second)) = take_both(&index, passes) else {
        return Ok(());
    };
    let (first, second) = (Handle::new(&index, first), Handle::new(&index, second));
    let (mut first, second) = fill_together(rt, (first, second), &ash, &oak, &yew);
    let counts = [first.count(), second.count()];
    print_reads(rt, &mut first, total(&counts))
}

/// Prints `keys`, how many keys the index has, and what a scan and further reads find. The error is one of memory refused, or of a write
/// that failed.
fn print_reads<R: AllocGlobal + Print>(
    rt: &R,
    first: &mut Handle<&Index>,
    keys: u64,
) -> io::Result<()> {
    println!(rt; "{keys} keys in all")?;
    print_range(rt, first)?;
    print_two_words(rt, first)?;
    print_first_keys(rt, first)
}

/// Scans a range, and prints how many pairs it has. The error is one of memory refused, or of a write that failed.
fn print_range<R: AllocGlobal + Print>(rt: &R, first: &mut Handle<&Index>) -> io::Result<()> {
    let (from, upto) = (key("b")?, key("z")?);
    let scan = first.scan(rt.alloc(), &from, &upto, 10)?;
    println!(rt;
        "{} keys from b to z, more: {}",
        scan.pairs.len(),
        scan.more
    )
}

/// Looks two words up by one call, and prints which of them it found. The error is that of a write that failed.
fn print_two_words(rt: &impl Print, handle: &mut Handle<&Index>) -> io::Result<()> {
    let keys = [key("ash")?, key("elm")?];
    let mut found = [None; 2];
    handle.get_many(&keys, &mut found);
    let (ash, elm) = (found[0].is_some(), found[1].is_some());
    println!(rt; "ash is there: {ash}, elm is there: {elm}")
}

/// Lists the first two keys by a cursor, and prints how many it found. The error is one of memory refused, or of a write that failed.
fn print_first_keys<R: AllocGlobal + Print>(rt: &R, handle: &mut Handle<&Index>) -> io::Result<()> {
    // The next call of the cursor goes on behind these two.
    let mut cursor = Cursor::of_prefix(&key("")?);
    let mut part = Pairs::new(rt.alloc());
    let more = cursor.next_into(handle.index, &mut handle.pass, 2, &mut part)?;
    println!(rt; "the first {} keys, more: {}", part.len(), more)
}

/// Returns the key with the bytes of `text`. The error is `InvalidInput` if there are more than a key may have.
fn key(text: &str) -> io::Result<Key> {
    Key::from_bytes(text.as_bytes()).map_err(|_| io::Error::from(ErrorKind::InvalidInput))
}

/// Returns the error of a program for a fault of `create`: numbers out of range, or out of memory.
fn as_error(fault: IndexFault) -> io::Error {
    io::Error::from(match fault {
        IndexFault::Layout(_) => ErrorKind::InvalidInput,
        IndexFault::Memory => ErrorKind::OutOfMemory,
    })
}

/// Runs the example. The error is that of `run_example`.
fn main(rt: HostRuntime) -> io::Result<()> {
    run_example(&rt)
}
