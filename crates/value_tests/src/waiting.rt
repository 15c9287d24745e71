//! Threads that each wait until they find what the other one does.

ghost use Rattle.std.specs.Prelude.{◌≡◌};

use crate::shared::*;
use hot_index::{Handle, Index, Key, Reply};
use std::process::Abort;
use std::sync::Wait;
use std::test::*;
use std::thread;
use std::thread::{Threads, join};

/// How often a thread looks for a key before it gives up.
const MAX_LOOKS: u32 = 1_000_000;

/// Looks for `key` until it is found, at most `MAX_LOOKS` times. Returns whether it was found.
fn wait_for_key(guest: &mut Handle<&Index>, key: &Key) -> bool
    ensures { guest.new.index ≡ guest.old.index }
{
    for _ in 0..MAX_LOOKS {
        if guest.get(key).is_some() {
            return true;
        }
        thread::yield_now();
    }
    false
}

/// Inserts `own`, and then waits for `other`. Returns whether both succeeded, and the handle.
fn insert_and_find<'a, R: Wait>(
    rt: &R,
    mut guest: Handle<&'a Index>,
    own: &Key,
    other: &Key,
) -> (bool, Handle<&'a Index>)
    ensures { result.1.index ≡ guest.entry.index }
{
    let told = guest.insert(rt, own, 1);
    (
        wait_for_key(&mut guest, other) && told == Ok(Reply::Inserted),
        guest,
    )
}

/// Two threads each insert a key and wait for the other's, by handles at one index. Asserts that each finds the other's key. Asserts that
/// each pass finds both keys once the passes have met.
fn wait_for_each_other<R: Abort + Threads + Wait + Sync>(
    rt: &R,
    first: Handle<&Index>,
    second: Handle<&Index>,
    keys: &(Key, Key),
)
    requires { second.index ≡ first.index }
{
    let (ours, theirs) = join(
        rt,
        || -> (bool, Handle<&Index>)
            ensures { result.1.index ≡ first.entry.index }
        { insert_and_find(rt, first, &keys.0, &keys.1) },
        || -> (bool, Handle<&Index>)
            ensures { result.1.index ≡ second.entry.index }
        { insert_and_find(rt, second, &keys.1, &keys.0) },
    );
    assert!(rt; ours.0 && theirs.0);
    let (mut first, mut second) = ours.1.meet(theirs.1);
    expect_both_keys(rt, &mut first, keys);
    expect_both_keys(rt, &mut second, keys);
}

/// Asserts that `guest` finds both keys, with the value 1.
fn expect_both_keys(rt: &impl Abort, guest: &mut Handle<&Index>, keys: &(Key, Key)) {
    assert!(rt; guest.get(&keys.0) == Some(1) && guest.get(&keys.1) == Some(1));
}

/// Each of two threads finds the key of the other; both passes find both keys once they have met. A wait would end without the key if the
/// threads ran one after another, or if look-ups didn't load what others have stored.
#[test]
fn threads_find_each_others_keys(rt: HostRuntime) {
    let (index, mut passes) = make_index(&rt, rt.alloc(), 2);
    let first = Handle::new(&index, pop_pass(&rt, &index, &mut passes));
    let second = Handle::new(&index, pop_pass(&rt, &index, &mut passes));
    let keys = (key(&rt, &[0]), key(&rt, &[1]));
    wait_for_each_other(&rt, first, second, &keys);
}
