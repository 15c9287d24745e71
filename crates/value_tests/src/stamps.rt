//! What passes have seen, told to another one by stamps that come with the ends of threads.

ghost use Rattle.std.specs.Prelude.{All};
ghost use Rattle.hot_index_calls.specs.Passes.{Owns};
ghost use Rattle.hot_index.specs.Stamps.{IsStampFrom};

use crate::shared::*;
use hot_index::{Index, Key, Pass, Reply, Stamp};
use std::process::Abort;
use std::sync::Wait;
use std::test::*;
use std::thread::{Threads, join};

/// Inserts `key` with `pass`, which ends then. Returns whether the key was inserted, and a stamp of what the pass had seen.
fn insert_and_stamp<R: Wait>(rt: &R, index: &Index, mut pass: Pass, key: &Key) -> (bool, Stamp)
    requires { Owns index.now pass }
    ensures { IsStampFrom index.now result.1 }
{
    let told = index.insert(rt, &mut pass, key, 1);
    (told == Ok(Reply::Inserted), index.stamp(&mut pass))
}

/// Inserts two keys at the same time, each by a thread. Returns what `insert_and_stamp` does, for each.
fn insert_and_stamp_in_threads<R: Threads + Wait + Sync>(
    rt: &R,
    index: &Index,
    passes: (Pass, Pass),
    keys: &(Key, Key),
) -> ((bool, Stamp), (bool, Stamp))
    requires first { Owns index.now passes.0 }
    requires second { Owns index.now passes.1 }
    ensures first { IsStampFrom index.now result.0.1 }
    ensures second { IsStampFrom index.now result.1.1 }
{
    let (first, second) = passes;
    join(
        rt,
        || -> (bool, Stamp)
            requires { Owns index.now first }
            ensures { IsStampFrom index.entry.now result.1 }
        { insert_and_stamp(rt, index, first, &keys.0) },
        || -> (bool, Stamp)
            requires { Owns index.now second }
            ensures { IsStampFrom index.entry.now result.1 }
        { insert_and_stamp(rt, index, second, &keys.1) },
    )
}

/// Asserts that `last` finds the keys that two passes insert at the same time, once it has followed their stamps.
fn follow_and_find<R: Abort + Threads + Wait + Sync>(
    rt: &R,
    index: &Index,
    passes: (Pass, Pass),
    last: &mut Pass,
)
    requires first { Owns index.now passes.0 }
    requires second { Owns index.now passes.1 }
    requires last { Owns index.now last.old }
{
    let keys = (key(rt, &[0]), key(rt, &[1]));
    let (ours, theirs) = insert_and_stamp_in_threads(rt, index, passes, &keys);
    assert!(rt; ours.0 && theirs.0);
    index.follow(last, ours.1);
    index.follow(last, theirs.1);
    assert!(rt; index.get(last, &keys.0) == Some(1));
    assert!(rt; index.get(last, &keys.1) == Some(1));
}

/// Two threads insert a key each and make stamps; a third pass follows both, and finds both keys. It would miss one if a stamp told less
/// than its pass had seen.
#[test]
fn a_pass_that_follows_stamps_finds_what_they_tell_of(rt: HostRuntime) {
    let (index, mut passes) = make_index(&rt, rt.alloc(), 3);
    let first = pop_pass(&rt, &index, &mut passes);
    let second = pop_pass(&rt, &index, &mut passes);
    let mut last = pop_pass(&rt, &index, &mut passes);
    follow_and_find(&rt, &index, (first, second), &mut last);
}
