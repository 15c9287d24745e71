//! Two threads that add to one value.

ghost use Rattle.hot_index_calls.specs.Passes.{Owns};

use crate::shared::*;
use hot_index::{Handle, Index, Key, Pass, Reply};
use std::process::Abort;
use std::sync::Wait;
use std::test::*;
use std::thread::{Threads, join};

/// How often each thread adds.
const TIMES: u64 = 1000;

/// Adds one to the value of `key`, `TIMES` times. Returns how often the key was there.
fn add_many_times<R: Wait>(rt: &R, index: &Index, pass: Pass, key: &Key) -> u64
    requires { Owns index.now pass }
{
    let mut guest = Handle::new(index, pass);
    let mut added: u64 = 0;
    for _ in 0..TIMES {
        if matches!(guest.add(rt, key, 1), Ok(Reply::Was(_))) {
            added = added.wrapping_add(1);
        }
    }
    added
}

/// Two passes add to the value of `key` at the same time, each in a thread. Returns how often each found it there.
fn add_in_threads<R: Threads + Wait + Sync>(
    rt: &R,
    index: &Index,
    passes: (Pass, Pass),
    key: &Key,
) -> (u64, u64)
    requires first { Owns index.now passes.0 }
    requires second { Owns index.now passes.1 }
{
    let (first, second) = passes;
    join(
        rt,
        || -> u64
            requires { Owns index.now first }
        { add_many_times(rt, index, first, key) },
        || -> u64
            requires { Owns index.now second }
        { add_many_times(rt, index, second, key) },
    )
}

/// Asserts that an add leaves `key` absent while it is absent, as at first. Once the key is there, an add gives it the sum, modulo 2^64. In
/// the end it has the value 0.
fn add_by_one_pass(rt: &(impl Abort + Wait), index: &Index, pass: &mut Pass, key: &Key)
    requires { Owns index.now pass.old }
    ensures { Owns index.now pass.new }
{
    assert!(rt; index.add(rt, pass, key, 1) == Ok(Reply::Absent));
    assert!(rt; index.try_add(pass, key, 1) == Ok(Reply::Absent));
    assert!(rt; index.insert(rt, pass, key, u64::MAX) == Ok(Reply::Inserted));
    assert!(rt; index.try_add(pass, key, 2) == Ok(Reply::Was(u64::MAX)));
    assert!(rt; index.add(rt, pass, key, u64::MAX) == Ok(Reply::Was(1)));
    assert!(rt; index.get(pass, key) == Some(0));
}

/// Sums of one pass go beyond the greatest number to 0. Two threads that add at the same time lose nothing: they would if an add loaded a
/// value and stored the sum without the lock.
#[test]
fn concurrent_adds_lose_nothing(rt: HostRuntime) {
    let (index, mut passes) = make_index(&rt, rt.alloc(), 3);
    let first = pop_pass(&rt, &index, &mut passes);
    let second = pop_pass(&rt, &index, &mut passes);
    let mut last = pop_pass(&rt, &index, &mut passes);
    let one = key(&rt, &[1]);
    add_by_one_pass(&rt, &index, &mut last, &one);
    let added = add_in_threads(&rt, &index, (first, second), &one);
    assert!(rt; added == (TIMES, TIMES));
    assert!(rt; index.get(&mut last, &one) == Some(2 * TIMES));
}
