//! Cursors, which list a range of keys in parts, each by a scan of its own.

ghost use Rattle.std.specs.Prelude.{◌≡◌, [], false, IfOk, None, Ok, OnErr, Some};
ghost use Rattle.hot_index_calls.specs.Answers.{range_from};
ghost use Rattle.hot_index_calls.specs.Calls.{IsListRead};
ghost use Rattle.hot_index.specs.Cursors.{IsLeft, rest_of};
ghost use Rattle.hot_index_calls.specs.Passes.{Owns};
ghost use Rattle.key_ranges.specs.Ranges.{last_with};

use crate::index::{Index, Pass};
use key_bits::Key;
use key_ranges::{last_with_prefix, next_key};
use packed_pairs::Pairs;
use std::alloc::AllocError;
use std::marker::Model;

/// The keys from one to another, both included.
#[derive(Drop)]
pub struct Rest {
    pub from: Key,
    pub upto: Key,
}

/// What is left of a range of keys that is listed in parts. It may be used with any index and any pass.
///
/// Contracts see the keys that are left, or nothing.
#[derive(Drop)]
pub struct Cursor {
    rest: Option<Rest>,
}

impl Model for Cursor {
    ghost use Rattle.std.specs.Prelude.{Option};
    ghost use Rattle.hot_index.specs.declared.cursor.Rest.{Rest};

    ghost Value = { Option Rest };

    ghost view = { λ c. c.rest };
}

impl Cursor {
    /// Returns a cursor at the beginning of the keys from `from` to `upto`, both included.
    pub fn new(from: &Key, upto: &Key) -> Cursor
        ensures { result ≡ Some (rest_of from.now upto.now) }
    {
        let rest = Rest {
            from: from.copy(),
            upto: upto.copy(),
        };
        Cursor { rest: Some(rest) }
    }

    /// Returns a cursor at the beginning of the keys that begin with `prefix`. If `prefix` is the empty key, these are all keys.
    pub fn of_prefix(prefix: &Key) -> Cursor
        ensures { result ≡ Some (rest_of prefix.now (last_with prefix.now)) }
    {
        Cursor::new(prefix, &last_with_prefix(prefix))
    }

    /// Lists the next pairs of the range, at most `limit`, into `pairs`, whose earlier pairs are dropped. Returns whether there are more.
    /// If not, the cursor is at its end, and each later call lists nothing and makes no step.
    ///
    /// Before the end, each call is a `scan_into` of the keys that are left, with the promise and the bound on steps of one. The next call
    /// goes on at the least key above the last one listed, or where it was if none was listed. So a key that was inserted between two calls
    /// is listed if it lies above the last one listed, and not if it lies below.
    ///
    /// `AllocError` if memory is refused. The cursor stays where it is then, and `pairs` holds the first pairs, as after a `scan_into`.
    pub fn next_into(
        &mut self,
        index: &Index,
        pass: &mut Pass,
        limit: usize,
        pairs: &mut Pairs,
    ) -> Result<bool, AllocError>
        requires { Owns index.now pass.old }
        ensures own { Owns index.now pass.new }
        ensures ended { self.old ≡ None → (result ≡ Ok false) × (pairs.new ≡ []) × (pass.new ≡ pass.old) × (self.new ≡ None) }
        ensures listed { (rest : Rest) → self.old ≡ Some rest →
            IsListRead (range_from rest.from rest.upto limit) pairs.new result index.now pass.old pass.new }
        ensures left { (rest : Rest) → self.old ≡ Some rest → IfOk result (λ more. IsLeft rest pairs.new more self.new) }
        ensures kept { OnErr result (self.new ≡ self.old) }
    {
        let Some(rest) = &self.rest else {
            pairs.clear();
            return Ok(false);
        };
        match index.scan_into(pass, &rest.from, &rest.upto, limit, pairs) {
            Ok(more) => {
                self.rest = rest_after_part(rest, pairs, more);
                Ok(more)
            }
            Err(refused) => Err(refused),
        }
    }
}

/// Returns what is left of the keys `rest` after a part of the list with `pairs`. That is the keys above the last pair's, or all of `rest`
/// if there is no pair. It is `None` if `more` is false, since the range then has no more pairs, or if no key comes above the last pair's.
fn rest_after_part(rest: &Rest, pairs: &Pairs, more: bool) -> Option<Rest>
    ensures { IsLeft rest.now pairs.now more result }
{
    if !more {
        return None;
    }
    let from = match pairs.last_key() {
        Some(last) => next_key(&last)?,
        None => rest.from.copy(),
    };
    Some(Rest {
        from,
        upto: rest.upto.copy(),
    })
}
