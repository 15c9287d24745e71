//! A handle: a pass at its index. Its calls don't ask that the pass belong to the index, since it does.

ghost use Rattle.std.specs.Prelude.{◌-◌, ◌^◌, ◌<◌, ◌≡◌, [], All, IfErr, IfOk, IsOk, length, map};
ghost use Rattle.finite_map.specs.declared.Call.TheVariants.{Add, Exchange, Get, Insert, Remove, RemoveIf, Upsert};
ghost use Rattle.finite_map.specs.Calls.{LegalCalls};
ghost use Rattle.finite_map.specs.Reverse.{IsLawfulReverseScan};
ghost use Rattle.hot_index.specs.KeyCounts.{IsCountOf};
ghost use Rattle.rowex_table.specs.Seats.{IsShownAll};
ghost use Rattle.rowex_writing.specs.declared.attempts.TryFault.TheVariants.{Busy};
ghost use Rattle.hot_index_calls.specs.Answers.{HaveMet, IsNoted, IsUnnoted, MayRefuse, got, range_from};
ghost use Rattle.hot_index_calls.specs.Calls.{GetsOrCounts, GetsOrMakes, HasCause, IsOutcome, IsTried, IsWaitedFor};
ghost use Rattle.hot_index_calls.specs.Calls.{IsCountRead, IsListRead, IsListReadBy, IsRangeRead, IsScanRead, IsScanReadBy, IsValuesRead};
ghost use Rattle.hot_index_calls.specs.Census.{HasCounted};
ghost use Rattle.hot_index.specs.Committing.{KnowsUncommitted, HasFallen};
ghost use Rattle.hot_index.specs.Handles.{Stays, handle_at};
ghost use Rattle.hot_index_calls.specs.Many.{AreNoted, HasMadeGetManySteps, gets};
ghost use Rattle.hot_index_calls.specs.Passes.{Owns};
ghost use Rattle.hot_index.specs.Ranges.{IsFirstFound};
ghost use Rattle.hot_index.specs.Stamps.{HasSeenMore};
ghost use Rattle.hot_index_calls.specs.Reverse.{IsLastFound};
ghost use Rattle.hot_index_calls.specs.Refusals.{as_tried};
ghost use Rattle.hot_index_calls.specs.Traces.{HasCollected, HasMadeGetSteps, untold};
ghost use Rattle.key_ranges.specs.Ranges.{last_with};
ghost use Rattle.rowex_scanning.specs.Scanning.{asked_range};
ghost use Rattle.version_laws.specs.Directions.{IsLawfulBy};

use crate::committing::Kind;
use crate::index::{Index, Pass};
use crate::key_counts::KeyCount;
use epochs::Given;
use finite_map::{Call, Reply, Scan};
use hot_index_calls::{RecordCounts, Refusal};
use key_bits::Key;
use packed_pairs::Pairs;
use rowex_scanning::Range;
use rowex_writing::{Full, TryFault};
use std::alloc::{AllocError, Global};
use std::marker::Model;
use std::sync::{Arc, Wait};

/// What shows an index: a reference to it, or a share of it.
pub trait ShowsIndex {
    ghost use Rattle.rowex_table.specs.Seats.{TableView};

    /// The index that it shows.
    ghost shown: { Self → TableView };

    /// Returns the index that it shows.
    fn show(&self) -> &Index
        ensures { result.now ≡ shown self.now };
}

impl ShowsIndex for &Index {
    ghost shown = { λ index. index.now };

    /// Returns the index to which this refers.
    fn show(&self) -> &Index {
        *self
    }
}

impl ShowsIndex for Arc<Index, Global> {
    ghost shown = { λ index. index.value };

    /// Returns the index of which this is a share.
    fn show(&self) -> &Index {
        &**self
    }
}

/// A pass with its index, as a reference or a share. Its methods are the index's calls without a gate, and leave it at its index. Make any
/// other call by its parts, as in `handle.index.get_with(&mut handle.pass, key, gate)`.
#[derive(Drop)]
pub struct Handle<I: ShowsIndex> {
    /// A reference to the index, or a share of it.
    pub index: I,
    /// The pass.
    pub pass: Pass,
}

impl<I: ShowsIndex> Model for Handle<I> {
    ghost use Rattle.hot_index.specs.Handles.{HandleView};
    ghost use Rattle.hot_index_calls.specs.Passes.{Owns};

    ghost Value = { HandleView };

    ghost view = { λ h. record { index = I.shown h.index; pass = h.pass } };

    ghost invariant = { λ h. Owns (I.shown h.index) h.pass };
}

impl<I: ShowsIndex> Handle<I> {
    /// Returns a handle of `pass` at `index`, which is a reference to the pass's own index, or a share of it.
    pub fn new(index: I, pass: Pass) -> Handle<I>
        requires { Owns (I.shown index) pass }
        ensures { result ≡ handle_at (I.shown index) pass }
    {
        Handle { index, pass }
    }

    /// Takes the handle apart: returns the reference to the index, or the share of it, and the pass, which belongs to this index.
    pub fn into_parts(self) -> (I, Pass)
        ensures index { I.shown result.0 ≡ self.index }
        ensures pass { result.1 ≡ self.pass }
        ensures own { Owns self.index result.1 }
    {
        (self.index, self.pass)
    }

    /// Returns the number of the handle's pass.
    pub fn number(&self) -> u16
        ensures { result ≡ self.now.pass.number }
    {
        self.pass.number()
    }

    /// Returns how many keys the calls of the pass have put in, less how many they have taken out, modulo 2^64, as `Pass::count` does.
    /// These calls are legal in what the pass has seen.
    pub fn count(&self) -> KeyCount
        ensures count { IsCountOf self.now.pass.number self.now.pass.notes result }
        ensures legal { LegalCalls self.now.pass.front self.now.pass.number self.now.pass.notes }
    {
        self.pass.count()
    }

    /// Returns the value of `key`, or `None` if it is absent, as `Index::get` does.
    pub fn get(&mut self, key: &Key) -> Option<u64>
        ensures call { Stays (λ index k j. IsNoted index.layout k j (Get key.now) (got result)) self.old self.new }
        ensures made { Stays (λ index k j. HasMadeGetSteps index untold (k, tt) (j, tt)) self.old self.new }
    {
        self.index.show().get(&mut self.pass, key)
    }

    /// Looks up each of `keys`, and writes its value, or `None`, to `found`, in the order of the keys, as `Index::get_many` does. `found`
    /// must be as long as `keys`.
    pub fn get_many(&mut self, keys: &[Key], found: &mut [Option<u64>])
        requires { length found.old ≡ length keys.now }
        ensures call { Stays (λ index k j. AreNoted index.layout k j (gets keys.now found.new)) self.old self.new }
        ensures made { Stays (λ index k j. HasMadeGetManySteps index untold (length keys.now) (k, tt) (j, tt)) self.old self.new }
    {
        self.index.show().get_many(&mut self.pass, keys, found)
    }

    /// Inserts `key` with `value` if the key is absent, as `Index::insert` does. Returns `Inserted`, or `Exists` with the key's value. The
    /// call waits where it must. The error is the kind of records of which none was free: nothing has changed then.
    pub fn insert<R: Wait>(&mut self, rt: &R, key: &Key, value: u64) -> Result<Reply, Full>
        ensures { Stays (λ index k j. IsWaitedFor (Insert key.now value) result index untold (k, tt) (j, tt)) self.old self.new }
    {
        self.index.show().insert(rt, &mut self.pass, key, value)
    }

    /// Gives `key` the value `value`, whether it has one or not, as `Index::upsert` does. Returns `New`, or `Was` with the value before.
    /// The call waits where it must. The error is the kind of records of which none was free: nothing has changed then.
    pub fn upsert<R: Wait>(&mut self, rt: &R, key: &Key, value: u64) -> Result<Reply, Full>
        ensures { Stays (λ index k j. IsWaitedFor (Upsert key.now value) result index untold (k, tt) (j, tt)) self.old self.new }
    {
        self.index.show().upsert(rt, &mut self.pass, key, value)
    }

    /// Gives `key` the value `value` if it has the value `expected`, as `Index::exchange` does. Returns `Exchanged`, `Differs` with the
    /// key's value, or `Absent`. The call waits where it must, and is never refused.
    pub fn exchange<R: Wait>(
        &mut self,
        rt: &R,
        key: &Key,
        expected: u64,
        value: u64,
    ) -> Result<Reply, Full>
        ensures waited { Stays (λ index k j. IsWaitedFor (Exchange key.now expected value) result index untold (k, tt) (j, tt)) self.old self.new }
        ensures made { IsOk result }
    {
        self.index
            .show()
            .exchange(rt, &mut self.pass, key, expected, value)
    }

    /// Adds `delta` to the value of `key`, if it has one, as `Index::add` does. Returns `Was` with the value before, or `Absent`. The call
    /// waits where it must, and is never refused.
    pub fn add<R: Wait>(&mut self, rt: &R, key: &Key, delta: u64) -> Result<Reply, Full>
        ensures waited { Stays (λ index k j. IsWaitedFor (Add key.now delta) result index untold (k, tt) (j, tt)) self.old self.new }
        ensures made { IsOk result }
    {
        self.index.show().add(rt, &mut self.pass, key, delta)
    }

    /// Removes `key`, as `Index::remove` does. Returns `Removed` with the value before, or `Absent`. The call waits where it must. The
    /// error is `Full::Nodes` if no node record was free: nothing has changed then. In an index of several passes there is no error.
    pub fn remove<R: Wait>(&mut self, rt: &R, key: &Key) -> Result<Reply, Full>
        ensures { Stays (λ index k j. IsWaitedFor (Remove key.now) result index untold (k, tt) (j, tt)) self.old self.new }
    {
        self.index.show().remove(rt, &mut self.pass, key)
    }

    /// Removes `key` if it has the value `expected`, as `Index::remove_if` does. Returns `Removed` with that value, `Differs` with the
    /// key's value, or `Absent`. The call waits where it must. The error is `Full::Nodes` if no node record was free: nothing has changed
    /// then. In an index of several passes there is no error.
    pub fn remove_if<R: Wait>(&mut self, rt: &R, key: &Key, expected: u64) -> Result<Reply, Full>
        ensures { Stays (λ index k j. IsWaitedFor (RemoveIf key.now expected) result index untold (k, tt) (j, tt)) self.old self.new }
    {
        self.index
            .show()
            .remove_if(rt, &mut self.pass, key, expected)
    }

    /// Tries to insert `key` with `value` if the key is absent, as `Index::try_insert` does. Returns `Inserted`, or `Exists` with the key's
    /// value. The error tells why the call was refused: nothing has changed then.
    pub fn try_insert(&mut self, key: &Key, value: u64) -> Result<Reply, TryFault>
        ensures { Stays (λ index k j. IsTried (Insert key.now value) result index untold (k, tt) (j, tt)) self.old self.new }
    {
        self.index.show().try_insert(&mut self.pass, key, value)
    }

    /// Tries to give `key` the value `value`, whether it has one or not, as `Index::try_upsert` does. Returns `New`, or `Was` with the
    /// value before. The error tells why the call was refused: nothing has changed then.
    pub fn try_upsert(&mut self, key: &Key, value: u64) -> Result<Reply, TryFault>
        ensures { Stays (λ index k j. IsTried (Upsert key.now value) result index untold (k, tt) (j, tt)) self.old self.new }
    {
        self.index.show().try_upsert(&mut self.pass, key, value)
    }

    /// Tries to give `key` the value `value` if it has the value `expected`, as `Index::try_exchange` does. Returns `Exchanged`, `Differs`
    /// with the key's value, or `Absent`. The only error is `Busy`: nothing has changed then.
    pub fn try_exchange(&mut self, key: &Key, expected: u64, value: u64) -> Result<Reply, TryFault>
        ensures tried { Stays (λ index k j. IsTried (Exchange key.now expected value) result index untold (k, tt) (j, tt)) self.old self.new }
        ensures busy { IfErr result (λ fault. fault ≡ Busy) }
    {
        self.index
            .show()
            .try_exchange(&mut self.pass, key, expected, value)
    }

    /// Tries to add `delta` to the value of `key`, if it has one, as `Index::try_add` does. Returns `Was` with the value before, or
    /// `Absent`. The only error is `Busy`: nothing has changed then.
    pub fn try_add(&mut self, key: &Key, delta: u64) -> Result<Reply, TryFault>
        ensures tried { Stays (λ index k j. IsTried (Add key.now delta) result index untold (k, tt) (j, tt)) self.old self.new }
        ensures busy { IfErr result (λ fault. fault ≡ Busy) }
    {
        self.index.show().try_add(&mut self.pass, key, delta)
    }

    /// Tries to remove `key`, as `Index::try_remove` does. Returns `Removed` with the value before, or `Absent`. The error tells why the
    /// call was refused: nothing has changed then.
    pub fn try_remove(&mut self, key: &Key) -> Result<Reply, TryFault>
        ensures { Stays (λ index k j. IsTried (Remove key.now) result index untold (k, tt) (j, tt)) self.old self.new }
    {
        self.index.show().try_remove(&mut self.pass, key)
    }

    /// Tries to remove `key` if it has the value `expected`, as `Index::try_remove_if` does. Returns `Removed` with that value, `Differs`
    /// with the key's value, or `Absent`. The error tells why the call was refused: nothing has changed then.
    pub fn try_remove_if(&mut self, key: &Key, expected: u64) -> Result<Reply, TryFault>
        ensures { Stays (λ index k j. IsTried (RemoveIf key.now expected) result index untold (k, tt) (j, tt)) self.old self.new }
    {
        self.index
            .show()
            .try_remove_if(&mut self.pass, key, expected)
    }

    /// Tries to make `call`, and returns the reply, or why the call was refused, as `Index::try_call` does. A get is never refused, an
    /// exchange or an addition only as busy, and a removal never for want of leaf records.
    pub fn try_call(&mut self, call: &Call) -> Result<Reply, TryFault>
        ensures call { Stays (IsOutcome call.now result) self.old self.new }
        ensures cause { Stays (HasCause call.now result) self.old self.new }
        ensures may { IfErr result (MayRefuse call.now) }
        ensures made { Stays (λ index k j. GetsOrMakes call.now result index untold (k, tt) (j, tt)) self.old self.new }
    {
        self.index.show().try_call(&mut self.pass, call)
    }

    /// Tries to make `call`, as `Index::try_counted` does, and returns the reply, or why the call was refused. If the try found no record
    /// free, the records are counted, and the count tells whether one may come back. A get is never refused, an exchange or an addition
    /// only as busy, and a removal never for want of leaf records.
    pub fn try_counted(&mut self, call: &Call) -> Result<Reply, Refusal>
        ensures call { Stays (IsOutcome call.now (as_tried result)) self.old self.new }
        ensures cause { Stays (HasCause call.now (as_tried result)) self.old self.new }
        ensures may { IfErr (as_tried result) (MayRefuse call.now) }
        ensures made { Stays (λ index k j. GetsOrCounts call.now result index untold (k, tt) (j, tt)) self.old self.new }
    {
        self.index.show().try_counted(&mut self.pass, call)
    }

    /// Lists the first `limit` pairs with keys from `from` to `upto`, both included, in key order. Returns them, and whether the range has
    /// more. It takes no lock, and is no snapshot: each pair was in the index at some moment of the call.
    ///
    /// No key of the range that was there all along is missing. If the range has more, this is said only of keys up to the last one
    /// listed. `Index::scan` has the bound of steps. `AllocError` if memory is refused for a pair that was found.
    pub fn scan(
        &mut self,
        alloc: Global,
        from: &Key,
        upto: &Key,
        limit: usize,
    ) -> Result<Scan, AllocError>
        ensures { Stays (IsScanRead (range_from from.now upto.now limit) result) self.old self.new }
    {
        self.index
            .show()
            .scan(alloc, &mut self.pass, from, upto, limit)
    }

    /// Replaces what `pairs` holds with the first `limit` pairs with keys from `from` to `upto`, both included, as `Index::scan_into` does.
    /// Returns whether there are more. `AllocError` if memory is refused for what was found: `pairs` then holds the first of these pairs,
    /// fewer than `limit`.
    pub fn scan_into(
        &mut self,
        from: &Key,
        upto: &Key,
        limit: usize,
        pairs: &mut Pairs,
    ) -> Result<bool, AllocError>
        ensures call { Stays (IsListRead (range_from from.now upto.now limit) pairs.new result) self.old self.new }
    {
        self.index
            .show()
            .scan_into(&mut self.pass, from, upto, limit, pairs)
    }

    /// Replaces what `pairs` holds with the first pairs of `range` in its direction, at most as many as its limit, as `Index::range_into`
    /// does. Returns whether there are more. `AllocError` if memory is refused for what was found: `pairs` then holds the first of these
    /// pairs, fewer than the limit.
    pub fn range_into(&mut self, range: &Range, pairs: &mut Pairs) -> Result<bool, AllocError>
        ensures call { Stays (λ index k j. IsListReadBy (IsLawfulBy range.now.direction) (asked_range range.now) pairs.new result index untold (k, tt) (j, tt))
            self.old self.new }
    {
        self.index.show().range_into(&mut self.pass, range, pairs)
    }

    /// Replaces what `values` holds with the values of the first `limit` pairs with keys from `from` to `upto`, as
    /// `Index::scan_values_into` does. Returns whether there are more. `AllocError` if memory is refused for what was found: `values` then
    /// holds the first of these values, fewer than `limit`.
    pub fn scan_values_into(
        &mut self,
        from: &Key,
        upto: &Key,
        limit: usize,
        values: &mut Vec<u64>,
    ) -> Result<bool, AllocError>
        ensures call { Stays (IsValuesRead (range_from from.now upto.now limit) values.new.items result) self.old self.new }
    {
        self.index
            .show()
            .scan_values_into(&mut self.pass, from, upto, limit, values)
    }

    /// Returns how many keys there are from `from` to `upto`, both included, as `Index::count_range` does; at most 2^63 - 1.
    pub fn count_range(&mut self, from: &Key, upto: &Key) -> usize
        ensures { Stays (IsCountRead (range_from from.now upto.now (2 ^ 63 - 1)) result) self.old self.new }
    {
        self.index.show().count_range(&mut self.pass, from, upto)
    }

    /// Replaces what `pairs` holds with the first `limit` pairs whose keys begin with `prefix`, as `Index::prefix_into` does. Returns
    /// whether there are more. `AllocError` if memory is refused for what was found: `pairs` then holds the first of these pairs, fewer
    /// than `limit`.
    pub fn prefix_into(
        &mut self,
        prefix: &Key,
        limit: usize,
        pairs: &mut Pairs,
    ) -> Result<bool, AllocError>
        ensures call { Stays (IsListRead (range_from prefix.now (last_with prefix.now) limit) pairs.new result) self.old self.new }
    {
        self.index
            .show()
            .prefix_into(&mut self.pass, prefix, limit, pairs)
    }

    /// Replaces what `pairs` holds with the last `limit` pairs with keys from `from` to `upto`, downwards, as `Index::scan_reverse_into`
    /// does. Returns whether there are more. `AllocError` if memory is refused for what was found: `pairs` then holds the first of these
    /// pairs, fewer than `limit`.
    pub fn scan_reverse_into(
        &mut self,
        from: &Key,
        upto: &Key,
        limit: usize,
        pairs: &mut Pairs,
    ) -> Result<bool, AllocError>
        ensures call { Stays (λ index k j. IsListReadBy IsLawfulReverseScan (range_from from.now upto.now limit) pairs.new result index untold (k, tt) (j, tt))
            self.old self.new }
    {
        self.index
            .show()
            .scan_reverse_into(&mut self.pass, from, upto, limit, pairs)
    }

    /// Returns the last `limit` pairs with keys from `from` to `upto`, downwards, and whether there are more, as `Index::scan_reverse`
    /// does. `AllocError` if memory is refused for what was found.
    pub fn scan_reverse(
        &mut self,
        alloc: Global,
        from: &Key,
        upto: &Key,
        limit: usize,
    ) -> Result<Scan, AllocError>
        ensures { Stays (λ index k j. IsScanReadBy IsLawfulReverseScan (range_from from.now upto.now limit) result index untold (k, tt) (j, tt)) self.old self.new }
    {
        self.index
            .show()
            .scan_reverse(alloc, &mut self.pass, from, upto, limit)
    }

    /// Returns the first pair whose key is `from` or above, as `Index::first` does; `None` if none was found. `AllocError` if memory is
    /// refused for what was found.
    pub fn first(&mut self, alloc: Global, from: &Key) -> Result<Option<(Key, u64)>, AllocError>
        ensures { Stays (IsRangeRead (λ layout k j. IsFirstFound layout k j from.now) (range_from from.now (last_with []) 1) result) self.old self.new }
    {
        self.index.show().first(alloc, &mut self.pass, from)
    }

    /// Returns the last pair whose key is `upto` or below, as `Index::last` does; `None` if none was found. `AllocError` if memory is
    /// refused for what was found.
    pub fn last(&mut self, alloc: Global, upto: &Key) -> Result<Option<(Key, u64)>, AllocError>
        ensures { Stays (IsRangeRead (λ layout k j. IsLastFound layout k j upto.now) (range_from [] upto.now 1) result) self.old self.new }
    {
        self.index.show().last(alloc, &mut self.pass, upto)
    }

    /// Makes one round of collection, and returns how many records it gave back, as `Index::collect` does.
    pub fn collect(&mut self) -> Given
        ensures call { Stays (λ index k j. IsUnnoted index.layout k j) self.old self.new }
        ensures made { Stays (λ index k j. HasCollected index untold (k, tt) (j, tt) result.nodes result.leaves) self.old self.new }
    {
        self.index.show().collect(&mut self.pass)
    }

    /// Returns how many records of each kind and class are in each state, and the bytes of the table, as `Index::census` does.
    pub fn census(&mut self) -> RecordCounts
        ensures call { Stays (λ index k j. IsUnnoted index.layout k j) self.old self.new }
        ensures made { Stays (λ index k j. HasCounted index untold (k, tt) (j, tt) result) self.old self.new }
    {
        self.index.show().census(&mut self.pass)
    }

    /// Returns how many records of `kind` are reserved and not committed, as `Index::uncommitted` does.
    pub fn uncommitted(&mut self, kind: Kind) -> u64
        ensures { Stays (λ index k j. KnowsUncommitted kind result k j) self.old self.new }
    {
        self.index.show().uncommitted(&mut self.pass, kind)
    }

    /// Commits the next `count` records of `kind`, and returns how many of the kind are uncommitted then, as `Index::commit` does.
    pub fn commit(&mut self, kind: Kind, count: u64) -> u64
        ensures found { Stays (λ index k j. KnowsUncommitted kind result k j) self.old self.new }
        ensures falls { 0 < count → HasFallen kind result self.old.pass }
    {
        self.index.show().commit(&mut self.pass, kind, count)
    }

    /// Returns whether the next `count` claims of `kind` may go past the records that the pass has committed, as `Index::is_short_of` does.
    pub fn is_short_of(&self, kind: Kind, count: u32) -> bool {
        self.index.show().is_short_of(&self.pass, kind, count)
    }

    /// Lets the pass meet the pass of `other`, which must be a handle at the same index, as `Index::meet` does. Both passes have then seen
    /// the same changes, and know of the same steps. All else that they know is as it was. Returns both handles, this one first.
    pub fn meet(self, other: Handle<I>) -> (Handle<I>, Handle<I>)
        requires { other.index ≡ self.index }
        ensures index { (result.0.index ≡ self.index) × (result.1.index ≡ self.index) }
        ensures met { HaveMet self.index.layout self.pass other.pass result.0.pass result.1.pass }
        ensures steps { (result.0.pass.steps ≡ self.pass.steps) × (result.1.pass.steps ≡ other.pass.steps) }
        ensures traces { result.0.pass.seat.trace ≡ result.1.pass.seat.trace }
        ensures shown { IsShownAll self.index.layout self.pass.seat result.0.pass.seat × IsShownAll self.index.layout other.pass.seat result.1.pass.seat }
        ensures rest { HasSeenMore self.pass result.0.pass × HasSeenMore other.pass result.1.pass }
    {
        let Handle { index, pass } = self;
        let (pass, met) = index.show().meet(pass, other.pass);
        (Handle::new(index, pass), Handle::new(other.index, met))
    }
}

/// Returns handles of `passes` at `index`, in their order. The passes must be of this index. `AllocError` if memory is refused.
pub fn handles_of<'a>(
    alloc: Global,
    index: &'a Index,
    passes: Vec<Pass>,
) -> Result<Vec<Handle<&'a Index>>, AllocError>
    requires { All (Owns index.now) passes.items }
    ensures { IfOk result (λ handles. handles.items ≡ map (handle_at index.now) passes.items) }
{
    let mut handles = Vec::new(alloc);
    for pass in passes {
        handles.push(Handle::new(index, pass))?;
    }
    Ok(handles)
}
