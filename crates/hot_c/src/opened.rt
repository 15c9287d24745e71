//! What an open handle holds.

ghost use Rattle.std.specs.Prelude.{◌≡◌, [], IfErr, IfOk, MatchOption, Result};
ghost use Rattle.finite_map.specs.declared.Call.TheVariants.{Get};
ghost use Rattle.finite_map.specs.declared.Reply.{Reply as ReplyView};
ghost use Rattle.hot_index_calls.specs.Answers.{IsNoted, MayRefuse, range_from};
ghost use Rattle.hot_index_calls.specs.Calls.{IsRangeRead};
ghost use Rattle.hot_index_calls.specs.Refusals.{as_tried};
ghost use Rattle.hot_index_calls.specs.declared.refusals.Refusal.{Refusal as RefusalView};
ghost use Rattle.hot_index.specs.Handles.{Stays};
ghost use Rattle.hot_index.specs.Stamps.{HasCaughtUp, HasStamped, IsStampFrom};
ghost use Rattle.rowex_table.specs.Traces.{RunBeginsWith};
ghost use Rattle.hot_index_calls.specs.Traces.{HasMadeGetSteps, untold};
ghost use Rattle.hot_c.specs.Calls.{HasOpenedNext, KeepsAll, TellsOutcome};
ghost use Rattle.hot_c.specs.Following.{IsAsTold};
ghost use Rattle.hot_c.specs.Orders.{IsFilledIn};
ghost use Rattle.hot_c.specs.Statuses.{value_after};

use crate::pairs::Order;
use crate::refusals::tell_refusal;
use crate::status::write_reply;
use hot_index::{Call, ClosedHandle, Handle, Index, Range, Reply, ShowsIndex, Stamp};
use key_bits::Key;
use packed_pairs::Pairs;
use std::alloc::{AllocError, Global};
use std::sync::Arc;

/// The most bytes of memory that a list keeps between two scans: so many for the bytes of its keys, and so many for the heads of its pairs.
/// So a handle that made one long scan doesn't keep the memory for it.
const MOST_KEPT: usize = 32_768;

/// A handle of the index, with a share of it, and a list which each scan fills anew.
#[derive(Drop)]
pub struct Opened {
    pub handle: Handle<Arc<Index, Global>>,
    pub list: Pairs,
    /// Closed handles of the index that others will open, the last one first.
    pub kept: Vec<ClosedHandle<Arc<Index, Global>>>,
}

impl Opened {
    /// Takes the last of the closed handles out of `kept`, opens it and returns it; `None` if none is kept. The opened handle keeps none.
    /// All else of this handle stays. `AllocError` if memory is refused, and then all stay kept.
    pub fn open_next_handle(
        &mut self,
        alloc: Global,
    ) -> Result<Option<Box<Opened, Global>>, AllocError>
        ensures opened { IfOk result (λ next. MatchOption next (self.old.kept.items ≡ [] × KeepsAll self.old self.new) (λ b. HasOpenedNext self.old self.new b.value)) }
        ensures refused { IfErr result (λ _. KeepsAll self.old self.new) }
    {
        let Some(closed) = self.kept.pop() else {
            return Ok(None);
        };
        let refused = match closed.open(alloc) {
            Ok(handle) => match box_handle(alloc, handle) {
                Ok(opened) => return Ok(Some(opened)),
                Err(handle) => handle.close(),
            },
            Err(refused) => refused.value,
        };
        self.kept.push(refused)?;
        Err(AllocError)
    }

    /// Returns the reply to a get of `key`, as `Index::get` makes it: `Value`, or `Absent`. No `Call` is made for it, which would copy the
    /// key. The kept handles stay.
    pub fn get(&mut self, key: &Key) -> Reply
        ensures call { Stays (λ index k j. IsNoted index.layout k j (Get key.now) result) self.old.handle self.new.handle }
        ensures made { Stays (λ index k j. HasMadeGetSteps index untold (k, tt) (j, tt)) self.old.handle self.new.handle }
        ensures keeps { self.new.kept.items ≡ self.old.kept.items }
    {
        match self.handle.get(key) {
            Some(value) => Reply::Value(value),
            None => Reply::Absent,
        }
    }

    /// Tries to make `call`, whose key has `size` bytes, as `Index::try_counted` does, and returns the status. The reply's value, if it has
    /// one, goes to `had`; else `had` stays. A refusal is one that such a call may have. If the try lacked a record, all records are
    /// counted, so that the status tells whether some may come back. The kept handles stay.
    pub fn try_call(&mut self, call: &Call, size: usize, had: &mut u64) -> u32
        ensures call { (outcome : Result ReplyView RefusalView) × Stays (TellsOutcome size call.now result outcome) self.old.handle self.new.handle
            × (had.new ≡ value_after had.old outcome) × IfErr (as_tried outcome) (MayRefuse call.now) }
        ensures keeps { self.new.kept.items ≡ self.old.kept.items }
    {
        match self.handle.try_counted(call) {
            Ok(reply) => write_reply(reply, had),
            Err(refusal) => tell_refusal(size, refusal),
        }
    }

    /// Replaces the list with at most `limit` pairs whose keys are from `from` to `upto`, both included. For `Upwards` these are the first
    /// ones, in rising order; else the last ones, in falling order. `write_pairs_in_order` turns them round for `LastUpwards`. Returns
    /// whether there are more. `AllocError` if memory is refused for a pair that was found; then nothing is said of the list. The kept
    /// handles stay.
    pub fn scan(
        &mut self,
        order: Order,
        from: &Key,
        upto: &Key,
        limit: usize,
    ) -> Result<bool, AllocError>
        ensures call { Stays (IsRangeRead (λ layout k j. IsFilledIn order layout k j (range_from from.now upto.now limit) self.new.list)
            (range_from from.now upto.now limit) result) self.old.handle self.new.handle }
        ensures keeps { self.new.kept.items ≡ self.old.kept.items }
    {
        let range = Range {
            from,
            upto,
            direction: order.direction(),
            limit,
        };
        self.handle.range_into(&range, &mut self.list)
    }

    /// Returns a stamp, of the handle's index, of all that the handle's pass has seen: changes and steps. The pass counts the stamp. All
    /// else of the pass, and the kept handles stay.
    pub fn stamp(&mut self) -> Stamp
        ensures same { Stays (λ index k j. IsAsTold k j) self.old.handle self.new.handle }
        ensures stamped { Stays (λ index k j. HasStamped k j) self.old.handle self.new.handle }
        ensures trace { result.trace ≡ self.old.handle.pass.seat.trace }
        ensures own { IsStampFrom self.old.handle.index result }
        ensures front { result.front ≡ self.old.handle.pass.front }
        ensures keeps { self.new.kept.items ≡ self.old.kept.items }
    {
        self.handle.index.show().stamp(&mut self.handle.pass)
    }

    /// Lets the handle's pass see the changes and the steps that `stamp` tells of. The stamp must be of the same index. The pass counts the
    /// following. It makes no step and notes no call, and the kept handles stay.
    pub fn follow(&mut self, stamp: Stamp)
        requires { IsStampFrom self.old.handle.index stamp }
        ensures call { Stays (λ index k j. HasCaughtUp index.layout stamp.front k j) self.old.handle self.new.handle }
        ensures traced { RunBeginsWith self.new.handle.pass.seat.trace stamp.trace }
        ensures keeps { self.new.kept.items ≡ self.old.kept.items }
    {
        self.handle
            .index
            .show()
            .follow(&mut self.handle.pass, stamp);
    }

    /// Takes all pairs out of the list, and frees the list's memory if that is more than `MOST_KEPT` allows. The handle and the kept
    /// handles stay.
    pub fn empty_list(&mut self)
        ensures { KeepsAll self.old self.new }
    {
        self.list.let_go(MOST_KEPT);
    }
}

/// Returns a box of `handle` with an empty list, which keeps no other handle. If memory is refused, the error is `handle`.
fn box_handle(
    alloc: Global,
    handle: Handle<Arc<Index, Global>>,
) -> Result<Box<Opened, Global>, Handle<Arc<Index, Global>>>
    ensures opened { IfOk result (λ b. (b.value.handle ≡ handle) × (b.value.kept.items ≡ [])) }
    ensures refused { IfErr result (λ h. h ≡ handle) }
{
    let opened = Opened {
        handle,
        list: Pairs::new(alloc),
        kept: Vec::new(alloc),
    };
    Box::new(alloc, opened).map_err(|refused| refused.value.handle)
}
