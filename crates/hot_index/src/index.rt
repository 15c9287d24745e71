//! The index and the passes by which threads use it, and the calls on it.

ghost use Rattle.std.specs.Prelude.{◌≡◌, length};
ghost use Rattle.finite_map.specs.declared.Call.TheVariants.{Get, Insert, Remove, Upsert};
ghost use Rattle.finite_map.specs.Calls.{LegalCalls};
ghost use Rattle.hot_index.specs.KeyCounts.{IsCountOf};
ghost use Rattle.rowex_table.specs.Seats.{IsShownAll};
ghost use Rattle.rowex_writing.specs.attempts.Attempts.{LacksNoLeaf};
ghost use Rattle.rowex_writing.specs.declared.attempts.TryFault.TheVariants.{FullLeaves};
ghost use Rattle.hot_index_calls.specs.Passes.{Owns};
ghost use Rattle.hot_index_calls.specs.Answers.{IsNoted, IsUnnoted, HaveMet, got};
ghost use Rattle.hot_index_calls.specs.Calls.{HasCause, IsOutcome, IsTried, IsTriedAndCounted, IsWaitedFor};
ghost use Rattle.hot_index_calls.specs.Census.{HasCounted};
ghost use Rattle.hot_index_calls.specs.Many.{AreNoted, HasMadeGetManySteps, gets};
ghost use Rattle.hot_index_calls.specs.Refusals.{as_tried};
ghost use Rattle.hot_index_calls.specs.Traces.{HasCollected, HasMadeGetSteps, untold};
ghost use Rattle.hot_index.specs.Stamps.{HasSeenMore};

use crate::key_counts::KeyCount;
use epochs::{Given, collect_round, pin};
use finite_map::{Call, Reply};
use hot_index_calls::{
    FirstFree, RecordCounts, Refusal, Scratch, count_records, end_get, end_gets, retry_change,
    try_and_count, try_change,
};
use key_bits::Key;
use rowex_core::{Gate, NoGate};
use rowex_reading::{look_up, look_up_all};
use rowex_table::{HotTable, TableSeat};
use rowex_writing::{Full, TryFault};
use std::marker::Model;
use std::sync::Wait;

/// An ordered index from byte keys to 64-bit values, which passes share through `&`.
#[derive(Drop)]
pub struct Index {
    pub(crate) table: HotTable,
    pub(crate) free: FirstFree,
}

impl Model for Index {
    ghost use Rattle.rowex_table.specs.Seats.{TableView};

    ghost Value = { TableView };

    ghost view = { λ i. i.table };
}

/// The right of one thread to use an index. At run time it holds a number and some buffers that its calls reuse. A call takes a pass of its
/// own index, and leaves it one (`Owns`). Contracts see what the pass knows: its seat in the table, the changes that it has seen, and its
/// completed calls.
#[derive(Drop)]
pub struct Pass {
    pub(crate) seat: TableSeat,
    pub(crate) scratch: Box<Scratch>,
    pub(crate) count: KeyCount,
}

impl Model for Pass {
    ghost use Rattle.hot_index_calls.specs.Passes.{PassView, pass_of};
    ghost use Rattle.hot_index.specs.Passes.{IsSettledWith};

    ghost Value = { PassView };

    ghost view = { λ p. pass_of p.seat };

    ghost invariant = { λ p. IsSettledWith p.seat.known p.count };
}

impl Pass {
    /// Returns the number of the pass. `create` returns its passes in the order of their numbers, from 0 on.
    pub fn number(&self) -> u16
        ensures { result ≡ self.now.number }
    {
        self.seat.number()
    }

    /// Returns how many keys the calls of the pass have put in, less how many they have taken out, modulo 2^64. These calls are legal in
    /// what the pass has seen. If no pass is changing the index, the `total` of the counts of all passes is the number of keys, modulo 2^64
    /// (`laws::counts_add_up`).
    pub fn count(&self) -> KeyCount
        ensures count { IsCountOf self.now.number self.now.notes result }
        ensures legal { LegalCalls self.now.front self.now.number self.now.notes }
    {
        self.count
    }
}

impl Index {
    /// Returns the value of `key`, or `None` if it is absent: what the map had at some moment of the call. A change whose call had returned
    /// before is seen.
    ///
    /// It takes no lock and never blocks. It makes at most 36 atomic steps, and 26 for each node on the path to the key, whatever others
    /// do. Beside these steps it touches at most four words of each such node: touched words are loaded and ignored. A path has at most
    /// 2,160 nodes.
    pub fn get(&self, pass: &mut Pass, key: &Key) -> Option<u64>
        requires { Owns self.now pass.old }
        ensures own { Owns self.now pass.new }
        ensures call { IsNoted self.now.layout pass.old pass.new (Get key.now) (got result) }
        ensures made { HasMadeGetSteps self.now untold (pass.old, tt) (pass.new, tt) }
    {
        self.get_with(pass, key, &mut NoGate)
    }

    /// Looks up each of `keys` once, and writes what `get` would return to `found`, in the order of the keys. `found` must be as long as
    /// `keys`.
    ///
    /// It takes no lock, allocates nothing and never blocks. It makes at most 4 atomic steps, 32 for each key, and 26 for each node on the
    /// path to a key. Beside these steps it touches at most eleven words for each such node. A path has at most 2,160 nodes.
    ///
    /// Each value is of a moment of its own within the call, in no stated order among the keys. A change whose call had returned before is
    /// seen.
    ///
    /// The pass stays pinned until the last key has been looked up. Records that are retired meanwhile are reused only after that. So look
    /// up some hundred keys by one call, not millions.
    pub fn get_many(&self, pass: &mut Pass, keys: &[Key], found: &mut [Option<u64>])
        requires own { Owns self.now pass.old }
        requires room { length found.old ≡ length keys.now }
        ensures own { Owns self.now pass.new }
        ensures call { AreNoted self.now.layout pass.old pass.new (gets keys.now found.new) }
        ensures made { HasMadeGetManySteps self.now untold (length keys.now) (pass.old, tt) (pass.new, tt) }
    {
        self.get_many_with(pass, keys, found, &mut NoGate)
    }

    /// Inserts `key` with `value` if the key is absent, and returns `Inserted`. Else it changes nothing, and returns `Exists` with the
    /// key's value.
    ///
    /// It never blocks. It makes at most two attempts, with a round of collection between them, and a small round before them if one is
    /// due. An attempt that tries no lock makes at most 61 atomic steps, and 26 for each entry of a node that its search loads. Any other
    /// makes at most 127, 26 for each such entry, and 297 for each lock that it tries. To these come at most 2 for each node record and 4
    /// for each leaf record. The small round makes at most 259, and one for each pass. The other makes at most 3, one for each pass and 2
    /// for each record. Together these are at most 1,396,470 steps, 2 for each pass, 6 for each node record and 10 for each leaf record.
    ///
    /// It returns `Busy` only if another pass has locked or retired what it wants to lock, or has made a change. That change came since the
    /// pin under which the call loaded the root last. So an index of one pass is never busy, nor a call alone (`laws::alone_calls_end`).
    ///
    /// It returns `FullNodes` only if it found each node record not free when its turn came, beside those that it had claimed itself. One
    /// that is free is left for the removals: in an index of one pass, if a node record was outside the tree, one is at the end, too. It
    /// returns `FullLeaves` only if it found each leaf record with room for the key not free when its turn came.
    ///
    /// Before it returns either, it makes the round between the attempts. It makes the second attempt if the round gave back a record of
    /// the kind, or, with several passes, found one free. With several passes the round visits nothing if its bound hasn't risen since the
    /// pass's last such round. Then there is no second attempt.
    ///
    /// A refused call has changed nothing, and holds no lock and no record.
    pub fn try_insert(&self, pass: &mut Pass, key: &Key, value: u64) -> Result<Reply, TryFault>
        requires { Owns self.now pass.old }
        ensures { IsTried (Insert key.now value) result self.now untold (pass.old, tt) (pass.new, tt) }
    {
        self.try_insert_with(pass, key, value, &mut NoGate)
    }

    /// Gives `key` the value `value`, whether it has one or not. Returns `New`, or `Was` with the value that the key had.
    ///
    /// It never blocks, and makes no more steps than `try_insert` may. It is refused for the same reasons, has then changed nothing, and
    /// leaves a node record for removals as `try_insert` does. But it returns `FullNodes` or `FullLeaves` only if its search found the key
    /// absent: the new value of a held key takes no record (`laws::held_is_never_full`).
    pub fn try_upsert(&self, pass: &mut Pass, key: &Key, value: u64) -> Result<Reply, TryFault>
        requires { Owns self.now pass.old }
        ensures { IsTried (Upsert key.now value) result self.now untold (pass.old, tt) (pass.new, tt) }
    {
        self.try_upsert_with(pass, key, value, &mut NoGate)
    }

    /// Removes `key`. Returns `Removed` with the value that the key had, or `Absent`.
    ///
    /// It never blocks, makes no more steps than `try_insert` may, and is refused for the same reasons. A refused call has changed nothing.
    /// It needs no leaf record, so it never returns `FullLeaves`. It returns `FullNodes` only if its search found the key
    /// (`laws::absent_is_never_full`), and it has found each node record not free, committed or not (`laws::removal_full_means_none_free`).
    ///
    /// In an index of one pass let a node record be outside the tree when the call begins. One is at the end, too. The call doesn't return
    /// `FullNodes` while the pass knows fewer than 2^60 - 2 steps.
    pub fn try_remove(&self, pass: &mut Pass, key: &Key) -> Result<Reply, TryFault>
        requires { Owns self.now pass.old }
        ensures { IsTried (Remove key.now) result self.now untold (pass.old, tt) (pass.new, tt) }
    {
        self.try_remove_with(pass, key, &mut NoGate)
    }

    /// Inserts `key` with `value` if the key is absent, and returns `Inserted`. Else it changes nothing, and returns `Exists` with the
    /// key's value. `rt` allows the call to wait.
    ///
    /// Where `try_insert` would return `Busy`, it lets other threads run and begins again, as often as need be: its steps have no bound.
    /// Where no record is free, it counts the records, as `census` does. It begins again if by that count a record may come back. One may
    /// if one is held or obsolete, or as many are free as it needs. In an index of one pass it makes one try.
    ///
    /// It returns `Full` only if its last try found no node record free, or no leaf record with room for the key, as `try_insert` says.
    /// With several passes the count after that try says so, too. A refused call has changed nothing, and holds no lock and no record. A
    /// node record is left for the removals, as by `try_insert`.
    pub fn insert<R: Wait>(
        &self,
        rt: &R,
        pass: &mut Pass,
        key: &Key,
        value: u64,
    ) -> Result<Reply, Full>
        requires { Owns self.now pass.old }
        ensures { IsWaitedFor (Insert key.now value) result self.now untold (pass.old, tt) (pass.new, tt) }
    {
        self.retry_change_with(rt, pass, &mut NoGate, &Call::Insert(key.copy(), value))
    }

    /// Gives `key` the value `value`, whether it has one or not. Returns `New`, or `Was` with the value that the key had.
    ///
    /// It begins again as `insert` does, when another pass is in its way or records may come back. It is refused for the same reasons, and
    /// only if its last search found the key absent. It has changed nothing then.
    pub fn upsert<R: Wait>(
        &self,
        rt: &R,
        pass: &mut Pass,
        key: &Key,
        value: u64,
    ) -> Result<Reply, Full>
        requires { Owns self.now pass.old }
        ensures { IsWaitedFor (Upsert key.now value) result self.now untold (pass.old, tt) (pass.new, tt) }
    {
        self.retry_change_with(rt, pass, &mut NoGate, &Call::Upsert(key.copy(), value))
    }

    /// Removes `key`. Returns `Removed` with the value that the key had, or `Absent`.
    ///
    /// Where `try_remove` would return `Busy`, or records may come back, the call begins again, as `insert` does. It is refused only with
    /// `Full::Nodes`, since a removal needs no leaf record, and has changed nothing then.
    ///
    /// Insertions leave a node record for it. So in an index of several passes it begins again wherever it finds none free, and is never
    /// refused. In an index of one pass a node record stays outside the tree (`laws::one_pass_keeps_spare`). So the call is not refused
    /// while fewer than 2^60 - 2 steps have been made (`room`).
    pub fn remove<R: Wait>(&self, rt: &R, pass: &mut Pass, key: &Key) -> Result<Reply, Full>
        requires { Owns self.now pass.old }
        ensures { IsWaitedFor (Remove key.now) result self.now untold (pass.old, tt) (pass.new, tt) }
    {
        self.retry_change_with(rt, pass, &mut NoGate, &Call::Remove(key.copy()))
    }

    /// Lets `first` and `second`, two passes of the index, meet, and returns both, in this order. Each has then seen what the other had
    /// seen, and all that was published before. Both have seen the same changes, and know of the same steps. The calls of both stand
    /// together in one sequential history. The meeting is counted among the `asides` of each. All else that they know is as it was.
    ///
    /// It loads one word three times, and ignores its content. These loads count as no steps of either pass, and no gate is told of them.
    pub fn meet(&self, first: Pass, second: Pass) -> (Pass, Pass)
        requires { Owns self.now first × Owns self.now second }
        ensures own { Owns self.now result.0 × Owns self.now result.1 }
        ensures met { HaveMet self.now.layout first second result.0 result.1 }
        ensures steps { (result.0.steps ≡ first.steps) × (result.1.steps ≡ second.steps) }
        ensures traces { result.0.seat.trace ≡ result.1.seat.trace }
        ensures shown { IsShownAll self.now.layout first.seat result.0.seat × IsShownAll self.now.layout second.seat result.1.seat }
        ensures rest { HasSeenMore first result.0 × HasSeenMore second result.1 }
    {
        let (one, other) = (first.scratch, second.scratch);
        let (ours, theirs) = (first.count, second.count);
        let (first, second) = self.table.meet_seats(first.seat, second.seat);
        (
            Pass {
                seat: first,
                scratch: one,
                count: ours,
            },
            Pass {
                seat: second,
                scratch: other,
                count: theirs,
            },
        )
    }

    /// Makes one round of collection. It tries once to raise the epoch, which another pass may do instead, and loads it. At the last epoch,
    /// 2^60 - 1, it doesn't try. Then it visits each committed record of the index once. It gives back each that was retired in an epoch
    /// below the loaded one and below each pin that is set: no running call can reach it. Returns how many node records and leaf records it
    /// gave back.
    ///
    /// It takes no lock, allocates nothing and never blocks. It makes at most 3 atomic steps, one more for each pass, and two more for each
    /// committed record. It asks nothing of the map: the pass has seen no further change, and its completed calls are the same.
    pub fn collect(&self, pass: &mut Pass) -> Given
        requires { Owns self.now pass.old }
        ensures own { Owns self.now pass.new }
        ensures call { IsUnnoted self.now.layout pass.old pass.new }
        ensures made { HasCollected self.now untold (pass.old, tt) (pass.new, tt) result.nodes result.leaves }
    {
        self.collect_with(pass, &mut NoGate)
    }

    /// Counts how many node records, and leaf records of each class, are free, held, live and obsolete, of those that are committed, and how
    /// many are uncommitted. Returns these counts with the bytes of the table. So a program can see why its index is full, and what the next
    /// one needs.
    ///
    /// It takes no lock, allocates nothing, changes nothing and never blocks. It makes one atomic step for each committed record, the load
    /// of its state. Others go on meanwhile, so the counts are of no single moment. The pass has seen no further change, and its completed
    /// calls are the same.
    pub fn census(&self, pass: &mut Pass) -> RecordCounts
        requires { Owns self.now pass.old }
        ensures own { Owns self.now pass.new }
        ensures call { IsUnnoted self.now.layout pass.old pass.new }
        ensures made { HasCounted self.now untold (pass.old, tt) (pass.new, tt) result }
    {
        self.census_with(pass, &mut NoGate)
    }

    /// Returns the value of `key`, or `None` if it is absent, as `get` does. Reports each of its steps to `gate`.
    #[inline(always)]
    pub fn get_with<G: Gate>(&self, pass: &mut Pass, key: &Key, gate: &mut G) -> Option<u64>
        requires { Owns self.now pass.old }
        ensures own { Owns self.now pass.new }
        ensures call { IsNoted self.now.layout pass.old pass.new (Get key.now) (got result) }
        ensures made { HasMadeGetSteps self.now G.becomes (pass.old, gate.old) (pass.new, gate.new) }
    {
        pin(&self.table, &mut pass.seat, gate);
        let found = look_up(&self.table, &mut pass.seat, key, gate);
        end_get(&self.table, &mut pass.seat, gate, key, found);
        found
    }

    /// Looks up each of `keys` once, and writes the value of each, or `None`, to `found`, as `get_many` does. `found` must be as long as
    /// `keys`. Reports each of its steps to `gate`.
    pub fn get_many_with<G: Gate>(
        &self,
        pass: &mut Pass,
        keys: &[Key],
        found: &mut [Option<u64>],
        gate: &mut G,
    )
        requires own { Owns self.now pass.old }
        requires room { length found.old ≡ length keys.now }
        ensures own { Owns self.now pass.new }
        ensures call { AreNoted self.now.layout pass.old pass.new (gets keys.now found.new) }
        ensures made { HasMadeGetManySteps self.now G.becomes (length keys.now) (pass.old, gate.old) (pass.new, gate.new) }
    {
        pin(&self.table, &mut pass.seat, gate);
        look_up_all(&self.table, &mut pass.seat, gate, keys, found);
        end_gets(&self.table, &mut pass.seat, gate, keys, found);
    }

    /// Inserts `key` with `value` if the key is absent, as `try_insert` does. Returns `Inserted`, `Exists` with the key's value, or why the
    /// call was refused. Reports each of its steps to `gate`.
    pub fn try_insert_with<G: Gate>(
        &self,
        pass: &mut Pass,
        key: &Key,
        value: u64,
        gate: &mut G,
    ) -> Result<Reply, TryFault>
        requires { Owns self.now pass.old }
        ensures { IsTried (Insert key.now value) result self.now G.becomes (pass.old, gate.old) (pass.new, gate.new) }
    {
        self.try_change_with(pass, gate, &Call::Insert(key.copy(), value))
    }

    /// Gives `key` the value `value`, whether it has one or not, as `try_upsert` does. Returns `New`, `Was` with the value before, or why
    /// the call was refused. Reports each of its steps to `gate`.
    pub fn try_upsert_with<G: Gate>(
        &self,
        pass: &mut Pass,
        key: &Key,
        value: u64,
        gate: &mut G,
    ) -> Result<Reply, TryFault>
        requires { Owns self.now pass.old }
        ensures { IsTried (Upsert key.now value) result self.now G.becomes (pass.old, gate.old) (pass.new, gate.new) }
    {
        self.try_change_with(pass, gate, &Call::Upsert(key.copy(), value))
    }

    /// Removes `key`, as `try_remove` does. Returns `Removed` with the value before, `Absent`, or why the call was refused. Reports each of
    /// its steps to `gate`.
    pub fn try_remove_with<G: Gate>(
        &self,
        pass: &mut Pass,
        key: &Key,
        gate: &mut G,
    ) -> Result<Reply, TryFault>
        requires { Owns self.now pass.old }
        ensures { IsTried (Remove key.now) result self.now G.becomes (pass.old, gate.old) (pass.new, gate.new) }
    {
        self.try_change_with(pass, gate, &Call::Remove(key.copy()))
    }

    /// Makes one round of collection, and returns how many records it gave back, as `collect` does. Reports each of its steps to `gate`.
    pub fn collect_with<G: Gate>(&self, pass: &mut Pass, gate: &mut G) -> Given
        requires { Owns self.now pass.old }
        ensures own { Owns self.now pass.new }
        ensures call { IsUnnoted self.now.layout pass.old pass.new }
        ensures made { HasCollected self.now G.becomes (pass.old, gate.old) (pass.new, gate.new) result.nodes result.leaves }
    {
        let round = collect_round(&self.table, &mut pass.seat, gate);
        round.given
    }

    /// Counts how many records of each kind and class are in each state, and returns the counts with the table's bytes, as `census` does.
    /// Reports each of its steps to `gate`.
    pub fn census_with<G: Gate>(&self, pass: &mut Pass, gate: &mut G) -> RecordCounts
        requires { Owns self.now pass.old }
        ensures own { Owns self.now pass.new }
        ensures call { IsUnnoted self.now.layout pass.old pass.new }
        ensures made { HasCounted self.now G.becomes (pass.old, gate.old) (pass.new, gate.new) result }
    {
        count_records(&self.table, &mut pass.seat, gate)
    }

    /// Tries to make the change `call`: after a small round of collection, if one is due, in at most two attempts. Reports each step to
    /// `gate`. Returns the reply, or why the call was refused, with nothing changed. The pass's `count` changes by the key that the call
    /// has put in or taken out.
    pub(crate) fn try_change_with<G: Gate>(
        &self,
        pass: &mut Pass,
        gate: &mut G,
        call: &Call,
    ) -> Result<Reply, TryFault>
        requires { Owns self.now pass.old }
        ensures { IsTried call.now result self.now G.becomes (pass.old, gate.old) (pass.new, gate.new) }
    {
        let answer = try_change(&self.table, &mut pass.seat, gate, &mut pass.scratch, call);
        pass.count.note_answer(&answer);
        answer
    }

    /// Tries to make the change `call`, as `try_change_with` does. If the try lacked a record, the records are counted after it, and by the
    /// count the refusal is `Full` or `HeldBack`. A removal in an index of several passes is `HeldBack` without a count, and no removal
    /// lacks a leaf record. Reports each step to `gate`. The pass's `count` changes as in `try_change_with`.
    pub(crate) fn try_and_count_with<G: Gate>(
        &self,
        pass: &mut Pass,
        gate: &mut G,
        call: &Call,
    ) -> Result<Reply, Refusal>
        requires { Owns self.now pass.old }
        ensures own { Owns self.now pass.new }
        ensures call { IsOutcome call.now (as_tried result) self.now pass.old pass.new }
        ensures cause { HasCause call.now (as_tried result) self.now pass.old pass.new }
        ensures leafless { LacksNoLeaf FullLeaves call.now (as_tried result) }
        ensures made { IsTriedAndCounted call.now result self.now G.becomes (pass.old, gate.old) (pass.new, gate.new) }
    {
        let answer = try_and_count(&self.table, &mut pass.seat, gate, &mut pass.scratch, call);
        pass.count.note_answer(&answer);
        answer
    }

    /// Makes the change `call`, and reports each step to `gate`. The call begins again as long as another pass is in its way, or records
    /// are held back. Returns the reply, or the kind of records of which its last try found none free, with nothing changed. The pass's
    /// `count` changes as in `try_change_with`.
    pub(crate) fn retry_change_with<R: Wait, G: Gate>(
        &self,
        rt: &R,
        pass: &mut Pass,
        gate: &mut G,
        call: &Call,
    ) -> Result<Reply, Full>
        requires { Owns self.now pass.old }
        ensures { IsWaitedFor call.now result self.now G.becomes (pass.old, gate.old) (pass.new, gate.new) }
    {
        let answer = retry_change(
            rt,
            &self.table,
            &mut pass.seat,
            gate,
            &mut pass.scratch,
            call,
        );
        pass.count.note_answer(&answer);
        answer
    }
}

/// Returns the reply to a get that found `found`: `Value`, or `Absent` for `None`.
pub(crate) fn reply_to_get(found: Option<u64>) -> Reply
    ensures { result ≡ got found }
{
    match found {
        Some(value) => Reply::Value(value),
        None => Reply::Absent,
    }
}
