//! What takes the pairs of a walk: a list of them, or of their values; `counting.rt` has their number.

ghost use Rattle.std.specs.Prelude.{◌*◌, ◌+◌, ◌<◌, ◌≡◌, ◌≤◌, ◌^◌, ◌-◌, ℕ, IfOk, List, OnErr, OnOk, length, take};
ghost use Rattle.insert_cases.specs.declared.choice.PathNode.{PathNode};
ghost use Rattle.key_bits.specs.Key.{IsKey};
ghost use Rattle.key_bits.specs.declared.TheConstants.{MAX_BYTES};
ghost use Rattle.record_words.specs.declared.TheConstants.{LEAF_FIELDS};
ghost use Rattle.rowex_reading.specs.Reads.{IsReader, Reads};
ghost use Rattle.rowex_scanning.specs.Ahead.{AreNext, LeavesBeginAt, AreTakenOnWays};
ghost use Rattle.rowex_scanning.specs.Scanning.{HasTakenPart, asked_range, request_of};
ghost use Rattle.rowex_scanning.specs.Tallies.{IsKept, IsOneMore};
ghost use Rattle.rowex_table.specs.Rule.{IsLeafRecordAt};
ghost use Rattle.rowex_table.specs.Seats.{HasTouched, IsSeatOf};

use crate::ahead::touch_leaf;
use crate::scan::{Places, Scan, Verdict};
use crate::taking::take_each_leaf;
use key_bits::MAX_BYTES;
use packed_pairs::Filling;
use rowex_core::Gate;
use rowex_table::{RecordAt, TableSeat};
use std::alloc::AllocError;

/// What is kept of pairs that are taken one by one.
pub(crate) trait Tallies {
    ghost use Rattle.std.specs.Prelude.{ℕ};
    ghost use Rattle.rowex_scanning.specs.Tallies.{Tally};

    /// How many pairs were taken, and what the sink tells of them.
    ghost tally: { Self → Tally };

    /// For how many more pairs the sink has room.
    ghost room: { Self → ℕ };

    /// Whether memory may be refused for a pair.
    ghost may_refuse: { Type 0 };

    /// Touches at most two words of `leaf`, which comes next on the walk, if `touches` says so, so that its cache lines come. A sink that
    /// doesn't read each leaf touches none.
    #[inline(always)]
    fn touch_leaf(&self, scan: &Scan, seat: &mut TableSeat, leaf: RecordAt, touches: bool)
        requires own { IsSeatOf scan.now.table.now seat.old }
        requires origins { scan.now.origins.now.layout ≡ scan.now.table.now.layout }
        requires leaf { IsLeafRecordAt scan.now.table.now.layout leaf }
        ensures { HasTouched 2 seat.old seat.new }
    {
        touch_leaf(scan, seat, leaf, touches);
    }

    /// Returns how many pairs were taken.
    fn size(&self) -> usize
        ensures { result ≡ (tally self.now).size };

    /// Makes room for `count` more pairs, no more than a node has entries. An error if memory is refused for them. For 0 pairs there is no
    /// error. The pairs taken stay in either case.
    fn make_room(&mut self, count: usize) -> Result<(), AllocError>
        requires few { count ≤ 32 }
        requires fits { (tally self.old).size + count < 2 ^ 64 }
        ensures kept { IsKept (tally self.old) (tally self.new) }
        ensures room { OnOk result (count ≤ room self.new) }
        ensures some { OnErr result (0 < count) }
        ensures refused { OnErr result may_refuse };

    /// Takes the pair of `value` and of the key in the first `length` bytes of `places`, for which there is room. The room then has at most
    /// one pair less.
    fn take_pair(&mut self, places: &[u8; MAX_BYTES], length: usize, value: u64)
        requires key { IsKey (take length places.now) }
        requires fits { length ≤ MAX_BYTES }
        requires room { 0 < room self.old }
        ensures taken { IsOneMore (tally self.old) (take length places.now) value (tally self.new) }
        ensures room { room self.old ≤ room self.new + 1 };
}

/// What a walk gives its leaves to, a group at a time.
pub(crate) trait Sink: Tallies {
    /// Takes the pairs of `leaves`, which come next on the walk, and returns `Further`. At a leaf past the range it stops and returns
    /// `Past`; at one of the range for which the limit leaves no room, `Full`. An error if memory is refused; the pairs before it stay,
    /// fewer than the limit.
    ///
    /// The limit leaves room for all of the leaves, or for all but one. Their records begin at `starts`. At most `LEAF_FIELDS` loads are
    /// made for each leaf, and `gate` is told of each. `places` is room for keys.
    fn take_leaves<G: Gate>(
        &mut self,
        scan: &Scan,
        seat: &mut TableSeat,
        gate: &mut G,
        leaves: &[u32],
        starts: &[usize],
        places: &mut Places,
    ) -> Result<Verdict, AllocError>
        requires reader { IsReader scan.now.table.now seat.old }
        requires origins { scan.now.origins.now.layout ≡ scan.now.table.now.layout }
        requires next { (top : PathNode) × (frames : List PathNode) × AreNext seat.old.known (request_of scan.now.range.now) top frames (Self.tally self.old) leaves.now }
        requires starts { LeavesBeginAt scan.now.table.now.layout leaves.now starts.now }
        requires few { (Self.tally self.old).size + length leaves.now ≤ scan.now.range.now.limit + 1 }
        ensures reads { (n : ℕ) × (n ≤ LEAF_FIELDS * length leaves.now) × Reads scan.now.table.now G.becomes 0 n (seat.old, gate.old) (seat.new, gate.new) }
        ensures more { (Self.tally self.old).size ≤ (Self.tally self.new).size }
        ensures taken { IfOk result (AreTakenOnWays seat.old.known seat.new.known (request_of scan.now.range.now) (Self.tally self.old) leaves.now
            (Self.tally self.new)) }
        ensures part { OnErr result (HasTakenPart scan.now.range.now.direction seat.new.known (asked_range scan.now.range.now) (Self.tally self.new)) }
        ensures refused { OnErr result Self.may_refuse }
    {
        take_each_leaf(scan, seat, gate, leaves, starts, places, self)
    }
}

impl Tallies for Filling {
    ghost use Rattle.rowex_scanning.specs.Tallies.{tally_of_pairs};

    ghost tally = { λ filling. tally_of_pairs filling.pairs };

    ghost room = { λ filling. filling.room };

    ghost may_refuse = { Unit {0} };

    /// Returns how many pairs the list has.
    #[inline(always)]
    fn size(&self) -> usize {
        self.len()
    }

    /// Reserves memory for `count` more pairs.
    #[inline(always)]
    fn make_room(&mut self, count: usize) -> Result<(), AllocError> {
        self.reserve(count)
    }

    /// Appends the pair of `value` and of the key in the first `length` bytes of `places`.
    #[inline(always)]
    fn take_pair(&mut self, places: &[u8; MAX_BYTES], length: usize, value: u64) {
        self.push(places, length, value);
    }
}

impl Sink for Filling {}

impl Tallies for Vec<u64> {
    ghost use Rattle.std.specs.Prelude.{◌-◌};
    ghost use Rattle.std.specs.Vec.{vec_capacity, vec_len};
    ghost use Rattle.rowex_scanning.specs.Tallies.{tally_of_values};

    ghost tally = { λ values. tally_of_values values.items };

    ghost room = { λ values. vec_capacity values - vec_len values };

    ghost may_refuse = { Unit {0} };

    /// Returns how many values the list has.
    #[inline(always)]
    fn size(&self) -> usize {
        self.len()
    }

    /// Reserves memory for `count` more values.
    #[inline(always)]
    fn make_room(&mut self, count: usize) -> Result<(), AllocError> {
        self.reserve(count)
    }

    /// Appends the value, and drops the key.
    #[inline(always)]
    fn take_pair(&mut self, _places: &[u8; MAX_BYTES], _length: usize, value: u64) {
        self.push_reserved(value);
    }
}

impl Sink for Vec<u64> {}
