//! Steps on the words that say how many records of each kind are uncommitted. They are no events: no gate is told of one.

ghost use Rattle.std.specs.Prelude.{◌≡◌, ◌≤◌, ◌<◌, ◌+◌, Some};
ghost use Rattle.record_words.specs.declared.TheConstants.{RECORD_KINDS};
ghost use Rattle.record_words.specs.Layout.{uncommitted_in};
ghost use Rattle.rowex_core.specs.Events.{exchanged};
ghost use Rattle.rowex_core.specs.Cores.{HasRecord};
ghost use Rattle.rowex_table.specs.Committed.{IsCommitted, TakenAreCommitted, count_from, record_kind};
ghost use Rattle.rowex_table.specs.Seats.{HasFoundBounds, IsSeatOf, bounded_seat};

use crate::plays::{Bounding, Committing, UncommittedWord};
use crate::table::{HotTable, TableSeat};
use record_words::{FIRST_UNCOMMITTED, Layout, Rec};
use std::marker::Brand;

impl HotTable {
    /// Loads how many records of the kind are uncommitted, and returns it. Kinds are 0 for nodes, and 1 to 5 for leaves by their class. From
    /// then on no more are, and no more are found than the pass's bound. No step of which the pass knows has tried to claim one of these.
    pub fn load_uncommitted(&self, seat: &mut TableSeat, kind: u8) -> u64
        requires own { IsSeatOf self.now seat.old }
        requires kind { kind < RECORD_KINDS }
        ensures seat { seat.new ≡ bounded_seat kind result seat.old }
        ensures few { result ≤ uncommitted_in seat.old.bounds kind }
        ensures committed { TakenAreCommitted self.now.layout seat.old.trace kind result }
    {
        self.load_uncommitted_as::<Brand>(seat, kind)
    }

    /// Loads how many records of the kind that `Q` names are uncommitted, at a table of the layout that it names.
    fn load_uncommitted_as<Q: UncommittedWord>(&self, seat: &mut TableSeat, kind: u8) -> u64
        requires own { IsSeatOf self.now seat.old }
        requires kind { kind < RECORD_KINDS }
        requires names { (Q.layout ≡ Some self.now.layout) × (Q.kind ≡ kind) }
        ensures seat { seat.new ≡ bounded_seat kind result seat.old }
        ensures few { result ≤ uncommitted_in seat.old.bounds kind }
        ensures committed { TakenAreCommitted self.now.layout seat.old.trace kind result }
    {
        let word = FIRST_UNCOMMITTED + kind as usize;
        self.table.shared.load::<Bounding<Q>>(&mut seat.seat, word)
    }

    /// Leaves `count` records of the kind uncommitted, if `expected` are; else nothing changes. Returns how many were. `count` is no more
    /// than `expected`.
    pub fn commit_records(&self, seat: &mut TableSeat, kind: u8, expected: u64, count: u64) -> u64
        requires own { IsSeatOf self.now seat.old }
        requires kind { kind < RECORD_KINDS }
        requires falls { count ≤ expected }
        ensures seat { seat.new ≡ bounded_seat kind (exchanged result expected count) seat.old }
        ensures few { result ≤ uncommitted_in seat.old.bounds kind }
    {
        self.commit_records_as::<Brand>(seat, kind, expected, count)
    }

    /// Lets `rec` be committed, if it isn't. One load finds that it is.
    #[inline(always)]
    pub fn commit(&self, seat: &mut TableSeat, rec: Rec)
        requires own { IsSeatOf self.now seat.old }
        requires range { HasRecord self.now.layout rec }
        ensures bounds { HasFoundBounds seat.old seat.new }
        ensures committed { IsCommitted self.now.layout (uncommitted_in seat.new.bounds) rec }
    {
        let kind = number_of_kind(&self.origins.layout, rec);
        let found = self.load_uncommitted(seat, kind);
        if found > 0 {
            self.commit_up_to(seat, rec, kind, found);
        }
    }

    /// Returns how many records of its kind are committed from `rec` on, itself counted. One load finds that. If `rec` wasn't committed, it
    /// is from then on, and the result is 1.
    #[inline(always)]
    pub fn count_committed_from(&self, seat: &mut TableSeat, rec: Rec) -> u32
        requires own { IsSeatOf self.now seat.old }
        requires range { HasRecord self.now.layout rec }
        ensures bounds { HasFoundBounds seat.old seat.new }
        ensures some { 0 < result }
        ensures committed { uncommitted_in seat.new.bounds (record_kind self.now.layout rec) + result ≤ count_from self.now.layout rec }
        ensures rest { count_from self.now.layout rec ≤ result + uncommitted_in seat.old.bounds (record_kind self.now.layout rec) }
    {
        let kind = number_of_kind(&self.origins.layout, rec);
        let rest = count_after(&self.origins.layout, rec);
        let found = self.load_uncommitted(seat, kind);
        if found <= rest as u64 {
            return rest - found as u32 + 1;
        }
        self.commit_up_to(seat, rec, kind, found);
        1
    }

    /// Lets `rec`, which is of the kind, be committed with all before it. `found` is no less than the pass's bound.
    fn commit_up_to(&self, seat: &mut TableSeat, rec: Rec, kind: u8, found: u64)
        requires own { IsSeatOf self.now seat.old }
        requires range { HasRecord self.now.layout rec }
        requires kind { kind ≡ record_kind self.now.layout rec }
        requires few { uncommitted_in seat.old.bounds kind ≤ found }
        ensures bounds { HasFoundBounds seat.old seat.new }
        ensures committed { IsCommitted self.now.layout (uncommitted_in seat.new.bounds) rec }
    {
        let rest = count_after(&self.origins.layout, rec) as u64;
        let mut left = found;
        while left > rest {
            let found = self.commit_records(seat, kind, left, rest);
            if found == left {
                return;
            }
            left = found;
        }
    }

    /// Leaves `count` records of the kind that `Q` names uncommitted, at a table of the layout that it names.
    fn commit_records_as<Q: UncommittedWord>(
        &self,
        seat: &mut TableSeat,
        kind: u8,
        expected: u64,
        count: u64,
    ) -> u64
        requires own { IsSeatOf self.now seat.old }
        requires kind { kind < RECORD_KINDS }
        requires falls { count ≤ expected }
        requires names { (Q.layout ≡ Some self.now.layout) × (Q.kind ≡ kind) × (Q.expected ≡ expected) × (Q.count ≡ count) }
        ensures seat { seat.new ≡ bounded_seat kind (exchanged result expected count) seat.old }
        ensures few { result ≤ uncommitted_in seat.old.bounds kind }
    {
        let word = FIRST_UNCOMMITTED + kind as usize;
        self.table
            .shared
            .compare_exchange::<Committing<Q>>(&mut seat.seat, word, expected, count)
    }
}

/// Returns the kind of `rec`, as a number.
#[inline(always)]
fn number_of_kind(layout: &Layout, rec: Rec) -> u8
    ensures kind { result ≡ record_kind layout.now rec }
    ensures few { result < RECORD_KINDS }
{
    match rec {
        Rec::Node(_) => 0,
        Rec::Leaf(number) => {
            if number < layout.medium_from {
                1
            } else if number < layout.large_from {
                2
            } else if number < layout.wide_from {
                3
            } else if number < layout.long_from {
                4
            } else {
                5
            }
        }
    }
}

/// Returns how many records of its kind stand after `rec`.
fn count_after(layout: &Layout, rec: Rec) -> u32
    requires { HasRecord layout.now rec }
    ensures { result + 1 ≡ count_from layout.now rec }
{
    match rec {
        Rec::Node(number) => layout.nodes - number - 1,
        Rec::Leaf(number) => {
            let end = if number < layout.medium_from {
                layout.medium_from
            } else if number < layout.large_from {
                layout.large_from
            } else if number < layout.wide_from {
                layout.wide_from
            } else if number < layout.long_from {
                layout.long_from
            } else {
                layout.leaves
            };
            end - number - 1
        }
    }
}
