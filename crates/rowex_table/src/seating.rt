//! How a table is made with the seats of its passes, and how two of these meet.

ghost use Rattle.std.specs.Prelude.{◌≡◌, ◌≤◌, ℕ, IfOk, Some, All, length};
ghost use mathlib.Core.Option.{some};
ghost use lib.ListN.{get_elem?};
ghost use Rattle.record_words.specs.Layout.{word_count};
ghost use Rattle.record_words.specs.declared.records.Rec.{Rec};
ghost use Rattle.versions.specs.State.{IsLinked};
ghost use Rattle.rowex_core.specs.Events.{IsLoad, after, loaded_tree};
ghost use Rattle.record_words.specs.Layout.{uncommitted_in};
ghost use Rattle.rowex_table.specs.Committed.{IsCommitted};
ghost use Rattle.rowex_core.specs.Opening.{opening};
ghost use Rattle.rowex_core.specs.Words.{Shows};
ghost use Rattle.rowex_table.specs.Rule.{IsRuledAtFirst, SeatsHaveMet, first_view, load_of};
ghost use Rattle.rowex_table.specs.Seats.{SeatView, HasAllCommitted, HasUncommitted, IsDealtSeat, IsLoaderSeat, IsNewSeatOf, IsNewSeat, IsSeatOf, IsShownAll};

use crate::first_words::FirstWords;
use crate::plays::{Deal, Meets, Part, Step};
use crate::table::{HotTable, TableSeat};
use atomic_table::Table;
use record_words::{
    ANCHOR_WORD, EPOCH_WORD, FIRST_UNCOMMITTED, Layout, Origins, RECORD_KINDS, Tag, pack_state,
};
use std::alloc::{AllocError, Global};
use std::marker::Brand;

impl HotTable {
    /// Makes a table of `layout` with an empty index, and all its records committed. Returns it with the seats of its passes, all new, in the
    /// order of their numbers from 0 on. `AllocError` if memory is refused.
    pub fn new(alloc: Global, layout: Layout) -> Result<(HotTable, Vec<TableSeat>), AllocError>
        ensures table { IfOk result (λ made. made.0.layout ≡ layout) }
        ensures count { IfOk result (λ made. length made.1.items ≡ layout.passes) }
        ensures seats { IfOk result (λ made. (q : ℕ) (s : SeatView) → get_elem? made.1.items q ≡ some s → IsNewSeatOf made.0 q s) }
        ensures each { IfOk result (λ made. All (IsNewSeat made.0) made.1.items) }
        ensures committed { IfOk result (λ made. (q : ℕ) (s : SeatView) → get_elem? made.1.items q ≡ some s → HasAllCommitted s) }
    {
        let mut words = Vec::from_elem(alloc, 0u64, layout.words())?;
        words[EPOCH_WORD] = 1;
        words[ANCHOR_WORD] = pack_state(Tag::Live);
        let loads = false;
        HotTable::make_with_seats(
            alloc,
            &FirstWords {
                layout,
                loads,
                words,
            },
        )
    }

    /// Makes a table of `layout` with an empty index, as `new` does. Of each kind the last records are uncommitted, as many as
    /// `uncommitted` says: of nodes, and then of each leaf class. `AllocError` if memory is refused.
    pub fn new_reserved(
        alloc: Global,
        layout: Layout,
        uncommitted: &[u64; RECORD_KINDS],
    ) -> Result<(HotTable, Vec<TableSeat>), AllocError>
        ensures table { IfOk result (λ made. made.0.layout ≡ layout) }
        ensures count { IfOk result (λ made. length made.1.items ≡ layout.passes) }
        ensures seats { IfOk result (λ made. (q : ℕ) (s : SeatView) → get_elem? made.1.items q ≡ some s → IsNewSeatOf made.0 q s) }
        ensures each { IfOk result (λ made. All (IsNewSeat made.0) made.1.items) }
        ensures uncommitted { IfOk result (λ made. (q : ℕ) (s : SeatView) → get_elem? made.1.items q ≡ some s → HasUncommitted uncommitted.now s) }
    {
        let mut words = Vec::from_elem(alloc, 0u64, layout.words())?;
        words[EPOCH_WORD] = 1;
        words[ANCHOR_WORD] = pack_state(Tag::Live);
        for kind in 0..RECORD_KINDS {
            words[FIRST_UNCOMMITTED + kind] = uncommitted[kind];
        }
        let loads = false;
        HotTable::make_with_seats(
            alloc,
            &FirstWords {
                layout,
                loads,
                words,
            },
        )
    }

    /// Makes a table of `layout` and `words`, which show pairs that were loaded. Returns it with the seats of its passes, in the order of
    /// their numbers from 0 on. Pass 0 has loaded the pairs, by an insertion of each in the order of their keys; the others are new.
    /// `AllocError` if memory is refused.
    pub fn new_loaded(
        alloc: Global,
        layout: Layout,
        words: Vec<u64>,
    ) -> Result<(HotTable, Vec<TableSeat>), AllocError>
        requires load { IsLoad layout words.items }
        requires shows { Shows (after (opening layout) 0 (load_of words.items)) words.items }
        requires committed { (rec : Rec) → IsLinked (loaded_tree layout words.items) rec → IsCommitted layout (uncommitted_in words.items) rec }
        ensures table { IfOk result (λ made. made.0.layout ≡ layout) }
        ensures count { IfOk result (λ made. length made.1.items ≡ layout.passes) }
        ensures first { IfOk result (λ made. (s : SeatView) → get_elem? made.1.items 0 ≡ some s → IsLoaderSeat made.0 words.items s) }
        ensures others { IfOk result (λ made. (q : ℕ) (s : SeatView) → 1 ≤ q → get_elem? made.1.items q ≡ some s → IsNewSeatOf made.0 q s) }
        ensures bounds { IfOk result (λ made. (q : ℕ) (s : SeatView) → get_elem? made.1.items q ≡ some s → s.bounds ≡ words.items) }
    {
        let loads = true;
        HotTable::make_with_seats(
            alloc,
            &FirstWords {
                layout,
                loads,
                words,
            },
        )
    }

    /// Makes the table that `first_words` says, of which the rule of the table holds. Returns it with the seats of its passes, in the order
    /// of their numbers from 0 on. `AllocError` if memory is refused.
    fn make_with_seats(
        alloc: Global,
        first_words: &FirstWords,
    ) -> Result<(HotTable, Vec<TableSeat>), AllocError>
        requires count { length first_words.now.words.items ≡ word_count first_words.now.layout }
        requires ruled { IsRuledAtFirst first_words.now.layout first_words.now.loads first_words.now.words.items }
        ensures table { IfOk result (λ made. made.0.layout ≡ first_words.now.layout) }
        ensures count { IfOk result (λ made. length made.1.items ≡ first_words.now.layout.passes) }
        ensures seats { let first = first_view first_words.now.layout first_words.now.loads first_words.now.words.items in
            IfOk result (λ made. (q : ℕ) (s : SeatView) → get_elem? made.1.items q ≡ some s → IsDealtSeat made.0 first q s) }
    {
        let layout = first_words.layout;
        let (table, mut dealer) = Table::of_words(
            alloc,
            first_words.words.as_slice(),
            first_words,
        )?;
        let mut seats = Vec::new(alloc);
        for number in 0..layout.passes {
            let seat = table.shared.split_seat::<Deal>(&mut dealer);
            seats.push(TableSeat {
                seat,
                pass: number as u16,
            })?;
        }
        let origins = Origins::of(layout);
        Ok((HotTable { table, origins }, seats))
    }

    /// Lets the passes of the seats `first` and `second` meet: both have then seen all changes and steps up to now, the same ones. Returns
    /// their seats, the one of `first` first. No event is made; `asides` counts one more for each pass. The two seats have different
    /// passes, since no pass has two.
    pub fn meet_seats(&self, first: TableSeat, second: TableSeat) -> (TableSeat, TableSeat)
        requires { IsSeatOf self.now first × IsSeatOf self.now second }
        ensures own { IsSeatOf self.now result.0 × IsSeatOf self.now result.1 }
        ensures passes { (result.0.known.pass ≡ first.known.pass) × (result.1.known.pass ≡ second.known.pass) }
        ensures met { SeatsHaveMet self.now.layout first.known second.known result.0.known result.1.known }
        ensures traces { result.0.trace ≡ result.1.trace }
        ensures shown { IsShownAll self.now.layout first result.0 × IsShownAll self.now.layout second result.1 }
    {
        self.meet_seats_as::<Brand>(first, second)
    }

    /// Lets the passes of the seats `first` and `second` meet, as `meet_seats` does, at a table of the layout that `Q` names. A load of
    /// word 0, which is ignored, shows both passes the run up to it. Returns their seats, the one of `first` first.
    fn meet_seats_as<Q: Step>(&self, first: TableSeat, second: TableSeat) -> (TableSeat, TableSeat)
        requires own { IsSeatOf self.now first × IsSeatOf self.now second }
        requires layout { Q.layout ≡ Some self.now.layout }
        ensures own { IsSeatOf self.now result.0 × IsSeatOf self.now result.1 }
        ensures passes { (result.0.known.pass ≡ first.known.pass) × (result.1.known.pass ≡ second.known.pass) }
        ensures met { SeatsHaveMet self.now.layout first.known second.known result.0.known result.1.known }
        ensures traces { result.0.trace ≡ result.1.trace }
        ensures shown { IsShownAll self.now.layout first result.0 × IsShownAll self.now.layout second result.1 }
    {
        let TableSeat { mut seat, pass } = first;
        let TableSeat {
            seat: other,
            pass: other_pass,
        } = second;
        let shared = &self.table.shared;
        shared.join_seat::<Part>(&mut seat, other);
        shared.load::<Meets<Q>>(&mut seat, 0);
        let other = shared.split_seat::<Part>(&mut seat);
        (
            TableSeat { seat, pass },
            TableSeat {
                seat: other,
                pass: other_pass,
            },
        )
    }
}
