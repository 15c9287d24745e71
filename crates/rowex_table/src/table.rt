//! The table and the seats of its passes.

ghost use Rattle.std.specs.Prelude.{◌≡◌};

use crate::first_words::FirstWords;
use crate::plays::RowexRule;
use crate::traces::TracedView;
use atomic_table::{Seat, Table};
use record_words::{Layout, Origins};
use std::alloc::Global;
use std::marker::Model;

/// The right of one pass to make steps. What the pass knows, and its trace, take no bytes. They change when the pass makes a step or a
/// stamp, meets another pass or follows a stamp.
#[derive(Drop)]
pub struct TableSeat {
    pub(crate) seat: Seat<(), TracedView>,
    pub(crate) pass: u16,
}

impl Model for TableSeat {
    ghost use Rattle.rowex_table.specs.Seats.{SeatView};

    ghost Value = { SeatView };

    ghost use Rattle.rowex_table.specs.Rule.{IsOfPass, known_of, trace_of};

    ghost view = { λ s. record {
      table = s.seat.table_id;
      id = s.seat.id;
      known = known_of s.seat.me.0;
      trace = (trace_of s.seat.me.0).events;
      asides = (trace_of s.seat.me.0).asides;
      touches = (trace_of s.seat.me.0).touches;
      bounds = (trace_of s.seat.me.0).bounds;
    } };

    ghost invariant = { λ s. IsOfPass s.seat.me s.pass };
}

impl TableSeat {
    /// Returns the number of the pass.
    pub fn number(&self) -> u16
        ensures { result ≡ self.now.known.pass }
    {
        self.pass
    }
}

/// The shared words of an index, which passes step on through a `&`.
#[derive(Drop)]
pub struct HotTable {
    pub(crate) table: Table<(), TracedView, FirstWords, RowexRule, Global>,
    /// What is fixed of the layout, added up once: each step finds its word by this.
    pub(crate) origins: Origins,
}

impl Model for HotTable {
    ghost use Rattle.std.specs.Prelude.{◌≡◌};
    ghost use Rattle.rowex_table.specs.Seats.{TableView};

    ghost Value = { TableView };

    ghost use Rattle.record_words.specs.Layout.{word_count};

    ghost view = { λ t. record { id = t.table.shared.table_id; layout = t.origins.layout } };

    ghost invariant = { λ t. (t.table.shared.table_id.words ≡ word_count t.origins.layout) × (t.table.shared.key.layout ≡ t.origins.layout) };
}

impl HotTable {
    /// Returns how many passes and records the table has.
    pub fn layout(&self) -> Layout
        ensures { result ≡ self.now.layout }
    {
        self.origins.layout
    }

    /// Returns where the table's records begin, as a copy. A walk over many records keeps the copy in registers. A field of `self` would be
    /// loaded again after each atomic load.
    pub fn origins(&self) -> Origins
        ensures { result.layout ≡ self.now.layout }
    {
        self.origins
    }
}
