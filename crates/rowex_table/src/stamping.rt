//! Stamps: what a pass has seen, as a value of its own, and the pass that follows one.

ghost use Rattle.std.specs.Prelude.{◌≡◌, suc, Some};
ghost use Rattle.rowex_table.specs.Rule.{HasFollowed};
ghost use Rattle.rowex_table.specs.Seats.{IsOneSeat, IsSeatOf, IsShownAll, IsStampOf};
ghost use Rattle.rowex_table.specs.Traces.{RunBeginsWith};

use crate::plays::{Follows, Stamping, Step};
use crate::table::{HotTable, TableSeat};
use crate::traces::TracedView;
use atomic_table::Seat;
use std::marker::{Brand, Model};

/// What a pass had seen, its changes and its steps, as a value that may go to another thread. It has no bytes, and no right to any step.
#[derive(Drop)]
pub struct TableStamp {
    seat: Seat<(), TracedView>,
}

impl Model for TableStamp {
    ghost use Rattle.rowex_table.specs.Seats.{StampView};

    ghost Value = { StampView };

    ghost use Rattle.rowex_table.specs.Rule.{IsOfStamp, witnessed, witnessed_steps};

    ghost view = { λ s. record { table = s.seat.table_id; front = witnessed s.seat.me.0; trace = witnessed_steps s.seat.me.0 } };

    ghost invariant = { λ s. IsOfStamp s.seat.me };
}

impl HotTable {
    /// Returns a stamp with the changes and the steps that the pass has seen. No event is made. The seat stays as it was, but `asides`
    /// counts one more: a stamp made or followed, or a meeting.
    pub fn stamp_seat(&self, seat: &mut TableSeat) -> TableStamp
        requires { IsSeatOf self.now seat.old }
        ensures same { seat.new ≡ record seat.old { asides = suc seat.old.asides } }
        ensures own { IsStampOf self.now result }
        ensures front { result.front ≡ seat.old.known.front }
        ensures trace { result.trace ≡ seat.old.trace }
    {
        let seat = self.table.shared.split_seat::<Stamping>(&mut seat.seat);
        TableStamp { seat }
    }

    /// Lets the pass see all changes and steps up to now, those of `stamp` among them. No event is made; `asides` counts one more. The
    /// stamp is used up.
    pub fn follow_stamp(&self, seat: &mut TableSeat, stamp: TableStamp)
        requires { IsSeatOf self.now seat.old × IsStampOf self.now stamp }
        ensures same { IsOneSeat seat.old seat.new }
        ensures shown { IsShownAll self.now.layout seat.old seat.new }
        ensures followed { HasFollowed self.now.layout stamp.front seat.old.known seat.new.known }
        ensures traced { RunBeginsWith seat.new.trace stamp.trace }
    {
        self.follow_stamp_as::<Brand>(seat, stamp);
    }

    /// Lets the pass see all changes and steps up to now, those of `stamp` among them, at a table of the layout that `Q` names. A load of
    /// word 0, which is ignored, shows the pass the run up to it. `asides` counts one more, and the stamp is used up.
    fn follow_stamp_as<Q: Step>(&self, seat: &mut TableSeat, stamp: TableStamp)
        requires own { IsSeatOf self.now seat.old × IsStampOf self.now stamp }
        requires layout { Q.layout ≡ Some self.now.layout }
        ensures same { IsOneSeat seat.old seat.new }
        ensures shown { IsShownAll self.now.layout seat.old seat.new }
        ensures followed { HasFollowed self.now.layout stamp.front seat.old.known seat.new.known }
        ensures traced { RunBeginsWith seat.new.trace stamp.trace }
    {
        let TableStamp { seat: witness } = stamp;
        let shared = &self.table.shared;
        shared.join_seat::<Stamping>(&mut seat.seat, witness);
        shared.load::<Follows<Q>>(&mut seat.seat, 0);
    }
}
