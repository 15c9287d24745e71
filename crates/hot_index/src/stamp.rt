//! Stamps: what a pass has seen, as a value that can go to another thread without the pass.

ghost use Rattle.std.specs.Prelude.{◌≡◌};
ghost use Rattle.rowex_table.specs.Traces.{RunBeginsWith};
ghost use Rattle.hot_index_calls.specs.Passes.{Owns};
ghost use Rattle.hot_index.specs.Stamps.{HasCaughtUp, HasStamped, IsStampFrom};

use crate::index::{Index, Pass};
use rowex_table::TableStamp;
use std::marker::Model;

/// What a pass had seen when the stamp was made. It may go to another thread in a message, under a lock, or by a thread's start or
/// end. A pass that follows the stamp there has then seen all of that, too.
#[derive(Drop)]
pub struct Stamp {
    stamp: TableStamp,
}

impl Model for Stamp {
    ghost use Rattle.rowex_table.specs.Seats.{StampView};

    ghost Value = { StampView };

    ghost view = { λ s. s.stamp };
}

impl Index {
    /// Returns a stamp, of this index, of all changes that `pass` has seen, its own included, and of all steps that it knows. The stamp is
    /// counted among the `asides` of the pass; all else of the pass stays. The call makes one load, which counts as no step.
    pub fn stamp(&self, pass: &mut Pass) -> Stamp
        requires { Owns self.now pass.old }
        ensures same { HasStamped pass.old pass.new }
        ensures owned { Owns self.now pass.new }
        ensures own { IsStampFrom self.now result }
        ensures front { result.front ≡ pass.old.front }
        ensures trace { result.trace ≡ pass.old.seat.trace }
    {
        let stamp = self.table.stamp_seat(&mut pass.seat);
        Stamp { stamp }
    }

    /// Lets `pass` see all changes made so far, among them those that `stamp` tells of. The stamp must be of the same index. The pass's
    /// later calls then come after the calls that the stamp's pass had completed (`laws::returned_before_begun`). The pass then knows the
    /// steps that made these changes, too, and counts the following among its `asides`. Nothing else of it changes. The call makes two
    /// loads, which count as no steps.
    pub fn follow(&self, pass: &mut Pass, stamp: Stamp)
        requires own { Owns self.now pass.old }
        requires stamp { IsStampFrom self.now stamp }
        ensures own { Owns self.now pass.new }
        ensures followed { HasCaughtUp self.now.layout stamp.front pass.old pass.new }
        ensures traced { RunBeginsWith pass.new.seat.trace stamp.trace }
    {
        let Stamp { stamp } = stamp;
        self.table.follow_stamp(&mut pass.seat, stamp);
    }
}
