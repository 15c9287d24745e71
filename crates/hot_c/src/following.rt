//! How a handle sees what another has seen, for programs in C: so their calls are ordered in time.

ghost use Rattle.std.specs.Prelude.{◌≡◌};
ghost use Rattle.hot_c.specs.Following.{AreAtOneIndex, SeesLeader, SeesSteps};

use crate::handle::IndexHandle;
use crate::status::{CLOSED, DONE};

/// Lets `handle` see all changes that `leader`, another handle at the same index, has seen, and returns `DONE`. The pass of `handle` then
/// knows the steps that the leader's knew. The leader has made one stamp, and is otherwise as it was. If either handle is closed, it
/// returns `CLOSED`, and nothing changes. Both must be at one index, as `c/hot.c` ensures. An open handle stays open, with the passes that
/// it keeps, and `place` stays in each.
#[unsafe(no_mangle)]
pub extern "C" fn hot_see(handle: &mut IndexHandle, leader: &mut IndexHandle) -> u32
    requires { AreAtOneIndex handle.old.cell.opened leader.old.cell.opened }
    ensures call { SeesLeader handle.old.cell.opened handle.new.cell.opened leader.old.cell.opened leader.new.cell.opened result }
    ensures traced { SeesSteps handle.old.cell.opened handle.new.cell.opened leader.old.cell.opened leader.new.cell.opened }
    ensures places { (handle.new.place ≡ handle.old.place) × (leader.new.place ≡ leader.old.place) }
{
    if !handle.is_open() || !leader.is_open() {
        return CLOSED;
    }
    let stamp = leader.cell.lend().stamp();
    handle.cell.lend().follow(stamp);
    DONE
}
