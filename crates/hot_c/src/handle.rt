//! Handles, with which a program in C uses an index.

ghost use Rattle.std.specs.Prelude.{◌≡◌, ◌↔◌, IsSome, IsTrue, None, Some};

use crate::cell::HandleCell;
use crate::opened::Opened;
use std::alloc::Global;

/// The tag of an open handle. No handle that was zeroed has it.
const TAG: u32 = 0x544f_4821;

/// A handle as C has it. While it is open, it is the right of one thread at a time to use an index. Zeroed bytes are a closed one.
#[repr(C)]
pub struct IndexHandle {
    tag: u32,
    pub cell: HandleCell,
    /// A pointer of `c/hot.c`, to what the index keeps of the handle. Nothing here reads it, and each call leaves it as it is.
    pub place: usize,
    pub ghost tagged: { (tag ≡ 0x544f_4821) ↔ IsSome cell.opened },
}

impl IndexHandle {
    /// Returns whether the handle is open.
    pub fn is_open(&self) -> bool
        ensures { IsTrue result ↔ IsSome self.now.cell.opened }
    {
        self.tag == TAG
    }

    /// Closes the handle, which must be open, and returns what it held. `place` stays.
    pub fn close(&mut self, alloc: Global) -> Box<Opened, Global>
        requires { IsSome self.old.cell.opened }
        ensures value { self.old.cell.opened ≡ Some result.value }
        ensures gone { self.new.cell.opened ≡ None }
        ensures place { self.new.place ≡ self.old.place }
    {
        self.tag = 0;
        self.cell.take(alloc)
    }

    /// Opens the handle, which must be closed, with `opened`. The handle holds this from then on, and `place` stays.
    pub fn open(&mut self, opened: Box<Opened, Global>)
        requires { self.old.cell.opened ≡ None }
        ensures opened { self.new.cell.opened ≡ Some opened.value }
        ensures place { self.new.place ≡ self.old.place }
    {
        self.tag = TAG;
        self.cell.put(opened);
    }
}

/// Does nothing. Its bound asks that the value's type may go to another thread.
fn assert_send<T: Send>(_value: &T) {}

/// Does nothing. It is proved only if a handle may go to another thread, as C may let it.
pub fn handle_is_send(handle: &IndexHandle) {
    assert_send(handle);
}
