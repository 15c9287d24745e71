//! The handle of a load as C has it.

ghost use Rattle.std.specs.Prelude.{◌≡◌, ◌↔◌, IsSome, IsTrue, None, Some};

use crate::load::cell::LoadCell;
use crate::load::open_load::OpenLoad;
use std::alloc::Global;

/// The tag of an open handle. No handle that was zeroed has it.
const TAG: u32 = 0x4c4f_4144;

/// A load as C has it. While the handle is open, it is the right to give the load pairs and to end it. Zeroed bytes are a closed one. It
/// stays on the thread that opened it.
#[repr(C)]
pub struct LoadHandle {
    tag: u32,
    pub cell: LoadCell,
    pub ghost tagged: { (tag ≡ 0x4c4f_4144) ↔ IsSome cell.opened },
}

impl LoadHandle {
    /// Returns whether the handle is open.
    pub fn is_open(&self) -> bool
        ensures { IsTrue result ↔ IsSome self.now.cell.opened }
    {
        self.tag == TAG
    }

    /// Closes the handle, which must be open, and returns what it held.
    pub fn close(&mut self, alloc: Global) -> Box<OpenLoad, Global>
        requires { IsSome self.old.cell.opened }
        ensures value { self.old.cell.opened ≡ Some result.value }
        ensures gone { self.new.cell.opened ≡ None }
    {
        self.tag = 0;
        self.cell.take(alloc)
    }

    /// Opens the handle, which must be closed, with `opened`. The handle holds this from then on.
    pub fn open(&mut self, opened: Box<OpenLoad, Global>)
        requires { self.old.cell.opened ≡ None }
        ensures { self.new.cell.opened ≡ Some opened.value }
    {
        self.tag = TAG;
        self.cell.put(opened);
    }
}
