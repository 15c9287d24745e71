//! The handle of a section as C has it.

ghost use Rattle.std.specs.Prelude.{◌≡◌, ◌↔◌, IsSome, IsTrue, None, Some};

use crate::section::cell::SectionCell;
use crate::section::opened::OpenSection;
use std::alloc::Global;

/// The tag of an open handle. No handle that was zeroed has it.
const TAG: u32 = 0x5443_4553;

/// A section as C has it. While the handle is open, it is the right of one thread at a time to enter the section and to leave it. Zeroed
/// bytes are a closed one.
#[repr(C)]
pub struct SectionHandle {
    tag: u32,
    pub cell: SectionCell,
    pub ghost tagged: { (tag ≡ 0x5443_4553) ↔ IsSome cell.opened },
}

impl SectionHandle {
    /// Returns whether the handle is open.
    pub fn is_open(&self) -> bool
        ensures { IsTrue result ↔ IsSome self.now.cell.opened }
    {
        self.tag == TAG
    }

    /// Closes the handle, which must be open, and returns what it held.
    pub fn close(&mut self, alloc: Global) -> Box<OpenSection, Global>
        requires { IsSome self.old.cell.opened }
        ensures value { self.old.cell.opened ≡ Some result.value }
        ensures gone { self.new.cell.opened ≡ None }
    {
        self.tag = 0;
        self.cell.take(alloc)
    }

    /// Opens the handle, which must be closed, with `opened`. The handle holds this from then on.
    pub fn open(&mut self, opened: Box<OpenSection, Global>)
        requires { self.old.cell.opened ≡ None }
        ensures { self.new.cell.opened ≡ Some opened.value }
    {
        self.tag = TAG;
        self.cell.put(opened);
    }
}

/// Does nothing. Its bound asks that the value's type may go to another thread.
fn assert_send<T: Send>(_value: &T) {}

/// Does nothing. It is proved only if a handle may go to another thread, as C may let it.
pub fn section_handle_is_send(handle: &SectionHandle) {
    assert_send(handle);
}
