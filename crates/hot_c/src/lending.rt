//! What a cell holds: lent for a call, taken out, put in.

ghost use Rattle.std.specs.Prelude.{◌≡◌, None, Some, IsSome};
ghost use Rattle.std.specs.Borrow.{sem};
ghost use Rattle.hot_c.specs.Lending.{held_opened, LendsHeldOpened, LendsOpened};

use crate::cell::HandleCell;
use crate::opened::Opened;
use hot_handles::Held;
use std::alloc::Global;

impl HandleCell {
    /// Returns the cell as a `Held` of what an open handle holds, for the functions that are proved for any type. The holder has what the
    /// cell holds. What becomes of that holder becomes of the cell.
    fn held(&mut self) -> &mut Held<Opened>
        ensures* writes_back { sem 𝓛 (LendsHeldOpened self.entry result) }
        ensures value { result.now ≡ held_opened self.old }
    {
        unsafe { &mut *(self as *mut HandleCell as *mut Held<Opened>) }
    }

    /// Lends what the cell holds, to be read and changed in its place. The cell must not be empty. When the loan ends, the cell holds what
    /// was last behind the reference.
    pub fn lend(&mut self) -> &mut Opened
        requires { IsSome self.old.opened }
        ensures* writes_back { sem 𝓛 (LendsOpened self.entry result) }
        ensures value { self.old.opened ≡ Some result.now }
    {
        self.held().lend()
    }

    /// Takes out and returns what the cell holds. The cell must not be empty, and is empty afterwards.
    pub(crate) fn take(&mut self, alloc: Global) -> Box<Opened, Global>
        requires { IsSome self.old.opened }
        ensures value { self.old.opened ≡ Some result.value }
        ensures gone { self.new.opened ≡ None }
    {
        self.held().take(alloc)
    }

    /// Puts `boxed` into the cell. The cell must be empty before, since what it holds would be lost with its memory.
    pub(crate) fn put(&mut self, boxed: Box<Opened, Global>)
        requires { self.old.opened ≡ None }
        ensures { self.new.opened ≡ Some boxed.value }
    {
        self.held().put(boxed);
    }
}
