//! What a cell holds: lent for a call, taken out, put in.

ghost use Rattle.std.specs.Prelude.{◌≡◌, None, Some, IsSome};
ghost use Rattle.std.specs.Borrow.{sem};
ghost use Rattle.hot_handles.specs.LoadLending.{held_load, LendsHeldLoad, LendsLoad};

use crate::held::Held;
use crate::load::cell::LoadCell;
use crate::load::open_load::OpenLoad;
use std::alloc::Global;

impl LoadCell {
    /// Returns the cell as a `Held` of an open load, for the functions that are proved for any type. The holder has what the cell holds.
    /// What becomes of that holder becomes of the cell.
    fn held(&mut self) -> &mut Held<OpenLoad>
        ensures* writes_back { sem 𝓛 (LendsHeldLoad self.entry result) }
        ensures value { result.now ≡ held_load self.old }
    {
        unsafe { &mut *(self as *mut LoadCell as *mut Held<OpenLoad>) }
    }

    /// Lends what the cell holds, to be read and changed in its place. The cell must not be empty. When the loan ends, the cell holds what
    /// was last behind the reference.
    pub fn lend(&mut self) -> &mut OpenLoad
        requires { IsSome self.old.opened }
        ensures* writes_back { sem 𝓛 (LendsLoad self.entry result) }
        ensures value { self.old.opened ≡ Some result.now }
    {
        self.held().lend()
    }

    /// Takes out and returns what the cell holds. The cell must not be empty, and is empty afterwards.
    pub(crate) fn take(&mut self, alloc: Global) -> Box<OpenLoad, Global>
        requires { IsSome self.old.opened }
        ensures value { self.old.opened ≡ Some result.value }
        ensures gone { self.new.opened ≡ None }
    {
        self.held().take(alloc)
    }

    /// Puts `boxed` into the cell. The cell must be empty before, since what it holds would be lost with its memory.
    pub(crate) fn put(&mut self, boxed: Box<OpenLoad, Global>)
        requires { self.old.opened ≡ None }
        ensures { self.new.opened ≡ Some boxed.value }
    {
        self.held().put(boxed);
    }
}
