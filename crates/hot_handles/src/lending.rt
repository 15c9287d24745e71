//! The value, lent for a call.

ghost use Rattle.std.specs.Prelude.{◌≡◌, Some, IsSome};
ghost use Rattle.std.specs.Borrow.{sem};
ghost use Rattle.hot_handles.specs.Lending.{LendsHeld};

use crate::held::Held;

impl<T> Held<T> {
    /// Lends the value, to be read and changed in its place. The holder must have a value. When the loan ends, the holder has the value
    /// that was last behind the reference.
    pub fn lend(&mut self) -> &mut T
        requires { IsSome self.old.value }
        ensures* writes_back { sem 𝓛 (LendsHeld T.row self.entry result) }
        ensures value { self.old.value ≡ Some result.now }
    {
        unsafe { &mut *self.at }
    }
}
