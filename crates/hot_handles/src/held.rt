//! A value in a box of C's heap, or nothing, as one pointer.

ghost use Rattle.std.specs.Prelude.{◌≡◌, Option as Maybe, None, Some, IsSome};
ghost use Rattle.hot_handles.specs.Owning.{owns_held};

use std::alloc::Global;
use std::marker::Model;
use std::mem::replace;
use std::ptr::null_mut;

/// What a cell holds: a value in a box of C's heap, or nothing. Dropping it doesn't drop the value.
#[derive(Drop)]
pub struct Held<T> {
    pub(crate) at: *mut T,
    pub ghost value: { Maybe T },
}

impl<T> Model for Held<T> {
    ghost also_owns = { λ h. owns_held T.row h.at h.value };
}

impl<T> Held<T> {
    /// Returns a holder of nothing.
    fn empty() -> Held<T>
        ensures { result.value ≡ None }
    {
        Held { at: null_mut() }
    }

    /// Returns the value in its box, and uses the holder up. The holder must have a value.
    fn into_box(self, alloc: Global) -> Box<T, Global>
        requires { IsSome self.value }
        ensures { self.value ≡ Some result.value }
    {
        let Held { at } = self;
        unsafe { Box::from_raw(alloc, at) }
    }

    /// Takes the value out, and returns it in its box. The holder must have a value, and has none afterwards.
    pub fn take(&mut self, alloc: Global) -> Box<T, Global>
        requires { IsSome self.old.value }
        ensures value { self.old.value ≡ Some result.value }
        ensures gone { self.new.value ≡ None }
    {
        replace(self, Held::empty()).into_box(alloc)
    }
}

impl<T: Drop> Held<T> {
    /// Returns a holder of the value that `boxed` held.
    fn of(boxed: Box<T, Global>) -> Held<T>
        ensures { result.value ≡ Some boxed.value }
    {
        Held {
            at: Box::into_raw(boxed),
        }
    }

    /// Puts the value of `boxed` in. The holder must have none before, since a value that it has would be lost with its memory.
    pub fn put(&mut self, boxed: Box<T, Global>)
        requires { self.old.value ≡ None }
        ensures { self.new.value ≡ Some boxed.value }
    {
        *self = Held::of(boxed);
    }
}

unsafe impl<T: Send> Send for Held<T> {}
