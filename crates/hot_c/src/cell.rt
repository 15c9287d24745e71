//! A place for what an open handle holds, behind an untyped pointer that C may hold.

ghost use Rattle.std.specs.Prelude.{Option as Maybe};
ghost use Rattle.hot_handles.specs.Owning.{owns_held};
ghost use Rattle.hot_c.specs.declared.opened.Opened.{Opened as Content};
ghost use Rattle.hot_c.specs.contracts.opened.Opened.{the_row};

use std::marker::Model;

/// What an open handle holds, or nothing. Dropping a cell doesn't drop what it holds.
#[repr(C)]
#[derive(Drop)]
pub struct HandleCell {
    at: *mut u8,
    pub ghost opened: { Maybe Content },
}

impl Model for HandleCell {
    ghost also_owns = { λ s. owns_held the_row s.at s.opened };
}

unsafe impl Send for HandleCell {}
