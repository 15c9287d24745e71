//! A place for what an open handle holds, behind an untyped pointer that C may hold.

ghost use Rattle.std.specs.Prelude.{Option as Maybe};
ghost use Rattle.hot_handles.specs.Owning.{owns_held};
ghost use Rattle.hot_handles.specs.declared.section.opened.OpenSection.{OpenSection as Content};
ghost use Rattle.hot_handles.specs.contracts.section.opened.OpenSection.{the_row};

use std::marker::Model;

/// What an open handle holds, or nothing. Dropping a cell doesn't drop what it holds.
#[repr(C)]
#[derive(Drop)]
pub struct SectionCell {
    at: *mut u8,
    pub ghost opened: { Maybe Content },
}

impl Model for SectionCell {
    ghost also_owns = { λ s. owns_held the_row s.at s.opened };
}

unsafe impl Send for SectionCell {}
