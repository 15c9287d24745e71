//! The calls of sections, for programs in C: whether each that was open at a moment has been left.

ghost use Rattle.std.specs.Prelude.{◌≡◌, ◌≤◌, ◌<◌, ◌⊎◌, IsSome, None, Some};
ghost use Rattle.hot_handles.specs.declared.section.opened.OpenSection.{OpenSection as OpenSection};
ghost use Rattle.hot_c.specs.Sections.{EntersSection, HasOpenedSections, LeavesSection, OpensSection, TellsInside, TellsMoment, TellsPast};

use crate::status::{
    CLOSED, DONE, INSIDE, NO_HANDLE, NO_MEMORY, NOT_PAST, OPEN, OUT_OF_RANGE, OUTSIDE,
};
use hot_handles::{SectionHandle, make_keeper};
use std::alloc::Global;

/// Makes a table of `count` sections and one more, opens `handle` with the first of them, and returns `DONE`. The handle keeps the others,
/// for `hot_open_section`. Else `handle` stays as it was. It returns `OUT_OF_RANGE` if `count` is above 65,534, else `OPEN` if `handle` is
/// open, or `NO_MEMORY`.
#[unsafe(no_mangle)]
pub extern "C" fn hot_make_sections(alloc: Global, count: usize, handle: &mut SectionHandle) -> u32
    ensures range { 65_535 ≤ count → (result ≡ OUT_OF_RANGE) × (handle.new ≡ handle.old) }
    ensures open { count < 65_535 → IsSome handle.old.cell.opened → (result ≡ OPEN) × (handle.new ≡ handle.old) }
    ensures made { count < 65_535 → handle.old.cell.opened ≡ None →
        ((result ≡ DONE) × HasOpenedSections count handle.new.cell.opened) ⊎ ((result ≡ NO_MEMORY) × (handle.new ≡ handle.old)) }
{
    if count >= u16::MAX as usize {
        return OUT_OF_RANGE;
    }
    if handle.is_open() {
        return OPEN;
    }
    match make_keeper(alloc, count as u16) {
        Ok(keeper) => {
            handle.open(keeper);
            DONE
        }
        Err(_) => NO_MEMORY,
    }
}

/// Takes the next of the sections that `keeper` keeps, opens `handle` with it, and returns `DONE`. `handle` then keeps no section. Else
/// both handles stay as they were. It returns `CLOSED` if `keeper` is closed, else `OPEN` if `handle` is open, else `NO_HANDLE` if no
/// section is kept, or `NO_MEMORY`.
#[unsafe(no_mangle)]
pub extern "C" fn hot_open_section(
    alloc: Global,
    keeper: &mut SectionHandle,
    handle: &mut SectionHandle,
) -> u32
    ensures closed { keeper.old.cell.opened ≡ None → (result ≡ CLOSED) × (keeper.new.cell.opened ≡ None) × (handle.new ≡ handle.old) }
    ensures open { IsSome keeper.old.cell.opened → IsSome handle.old.cell.opened → (result ≡ OPEN) × (keeper.new ≡ keeper.old) × (handle.new ≡ handle.old) }
    ensures opened { (was : OpenSection) → keeper.old.cell.opened ≡ Some was → handle.old.cell.opened ≡ None →
        OpensSection was keeper.new.cell.opened handle.new.cell.opened result }
{
    if !keeper.is_open() {
        return CLOSED;
    }
    if handle.is_open() {
        return OPEN;
    }
    match keeper.cell.lend().open_next(alloc) {
        Ok(Some(opened)) => {
            handle.open(opened);
            DONE
        }
        Ok(None) => NO_HANDLE,
        Err(_) => NO_MEMORY,
    }
}

/// Closes `handle`, frees what it held, and returns `DONE`; `CLOSED` if it is closed already. The last handle of a table frees the table. A
/// section that is open stays so for those that ask whether a moment is past.
#[unsafe(no_mangle)]
pub extern "C" fn hot_close_section(alloc: Global, handle: &mut SectionHandle) -> u32
    ensures closed { handle.old.cell.opened ≡ None → result ≡ CLOSED }
    ensures done { IsSome handle.old.cell.opened → result ≡ DONE }
    ensures gone { handle.new.cell.opened ≡ None }
{
    if !handle.is_open() {
        return CLOSED;
    }
    drop(handle.close(alloc));
    DONE
}

/// Returns `INSIDE` if the handle's section is open, else `OUTSIDE`; `CLOSED` if the handle is closed. Nothing changes.
#[unsafe(no_mangle)]
pub extern "C" fn hot_is_inside(handle: &mut SectionHandle) -> u32
    ensures { TellsInside handle.old.cell.opened handle.new.cell.opened result }
{
    if !handle.is_open() {
        return CLOSED;
    }
    if handle.cell.lend().is_inside() {
        INSIDE
    } else {
        OUTSIDE
    }
}

/// Enters the handle's section, and returns `DONE`. It returns `INSIDE` if the section is open already, or `CLOSED` if the handle is
/// closed, and then nothing changes. The table and the kept sections stay.
#[unsafe(no_mangle)]
pub extern "C" fn hot_enter_section(handle: &mut SectionHandle) -> u32
    ensures { EntersSection handle.old.cell.opened handle.new.cell.opened result }
{
    if !handle.is_open() {
        return CLOSED;
    }
    if handle.cell.lend().enter() {
        DONE
    } else {
        INSIDE
    }
}

/// Leaves the handle's section, and returns `DONE`. It returns `OUTSIDE` if the section isn't open, or `CLOSED` if the handle is closed,
/// and then nothing changes. The table and the kept sections stay.
#[unsafe(no_mangle)]
pub extern "C" fn hot_leave_section(handle: &mut SectionHandle) -> u32
    ensures { LeavesSection handle.old.cell.opened handle.new.cell.opened result }
{
    if !handle.is_open() {
        return CLOSED;
    }
    if handle.cell.lend().leave() {
        DONE
    } else {
        OUTSIDE
    }
}

/// Takes a moment, writes its number, from 1 on, to `moment`, and returns `DONE`. Once `MOST_MOMENTS` are taken, it takes none, and writes
/// `MOST_MOMENTS + 1`. It returns `CLOSED` if the handle is closed, and then `moment` stays. The table and the kept sections stay.
#[unsafe(no_mangle)]
pub extern "C" fn hot_take_moment(handle: &mut SectionHandle, moment: &mut u64) -> u32
    ensures { TellsMoment handle.old.cell.opened handle.new.cell.opened moment.old moment.new result }
{
    if !handle.is_open() {
        return CLOSED;
    }
    *moment = handle.cell.lend().take_moment();
    DONE
}

/// Returns `DONE` if each section that was open before the moment with the number `moment` has been left since. Else it returns `NOT_PAST`:
/// one may still be open, or the moment hasn't been taken. It returns `CLOSED` if the handle is closed. It waits for no section. The table
/// and the kept sections stay.
#[unsafe(no_mangle)]
pub extern "C" fn hot_is_moment_past(handle: &mut SectionHandle, moment: u64) -> u32
    ensures { TellsPast moment handle.old.cell.opened handle.new.cell.opened result }
{
    if !handle.is_open() {
        return CLOSED;
    }
    if handle.cell.lend().is_past(moment) {
        DONE
    } else {
        NOT_PAST
    }
}
