//! Closed passes and handles: rights to use an index that take a few bytes, until they are opened.

ghost use Rattle.std.specs.Prelude.{◌≡◌, IfErr, IfOk};
ghost use Rattle.finite_map.specs.Calls.{LegalCalls};
ghost use Rattle.hot_index.specs.KeyCounts.{IsCountOf};
ghost use Rattle.hot_index_calls.specs.Passes.{Owns};
ghost use Rattle.hot_index.specs.Handles.{handle_at};

use crate::handle::{Handle, ShowsIndex};
use crate::index::{Index, Pass};
use crate::key_counts::KeyCount;
use hot_index_calls::new_scratch;
use rowex_table::TableSeat;
use std::alloc::{AllocFailed, Global};
use std::marker::Model;

/// A pass without the buffers that its calls need, so it makes none. It takes 16 bytes, where an open one takes some 310 KB.
#[derive(Drop)]
pub struct ClosedPass {
    pub(crate) seat: TableSeat,
    pub(crate) count: KeyCount,
}

impl Model for ClosedPass {
    ghost use Rattle.hot_index_calls.specs.Passes.{PassView, pass_of};
    ghost use Rattle.hot_index.specs.Passes.{IsSettledWith};

    ghost Value = { PassView };

    ghost view = { λ p. pass_of p.seat };

    ghost invariant = { λ p. IsSettledWith p.seat.known p.count };
}

impl ClosedPass {
    /// Returns how many keys the calls of the pass have put in, less how many they have taken out, modulo 2^64. These calls are legal in
    /// what the pass has seen, as `Pass::count` says.
    pub fn count(&self) -> KeyCount
        ensures count { IsCountOf self.now.number self.now.notes result }
        ensures legal { LegalCalls self.now.front self.now.number self.now.notes }
    {
        self.count
    }

    /// Opens the pass for calls at `index`, its own index, with buffers that `alloc` gives. All that contracts see of the pass stays. If
    /// memory is refused, the error has the closed pass, as it was.
    pub fn open(self, alloc: Global, index: &Index) -> Result<Pass, AllocFailed<ClosedPass>>
        ensures opened { IfOk result (λ pass. pass ≡ self) }
        ensures kept { IfErr result (λ refused. refused.value ≡ self) }
    {
        match new_scratch(alloc, index.table.layout(), self.seat.number(), index.free) {
            Ok(scratch) => Ok(Pass {
                seat: self.seat,
                scratch,
                count: self.count,
            }),
            Err(_) => Err(AllocFailed { value: self }),
        }
    }
}

impl Pass {
    /// Closes the pass, and frees its buffers. All that contracts see of it stays: its number, its calls and what it has seen.
    pub fn close(self) -> ClosedPass
        ensures { result ≡ self }
    {
        ClosedPass {
            seat: self.seat,
            count: self.count,
        }
    }
}

/// A closed pass with its index, as a reference or a share.
#[derive(Drop)]
pub struct ClosedHandle<I: ShowsIndex> {
    pub(crate) index: I,
    pub(crate) pass: ClosedPass,
}

impl<I: ShowsIndex> Model for ClosedHandle<I> {
    ghost use Rattle.hot_index.specs.Handles.{HandleView};
    ghost use Rattle.hot_index_calls.specs.Passes.{Owns};

    ghost Value = { HandleView };

    ghost view = { λ h. record { index = I.shown h.index; pass = h.pass } };

    ghost invariant = { λ h. Owns (I.shown h.index) h.pass };
}

impl<I: ShowsIndex> ClosedHandle<I> {
    /// Returns a closed handle of `pass` at `index`, which is a reference to the pass's own index, or a share of it.
    pub fn new(index: I, pass: ClosedPass) -> ClosedHandle<I>
        requires { Owns (I.shown index) pass }
        ensures { result ≡ handle_at (I.shown index) pass }
    {
        ClosedHandle { index, pass }
    }

    /// Returns how many keys the calls of the pass have put in, less how many they have taken out, modulo 2^64. These calls are legal in
    /// what the pass has seen, as `Pass::count` says.
    pub fn count(&self) -> KeyCount
        ensures count { IsCountOf self.now.pass.number self.now.pass.notes result }
        ensures legal { LegalCalls self.now.pass.front self.now.pass.number self.now.pass.notes }
    {
        self.pass.count()
    }

    /// Opens the handle for calls, with buffers that `alloc` gives. All that contracts see of it stays. If memory is refused, the error has
    /// the closed handle, as it was.
    pub fn open(self, alloc: Global) -> Result<Handle<I>, AllocFailed<ClosedHandle<I>>>
        ensures opened { IfOk result (λ handle. handle ≡ self) }
        ensures kept { IfErr result (λ refused. refused.value ≡ self) }
    {
        let ClosedHandle { index, pass } = self;
        match pass.open(alloc, index.show()) {
            Ok(pass) => Ok(Handle::new(index, pass)),
            Err(refused) => Err(AllocFailed {
                value: ClosedHandle::new(index, refused.value),
            }),
        }
    }
}

impl<I: ShowsIndex> Handle<I> {
    /// Closes the handle, and frees the buffers of its pass. The index and all else of the pass stay the same.
    pub fn close(self) -> ClosedHandle<I>
        ensures { result ≡ self }
    {
        let Handle { index, pass } = self;
        ClosedHandle::new(index, pass.close())
    }
}
