//! How a pass makes the calls of its script: it waits for others, or has nobody to wait for.

ghost use Rattle.std.specs.Prelude.{◌≡◌, IfErr};
ghost use Rattle.hot_index_calls.specs.Answers.{MayLack};
ghost use Rattle.hot_index_calls.specs.Asked.{last_try};
ghost use Rattle.hot_index_calls.specs.Calls.{HasCause, IsOutcome};
ghost use Rattle.hot_index.specs.Handles.{Stays};
ghost use Rattle.hot_index_calls.specs.Traces.{HasMadeCallSteps};

use finite_map::{Call, Reply};
use hot_index::{Full, Gate, Handle, Index, TryFault};
use std::sync::Wait;

/// A way to make calls through a handle. Each call is made until it has a reply, or is refused for want of records.
pub trait Caller {
    ghost use Rattle.rowex_table.specs.Seats.{TableView};

    /// Whether the caller may make calls at this index.
    ghost fits: { Self → TableView → Type 0 };

    /// Makes `call` through `handle`, whose index must fit; `gate` is told each step of the call. Returns the reply. The handle stays at
    /// its index. If the last try found no record of a kind free, the call has changed nothing, and the error is that kind. Only a kind
    /// that such a call may lack is returned.
    fn call<G: Gate>(
        &self,
        handle: &mut Handle<&Index>,
        call: &Call,
        gate: &mut G,
    ) -> Result<Reply, Full>
        requires { fits self.now handle.old.index }
        ensures call { Stays (IsOutcome call.now (last_try result)) handle.old handle.new }
        ensures cause { Stays (HasCause call.now (last_try result)) handle.old handle.new }
        ensures lacks { IfErr result (MayLack call.now) }
        ensures told { HasMadeCallSteps handle.old.index G.becomes (handle.old.pass, gate.old) (handle.new.pass, gate.new) };
}

/// A caller that tries again, and waits by `rt`, while another pass is in its way, or records that it lacks may come back.
#[derive(Drop)]
pub struct Waits<'a, T> {
    pub rt: &'a T,
}

impl<'a, T: Wait> Caller for Waits<'a, T> {
    ghost fits = { λ caller index. Unit {0} };

    /// Makes `call` through `handle`. Waits where another pass is in its way, or records that it lacks may come back. Returns the reply, or
    /// the kind of records of which none was free, with nothing changed. `gate` is told each step.
    fn call<G: Gate>(
        &self,
        handle: &mut Handle<&Index>,
        call: &Call,
        gate: &mut G,
    ) -> Result<Reply, Full> {
        handle
            .index
            .call_with(self.rt, &mut handle.pass, call, gate)
    }
}

/// A caller that never waits, since the handle's pass is the only one of the index.
#[derive(Drop)]
pub struct Alone;

impl Caller for Alone {
    ghost use Rattle.std.specs.Prelude.{◌≡◌};

    ghost fits = { λ caller index. index.layout.passes ≡ 1 };

    /// Makes `call` through `handle`, whose pass is the only one of its index, by one try: no other pass can be in its way. Returns the
    /// reply, or the kind of records of which none was free, with nothing changed. `gate` is told each step.
    fn call<G: Gate>(
        &self,
        handle: &mut Handle<&Index>,
        call: &Call,
        gate: &mut G,
    ) -> Result<Reply, Full> {
        match handle.index.try_call_with(&mut handle.pass, call, gate) {
            Ok(reply) => Ok(reply),
            Err(TryFault::FullNodes) => Err(Full::Nodes),
            Err(TryFault::FullLeaves) => Err(Full::Leaves),
            Err(TryFault::Busy) => unreachable!(),
        }
    }
}
