//! A call that is given as a value: tried once or twice, or made in the end.

ghost use Rattle.std.specs.Prelude.{◌≡◌, ◌+◌, ◌≤◌, IfErr};
ghost use Rattle.rowex_writing.specs.declared.plan.Full.{Full as FullValue};
ghost use Rattle.hot_index_calls.specs.Answers.{MayLack, MayRefuse, fault_of};
ghost use Rattle.hot_index_calls.specs.Asked.{last_try};
ghost use Rattle.hot_index_calls.specs.Calls.{GetsOrCounts, GetsOrMakes, GetsOrTries, HasCause, IsOutcome};
ghost use Rattle.hot_index_calls.specs.Counts.{try_steps};
ghost use Rattle.hot_index_calls.specs.Passes.{Owns};
ghost use Rattle.hot_index_calls.specs.Refusals.{as_tried};
ghost use Rattle.hot_index_calls.specs.Traces.{HasMadeCallSteps, untold};

use crate::index::{Index, Pass, reply_to_get};
use finite_map::{Call, Reply};
use hot_index_calls::Refusal;
use rowex_core::{Gate, NoGate};
use rowex_writing::{Full, TryFault};
use std::sync::Wait;

impl Index {
    /// Makes `call`, as `get`, `try_insert`, `try_upsert`, `try_exchange`, `try_add`, `try_remove` or `try_remove_if` does.
    ///
    /// The reply to a get is `Value` or `Absent`. The call makes no more steps than `try_insert` may, and is refused for the same
    /// reasons. But `Get` is never refused, `Exchange` and `Add` only with `Busy`, and a removal never with `FullLeaves`.
    pub fn try_call(&self, pass: &mut Pass, call: &Call) -> Result<Reply, TryFault>
        requires { Owns self.now pass.old }
        ensures own { Owns self.now pass.new }
        ensures call { IsOutcome call.now result self.now pass.old pass.new }
        ensures cause { HasCause call.now result self.now pass.old pass.new }
        ensures may { IfErr result (MayRefuse call.now) }
        ensures made { GetsOrMakes call.now result self.now untold (pass.old, tt) (pass.new, tt) }
    {
        self.try_call_with(pass, call, &mut NoGate)
    }

    /// Makes `call`, as `try_call` does, and returns the reply, or a refusal that such a call may have. Reports each of its steps to
    /// `gate`. The steps are no more than `try_insert` may make, for a get too.
    pub fn try_call_with<G: Gate>(
        &self,
        pass: &mut Pass,
        call: &Call,
        gate: &mut G,
    ) -> Result<Reply, TryFault>
        requires { Owns self.now pass.old }
        ensures own { Owns self.now pass.new }
        ensures call { IsOutcome call.now result self.now pass.old pass.new }
        ensures cause { HasCause call.now result self.now pass.old pass.new }
        ensures lacks { IfErr result (λ fault. (full : FullValue) → fault ≡ fault_of full → MayLack call.now full) }
        ensures may { IfErr result (MayRefuse call.now) }
        ensures made { GetsOrMakes call.now result self.now G.becomes (pass.old, gate.old) (pass.new, gate.new) }
        ensures steps { pass.new.steps ≤ pass.old.steps + try_steps call.now self.now.layout }
        ensures told { HasMadeCallSteps self.now G.becomes (pass.old, gate.old) (pass.new, gate.new) }
    {
        match call {
            Call::Get(key) => Ok(reply_to_get(self.get_with(pass, key, gate))),
            _ => self.try_change_with(pass, gate, call),
        }
    }

    /// Makes `call`, as `try_call` does, and returns the reply, or a refusal that such a call may have. If a change lacked a record, all
    /// records are counted after it, as by `census`, with one step more for each. By the count the refusal is `Full`, or `HeldBack` if a
    /// record may come back; in an index of one pass it is `Full`. A removal in an index of several passes is `HeldBack` without a count.
    pub fn try_counted(&self, pass: &mut Pass, call: &Call) -> Result<Reply, Refusal>
        requires { Owns self.now pass.old }
        ensures own { Owns self.now pass.new }
        ensures call { IsOutcome call.now (as_tried result) self.now pass.old pass.new }
        ensures cause { HasCause call.now (as_tried result) self.now pass.old pass.new }
        ensures may { IfErr (as_tried result) (MayRefuse call.now) }
        ensures made { GetsOrCounts call.now result self.now untold (pass.old, tt) (pass.new, tt) }
    {
        match call {
            Call::Get(key) => Ok(reply_to_get(self.get_with(pass, key, &mut NoGate))),
            _ => self.try_and_count_with(pass, &mut NoGate, call),
        }
    }

    /// Makes `call`, as `get`, `insert`, `upsert`, `exchange`, `add`, `remove` or `remove_if` does. Reports each of its steps to `gate`.
    ///
    /// The reply to a get is `Value` or `Absent`. A call is refused for the same reasons as `insert`. But `Get`, `Exchange` and `Add` are
    /// never refused, and a removal never returns `Full::Leaves`.
    pub fn call_with<R: Wait, G: Gate>(
        &self,
        rt: &R,
        pass: &mut Pass,
        call: &Call,
        gate: &mut G,
    ) -> Result<Reply, Full>
        requires { Owns self.now pass.old }
        ensures own { Owns self.now pass.new }
        ensures call { IsOutcome call.now (last_try result) self.now pass.old pass.new }
        ensures cause { HasCause call.now (last_try result) self.now pass.old pass.new }
        ensures lacks { IfErr result (MayLack call.now) }
        ensures tries { GetsOrTries call.now result self.now G.becomes (pass.old, gate.old) (pass.new, gate.new) }
        ensures told { HasMadeCallSteps self.now G.becomes (pass.old, gate.old) (pass.new, gate.new) }
    {
        match call {
            Call::Get(key) => Ok(reply_to_get(self.get_with(pass, key, gate))),
            _ => self.retry_change_with(rt, pass, gate, call),
        }
    }
}
