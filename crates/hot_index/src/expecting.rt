//! Calls that expect a key to have a certain value, and change nothing if it has another or none.

ghost use Rattle.std.specs.Prelude.{◌≡◌, ◌<◌, IfErr, IsOk};
ghost use Rattle.finite_map.specs.declared.Call.TheVariants.{Exchange, RemoveIf};
ghost use Rattle.rowex_writing.specs.declared.attempts.TryFault.TheVariants.{Busy};
ghost use Rattle.hot_index_calls.specs.Calls.{IsTried, IsWaitedFor};
ghost use Rattle.hot_index_calls.specs.Passes.{Owns};
ghost use Rattle.hot_index_calls.specs.Traces.{untold};

use crate::index::{Index, Pass};
use finite_map::{Call, Reply};
use key_bits::Key;
use rowex_core::{Gate, NoGate};
use rowex_writing::{Full, TryFault};
use std::sync::Wait;

impl Index {
    /// Compare and exchange: gives `key` the value `value` if it has the value `expected`, and returns `Exchanged`. Else it changes
    /// nothing, and returns `Differs` with the key's value, or `Absent`.
    ///
    /// It never blocks. It takes no record, so it is refused only as `Busy`, with nothing changed. It makes one attempt, after a small
    /// round of collection if one is due. The call makes at most 56,488 steps, and one for each pass.
    pub fn try_exchange(
        &self,
        pass: &mut Pass,
        key: &Key,
        expected: u64,
        value: u64,
    ) -> Result<Reply, TryFault>
        requires { Owns self.now pass.old }
        ensures tried { IsTried (Exchange key.now expected value) result self.now untold (pass.old, tt) (pass.new, tt) }
        ensures busy { IfErr result (λ fault. fault ≡ Busy) }
    {
        self.try_exchange_with(pass, key, expected, value, &mut NoGate)
    }

    /// Gives `key` the value `value` if it has the value `expected`, as `try_exchange` does. Returns `Exchanged`, `Differs` with the key's
    /// value, `Absent`, or the refusal `Busy`. Reports each of its steps to `gate`.
    pub fn try_exchange_with<G: Gate>(
        &self,
        pass: &mut Pass,
        key: &Key,
        expected: u64,
        value: u64,
        gate: &mut G,
    ) -> Result<Reply, TryFault>
        requires { Owns self.now pass.old }
        ensures tried { IsTried (Exchange key.now expected value) result self.now G.becomes (pass.old, gate.old) (pass.new, gate.new) }
        ensures busy { IfErr result (λ fault. fault ≡ Busy) }
    {
        self.try_change_with(pass, gate, &Call::Exchange(key.copy(), expected, value))
    }

    /// Compare and exchange: gives `key` the value `value` if it has the value `expected`, and returns `Exchanged`. Else it changes
    /// nothing, and returns `Differs` with the key's value, or `Absent`.
    ///
    /// Where `try_exchange` would return `Busy`, the call begins again, as `insert` does. It takes no record, so it is never refused.
    pub fn exchange<R: Wait>(
        &self,
        rt: &R,
        pass: &mut Pass,
        key: &Key,
        expected: u64,
        value: u64,
    ) -> Result<Reply, Full>
        requires { Owns self.now pass.old }
        ensures waited { IsWaitedFor (Exchange key.now expected value) result self.now untold (pass.old, tt) (pass.new, tt) }
        ensures made { IsOk result }
    {
        self.retry_change_with(
            rt,
            pass,
            &mut NoGate,
            &Call::Exchange(key.copy(), expected, value),
        )
    }

    /// Removes `key` if it has the value `expected`, and returns `Removed` with that value. Else it changes nothing, and returns `Differs`
    /// with the key's value, or `Absent`.
    ///
    /// It never blocks, makes no more steps than `try_insert` may, and is refused for the same reasons as `try_remove`, with nothing
    /// changed. It returns `FullNodes` only if its search found the key with the value `expected`.
    pub fn try_remove_if(
        &self,
        pass: &mut Pass,
        key: &Key,
        expected: u64,
    ) -> Result<Reply, TryFault>
        requires { Owns self.now pass.old }
        ensures { IsTried (RemoveIf key.now expected) result self.now untold (pass.old, tt) (pass.new, tt) }
    {
        self.try_remove_if_with(pass, key, expected, &mut NoGate)
    }

    /// Removes `key` if it has the value `expected`, as `try_remove_if` does. Returns `Removed` with that value, `Differs` with the key's
    /// value, `Absent`, or why the call was refused. Reports each of its steps to `gate`.
    pub fn try_remove_if_with<G: Gate>(
        &self,
        pass: &mut Pass,
        key: &Key,
        expected: u64,
        gate: &mut G,
    ) -> Result<Reply, TryFault>
        requires { Owns self.now pass.old }
        ensures { IsTried (RemoveIf key.now expected) result self.now G.becomes (pass.old, gate.old) (pass.new, gate.new) }
    {
        self.try_change_with(pass, gate, &Call::RemoveIf(key.copy(), expected))
    }

    /// Removes `key` if it has the value `expected`, and returns `Removed` with that value. Else it changes nothing, and returns `Differs`
    /// with the key's value, or `Absent`.
    ///
    /// Where `try_remove_if` would return `Busy`, or records may come back, the call begins again, as `remove` does. It is refused only
    /// with `Full::Nodes`, with nothing changed. In an index of several passes it is never refused, and in one of one pass only where
    /// `remove` may be.
    pub fn remove_if<R: Wait>(
        &self,
        rt: &R,
        pass: &mut Pass,
        key: &Key,
        expected: u64,
    ) -> Result<Reply, Full>
        requires { Owns self.now pass.old }
        ensures { IsWaitedFor (RemoveIf key.now expected) result self.now untold (pass.old, tt) (pass.new, tt) }
    {
        self.retry_change_with(rt, pass, &mut NoGate, &Call::RemoveIf(key.copy(), expected))
    }
}
