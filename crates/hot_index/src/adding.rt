//! Adding to the value of a key that is there.

ghost use Rattle.std.specs.Prelude.{◌≡◌, IfErr, IsOk};
ghost use Rattle.finite_map.specs.declared.Call.TheVariants.{Add};
ghost use Rattle.rowex_writing.specs.declared.attempts.TryFault.TheVariants.{Busy};
ghost use Rattle.hot_index_calls.specs.Calls.{IsTried, IsWaitedFor};
ghost use Rattle.hot_index_calls.specs.Passes.{Owns};
ghost use Rattle.hot_index_calls.specs.Traces.{untold};

use crate::index::{Index, Pass};
use finite_map::{Call, Reply};
use key_bits::Key;
use rowex_core::{Gate, NoGate};
use rowex_writing::{Full, TryFault};
use std::sync::Wait;

impl Index {
    /// Adds `delta` to the value of `key`, modulo 2 to the power of 64: returns `Was` with the value before. For an absent key it changes
    /// nothing, and returns `Absent`.
    ///
    /// It never blocks. It takes no record, so it is refused only as `Busy`, with nothing changed. It makes one attempt, with no more steps
    /// than `try_exchange` may make.
    pub fn try_add(&self, pass: &mut Pass, key: &Key, delta: u64) -> Result<Reply, TryFault>
        requires { Owns self.now pass.old }
        ensures tried { IsTried (Add key.now delta) result self.now untold (pass.old, tt) (pass.new, tt) }
        ensures busy { IfErr result (λ fault. fault ≡ Busy) }
    {
        self.try_add_with(pass, key, delta, &mut NoGate)
    }

    /// Adds `delta` to the value of `key`, if it has one, as `try_add` does. Returns `Was` with the value before, `Absent`, or the refusal
    /// `Busy`. Reports each of its steps to `gate`.
    pub fn try_add_with<G: Gate>(
        &self,
        pass: &mut Pass,
        key: &Key,
        delta: u64,
        gate: &mut G,
    ) -> Result<Reply, TryFault>
        requires { Owns self.now pass.old }
        ensures tried { IsTried (Add key.now delta) result self.now G.becomes (pass.old, gate.old) (pass.new, gate.new) }
        ensures busy { IfErr result (λ fault. fault ≡ Busy) }
    {
        self.try_change_with(pass, gate, &Call::Add(key.copy(), delta))
    }

    /// Adds `delta` to the value of `key`, modulo 2 to the power of 64: returns `Was` with the value before. For an absent key it changes
    /// nothing, and returns `Absent`.
    ///
    /// Where `try_add` would return `Busy`, it begins again, as `insert` does. It takes no record, so it is never refused.
    pub fn add<R: Wait>(
        &self,
        rt: &R,
        pass: &mut Pass,
        key: &Key,
        delta: u64,
    ) -> Result<Reply, Full>
        requires { Owns self.now pass.old }
        ensures waited { IsWaitedFor (Add key.now delta) result self.now untold (pass.old, tt) (pass.new, tt) }
        ensures made { IsOk result }
    {
        self.retry_change_with(rt, pass, &mut NoGate, &Call::Add(key.copy(), delta))
    }
}
