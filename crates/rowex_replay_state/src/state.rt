//! The state of a replay: what it keeps of the core that its events lead to.

ghost use Rattle.std.specs.Prelude.{◌≡◌, ◌<◌, IfOk, OnErr, OnOk, length, true, false};
ghost use Rattle.rowex_core.specs.Events.{IsAtomic as IsAtomicAct};

use crate::fault::ReplayFault;
use crate::linked::Item;
use crate::passes::PassState;
use crate::records::{Records, repeat_item};
use compound_node::Entry;
use finite_map::Change;
use key_bits::Key;
use record_words::Layout;
use rowex_core::{Act, Event};
use std::alloc::{AllocError, Global};
use std::marker::Model;

/// What a replay keeps of the core to which its events lead: records, pins and rounds, the anchor's lock, the root's entry, the epoch, all
/// changes, and the leaves of the newest version in the order of their keys.
#[derive(Drop)]
pub struct State {
    pub(crate) alloc: Global,
    pub(crate) records: Records,
    pub(crate) passes: Vec<PassState>,
    pub(crate) anchor: Option<u16>,
    pub(crate) root: Option<Entry>,
    pub(crate) epoch: u64,
    pub(crate) changes: Vec<Change>,
    pub(crate) items: Vec<Item>,
}

impl Model for State {
    ghost use Rattle.rowex_replay_state.specs.States.{StateView};

    ghost Value = { StateView };

    ghost view = { λ a. record {
      records = a.records;
      passes = a.passes.items;
      anchor = a.anchor;
      root = a.root;
      epoch = a.epoch;
      changes = a.changes.items;
      items = a.items.items;
    } };
}

impl State {
    ghost use Rattle.versions.specs.Told.{content};
    ghost use Rattle.rowex_core.specs.Cores.{Core, IsLawful};
    ghost use Rattle.rowex_core.specs.Events.{IsAtomic, Legal, after};
    ghost use Rattle.rowex_core.specs.Opening.{opening};
    ghost use Rattle.rowex_replay_state.specs.States.{IsLockedPublish, IsStateOf, IsStepped};

    /// Returns the state of an index of `layout` before its first event; `AllocError` if memory is refused.
    pub fn new(alloc: Global, layout: Layout) -> Result<State, AllocError>
        ensures { IfOk result (λ state. IsStateOf state (opening layout)) }
    {
        Ok(State {
            alloc,
            records: Records::new(alloc, layout)?,
            passes: repeat_item(alloc, PassState::new(), layout.passes)?,
            anchor: None,
            root: None,
            epoch: 1,
            changes: Vec::new(alloc),
            items: Vec::new(alloc),
        })
    }

    /// Makes `event` if it is a legal step in the cores with this state. If not, the error is `Illegal`, also for a pass that the index
    /// hasn't. It is `Load` for a bulk load, which is no step. It is `Memory` if memory was refused. Only a publish whose pass has the lock
    /// of its word asks for memory. After an error nothing has changed. Only a publish takes time linear in the table.
    pub fn step(&mut self, event: Event) -> Result<(), ReplayFault>
        ensures ok { OnOk result ((c : Core) → ∥ IsLawful c ∥₁ → IsStateOf self.old c
            → Legal c event.pass event.act × IsStateOf self.new (after c event.pass event.act)) }
        ensures illegal { result ≡ Err ReplayFault.Illegal → (c : Core) → IsLawful c → IsStateOf self.old c
            → ¬ Legal c event.pass event.act }
        ensures memory { result ≡ Err ReplayFault.Memory → IsLockedPublish self.old event.pass event.act }
        ensures load { result ≡ Err ReplayFault.Load → ¬ IsAtomic event.act }
        ensures refused { OnErr result (self.new ≡ self.old) }
    {
        if event.pass as usize >= self.passes.len() {
            return Err(ReplayFault::Illegal);
        }
        if is_load(event.act) {
            return Err(ReplayFault::Load);
        }
        match self.make_act(event.pass, event.act) {
            Ok(true) => Ok(()),
            Ok(false) => Err(ReplayFault::Illegal),
            Err(_) => Err(ReplayFault::Memory),
        }
    }

    /// Makes the act `act` of `pass` if it is legal, and returns whether it is; if not, nothing changes. The index has the pass, and the
    /// act is no bulk load. `AllocError`, and nothing changes, if memory is refused to a publish under the lock of its word.
    fn make_act(&mut self, pass: u16, act: Act) -> Result<bool, AllocError>
        requires pass { pass < length self.old.passes }
        requires atomic { IsAtomic act }
        ensures ok { IfOk result (λ made. IsStepped made self.old self.new pass act) }
        ensures err { OnErr result (IsLockedPublish self.old pass act) }
        ensures kept { OnErr result (self.new ≡ self.old) }
    {
        match act {
            Act::Claim { rec, found } => Ok(self.claim(pass, rec, found)),
            Act::Fill { rec, offset, word } => Ok(self.fill(pass, rec, offset, word)),
            Act::Ready { rec } => Ok(self.ready(pass, rec)),
            Act::Release { rec } => Ok(self.release(pass, rec)),
            Act::LoadRef { spot, word } => Ok(self.load_ref(pass, spot, word)),
            Act::LoadFixed { rec, offset, word } => Ok(self.load_fixed(pass, rec, offset, word)),
            Act::Lock { target, found } => Ok(self.lock(pass, target, found)),
            Act::Unlock { target } => Ok(self.unlock(pass, target)),
            Act::Publish { spot, word } => self.publish(pass, spot, word),
            Act::Mark { rec, epoch } => Ok(self.mark(pass, rec, epoch)),
            Act::LoadEpoch { word } => Ok(self.load_epoch(pass, word)),
            Act::Advance { expected, found } => Ok(self.advance(pass, expected, found)),
            Act::SetPin { word } => Ok(self.set_pin(pass, word)),
            Act::ClearPin => Ok(self.clear_pin(pass)),
            Act::LoadPin { of, word } => Ok(self.load_pin(pass, of, word)),
            Act::LoadState { rec, word } => Ok(self.load_state(pass, rec, word)),
            Act::GiveBack { rec, epoch, found } => Ok(self.give_back(pass, rec, epoch, found)),
            Act::Load { .. } => Ok(false),
        }
    }

    /// Returns how many changes have been made so far.
    pub fn changes(&self) -> u64
        ensures { (c : Core) → IsStateOf self.now c → result ≡ length c.changes }
    {
        self.changes.len() as u64
    }

    /// Returns the keys of the newest version with their values, in the order of the keys. `AllocError` if memory is refused.
    pub fn content(&self, alloc: Global) -> Result<Vec<(Key, u64)>, AllocError>
        ensures { IfOk result (λ pairs. (c : Core) → IsStateOf self.now c → pairs.items ≡ content (c.past.version c.past.now)) }
    {
        let mut pairs = Vec::with_capacity(alloc, self.items.len())?;
        for item in &self.items {
            pairs.push((item.key.copy(), item.value))?;
        }
        Ok(pairs)
    }
}

/// Returns whether `act` is a bulk load, which is no atomic step.
fn is_load(act: Act) -> bool
    ensures load { result ≡ true → ¬ IsAtomicAct act }
    ensures atomic { result ≡ false → IsAtomicAct act }
{
    match act {
        Act::Load { .. } => true,
        Act::Claim { .. } | Act::Fill { .. } | Act::Ready { .. } | Act::Release { .. } => false,
        Act::LoadRef { .. } | Act::LoadFixed { .. } | Act::LoadState { .. } => false,
        Act::Lock { .. } | Act::Unlock { .. } | Act::Publish { .. } | Act::Mark { .. } => false,
        Act::LoadEpoch { .. } | Act::Advance { .. } | Act::GiveBack { .. } => false,
        Act::SetPin { .. } | Act::ClearPin | Act::LoadPin { .. } => false,
    }
}
