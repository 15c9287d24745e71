//! The law of replays. The function does nothing: its contract is the law.

ghost use Rattle.rowex_core.specs.Cores.{IsLawful};
ghost use Rattle.rowex_replay.specs.Runs.{HasLegalEvents, core_of};

use crate::replay::Replay;

/// The events of a replay's run are legal one after the other from the opening core on. The core to which they lead is lawful.
pub fn runs_are_legal(replay: &Replay)
    ensures legal { ∥ HasLegalEvents replay.now ∥₁ }
    ensures lawful { ∥ IsLawful (core_of replay.now) ∥₁ }
{
    let _ = &replay.state;
}
