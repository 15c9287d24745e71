//! A script that runs alone, on a new index of one pass.

ghost use Rattle.std.specs.Prelude.{◌≡◌, IfOk};
ghost use Rattle.hot_index_calls.specs.Passes.{Owns, PassView};
ghost use Rattle.hot_index_calls.specs.Traces.{untold};
ghost use Rattle.hot_scripts.specs.Parses.{script_commands};
ghost use Rattle.script_runs.specs.Progress.{HasRunCommands};
ghost use Rattle.script_runs.specs.Runs.{AreAnswered};

use crate::callers::Alone;
use crate::engine::run_script;
use crate::indexes::{Records, create_index_for_script};
use hot_index::{Handle, Index, NoGate, Pass};
use hot_scripts::script::Script;
use std::alloc::{AllocError, Global};

/// Runs `script` on a new index of one pass, with `records` and one node record more for removals. Returns the lines of the answers;
/// `AllocError` if memory is refused. Each answer is that of the map that the commands before have left. A command is refused only if its
/// call found no record of a kind free, and changes nothing then.
pub fn run_on_new_index(
    alloc: Global,
    records: Records,
    script: &Script,
) -> Result<Vec<u8>, AllocError>
    ensures { IfOk result (λ text. AreAnswered records.nodes records.leaves (script_commands script.now) text.items) }
{
    let (index, pass) = create_index_for_script(alloc, records, script)?;
    run_script_alone(alloc, &index, pass, script)
}

/// Runs `script` on `index`, whose only pass must be `pass`, one command after another, without waiting. Returns the lines of the answers;
/// `AllocError` if memory is refused.
fn run_script_alone(
    alloc: Global,
    index: &Index,
    pass: Pass,
    script: &Script,
) -> Result<Vec<u8>, AllocError>
    requires own { Owns index.now pass }
    requires alone { index.now.layout.passes ≡ 1 }
    ensures { IfOk result (λ text. (after : PassView) × HasRunCommands index.now untold (pass, tt) (script_commands script.now) (after, tt) text.items) }
{
    let mut handle = Handle::new(index, pass);
    run_script(&Alone, alloc, &mut handle, script, &mut NoGate)
}
