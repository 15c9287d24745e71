//! A run of one script.

ghost use Rattle.std.specs.Prelude.{◌≡◌, ◌≢◌, List, ℕ, OnOk, IfErr};
ghost use Rattle.std.specs.Io.KnownBytes.{Appends};
ghost use Rattle.record_words.specs.Limits.{IsLeafCount, IsNodeCount};
ghost use Rattle.hot_scripts.specs.Streams.{TakesAll};
ghost use Rattle.script_runs.specs.Runs.{IsAnsweredScript, MayEndBy};

use hot_scripts::fault::RunFault;
use hot_scripts::script::Script;
use hot_scripts::streams::{read_script, write_answers};
use script_runs::{Records, run_on_new_index};
use std::alloc::Global;
use std::io::{Read, Write};

/// Runs the script that `reader` has, and writes its answers to `writer`. The index is new, with one pass, `nodes` node records (1 to
/// 65,535), one more for removals, and `leaves` leaf records (1 to 262,143). The run waits for no other thread, and returns once its reads
/// and writes have returned. The error is `Script` with the first bad line, or `Read`, `Large`, `Memory` or `Write`. Only with `Write` may
/// a part of the answers be written.
pub fn run_one<R: Read, W: Write>(
    alloc: Global,
    nodes: u32,
    leaves: u32,
    reader: &mut R,
    writer: &mut W,
) -> Result<(), RunFault>
    requires nodes { IsNodeCount nodes }
    requires leaves { IsLeafCount leaves }

    // The answers to the script were written, and nothing else: what the script means, if no command was refused. One was refused only
    // if it found no record of the kind free.
    ensures ok { OnOk result ((script : List ℕ) × (text : List ℕ)
        × TakesAll (R.remaining reader.old) (R.remaining reader.new) script
        × IsAnsweredScript nodes leaves script text
        × Appends (W.contents writer.old) (W.contents writer.new) text) }

    // A fault of the script's own is what the script means.
    ensures fault { IfErr result (MayEndBy (R.remaining reader.old) (R.remaining reader.new)) }

    // Nothing was written unless a write failed.
    ensures nothing { IfErr result (λ fault. fault ≢ RunFault.Write → writer.new ≡ writer.old) }
{
    let bytes = read_script(alloc, reader)?;
    let script = Script::parse(bytes)?;
    let text = run_on_new_index(alloc, Records { nodes, leaves }, &script)?;
    write_answers(writer, &text)
}
