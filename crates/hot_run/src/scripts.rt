//! Runs of several scripts at the same time: those of files, and then a last one.

ghost use Rattle.std.specs.Prelude.{◌≡◌, ◌≢◌, ◌≤◌, List, ℕ, OnOk, IfErr, IfOk, length, map};
ghost use Rattle.std.specs.List.{zip};
ghost use Rattle.std.specs.Io.KnownBytes.{Appends};
ghost use Rattle.record_words.specs.Limits.{IsLeafCount, IsNodeCount};
ghost use Rattle.hot_index_calls.specs.Traces.{untold};
ghost use Rattle.hot_scripts.specs.Streams.{TakesAll};
ghost use Rattle.script_runs.specs.Scripts.{AllFrom, LawfulScripts, MayEndScriptsBy};
ghost use Rattle.script_runs.specs.Told.{IsToldOf};

use hot_index::{Gate, NoGate};
use hot_scripts::fault::RunFault;
use hot_scripts::in_files::parse_files;
use hot_scripts::script::{MAX_FILES, Script};
use hot_scripts::streams::{read_script, write_sections};
use script_runs::{Records, run_all_scripts};
use std::io::{Read, Write};
use std::sync::Wait;
use std::thread::Threads;

/// Runs the scripts in `files`, which must be `MAX_FILES` at most, on a new index. It has `nodes` node records (1 to 65,535), one more for
/// removals, and `leaves` leaf records (1 to 262,143). The scripts run at the same time, each in its own thread. When all have ended, the
/// script that `reader` has runs.
///
/// All scripts are read and parsed before the first command runs. The answers are written to `writer` at the end. Those of each file stand
/// below a line `file I`, where `I` counts from 1, and those of the last script below the line `last`.
///
/// The error is the fault of the first bad script, or `Read`, `Large`, `Write` or `Memory`. If a thread can't be started, that is `Memory`,
/// too. Only with `Write` may a part of the answers be written.
pub fn run_scripts<T: AllocGlobal + Threads + Wait + Sync, R: Read, W: Write>(
    rt: &T,
    nodes: u32,
    leaves: u32,
    files: Vec<Vec<u8>>,
    reader: &mut R,
    writer: &mut W,
) -> Result<(), RunFault>
    requires nodes { IsNodeCount nodes }
    requires leaves { IsLeafCount leaves }
    requires few { length files.items ≤ MAX_FILES }

    // What was written are lawful answers to the scripts, and nothing else. A command was refused only where it found no record of the
    // kind free.
    ensures ok { OnOk result ((script : List ℕ) × (text : List ℕ)
        × TakesAll (R.remaining reader.old) (R.remaining reader.new) script
        × LawfulScripts nodes leaves untold (map (λ f. (tt, tt)) files.items) (map (λ f. f.items) files.items) script text
        × Appends (W.contents writer.old) (W.contents writer.new) text) }

    // A fault of a script is that of the first script that has one.
    ensures fault { IfErr result (MayEndScriptsBy (map (λ f. f.items) files.items) (R.remaining reader.old) (R.remaining reader.new)) }

    // Nothing was written unless a write failed.
    ensures nothing { IfErr result (λ fault. fault ≢ RunFault.Write → writer.new ≡ writer.old) }
{
    let gates = vec![in rt.alloc(); NoGate; files.len()]?;
    run_scripts_with(rt, nodes, leaves, files, gates, reader, writer)?;
    Ok(())
}

/// Runs the scripts in `files` at the same time, and then the one that `reader` has. Writes the answers to `writer`, as `run_scripts` does.
/// The error is the fault of the first bad script, or `Read`, `Large`, `Write` or `Memory`. Reports each atomic step of a file's commands
/// to the file's own gate. `gates` must have a gate for each file, in the order of the files. Returns the gates in this order.
pub fn run_scripts_with<T, G, R, W>(
    rt: &T,
    nodes: u32,
    leaves: u32,
    files: Vec<Vec<u8>>,
    gates: Vec<G>,
    reader: &mut R,
    writer: &mut W,
) -> Result<Vec<G>, RunFault>
where
    T: AllocGlobal + Threads + Wait + Sync,
    G: Gate + Send + Drop,
    R: Read,
    W: Write,
    requires nodes { IsNodeCount nodes }
    requires leaves { IsLeafCount leaves }
    requires few { length files.items ≤ MAX_FILES }
    requires gates { length gates.items ≡ length files.items }

    // Each gate comes back.
    ensures each { IfOk result (λ told. length told.items ≡ length files.items) }

    // It was told steps of its file's pass and no others, one after another: the files' passes have the numbers from 0 on.
    ensures told { IfOk result (λ told. AllFrom 0 (IsToldOf G.becomes) (zip gates.items told.items)) }

    // What was written are lawful answers to the scripts, and nothing else. Each file's gate was told each step of that file's commands,
    // in order, and nothing else. A command was refused only where it found no record of the kind free.
    ensures ok { IfOk result (λ told. (script : List ℕ) × (text : List ℕ)
        × TakesAll (R.remaining reader.old) (R.remaining reader.new) script
        × LawfulScripts nodes leaves G.becomes (zip gates.items told.items) (map (λ f. f.items) files.items) script text
        × Appends (W.contents writer.old) (W.contents writer.new) text) }

    // A fault of a script is that of the first script that has one.
    ensures fault { IfErr result (MayEndScriptsBy (map (λ f. f.items) files.items) (R.remaining reader.old) (R.remaining reader.new)) }

    // Nothing was written unless a write failed.
    ensures nothing { IfErr result (λ fault. fault ≢ RunFault.Write → writer.new ≡ writer.old) }
{
    let scripts = parse_files(rt.alloc(), files)?;
    let bytes = read_script(rt.alloc(), reader)?;
    let last = Script::parse(bytes)?;
    let records = Records { nodes, leaves };
    let results = run_all_scripts(rt, records, &scripts, gates, &last)?;
    write_sections(writer, &results.texts)?;
    Ok(results.gates)
}
