//! Which run a command line asks for.

ghost use Rattle.std.specs.Prelude.{◌≡◌, ◌≢◌, ◌⊎◌, List, ℕ, IfErr, OnOk, map, string_bytes};
ghost use Rattle.std.specs.Io.KnownBytes.{Appends};
ghost use Rattle.hot_scripts.specs.declared.fault.RunFault.TheVariants.{Write as WriteFault};
ghost use Rattle.hot_scripts.specs.Streams.{TakesAll};
ghost use Rattle.hot_scripts.specs.Files.{IsFileFault};
ghost use Rattle.hot_scripts.specs.declared.ending.Ending.TheVariants.{Fault};
ghost use Rattle.hot_run.specs.Asked.{AnswersAll, IsAnsweredAsAsked, MayEndAllBy, MayEndAsAsked};

use crate::one::run_one;
use crate::scripts::run_scripts;
use hot_scripts::arguments::{Request, parse_request};
use hot_scripts::ending::Ending;
use hot_scripts::fault::RunFault;
use hot_scripts::files::{FileSystem, read_files};
use std::io::{Read, Write};
use std::sync::Wait;
use std::thread::Threads;

/// Makes the run that `words`, those of the command line, ask for, and writes the answers to `writer`. It runs the script that `reader`
/// has, alone, or after the scripts in the files that `words` name. `system` reads these files. The error is `Usage` only if `words` don't
/// parse. Else it is a `Fault`: one that the run has, or want of memory. Only with `Fault(Write)` may a part of the answers be written;
/// with any other nothing is.
pub fn run_command_line<T, S, R, W>(
    rt: &T,
    system: &S,
    words: &[String],
    reader: &mut R,
    writer: &mut W,
) -> Result<(), Ending>
where
    T: AllocGlobal + Wait + Threads + Sync,
    S: FileSystem,
    R: Read,
    W: Write,
    ensures ok { OnOk result (IsAnsweredAsAsked S.bytes (map string_bytes words.now) (R.remaining reader.old) (R.remaining reader.new)
        (W.contents writer.old) (W.contents writer.new)) }

    // It is refused as wrong usage only if the words don't parse. A fault of the run is one that the scripts have.
    ensures fault { IfErr result (MayEndAsAsked S.bytes (map string_bytes words.now) (R.remaining reader.old) (R.remaining reader.new)) }

    // Nothing was written but where a write failed.
    ensures nothing { IfErr result (λ ending. ending ≢ Fault WriteFault → writer.new ≡ writer.old) }
{
    let request = parse_request(rt.alloc(), words)?;
    run_request(rt, system, &request, reader, writer)?;
    Ok(())
}

/// Runs the script that `reader` has, alone, or after the scripts in the files that `request` names, and writes the answers to `writer`.
/// The index has the records that `request` asks for. The error tells that a script can't be read or is bad, memory is refused, a thread
/// can't be started, or a write failed. Only in the last case may a part of the answers be written.
fn run_request<T: AllocGlobal + Wait + Threads + Sync, S: FileSystem, R: Read, W: Write>(
    rt: &T,
    system: &S,
    request: &Request<'_>,
    reader: &mut R,
    writer: &mut W,
) -> Result<(), RunFault>
    ensures ok { OnOk result ((script : List ℕ) × (text : List ℕ)
        × TakesAll (R.remaining reader.old) (R.remaining reader.new) script
        × AnswersAll S.bytes (map (λ n. n.now) request.now.files.items) request.now.nodes request.now.leaves script text
        × Appends (W.contents writer.old) (W.contents writer.new) text) }
    ensures fault { IfErr result (λ fault. IsFileFault fault
        ⊎ MayEndAllBy S.bytes (map (λ n. n.now) request.now.files.items) (R.remaining reader.old) (R.remaining reader.new) fault) }
    ensures nothing { IfErr result (λ fault. fault ≢ WriteFault → writer.new ≡ writer.old) }
{
    let (nodes, leaves) = (request.nodes, request.leaves);
    if request.files.is_empty() {
        return run_one(rt.alloc(), nodes, leaves, reader, writer);
    }
    let files = read_files(rt.alloc(), system, &request.files)?;
    run_scripts(rt, nodes, leaves, files, reader, writer)
}
