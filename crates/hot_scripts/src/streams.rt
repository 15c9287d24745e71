//! What a run reads and writes.

ghost use Rattle.std.specs.Prelude.{◌≡◌, ◌≤◌, IfOk, IfErr, OnOk, flat_map, vec_len};
ghost use Rattle.std.specs.Io.KnownBytes.{Appends, Keeps};
ghost use Rattle.hot_scripts.specs.Streams.{IsReadFault, TakesAll};

use crate::fault::RunFault;
use crate::script::MAX_SCRIPT;
use std::alloc::Global;
use std::io::{ErrorKind, Read, Write};

/// How many bytes one read asks for.
const CHUNK: usize = 4096;

/// Reads the whole script, all that `reader` has left, and returns it. A read that was interrupted is made again. The error is `Read` if a
/// read failed, `Large` if there are more than `MAX_SCRIPT` bytes, and `Memory` if memory is refused. There are at most 2^64 - 1 reads, so
/// that the loop ends; if they don't reach the script's end, the error is `Read`.
pub fn read_script<R: Read>(alloc: Global, reader: &mut R) -> Result<Vec<u8>, RunFault>
    ensures whole { IfOk result (λ script. TakesAll (R.remaining reader.old) (R.remaining reader.new) script.items) }
    ensures short { IfOk result (λ script. vec_len script ≤ MAX_SCRIPT) }
    ensures fault { IfErr result (IsReadFault (R.remaining reader.old) (R.remaining reader.new)) }
{
    let mut bytes = Vec::new(alloc);
    let mut chunk = [0u8; CHUNK];
    for _ in 0..u64::MAX {
        if bytes.len() > MAX_SCRIPT {
            return Err(RunFault::Large);
        }
        let room = CHUNK.min(MAX_SCRIPT + 1 - bytes.len());
        match reader.read(&mut chunk[..room]) {
            Ok(0) => return Ok(bytes),
            Ok(count) => bytes.extend_from_slice(&chunk[..count])?,
            Err(error) if error.kind() == ErrorKind::Interrupted => {}
            Err(_) => return Err(RunFault::Read),
        }
    }
    Err(RunFault::Read)
}

/// Writes `text` to `writer`, behind what it has. The error is `RunFault::Write` if a write failed, and then perhaps a part of `text` is
/// written.
fn write_text<W: Write>(writer: &mut W, text: &[u8]) -> Result<(), RunFault>
    ensures ok { OnOk result (Appends (W.contents writer.old) (W.contents writer.new) text.now) }
    ensures fault { IfErr result (λ fault. fault ≡ RunFault.Write) }
{
    match writer.write_all(text) {
        Ok(()) => Ok(()),
        Err(_) => Err(RunFault::Write),
    }
}

/// Flushes `writer`, whose content stays. The error is `RunFault::Write` if that failed.
fn flush_writer<W: Write>(writer: &mut W) -> Result<(), RunFault>
    ensures ok { OnOk result (Keeps (W.contents writer.old) (W.contents writer.new)) }
    ensures fault { IfErr result (λ fault. fault ≡ RunFault.Write) }
{
    match writer.flush() {
        Ok(()) => Ok(()),
        Err(_) => Err(RunFault::Write),
    }
}

/// Writes `text` to `writer`, behind what it has, and flushes the writer. The error is `RunFault::Write` if a write or the flush failed,
/// and then perhaps a part of `text` is written.
pub fn write_answers<W: Write>(writer: &mut W, text: &[u8]) -> Result<(), RunFault>
    ensures ok { OnOk result (Appends (W.contents writer.old) (W.contents writer.new) text.now) }
    ensures fault { IfErr result (λ fault. fault ≡ RunFault.Write) }
{
    write_text(writer, text)?;
    flush_writer(writer)
}

/// Writes `texts` to `writer`, one after another, and flushes the writer. The error is `RunFault::Write` if a write or the flush failed,
/// and then perhaps a part of `texts` is written.
pub fn write_sections<W: Write>(writer: &mut W, texts: &[Vec<u8>]) -> Result<(), RunFault>
    ensures ok { OnOk result (Appends (W.contents writer.old) (W.contents writer.new) (flat_map (λ t. t.items) texts.now)) }
    ensures fault { IfErr result (λ fault. fault ≡ RunFault.Write) }
{
    for text in texts {
        write_text(writer, text)?;
    }
    flush_writer(writer)
}
