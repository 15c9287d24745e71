//! The scripts of several files.

ghost use Rattle.std.specs.Prelude.{◌≡◌, ◌≤◌, IfOk, length, map};
ghost use Rattle.hot_scripts.specs.InFiles.{IsParsed, commands_of_file, commands_of_files};
ghost use Rattle.hot_scripts.specs.Parses.{script_commands};

use crate::fault::RunFault;
use crate::script::{MAX_FILES, MAX_SCRIPT, Script};
use std::alloc::Global;

/// Returns the scripts with the texts `files`, in their order. There must be `MAX_FILES` files at most. The error is that of the first file
/// that has one: `Large` for more than `MAX_SCRIPT` bytes, or `FileScript` with the file's number, from 1 on, and its first bad line. It is
/// `Memory` if memory is refused.
pub fn parse_files(alloc: Global, files: Vec<Vec<u8>>) -> Result<Vec<Script>, RunFault>
    requires { length files.items ≤ MAX_FILES }
    ensures count { IfOk result (λ v. length v.items ≡ length files.items) }
    ensures parsed { IsParsed (λ v. map script_commands v.items) result (commands_of_files 1 (map (λ f. f.items) files.items)) }
{
    let mut scripts = Vec::new(alloc);
    let mut number = 1u32;
    for file in files {
        scripts.push(parse_file(number, file)?)?;
        number += 1;
    }
    Ok(scripts)
}

/// Returns the script with the text `file`, of the file with the number `number`. The error is `Large` if the text has more than
/// `MAX_SCRIPT` bytes. If a line is bad, it is `FileScript` with this number, and with the number and the reason of the first bad line.
fn parse_file(number: u32, file: Vec<u8>) -> Result<Script, RunFault>
    ensures { IsParsed script_commands result (commands_of_file number file.items) }
{
    if file.len() > MAX_SCRIPT {
        return Err(RunFault::Large);
    }
    match Script::parse(file) {
        Err(RunFault::Script { line, reason }) => {
            Err(RunFault::FileScript {
                file: number,
                line,
                reason,
            })
        }
        outcome => outcome,
    }
}
