//! Scripts in files.

ghost use Rattle.std.specs.Prelude.{◌≡◌, IfErr, IfOk, length, map};
ghost use Rattle.hot_scripts.specs.Files.{AreFileStarts, IsFileFault, IsFileStart};

use crate::fault::RunFault;
use crate::script::MAX_SCRIPT;
use std::alloc::Global;
use std::fs::File;
use std::io::{ErrorKind, Read};
use std::rt::Files;

/// Where files stand, each under a name.
pub trait FileSystem {
    ghost use Rattle.std.specs.Prelude.{◌≡◌, ℕ, List, Option as Maybe, Some, IfErr, IfOk, IfSome};

    /// A file that was opened.
    type Opened: Read + Drop;

    /// The bytes of the file of a name, where they are known.
    ghost bytes: { List ℕ → Maybe (List ℕ) };

    /// Opens the file `name`, to be read from its first byte on. What is read are its `bytes`, where these are known. The error is `Read`
    /// if the file can't be opened.
    fn open(&self, name: &str) -> Result<Self::Opened, RunFault>
        ensures fault { IfErr result (λ fault. fault ≡ RunFault.Read) }
        ensures file { IfOk result (λ file. IfSome (bytes name.now) (λ all. Self.Opened.Read.remaining file ≡ Some all)) };
}

/// The files of the machine, of whose bytes nothing is known.
#[derive(Drop)]
pub struct Disk<'a, R> {
    /// What reaches them.
    pub rt: &'a R,
}

impl<R: Files> FileSystem for Disk<'_, R> {
    ghost use Rattle.std.specs.Prelude.{None};

    type Opened = R::File;

    ghost bytes = { λ _. None };

    /// Opens the machine's file `name`, to be read from its first byte on. The error is `Read` if it can't be opened.
    fn open(&self, name: &str) -> Result<R::File, RunFault> {
        File::open(self.rt, name).map_err(|_| RunFault::Read)
    }
}

/// Returns the first bytes that `reader` has: all of them, or one more than a script may have, which shows that the script is too long. The
/// error is `Memory` if memory is refused for these bytes. It is `Read` if a read failed, also for want of the system's own memory.
fn read_file_start<R: Read + Drop>(alloc: Global, reader: R) -> Result<Vec<u8>, RunFault>
    ensures fault { IfErr result IsFileFault }
    ensures start { IfOk result (λ bytes. IsFileStart (R.remaining reader) bytes.items) }
{
    let mut bytes = Vec::new(alloc);
    let mut start = reader.take(MAX_SCRIPT as u64 + 1);
    match start.read_to_end(&mut bytes) {
        Ok(_) => Ok(bytes),
        Err(error) if error.kind() == ErrorKind::OutOfMemory && error.raw_os_error().is_none() => {
            Err(RunFault::Memory)
        }
        Err(_) => Err(RunFault::Read),
    }
}

/// Returns the bytes of the file `name` of `system`: all of them, or one more than a script may have. The error is `Read` if the file can't
/// be opened or read, and `Memory` if memory is refused.
fn read_file<S: FileSystem>(alloc: Global, system: &S, name: &str) -> Result<Vec<u8>, RunFault>
    ensures fault { IfErr result IsFileFault }
    ensures start { IfOk result (λ bytes. IsFileStart (S.bytes name.now) bytes.items) }
{
    let file = system.open(name)?;
    read_file_start(alloc, file)
}

/// Returns the bytes of the files `names` of `system`, in this order: of each file all, or one more than a script may have. The error is
/// `Read` if a file can't be opened or read, and `Memory` if memory is refused.
pub fn read_files<S: FileSystem>(
    alloc: Global,
    system: &S,
    names: &[&str],
) -> Result<Vec<Vec<u8>>, RunFault>
    ensures fault { IfErr result IsFileFault }
    ensures count { IfOk result (λ files. length files.items ≡ length names.now) }
    ensures starts { IfOk result (λ files. AreFileStarts S.bytes (map (λ name. name.now) names.now) (map (λ file. file.items) files.items)) }
{
    let mut files = Vec::new(alloc);
    for name in names {
        files.push(read_file(alloc, system, name)?)?;
    }
    Ok(files)
}
