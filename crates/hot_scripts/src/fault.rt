//! Why a run of a script ends without its answers.

ghost use Rattle.std.specs.Prelude.{◌≡◌, Some};
ghost use Rattle.hot_scripts.specs.declared.fault.RunFault.TheVariants.{Memory};
ghost use Rattle.hot_scripts.specs.Faults.{reason_text, run_fault_text};

use std::alloc::{AllocError, AllocFailed};
use std::error::Error;
use std::fmt;

/// What is wrong with a line of a script.
#[derive(Clone, Copy, Debug)]
pub enum Reason {
    /// An unknown first word, or a wrong number of words.
    Command,
    /// A word that is no key, where one belongs.
    Key,
    /// A word that is no value, where one belongs.
    Value,
    /// A word that is no limit, where one belongs.
    Limit,
}

/// Why a run ends without its answers.
#[derive(Clone, Copy, Debug)]
pub enum RunFault {
    /// A read of a script failed.
    Read,
    /// A write of the answers failed.
    Write,
    /// Memory was refused, or a thread couldn't be started.
    Memory,
    /// The script's first bad line, counted from 1.
    Script {
        line: u32,
        reason: Reason,
    },
    /// The first bad line of a file, both counted from 1.
    FileScript {
        file: u32,
        line: u32,
        reason: Reason,
    },
    /// A script has more bytes than `MAX_SCRIPT`.
    Large,
}

impl fmt::Display for Reason {
    ghost output = { λ reason. Some (reason_text reason) };

    /// Writes the text of the reason.
    fn fmt<W: fmt::Write>(&self, f: &mut fmt::Formatter<W>) -> fmt::Result {
        match self {
            Reason::Command => write!(f, "bad command"),
            Reason::Key => write!(f, "bad key"),
            Reason::Value => write!(f, "bad value"),
            Reason::Limit => write!(f, "bad limit"),
        }
    }
}

impl fmt::Display for RunFault {
    ghost output = { λ fault. Some (run_fault_text fault) };

    /// Writes the text of the fault, with its line and its file where it has one.
    fn fmt<W: fmt::Write>(&self, f: &mut fmt::Formatter<W>) -> fmt::Result {
        match self {
            RunFault::Read => write!(f, "read failed"),
            RunFault::Write => write!(f, "write failed"),
            RunFault::Memory => write!(f, "out of memory"),
            RunFault::Script { line, reason } => write!(f, "line {line}: {reason}"),
            RunFault::FileScript { file, line, reason } => {
                write!(f, "file {file}: line {line}: {reason}")
            }
            RunFault::Large => write!(f, "script too long"),
        }
    }
}

impl Error for RunFault {}

impl From<AllocError> for RunFault {
    ghost from_gives = { λ _ fault. fault ≡ Memory };

    /// Returns the fault for memory that was refused.
    fn from(_error: AllocError) -> RunFault {
        RunFault::Memory
    }
}

impl<T: Drop> From<AllocFailed<T>> for RunFault {
    ghost from_gives = { λ _ fault. fault ≡ Memory };

    /// Returns the fault for memory that was refused.
    fn from(_error: AllocFailed<T>) -> RunFault {
        RunFault::Memory
    }
}
