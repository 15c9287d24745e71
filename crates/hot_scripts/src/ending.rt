//! How a run of the program ends without its answers.

ghost use Rattle.std.specs.Prelude.{◌≡◌, Some};
ghost use Rattle.hot_scripts.specs.Endings.{ending_text, status_of};
ghost use Rattle.hot_scripts.specs.declared.ending.Ending.TheVariants.{Fault};
ghost use Rattle.hot_scripts.specs.declared.fault.RunFault.TheVariants.{Memory};

use crate::fault::RunFault;
use std::alloc::AllocError;
use std::fmt;

/// Why the program ends without its answers. Its text is what the program says then on standard error.
#[derive(Clone, Copy)]
pub enum Ending {
    /// The command line doesn't parse, or can't be read.
    Usage,
    /// The run had a fault.
    Fault(RunFault),
}

impl Ending {
    /// Returns the program's exit status: 1 if a read or a write failed or memory was refused, else 2.
    pub fn status(self) -> u8
        ensures { result ≡ status_of self }
    {
        match self {
            Ending::Fault(RunFault::Read | RunFault::Write | RunFault::Memory) => 1,
            _ => 2,
        }
    }
}

impl fmt::Display for Ending {
    ghost output = { λ ending. Some (ending_text ending) };

    /// Writes the text of the ending, without a line end.
    fn fmt<W: fmt::Write>(&self, f: &mut fmt::Formatter<W>) -> fmt::Result {
        match self {
            Ending::Usage => write!(f, "usage: hot-run [--nodes N] [--leaves L] [FILE]..."),
            Ending::Fault(fault) => write!(f, "{fault}"),
        }
    }
}

impl From<RunFault> for Ending {
    ghost from_gives = { λ fault ending. ending ≡ Fault fault };

    /// Returns the ending with this fault.
    fn from(fault: RunFault) -> Ending {
        Ending::Fault(fault)
    }
}

impl From<AllocError> for Ending {
    ghost from_gives = { λ _ ending. ending ≡ Fault Memory };

    /// Returns the ending for memory that was refused.
    fn from(_error: AllocError) -> Ending {
        Ending::Fault(RunFault::Memory)
    }
}
