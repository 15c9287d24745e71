//! Why an event is not replayed.

ghost use Rattle.std.specs.Prelude.{Some};
ghost use Rattle.rowex_replay_state.specs.Faults.{replay_fault_text};

use std::error::Error;
use std::fmt;

/// Why an event is not replayed. The replay is then as it was.
#[derive(Clone, Copy, Debug)]
pub enum ReplayFault {
    /// The event is not legal where it comes.
    Illegal = 1,
    /// Memory was refused to a publish. Whether it is legal stays open.
    Memory = 2,
    /// The event is a bulk load, which is no atomic step. Whether it is legal stays open.
    Load = 3,
}

impl fmt::Display for ReplayFault {
    ghost output = { λ fault. Some (replay_fault_text fault) };

    /// Writes the text of the fault.
    fn fmt<W: fmt::Write>(&self, f: &mut fmt::Formatter<W>) -> fmt::Result {
        match self {
            ReplayFault::Illegal => write!(f, "illegal event"),
            ReplayFault::Memory => write!(f, "out of memory"),
            ReplayFault::Load => write!(f, "bulk load"),
        }
    }
}

impl Error for ReplayFault {}
