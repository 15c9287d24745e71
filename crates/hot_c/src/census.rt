//! What a count of records finds, as a program in C has it.

ghost use Rattle.std.specs.Prelude.{◌≡◌};
ghost use Rattle.hot_c.specs.Census.{shown_counts, shown_states};

use hot_index::{RecordCounts, StateCounts};

/// How many committed records of one kind and class are in each state. The fields have the order of those of `hot_states` in `c/hot.h`.
#[repr(C)]
#[derive(Clone, Copy)]
pub struct HotStates {
    pub free: u32,
    pub held: u32,
    pub live: u32,
    pub obsolete: u32,
}

/// How many committed node records, and leaf records of each class, are in each state, and how many bytes the table has. The fields have
/// the order of those of `hot_counts` in `c/hot.h`.
#[repr(C)]
#[derive(Clone, Copy)]
pub struct HotCounts {
    pub nodes: HotStates,
    pub short: HotStates,
    pub medium: HotStates,
    pub large: HotStates,
    pub wide: HotStates,
    pub long: HotStates,
    pub bytes: usize,
}

/// Returns `counts` as C has them: those of committed records.
pub fn show_counts(counts: &RecordCounts) -> HotCounts
    ensures { result ≡ shown_counts counts.now }
{
    HotCounts {
        nodes: show_states(&counts.nodes),
        short: show_states(&counts.short),
        medium: show_states(&counts.medium),
        large: show_states(&counts.large),
        wide: show_states(&counts.wide),
        long: show_states(&counts.long),
        bytes: counts.bytes,
    }
}

/// Returns `states` as C has them: those of committed records.
fn show_states(states: &StateCounts) -> HotStates
    ensures { result ≡ shown_states states.now }
{
    HotStates {
        free: states.free,
        held: states.held,
        live: states.live,
        obsolete: states.obsolete,
    }
}
