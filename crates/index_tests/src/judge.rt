//! Gates that judge each step of a run: one alone, and one that stops the run for another pass.

ghost use Rattle.std.specs.Prelude.{All};
ghost use Rattle.hot_index_calls.specs.Passes.{Owns};

use crate::cases::{Task, TestCase, bad_line};
use crate::guests::{Guest, do_tasks, pop_guest, scan_from_highest, scan_from_lowest};
use hot_index::{Event, Gate, Index, Pass, Scan, keep_one_node};
use record_words::Layout;
use rowex_replay::Replay;
use std::alloc::{AllocError, Global};
use std::io;

/// A gate that judges each step by a replay, and keeps it in `told`. `wrong` counts the steps that the replay refuses, those that there is
/// no memory to keep, and scans with other pairs than the replay's.
#[derive(Drop)]
pub struct Judge {
    replay: Replay,
    pub told: Vec<Event>,
    pub wrong: u64,
}

impl Judge {
    /// Returns a judge of a new index with `passes` passes, `nodes` node records and `leaves` leaf records. It returns an error if a number
    /// is out of range, or memory is refused.
    pub fn new(alloc: Global, passes: u32, nodes: u32, leaves: u32) -> io::Result<Judge> {
        let asked = Layout::of(passes, nodes, leaves).map_err(|_| bad_line())?;
        let layout = keep_one_node(asked);
        Ok(Judge {
            replay: Replay::new(alloc, layout)?,
            told: Vec::new(alloc),
            wrong: 0,
        })
    }

    /// Compares a scan of all keys by `guest`, and one downwards, with the map that the steps so far have made. Each of the two that
    /// differs counts as one wrong. The steps of the scans are judged, too. `AllocError` if memory is refused.
    pub fn judge_scans(&mut self, alloc: Global, guest: &mut Guest) -> Result<(), AllocError> {
        let up = scan_from_lowest(guest, alloc, usize::MAX, self)?;
        self.judge_scan(alloc, &up)?;
        let mut down = scan_from_highest(guest, alloc, usize::MAX, self)?;
        down.pairs.reverse();
        self.judge_scan(alloc, &down)
    }

    /// Counts one wrong if `scan`, upwards, has other pairs than the map that the steps so far have made, or says that there are more. If
    /// memory is refused, it returns an error and counts nothing.
    fn judge_scan(&mut self, alloc: Global, scan: &Scan) -> Result<(), AllocError> {
        let content = self.replay.content(alloc)?;
        if scan.more || scan.pairs != content {
            self.wrong = self.wrong.wrapping_add(1);
        }
        Ok(())
    }
}

impl Gate for Judge {
    ghost becomes = { λ _ _ _. Unit {0} };

    /// Gives `event` to the replay and keeps it. It counts one wrong if the replay refuses it, or there is no memory.
    fn at(&mut self, event: &Event) {
        if self.replay.step(*event).is_err() || self.told.push(*event).is_err() {
            self.wrong = self.wrong.wrapping_add(1);
        }
    }
}

/// Returns the word for runs in which something was wrong `wrong` times: `lawful` for 0, else `WRONG`.
pub fn verdict(wrong: u64) -> &'static str {
    if wrong == 0 { "lawful" } else { "WRONG" }
}

/// A gate that judges each step of a pass, and after one of them lets another pass do something, whose steps it judges too.
#[derive(Drop)]
pub struct Stopper<'a> {
    pub judge: Judge,
    other: Guest<'a>,
    /// What the other pass does.
    pub tasks: Vec<Task>,
    /// After how many steps from now on it does so; never, where that is 0.
    pub left: u64,
    /// What the other pass was answered.
    pub said: String,
}

impl<'a> Gate for Stopper<'a> {
    ghost becomes = { λ _ _ _. Unit {0} };

    /// Has `event` judged. If the step is the one to stop at, the other pass does its tasks, whose steps are judged, too.
    fn at(&mut self, event: &Event) {
        self.judge.at(event);
        if self.left == 1 {
            let done = do_tasks(
                &mut self.other,
                &self.tasks,
                &mut self.judge,
                &mut self.said,
            );
            if done.is_err() {
                self.judge.wrong = self.judge.wrong.wrapping_add(1);
            }
        }
        self.left = self.left.saturating_sub(1);
    }
}

/// Returns pass 0 of `index`, and its gate, which stops the pass for pass 1. `index` was just made for `case`, with two `passes`. Pass 0
/// has done what `case` does beforehand. `bad_line` if a pass is missing or a size is out of range; an error if memory is refused.
pub fn prepare_guest<'a>(
    case: &TestCase,
    index: &'a Index,
    mut passes: Vec<Pass>,
) -> io::Result<(Guest<'a>, Stopper<'a>)>
    requires { All (Owns index.now) passes.items }
{
    let alloc = case.alloc;
    let other = pop_guest(index, &mut passes)?;
    let mut guest = pop_guest(index, &mut passes)?;
    let mut gate = Stopper {
        judge: Judge::new(alloc, 2, case.nodes, case.leaves)?,
        other,
        tasks: Vec::new(alloc),
        left: 0,
        said: String::new(alloc),
    };
    let mut said = String::new(alloc);
    do_tasks(&mut guest, &case.before, &mut gate, &mut said)?;
    Ok((guest, gate))
}
