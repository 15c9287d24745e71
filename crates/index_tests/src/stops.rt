//! The steps of what a pass does, and what happens where it is stopped after each of them.

ghost use Rattle.std.specs.Prelude.{All};
ghost use Rattle.hot_index_calls.specs.Passes.{Owns};

use crate::acts::write_act;
use crate::cases::{Task, TestCase, bad_line, parse_tasks};
use crate::guests::{Guest, create_index, do_tasks};
use crate::judge::{Stopper, prepare_guest, verdict};
use hot_index::{Event, Index, Pass};
use std::alloc::AllocError;
use std::{io, mem};

/// More steps than a pass makes here.
const MAX_STEPS: u64 = 10_000;

/// Lets pass 0 of a new index of `case` do the tasks of `text`, after those of `before`. Prints what the pass was answered, each of its
/// steps, and whether all steps and scans were lawful. `bad_line` if no index is made, or at a bad task; an error if memory is refused, or
/// a write failed.
pub fn print_steps<R: Print + AllocGlobal>(rt: &R, case: &TestCase, text: &str) -> io::Result<()> {
    let mut lines = String::new(case.alloc);
    let (index, passes) = create_index(case.alloc, 2, case.nodes, case.leaves)?;
    write_steps(case, &index, passes, text, &mut lines)?;
    println!(rt; "{text}{lines}")
}

/// Lets pass 0 of `index`, just made with `passes`, do the tasks of `text`. Adds the answers, the steps and the verdict, which
/// `print_steps` prints, to `lines`. It fails as `print_steps` does.
fn write_steps(
    case: &TestCase,
    index: &Index,
    passes: Vec<Pass>,
    text: &str,
    lines: &mut String,
) -> io::Result<()>
    requires { All (Owns index.now) passes.items }
{
    let (mut guest, mut gate) = prepare_guest(case, index, passes)?;
    write_steps_of_guest(case, &mut guest, &mut gate, text, lines)
}

/// Lets `guest`, whose steps `gate` is told, do the tasks of `text`. Adds the answers, the steps and the verdict to `lines`. `bad_line` at
/// a bad task; an error if memory is refused.
fn write_steps_of_guest(
    case: &TestCase,
    guest: &mut Guest,
    gate: &mut Stopper,
    text: &str,
    lines: &mut String,
) -> io::Result<()> {
    let mut tasks = Vec::new(case.alloc);
    parse_tasks(&mut tasks, text)?;
    gate.judge.told.clear();
    Ok(write_replies_and_acts(case, guest, gate, &tasks, lines)?)
}

/// Lets `guest` do `tasks`. Adds what it was answered, the steps that `gate` keeps and the verdict to `lines`. `AllocError` if memory is
/// refused.
fn write_replies_and_acts(
    case: &TestCase,
    guest: &mut Guest,
    gate: &mut Stopper,
    tasks: &[Task],
    lines: &mut String,
) -> Result<(), AllocError> {
    do_tasks(guest, tasks, gate, lines)?;
    write_acts(lines, &gate.judge.told)?;
    gate.judge.judge_scans(case.alloc, guest)?;
    write!(lines, "\n  {}", verdict(gate.judge.wrong))
}

/// Adds a line for each of the steps `told` to `lines`; `AllocError` if memory is refused.
fn write_acts(lines: &mut String, told: &[Event]) -> Result<(), AllocError> {
    for event in told.iter() {
        write!(lines, "\n  ")?;
        write_act(lines, &event.act)?;
    }
    Ok(())
}

/// For each of the case's `other` lines stops pass 0, which does the tasks of `text`, after each of its steps. Prints how many stops there
/// were and whether all were lawful; if `tells`, also what both passes were answered, once for each range of stops with the same answers.
/// `bad_line` if no index is made, at a bad task, or after `MAX_STEPS`; an error if memory is refused, or a write failed.
pub fn stop_for_each_other<R: Print + AllocGlobal>(
    rt: &R,
    case: &TestCase,
    text: &str,
    tells: bool,
) -> io::Result<()> {
    let mut tasks = Vec::new(case.alloc);
    parse_tasks(&mut tasks, text)?;
    for other in case.others.iter() {
        print!(rt; "{text} | {other}")?;
        stop_at_each_step(rt, case, &tasks, other, tells)?;
    }
    Ok(())
}

/// What happened at a stop.
#[derive(Clone, Copy)]
struct Stop {
    /// Whether pass 0 made so many steps that it was stopped.
    is_made: bool,
    wrong: u64,
}

/// Lets pass 0 do `tasks`, and stops it for pass 1 to do `other`: after its first step, after its second, and so on, each time on a new
/// index, until pass 0 makes fewer steps. It prints and fails as `stop_for_each_other` does.
fn stop_at_each_step<R: Print + AllocGlobal>(
    rt: &R,
    case: &TestCase,
    tasks: &[Task],
    other: &str,
    tells: bool,
) -> io::Result<()> {
    let (mut said, mut before) = (String::new(case.alloc), String::new(case.alloc));
    stop_in_turn(rt, case, tasks, other, tells, &mut said, &mut before)
}

/// Stops pass 0 in its `tasks` after each step in turn, as `stop_at_each_step` does, and prints and fails as that does. `said` is room for
/// what was answered at one stop, and `before` for what was answered at the stop before it. So stops with the same answers are told as one
/// range.
fn stop_in_turn<R: Print + AllocGlobal>(
    rt: &R,
    case: &TestCase,
    tasks: &[Task],
    other: &str,
    tells: bool,
    said: &mut String,
    before: &mut String,
) -> io::Result<()> {
    let (mut first, mut wrong) = (1, 0u64);
    for step in 1..MAX_STEPS {
        mem::swap(said, before);
        said.clear();
        let stop = stop_at_step(case, tasks, other, step, said)?;
        wrong = wrong.wrapping_add(stop.wrong);
        if tells && step > 1 && (!stop.is_made || said != before) {
            print!(rt; "\n  {first}..{}{before}", step.wrapping_sub(1))?;
            first = step;
        }
        if !stop.is_made {
            let stops = step.wrapping_sub(1);
            return println!(rt; "\n  {stops} stops, {}", verdict(wrong));
        }
    }
    Err(bad_line())
}

/// Lets pass 0 of a new index do `tasks`, and stops it after `step` steps for pass 1 to do `other`. Adds what both were answered to `said`.
/// Returns whether pass 0 made so many steps, and how often something was wrong.
fn stop_at_step(
    case: &TestCase,
    tasks: &[Task],
    other: &str,
    step: u64,
    said: &mut String,
) -> io::Result<Stop> {
    let (index, passes) = create_index(case.alloc, 2, case.nodes, case.leaves)?;
    stop_on_index(case, &index, passes, tasks, other, step, said)
}

/// Lets pass 0 of `index`, which was just made with `passes`, do `tasks`, and stops it after `step` steps, as `stop_at_step` does. Returns
/// and adds to `said` the same.
fn stop_on_index(
    case: &TestCase,
    index: &Index,
    passes: Vec<Pass>,
    tasks: &[Task],
    other: &str,
    step: u64,
    said: &mut String,
) -> io::Result<Stop>
    requires { All (Owns index.now) passes.items }
{
    let (mut guest, mut gate) = prepare_guest(case, index, passes)?;
    make_stop(case, &mut guest, &mut gate, tasks, other, step, said)
}

/// Lets `guest` do `tasks`. `gate` stops it after `step` steps, for the other pass to do `other`. Adds what both were answered to `said`,
/// and compares scans of the index with the replay. Returns whether `guest` made so many steps, and how often something was wrong.
fn make_stop(
    case: &TestCase,
    guest: &mut Guest,
    gate: &mut Stopper,
    tasks: &[Task],
    other: &str,
    step: u64,
    said: &mut String,
) -> io::Result<Stop> {
    parse_tasks(&mut gate.tasks, other)?;
    gate.left = step;
    do_tasks(guest, tasks, gate, said)?;
    write!(said, "{}", gate.said)?;
    gate.judge.judge_scans(case.alloc, guest)?;
    Ok(Stop {
        is_made: gate.left == 0,
        wrong: gate.judge.wrong,
    })
}
