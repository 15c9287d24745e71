//! A program that makes runs of several passes on small indexes, as cases in files ask for them. Each step is judged by a replay, and what
//! happened is printed. A line of a case is one of these; a task is a call (`insert 61 5`), `scan 9`, `scan_reverse 9` or `collect`, and
//! commas part tasks.
//!
//! - `index NODES LEAVES` begins a new case, `before TASKS` says what pass 0 does on each new index, `other TASKS` what pass 1 may
//!   do at a stop, and `keys KEY ..` with which keys tasks are made by chance
//! - `steps TASKS` prints each step of what pass 0 does
//! - `stop TASKS` stops pass 0 after each of its steps, for each of the `other` lines; `tell TASKS` also prints what both were
//!   answered, for each range of stops
//! - `chance SEED TURNS` makes tasks by chance in the middle of others
//! - `threads COUNT ORDERS` lets threads step one at a time, in orders made from seeds; `counter KEY` has each add one to the value of
//!   that key after each task, and that value is compared with how often they did
#![tactic(auto)]

mod acts;
mod cases;
mod chance;
mod guests;
mod judge;
mod stops;
mod turns;

use crate::cases::{TestCase, parse_keys, parse_tasks};
use std::rt::{Env, Files};
use std::thread::Threads;
use std::{fs, io};

/// Runs the cases in the files that the command line names, and prints each name first. It ends with the error of the first that has one.
fn run_named_files<R>(rt: &R) -> io::Result<()>
where
    R: Env + Files + Print + AllocGlobal + Threads + Sync,
{
    for name in std::env::args(rt)?.skip(1) {
        println!(rt; "{name}")?;
        let text = fs::read_to_string(rt, name.as_str())?;
        run_file(rt, text.as_str())?;
    }
    Ok(())
}

/// Runs the cases of a file with the text `text`, line by line. It ends with the error of the first line that has one, as of `run_line`.
fn run_file<R>(rt: &R, text: &str) -> io::Result<()>
where
    R: Print + AllocGlobal + Threads + Sync,
{
    let mut case = TestCase::new(rt.alloc());
    for line in text.lines() {
        run_line(rt, &mut case, line)?;
    }
    Ok(())
}

/// Keeps in `case` what `line` says of it, or makes the runs that it asks for. Empty lines and those that begin with `# ` do nothing.
/// `bad_line` for any other; else the error of the runs.
fn run_line<'a, R>(rt: &R, case: &mut TestCase<'a>, line: &'a str) -> io::Result<()>
where
    R: Print + AllocGlobal + Threads + Sync,
{
    let (word, rest) = line.split_once(' ').unwrap_or((line, ""));
    match word {
        "" | "#" => Ok(()),
        "index" => case.begin_case(rest),
        "before" => parse_tasks(&mut case.before, rest),
        "other" => Ok(case.others.push(rest)?),
        "keys" => parse_keys(&mut case.keys, rest),
        "counter" => case.set_counted_key(rest),
        "steps" => stops::print_steps(rt, case, rest),
        "stop" => stops::stop_for_each_other(rt, case, rest, false),
        "tell" => stops::stop_for_each_other(rt, case, rest, true),
        "chance" => chance::run_turns(rt, case, rest),
        "threads" => turns::run_orders(rt, case, rest),
        _ => Err(cases::bad_line()),
    }
}

/// Runs the cases in the files that the command line names. It returns the error of the first file that has one.
fn main(rt: HostRuntime) -> io::Result<()> {
    run_named_files(&rt)
}
