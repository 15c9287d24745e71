//! The program `hot-run`: runs the script on standard input, after those in files, which run at the same time.
#![tactic(auto)]

pub mod asked;
#[cfg(test)]
mod flushing;
pub mod one;
pub mod scripts;
pub mod stack;
#[cfg(test)]
mod waiting;

use asked::run_command_line;
use hot_scripts::arguments::read_words;
use hot_scripts::ending::Ending;
use hot_scripts::files::Disk;
use stack::{LEAST_STACK, too_low_limit};
use std::io;
use std::process::ExitCode;
use std::rt::{Env, Files};
use std::sync::Wait;
use std::thread::Threads;

/// Makes the run that the command line asks for, from standard input and the machine's files to standard output. The error says why there
/// are no answers, or only a part of them.
fn run_program<R>(rt: &R) -> Result<(), Ending>
where
    R: Env + Files + Input + Print + AllocGlobal + Wait + Threads + Sync,
{
    let words = read_words(rt)?;
    let (mut reader, mut writer) = (rt.reader(), io::writer(rt));
    run_command_line(rt, &Disk { rt }, &words, &mut reader, &mut writer)
}

/// The program. Its exit status is 0, or else that of the `Ending`, whose text goes to standard error; 70, if its stack is too small.
fn main(rt: HostRuntime) -> ExitCode {
    if let Some(limit) = too_low_limit(&rt) {
        let _ = eprintln!(rt;
            "hot-run: it needs a stack of {LEAST_STACK} KiB, and the limit is {limit} (ulimit -s)"
        );
        return ExitCode::from(70);
    }
    match run_program(&rt) {
        Ok(()) => ExitCode::SUCCESS,
        Err(ending) => {
            let status = ending.status();
            let _ = rt.eprintln(ending);
            ExitCode::from(status)
        }
    }
}
