//! How the commands of a script are run and answered, through a handle of an index.

ghost use Rattle.std.specs.Prelude.{◌≡◌, ℕ, IfOk, OnOk};
ghost use Rattle.hot_index.specs.Handles.{Stays};
ghost use Rattle.hot_scripts.specs.Parses.{script_commands};
ghost use Rattle.hot_index_calls.specs.Traces.{HasMadeCallSteps};
ghost use Rattle.script_runs.specs.Progress.{HasAnsweredCommand, HasRunCommands, answered_as};
ghost use Rattle.script_runs.specs.Told.{IsAnswerTold};

use crate::answer::{Answer, push_answer};
use crate::callers::Caller;
use finite_map::Call;
use hot_index::{Gate, Handle, Index, Pairs};
use hot_scripts::answer::push_scan;
use hot_scripts::command::{Command, KeyRange};
use hot_scripts::script::Script;
use std::alloc::{AllocError, Global};

/// The answers to commands so far, and room for the pairs of a scan.
#[derive(Drop)]
struct Output {
    /// The lines of the answers so far.
    text: Vec<u8>,
    /// Pairs of an earlier scan, which the next one drops.
    pairs: Pairs,
}

/// Makes `call` through `handle`, by `caller`, which must fit the index. Returns the answer: the reply, or the kind of records of which
/// none was free, with nothing changed. The handle stays at its index, and `gate` is told each step.
fn make_call<C: Caller, G: Gate>(
    caller: &C,
    handle: &mut Handle<&Index>,
    call: &Call,
    gate: &mut G,
) -> Answer
    requires { C.fits caller.now handle.old.index }
    ensures told { Stays (λ index k j. (place : ℕ) × IsAnswerTold index.layout k (answered_as call.now result place) j) handle.old handle.new }
    ensures steps { HasMadeCallSteps handle.old.index G.becomes (handle.old.pass, gate.old) (handle.new.pass, gate.new) }
{
    match caller.call(handle, call, gate) {
        Ok(reply) => Answer::Reply(reply),
        Err(full) => Answer::Full(full),
    }
}

/// Runs a scan of `range` through `handle`, which stays at its index, and adds the lines of its answer to the text of `output`. `gate` is
/// told each step. `AllocError` if memory is refused: then perhaps a part of the lines is added.
fn run_scan<G: Gate>(
    handle: &mut Handle<&Index>,
    range: &KeyRange,
    gate: &mut G,
    output: &mut Output,
) -> Result<(), AllocError>
    ensures index { handle.new.index ≡ handle.old.index }
    ensures answered { OnOk result (HasAnsweredCommand handle.old.index G.becomes (handle.old.pass, gate.old) (Command.Scan range.now)
        (handle.new.pass, gate.new) output.old.text.items output.new.text.items) }
{
    let more = handle.index.scan_into_with(
        &mut handle.pass,
        &range.from,
        &range.upto,
        range.limit,
        &mut output.pairs,
        gate,
    )?;
    push_scan(&mut output.text, &output.pairs, more)
}

/// Runs `command` through `handle`, which stays at its index, and adds the lines of its answer to the text of `output`. A call is made by
/// `caller`, which must fit the index. `gate` is told each step. `AllocError` if memory is refused: then perhaps a part of the lines is
/// added.
fn run_command<C: Caller, G: Gate>(
    caller: &C,
    handle: &mut Handle<&Index>,
    command: &Command,
    gate: &mut G,
    output: &mut Output,
) -> Result<(), AllocError>
    requires { C.fits caller.now handle.old.index }
    ensures index { handle.new.index ≡ handle.old.index }
    ensures answered { OnOk result (HasAnsweredCommand handle.old.index G.becomes (handle.old.pass, gate.old) command.now
        (handle.new.pass, gate.new) output.old.text.items output.new.text.items) }
{
    match command {
        Command::Call(call) => {
            let answer = make_call(caller, handle, call, gate);
            push_answer(&mut output.text, answer)
        }
        Command::Scan(range) => run_scan(handle, range, gate, output),
    }
}

/// Runs the commands of `script` through `handle`, which stays at its index, one after another, and returns the lines of their answers.
/// Calls are made by `caller`, which must fit the index. `gate` is told each step. `AllocError` if memory is refused for an answer: the
/// commands before have run, and perhaps the command of that answer.
pub fn run_script<C: Caller, G: Gate>(
    caller: &C,
    alloc: Global,
    handle: &mut Handle<&Index>,
    script: &Script,
    gate: &mut G,
) -> Result<Vec<u8>, AllocError>
    requires { C.fits caller.now handle.old.index }
    ensures index { handle.new.index ≡ handle.old.index }
    ensures ran { IfOk result (λ text. HasRunCommands handle.old.index G.becomes (handle.old.pass, gate.old) (script_commands script.now)
        (handle.new.pass, gate.new) text.items) }
{
    let mut output = Output {
        text: Vec::new(alloc),
        pairs: Pairs::new(alloc),
    };
    let mut commands = script.commands();
    while let Some(command) = commands.next_command() {
        run_command(caller, handle, &command, gate, &mut output)?;
    }
    Ok(output.text)
}
