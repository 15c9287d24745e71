//! Scripts that run at the same time: a thread and a handle for each, and the meetings of their passes.

ghost use Rattle.std.specs.Prelude.{◌≡◌, ◌≤◌, IfOk, flat_map, length, map};
ghost use Rattle.std.specs.List.{AllZip, zip};
ghost use Rattle.hot_index_calls.specs.Answers.{HaveMet};
ghost use Rattle.hot_scripts.specs.declared.script.TheConstants.{MAX_FILES};
ghost use Rattle.hot_scripts.specs.Parses.{script_commands};
ghost use Rattle.script_runs.specs.Progress.{AllThree, AreAt, AreAsManyAsHandles, HasAnsweredLast, HasRunItsOrder, HaveAnswered, IsDone, IsOrderOf, MeetInTurn};
ghost use Rattle.script_runs.specs.Scripts.{AreAllAnswered};

use crate::answer::{Done, make_sections};
use crate::callers::Waits;
use crate::engine::run_script;
use crate::indexes::{Records, create_index_for_files};
use core::mem::replace_with;
use hot_index::{Gate, Handle, Index, NoGate, handles_of};
use hot_scripts::script::Script;
use std::alloc::{AllocError, Global};
use std::snapshot::Snapshot;
use std::sync::Wait;
use std::thread::{Promise, PromisedHandle, Scope, Threads, scope, scope_env};

/// The answers to all scripts, and what became of the gates of files.
#[derive(Drop)]
pub struct Results<G> {
    /// Texts that follow one another: each script's answers below its heading.
    pub texts: Vec<Vec<u8>>,
    /// The gate of each file's script, which was told its steps.
    pub gates: Vec<G>,
}

/// A thread that runs a script and returns what has run with its gate, or an error if memory is refused. It promises to run its `Order`.
type Running<'a, G> = PromisedHandle<Result<(Done<'a>, G), AllocError>, Order<'a, G>>;

/// What a thread is to run, for contracts alone.
#[derive(Drop)]
struct Order<'a, G> {
    handle: Snapshot<Handle<&'a Index>>,
    script: Snapshot<Script>,
    gate: Snapshot<G>,
}

impl<'a, G: Gate> Promise<Result<(Done<'a>, G), AllocError>> for Order<'a, G> {
    ghost use Rattle.std.specs.Prelude.{IfOk};
    ghost use Rattle.script_runs.specs.Progress.{HasRunItsOrder};

    ghost kept_by = { λ order result. IfOk result (HasRunItsOrder G.becomes order) };
}

/// Makes an index of `records`, with one node record more for removals, and runs scripts on it. The scripts of files, `scripts`,
/// `MAX_FILES` at most, run at the same time, each in a thread with the gate of its number. `last` runs when they have ended. Returns all
/// answers, which are lawful, and the gates in the order of `scripts`. There must be a gate for each of these. Each gate was told the steps
/// of its script's commands. `AllocError` if memory is refused, or a thread can't be started.
pub fn run_all_scripts<T: AllocGlobal + Threads + Wait + Sync, G: Gate + Send + Drop>(
    rt: &T,
    records: Records,
    scripts: &[Script],
    gates: Vec<G>,
    last: &Script,
) -> Result<Results<G>, AllocError>
    requires few { length scripts.now ≤ MAX_FILES }
    requires gates { length gates.items ≡ length scripts.now }
    ensures each { IfOk result (λ results. length results.gates.items ≡ length gates.items) }
    ensures answered { IfOk result (λ results. AreAllAnswered records.nodes records.leaves G.becomes (zip gates.items results.gates.items)
        (map script_commands scripts.now) (script_commands last.now) (flat_map (λ t. t.items) results.texts.items)) }
{
    let (index, passes, pass) = create_index_for_files(rt.alloc(), scripts.len() as u32, records)?;
    let handles = handles_of(rt.alloc(), &index, passes)?;
    let ran = run_files(rt, handles, scripts, gates)?;
    end_run(rt, Handle::new(&index, pass), ran, last)
}

/// Lets the pass of `handle` meet the passes of the scripts of `ran`, which must have run at the same index, `MAX_FILES` at most. Then it
/// runs `last` by the pass of `handle`, and lets this pass meet the others again. Returns all answers, and the gates in the order of `ran`.
/// `AllocError` if memory is refused.
fn end_run<'a, T: AllocGlobal + Wait, G: Gate + Drop>(
    rt: &T,
    handle: Handle<&'a Index>,
    ran: Vec<(Done<'a>, G)>,
    last: &Script,
) -> Result<Results<G>, AllocError>
    requires index { AreAt handle.index handle (map (λ r. r.0) ran.items) }
    requires few { length ran.items ≤ MAX_FILES }
    ensures { IfOk result (HaveAnswered ran.entry.items (script_commands last.now) handle.entry) }
{
    let (mut done, gates) = split_gates(rt.alloc(), ran)?;
    let met: &mut [Done] = &mut done;
    let handle = meet_all_passes(handle, met);
    let texts = run_last_script(rt, handle, met, last)?;
    Ok(Results { texts, gates })
}

/// Returns the scripts of `ran`, and their gates, each in the order of `ran`; `AllocError` if memory is refused.
fn split_gates<'a, G: Drop>(
    alloc: Global,
    ran: Vec<(Done<'a>, G)>,
) -> Result<(Vec<Done<'a>>, Vec<G>), AllocError>
    ensures scripts { IfOk result (λ parts. parts.0.items ≡ map (λ r. r.0) ran.entry.items) }
    ensures gates { IfOk result (λ parts. parts.1.items ≡ map (λ r. r.1) ran.entry.items) }
{
    let mut scripts = Vec::new(alloc);
    let mut gates = Vec::new(alloc);
    for (script, gate) in ran {
        scripts.push(script)?;
        gates.push(gate)?;
    }
    Ok((scripts, gates))
}

/// Runs `last`, the last script, through `handle`. Then the pass of `handle` meets the passes of `met`, which must be at the same index,
/// `MAX_FILES` at most. Returns the answers to all scripts, as texts that follow one another. `AllocError` if memory is refused.
fn run_last_script<'a, T: AllocGlobal + Wait>(
    rt: &T,
    handle: Handle<&'a Index>,
    met: &mut [Done<'a>],
    last: &Script,
) -> Result<Vec<Vec<u8>>, AllocError>
    requires index { AreAt handle.index handle met.old }
    requires few { length met.old ≤ MAX_FILES }
    ensures { IfOk result (λ texts. HasAnsweredLast handle.entry met.old (script_commands last.now) (flat_map (λ t. t.items) texts.items)) }
{
    // The handle is opened: its pass belongs to its index.
    let _pass = &handle.pass;
    let (done, _gate) = run_file(rt, handle, last, NoGate)?;
    meet_all_passes(done.handle, met);
    make_sections(rt.alloc(), met, done.text)
}

/// Runs each of `scripts` in a thread with the handle and the gate of its number, all at the same time, and joins the threads. There must
/// be as many handles and gates as scripts. Returns each script that has run beside its gate, in the order of `scripts`. `AllocError` if
/// memory is refused, or a thread can't be started.
fn run_files<'a, T: AllocGlobal + Threads + Wait + Sync, G: Gate + Send + Drop>(
    rt: &T,
    handles: Vec<Handle<&'a Index>>,
    scripts: &[Script],
    gates: Vec<G>,
) -> Result<Vec<(Done<'a>, G)>, AllocError>
    requires ready { AreAsManyAsHandles handles.items scripts.now gates.items }
    ensures { IfOk result (λ done. AllThree (IsDone G.becomes) (zip handles.entry.items gates.items) (map script_commands scripts.now) done.items) }
{
    scope(
        scope_env(),
        rt,
        |threads| -> Result<Vec<(Done, G)>, AllocError>
            requires { AreAsManyAsHandles handles.items scripts.now gates.items }
            ensures { IfOk result (λ done. AllThree (IsDone G.becomes) (zip handles.entry.items gates.items) (map script_commands scripts.entry.now) done.items) }
        { run_files_in_scope(threads, rt, handles, scripts, gates) },
    )
}

/// Runs each of `scripts` in a thread of the scope `threads`, which waits for its threads. Each has the handle and the gate of its number,
/// as in `run_files`, and there must be as many of each. Returns each script that has run beside its gate, in order. `AllocError` if memory
/// is refused, or a thread can't be started.
fn run_files_in_scope<'a: 's, 's, E, T, G>(
    threads: &Scope<'s, E>,
    rt: &'s T,
    handles: Vec<Handle<&'a Index>>,
    scripts: &'s [Script],
    gates: Vec<G>,
) -> Result<Vec<(Done<'a>, G)>, AllocError>
where
    T: AllocGlobal + Threads + Wait + Sync + 's,
    G: Gate + Send + Drop + 's,
    requires { AreAsManyAsHandles handles.items scripts.now gates.items }
    ensures { IfOk result (λ done. AllThree (IsDone G.becomes) (zip handles.entry.items gates.items) (map script_commands scripts.entry.now) done.items) }
{
    let running = start_files(threads, rt, handles, scripts, gates)?;
    join_files(rt, running)
}

/// Starts a thread for each of `scripts`, with the handle and the gate of its number. There must be as many handles and gates as scripts.
/// Returns the threads in the order of `scripts`. `AllocError` if memory is refused, or a thread can't be started; those that were started
/// go on, and the scope waits for them.
fn start_files<'a: 's, 's, E, T, G>(
    threads: &Scope<'s, E>,
    rt: &'s T,
    handles: Vec<Handle<&'a Index>>,
    scripts: &'s [Script],
    gates: Vec<G>,
) -> Result<Vec<Running<'a, G>>, AllocError>
where
    T: AllocGlobal + Threads + Wait + Sync + 's,
    G: Gate + Send + Drop + 's,
    requires { AreAsManyAsHandles handles.items scripts.now gates.items }
    ensures { IfOk result (λ running. AllThree IsOrderOf (zip handles.entry.items gates.items) (map script_commands scripts.entry.now)
        (map (λ t. t.promise) running.items)) }
{
    let mut scripts = scripts.iter();
    let mut gates = gates.into_iter();
    let mut running = Vec::new(rt.alloc());
    // There are as many scripts and gates as handles.
    for handle in handles {
        let Some(script) = scripts.next() else {
            unreachable!();
        };
        let Some(gate) = gates.next() else {
            unreachable!();
        };
        running.push(start_file(threads, rt, handle, script, gate)?)?;
    }
    Ok(running)
}

/// Joins the threads `running`, one after another. Returns the script that each has run, as its `Order` asks, beside the gate, in the order
/// of the threads. `AllocError` if memory is refused, here or in a thread.
fn join_files<'a, T: AllocGlobal + Threads + Wait, G: Gate + Drop>(
    rt: &T,
    running: Vec<Running<'a, G>>,
) -> Result<Vec<(Done<'a>, G)>, AllocError>
    ensures { IfOk result (λ done. AllZip (HasRunItsOrder G.becomes) (map (λ t. t.promise) running.entry.items) done.items) }
{
    let mut done = Vec::new(rt.alloc());
    for thread in running {
        done.push(thread.join(rt)?)?;
    }
    Ok(done)
}

/// Starts a thread that runs `script` by `handle`, and returns the thread, whose promise is an `Order` of just these. `gate` is told each
/// step of the script's calls. `AllocError` if the thread can't be started.
fn start_file<'a: 's, 's, E, T, G>(
    threads: &Scope<'s, E>,
    rt: &'s T,
    handle: Handle<&'a Index>,
    script: &'s Script,
    gate: G,
) -> Result<Running<'a, G>, AllocError>
where
    T: AllocGlobal + Threads + Wait + Sync + 's,
    G: Gate + Send + Drop + 's,
    ensures { IfOk result (λ thread. IsOrderOf (handle.entry, gate) (script_commands script.entry.now) thread.promise) }
{
    let order = Order {
        handle: Snapshot::of(&handle),
        script: Snapshot::of(script),
        gate: Snapshot::of(&gate),
    };
    let thread = threads.spawn_with(
        order,
        move || -> Result<(Done, G), AllocError>
            ensures { IfOk result (IsDone G.becomes (handle.entry, gate) (script_commands script.entry.now)) }
        { run_file(rt, handle, script, gate) },
    )?;
    Ok(thread)
}

/// Runs `script` by `handle`, and waits where another pass is in its way or records may come back. `gate` is told each step. Returns the
/// handle, at the same index, with the answers, and the gate. `AllocError` if memory is refused.
fn run_file<'a, T: AllocGlobal + Wait, G: Gate + Drop>(
    rt: &T,
    handle: Handle<&'a Index>,
    script: &Script,
    gate: G,
) -> Result<(Done<'a>, G), AllocError>
    ensures { IfOk result (IsDone G.becomes (handle.entry, gate) (script_commands script.now)) }
{
    let mut handle = handle;
    let mut gate = gate;
    match run_script(&Waits { rt }, rt.alloc(), &mut handle, script, &mut gate) {
        Ok(text) => Ok((Done { handle, text }, gate)),
        Err(refused) => Err(refused),
    }
}

/// Lets the pass of `handle` meet the pass of each script of `done`, in order, as `Handle::meet` does; all must be at one index. So each of
/// these sees what the pass of `handle` and those before had seen. Their answers stay. Returns the handle, at the same index.
fn meet_all_passes<'a>(handle: Handle<&'a Index>, done: &mut [Done<'a>]) -> Handle<&'a Index>
    requires { AreAt handle.index handle done.old }
    ensures index { AreAt handle.entry.index result done.new }
    ensures met { MeetInTurn handle.entry.index handle.entry.pass done.old result.pass done.new }
{
    let mut last = handle;
    for script in done.iter_mut() {
        last = meet_script(last, script);
    }
    last
}

/// Lets the pass of `handle` meet the pass of `done`, a script that must have run at the same index. The script's answers stay, and both
/// handles stay at their index. Returns the handle.
fn meet_script<'a>(handle: Handle<&'a Index>, done: &mut Done<'a>) -> Handle<&'a Index>
    requires { done.old.handle.index ≡ handle.index }
    ensures index { (result.index ≡ handle.entry.index) × (done.new.handle.index ≡ handle.entry.index) }
    ensures met { HaveMet handle.entry.index.layout handle.entry.pass done.old.handle.pass result.pass done.new.handle.pass }
    ensures text { done.new.text ≡ done.old.text }
{
    replace_with(
        &mut done.handle,
        handle,
        |other: Handle<&Index>, last: Handle<&Index>| -> (Handle<&Index>, Handle<&Index>)
            requires { other.index ≡ last.index }
            ensures index { (result.0.index ≡ last.entry.index) × (result.1.index ≡ last.entry.index) }
            ensures met { HaveMet last.entry.index.layout last.entry.pass other.entry.pass result.1.pass result.0.pass }
        {
            let (last, other) = last.meet(other);
            (other, last)
        },
    )
}
