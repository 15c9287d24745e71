//! Two scripts in files, which really run at the same time: the gate of each waits until the other's is told a step.

ghost use Rattle.std.specs.Prelude.{◌≡◌, IfOk, length};

use crate::scripts::run_scripts_with;
use hot_index::{Event, Gate};
use std::alloc::{AllocError, Global};
use std::sync::atomic::{AtomicBool, Ordering};
use std::test::*;
use std::thread;

/// How often a gate looks before it gives up.
const MAX_LOOKS: u32 = 100_000_000;

/// A gate that sets its own flag at its first step, and waits there for the other's, `MAX_LOOKS` looks at most.
#[derive(Drop)]
struct Waiting<'a> {
    own: &'a AtomicBool,
    other: &'a AtomicBool,
    /// Whether it has seen the other's flag.
    has_seen: bool,
    /// How many steps it was told, as far as they can be counted.
    steps: u32,
}

impl Gate for Waiting<'_> {
    ghost becomes = { λ _ _ _. Unit {0} };

    /// Counts the step. At the first one it sets its own flag and waits for the other's, at most `MAX_LOOKS` looks.
    fn at(&mut self, _event: &Event) {
        self.steps = self.steps.saturating_add(1);
        if self.own.swap(true, Ordering::SeqCst) {
            return;
        }
        for _ in 0..MAX_LOOKS {
            if self.other.load(Ordering::SeqCst) {
                self.has_seen = true;
                return;
            }
            thread::yield_now();
        }
    }
}

/// Returns the bytes of two scripts, each with one insertion, of different keys; `AllocError` if memory is refused.
fn two_scripts(alloc: Global) -> Result<Vec<Vec<u8>>, AllocError>
    ensures { IfOk result (λ files. length files.items ≡ 2) }
{
    let mut files = Vec::new(alloc);
    files.push(Vec::from_slice(alloc, b"insert 61 1")?)?;
    files.push(Vec::from_slice(alloc, b"insert 62 2")?)?;
    Ok(files)
}

/// Returns the gate that sets the flag `own` at its first step and waits for the flag `other`.
fn make_gate<'a>(own: &'a AtomicBool, other: &'a AtomicBool) -> Waiting<'a> {
    Waiting {
        own,
        other,
        has_seen: false,
        steps: 0,
    }
}

/// Returns the gates of two files, with the flags `first` and `second`; each waits for the other's. `AllocError` if memory is refused.
fn make_gates<'a>(
    alloc: Global,
    first: &'a AtomicBool,
    second: &'a AtomicBool,
) -> Result<Vec<Waiting<'a>>, AllocError>
    ensures { IfOk result (λ gates. length gates.items ≡ 2) }
{
    let mut gates = Vec::new(alloc);
    gates.push(make_gate(first, second))?;
    gates.push(make_gate(second, first))?;
    Ok(gates)
}

// If the scripts of files ran one after another, the first one's gate would give up before it saw the other's flag. A gate that was told
// its first step alone would count one. The text is that of one insertion in each file, in the order of the files, and of an empty last
// script.
#[test]
fn gates_wait_for_each_other(rt: HostRuntime) {
    let (first, second) = (AtomicBool::new(false), AtomicBool::new(false));
    let (Ok(files), Ok(gates)) = (
        two_scripts(rt.alloc()),
        make_gates(rt.alloc(), &first, &second),
    ) else {
        panic!(rt; "no memory")
    };
    let mut text = Vec::new(rt.alloc());
    let mut last: &[u8] = b"";
    let Ok(gates) = run_scripts_with(&rt, 16, 128, files, gates, &mut last, &mut text) else {
        panic!(rt; "no answers")
    };
    assert!(rt; gates[0].has_seen && gates[1].has_seen);
    assert!(rt; gates[0].steps > 1 && gates[1].steps > 1);
    assert!(rt; text.as_slice() == b"file 1\ninserted\nfile 2\ninserted\nlast\n".as_slice());
}
