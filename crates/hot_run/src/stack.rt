//! The stack that the program needs: with less it would end by a signal.

ghost use Rattle.std.specs.Prelude.{◌<◌, IfSome};
ghost use Rattle.hot_run.specs.declared.stack.TheConstants.{LEAST_STACK};

use std::fs::File;
use std::io::Read;
use std::rt::Files;

/// How many KiB of stack the program needs. The threads of FILEs have as much each.
pub const LEAST_STACK: u64 = 256;

/// Returns the limit of the program's stack in KiB, if the system tells one that is below `LEAST_STACK`; else `None`. It asks for no
/// memory, so it can't fail for want of any.
pub fn too_low_limit<R: Files>(rt: &R) -> Option<u64>
    ensures low { IfSome result (λ limit. limit < LEAST_STACK) }
{
    let mut places = [0; 2_048];
    let mut file = File::open(rt, "/proc/self/limits").ok()?;
    let count = file.read(&mut places).ok()?;
    let limits = str::from_utf8(places.get(..count)?).ok()?;
    let limit = stack_limit(limits)?;
    (limit < LEAST_STACK).then_some(limit)
}

/// Returns the limit of the stack, in KiB, that stands in `limits`, the table of a process's limits; `None` if no number stands there, as
/// where there is no limit.
fn stack_limit(limits: &str) -> Option<u64> {
    let (_, rest) = limits.split_once("Max stack size")?;
    let bytes = rest.split_whitespace().next()?.parse::<u64>().ok()?;
    Some(bytes / 1_024)
}
