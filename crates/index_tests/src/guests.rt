//! Passes at their index.

ghost use Rattle.std.specs.Prelude.{IfOk, All};
ghost use Rattle.hot_index_calls.specs.Passes.{Owns};

use crate::cases::{Task, bad_line};
use hot_index::{Gate, Handle, Index, Pairs, Pass, Reply, Scan, TryFault, create};
use key_bits::Key;
use std::alloc::{AllocError, Global};
use std::io;

/// Returns a new index with `passes` passes, `nodes` node records and `leaves` leaf records, and its passes. `bad_line` if a number is out
/// of range, or memory is refused.
pub fn create_index(
    alloc: Global,
    passes: u32,
    nodes: u32,
    leaves: u32,
) -> io::Result<(Index, Vec<Pass>)>
    ensures { IfOk result (λ made. All (Owns made.0) made.1.items) }
{
    match create(alloc, passes, nodes, leaves) {
        Ok(made) => Ok(made),
        Err(_) => Err(bad_line()),
    }
}

/// A pass at its index.
pub type Guest<'a> = Handle<&'a Index>;

/// Takes the last of `passes`, those of `index` that are left, as a guest there. `bad_line` if none is left.
pub fn pop_guest<'a>(index: &'a Index, passes: &mut Vec<Pass>) -> io::Result<Guest<'a>>
    requires { All (Owns index.now) passes.old.items }
    ensures { All (Owns index.now) passes.new.items }
{
    match passes.pop() {
        Some(pass) => Ok(Handle::new(index, pass)),
        None => Err(bad_line()),
    }
}

/// Does `tasks` by `guest`, calls without waiting. `gate` is told each step. What each was answered goes to `said`, behind a semicolon.
/// `AllocError` if memory is refused.
pub fn do_tasks<G: Gate>(
    guest: &mut Guest,
    tasks: &[Task],
    gate: &mut G,
    said: &mut String,
) -> Result<(), AllocError> {
    for task in tasks.iter() {
        write!(said, "; ")?;
        match task {
            Task::Make(call) => {
                write_reply(said, guest.index.try_call_with(&mut guest.pass, call, gate))?;
            }
            Task::Scan(limit) => {
                let scan = scan_from_lowest(guest, *said.allocator(), *limit, gate)?;
                write_scan(said, &scan)?;
            }
            Task::ScanReverse(limit) => {
                let scan = scan_from_highest(guest, *said.allocator(), *limit, gate)?;
                write_scan(said, &scan)?;
            }
            Task::Collect => {
                let given = guest.index.collect_with(&mut guest.pass, gate);
                write!(said, "given {} {}", given.nodes, given.leaves)?;
            }
        }
    }
    Ok(())
}

/// Scans for the first `limit` pairs of the index, in rising order. `gate` is told each step. `AllocError` if memory is refused.
pub fn scan_from_lowest<G: Gate>(
    guest: &mut Guest,
    alloc: Global,
    limit: usize,
    gate: &mut G,
) -> Result<Scan, AllocError> {
    let (index, pass) = (guest.index, &mut guest.pass);
    index.scan_with(alloc, pass, &lowest_key(), &highest_key(), limit, gate)
}

/// Scans for the last `limit` pairs of the index, in falling order. `gate` is told each step. `AllocError` if memory is refused.
pub fn scan_from_highest<G: Gate>(
    guest: &mut Guest,
    alloc: Global,
    limit: usize,
    gate: &mut G,
) -> Result<Scan, AllocError> {
    let (index, pass) = (guest.index, &mut guest.pass);
    let mut list = Pairs::new(alloc);
    let more = index.scan_reverse_into_with(
        pass,
        &lowest_key(),
        &highest_key(),
        limit,
        &mut list,
        gate,
    )?;
    let pairs = list.to_vec(alloc)?;
    Ok(Scan { pairs, more })
}

/// Returns the key of no bytes, below which there is none.
pub fn lowest_key() -> Key {
    Key::from_padded([0; 240], 0)
}

/// Returns the key of 240 bytes 255, above which there is none.
fn highest_key() -> Key {
    match Key::from_bytes(&[255; 240]) {
        Ok(key) => key,
        Err(_) => lowest_key(),
    }
}

/// Adds the values of the pairs that `scan` listed, and whether there are more, to the end of `said`. `AllocError` if memory is refused.
fn write_scan(said: &mut String, scan: &Scan) -> Result<(), AllocError> {
    for (_, value) in scan.pairs.iter() {
        write!(said, "{value} ")?;
    }
    said.push_str(if scan.more { "and more" } else { "listed" })
}

/// Adds the words for `told`, a reply with its value or a refusal, to the end of `said`. `AllocError` if memory is refused.
fn write_reply(said: &mut String, told: Result<Reply, TryFault>) -> Result<(), AllocError> {
    match told {
        Ok(Reply::Inserted) => said.push_str("inserted"),
        Ok(Reply::Exists(value)) => write!(said, "exists {value}"),
        Ok(Reply::New) => said.push_str("new"),
        Ok(Reply::Was(value)) => write!(said, "was {value}"),
        Ok(Reply::Exchanged) => said.push_str("exchanged"),
        Ok(Reply::Differs(value)) => write!(said, "differs {value}"),
        Ok(Reply::Value(value)) => write!(said, "value {value}"),
        Ok(Reply::Absent) => said.push_str("none"),
        Ok(Reply::Removed(value)) => write!(said, "removed {value}"),
        Err(TryFault::Busy) => said.push_str("busy"),
        Err(TryFault::FullNodes) => said.push_str("full nodes"),
        Err(TryFault::FullLeaves) => said.push_str("full leaves"),
    }
}
