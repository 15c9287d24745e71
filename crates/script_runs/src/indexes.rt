//! The index of a run, and its passes.

ghost use Rattle.std.specs.Prelude.{◌≡◌, ◌+◌, ◌<◌, ◌≤◌, ℕ, IfOk, length};
ghost use Rattle.key_bits.specs.declared.TheConstants.{MAX_BYTES};
ghost use Rattle.record_words.specs.declared.layout.Layout.{Layout};
ghost use Rattle.record_words.specs.Layout.{HasStock, leaf_size, leaves_of};
ghost use Rattle.record_words.specs.Leaf.{words_for};
ghost use Rattle.record_words.specs.Limits.{IsLeafCount, IsNodeCount};
ghost use Rattle.hot_index.specs.Kept.{kept_stock};
ghost use Rattle.hot_scripts.specs.declared.script.TheConstants.{MAX_FILES};
ghost use Rattle.hot_scripts.specs.Parses.{script_commands};
ghost use Rattle.script_runs.specs.Progress.{IsNewPassOf};
ghost use Rattle.script_runs.specs.Scripts.{AllFrom};
ghost use Rattle.script_runs.specs.Told.{IsOfSize, IsSizedFor};

use hot_index::{Index, IndexFault, Pass, Stock, create, create_with};
use hot_scripts::script::Script;
use record_words::LeafClass;
use std::alloc::{AllocError, Global};

/// How many records an index has.
#[derive(Clone, Copy)]
pub struct Records {
    /// Node records: 1 to 65,535.
    pub nodes: u32,
    /// Leaf records: 1 to 262,143.
    pub leaves: u32,
    ghost nodes_fit: { IsNodeCount nodes },
    ghost leaves_fit: { IsLeafCount leaves },
}

/// Returns an empty index for `script`, of `records` and one node record more for removals. With it comes its only pass, which is new.
/// `AllocError` if memory is refused. All leaf records are of the smallest class with room for the keys of the script's calls. So they are
/// close together, and a scan takes less time.
pub fn create_index_for_script(
    alloc: Global,
    records: Records,
    script: &Script,
) -> Result<(Index, Pass), AllocError>
    ensures sized { IfOk result (λ made. IsSizedFor (script_commands script.now) 1 records.nodes records.leaves made.0) }
    ensures pass { IfOk result (λ made. IsNewPassOf made.0 0 made.1) }
{
    let stock = choose_stock(records, script.longest_key_length());
    let (index, mut passes) = match create_with(alloc, 1, stock) {
        Ok(made) => made,
        Err(IndexFault::Memory) => return Err(AllocError),
        Err(IndexFault::Layout(_)) => unreachable!(),
    };
    match passes.pop() {
        Some(pass) => Ok((index, pass)),
        None => unreachable!(),
    }
}

/// Returns a stock of `records`. Its leaf records are all of the smallest class with room for keys of `longest` bytes, or of `MAX_BYTES` if
/// `longest` is more.
fn choose_stock(records: Records, longest: usize) -> Stock
    ensures nodes { result.nodes ≡ records.nodes }
    ensures leaves { leaves_of result ≡ records.leaves }
    ensures room { (layout : Layout) (leaf bytes : ℕ) → HasStock layout (kept_stock result) → leaf < layout.leaves →
        bytes ≤ longest → bytes ≤ MAX_BYTES → words_for bytes ≤ leaf_size layout leaf }
{
    Stock::of_class(records.nodes, LeafClass::for_key(longest), records.leaves)
}

/// Returns an empty index of `records`, with one node record more for removals. With it come the passes for `files` files, which must be
/// `MAX_FILES` at most, and the pass of the last script. The passes are new, and have the numbers from 0 on, in this order. All leaf
/// records are long, so they have room for any key. `AllocError` if memory is refused.
pub fn create_index_for_files(
    alloc: Global,
    files: u32,
    records: Records,
) -> Result<(Index, Vec<Pass>, Pass), AllocError>
    requires files { files ≤ MAX_FILES }
    ensures sized { IfOk result (λ made. IsOfSize (files + 1) records.nodes records.leaves made.0) }
    ensures count { IfOk result (λ made. length made.1.items ≡ files) }
    ensures each { IfOk result (λ made. AllFrom 0 (IsNewPassOf made.0) made.1.items) }
    ensures last { IfOk result (λ made. IsNewPassOf made.0 files made.2) }
{
    let (index, mut passes) = match create(alloc, files + 1, records.nodes, records.leaves) {
        Ok(made) => made,
        Err(IndexFault::Memory) => return Err(AllocError),
        Err(IndexFault::Layout(_)) => unreachable!(),
    };
    match passes.pop() {
        Some(last) => Ok((index, passes, last)),
        None => unreachable!(),
    }
}
