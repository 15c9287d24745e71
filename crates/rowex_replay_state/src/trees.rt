//! The tree that words show from a root entry.

ghost use Rattle.std.specs.Prelude.{IfOk, ◌≡◌, replicate, false};
ghost use Rattle.rowex_replay_state.specs.Versions.{IsToldVersion};

use crate::linked::Linked;
use crate::parts::{RecordedWords, read_entry};
use compound_node::Entry;
use record_words::{LEAF_FIELDS, NODE_FIELDS};
use std::alloc::{AllocError, Global};

/// Returns the leaves of the tree that begins at the entry `root`, in key order, and for each record whether the tree links it. For a
/// `root` of `None` there is no leaf, and no record is linked. `nodes` and `leaves` are the words of the table's records, each from offset
/// 1 on. The result is `None` if these show no lawful tree there. It is `None`, too, if the tree links a record that the table hasn't, or
/// whose words are those of no node or leaf. `AllocError` if memory is refused. The time is linear in the table's records and the tree.
pub fn read_tree(
    alloc: Global,
    nodes: &[[u64; NODE_FIELDS]],
    leaves: &[[u64; LEAF_FIELDS]],
    root: Option<Entry>,
) -> Result<Option<Linked>, AllocError>
    ensures { IfOk result (λ linked. IsToldVersion (record { nodes = nodes.now; leaves = leaves.now }) root linked) }
{
    let mut linked = Linked {
        items: Vec::new(alloc),
        nodes: make_unset_marks(alloc, nodes.len())?,
        leaves: make_unset_marks(alloc, leaves.len())?,
    };
    if let Some(entry) = root {
        if !read_entry(RecordedWords { nodes, leaves }, 0, entry, &mut linked)? {
            return Ok(None);
        }
    }
    Ok(Some(linked))
}

/// Returns a list of `count` marks, all `false`; `AllocError` if memory is refused.
fn make_unset_marks(alloc: Global, count: usize) -> Result<Vec<bool>, AllocError>
    ensures { IfOk result (λ marks. marks.items ≡ replicate count false) }
{
    let mut marks = Vec::new(alloc);
    for _ in 0..count {
        marks.push(false)?;
    }
    Ok(marks)
}
