//! Room for one leaf more, and for the nodes that it may need.

ghost use Rattle.std.specs.Prelude.{◌≡◌, ◌⊎◌, ◌+◌, ◌^◌, ◌<◌, ◌≤◌, IfOk, OnOk, OnErr};
ghost use Rattle.std.specs.Vec.{vec_len, vec_capacity};

use crate::leaf::LeafRecord;
use compound_node::Node;
use std::alloc::AllocError;

/// A vector has at most this many records, so that a number of 32 bits names each.
const MAX_RECORDS: usize = 4_294_967_296;

/// Makes room for one leaf more and for `count` nodes, at most 65,536. Returns the leaf's number, which is that behind all others.
/// `AllocError` if numbers of 32 bits don't suffice, or a vector has to grow and memory is refused. All records stay in any case, and no
/// vector has less room. After an error the vector of nodes has just the room that it had.
pub fn make_room(
    nodes: &mut Vec<Node>,
    leaves: &mut Vec<LeafRecord>,
    count: usize,
) -> Result<u32, AllocError>
    requires { count ≤ 65536 }
    ensures number { IfOk result (λ number. number ≡ vec_len leaves.old) }
    ensures nodes { OnOk result (vec_len nodes.new + count ≤ vec_capacity nodes.new) }
    ensures small { OnOk result (vec_len nodes.new + count ≤ 2 ^ 32) }
    ensures leaves { OnOk result (vec_len leaves.new < vec_capacity leaves.new) }
    ensures refused { OnErr result ((2 ^ 32 ≤ vec_len leaves.old) ⊎ (2 ^ 32 < vec_len nodes.old + count) ⊎ (vec_capacity leaves.old ≤ vec_len leaves.old) ⊎
        (vec_capacity nodes.old < vec_len nodes.old + count)) }
    ensures same_nodes { nodes.new.items ≡ nodes.old.items }
    ensures same_leaves { leaves.new.items ≡ leaves.old.items }
    ensures node_room { vec_capacity nodes.old ≤ vec_capacity nodes.new }
    ensures leaf_room { vec_capacity leaves.old ≤ vec_capacity leaves.new }
    ensures err { OnErr result (vec_capacity nodes.new ≡ vec_capacity nodes.old) }
{
    let number = leaves.len();
    if number >= MAX_RECORDS || nodes.len() > MAX_RECORDS - count {
        return Err(AllocError);
    }
    leaves.reserve(1)?;
    nodes.reserve(count)?;
    Ok(number as u32)
}
