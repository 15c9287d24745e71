//! What a call is to do, from the way of its search: which nodes it remakes, and what it puts there.

ghost use Rattle.std.specs.Prelude.{◌≡◌, ◌+◌, ◌-◌, ◌<◌, ◌≤◌, ℕ, Some, length, slice_get};
ghost use Rattle.insert_cases.specs.declared.choice.PathNode.{PathNode as PathNodeView};
ghost use Rattle.rowex_writing.specs.plan.Plans.{change as a_change, IsOutline, IsBeside, IsBesideFound, LiesOnWay, removal_deed};
ghost use Rattle.rowex_reading.specs.Possible.{IsPossible};
ghost use Rattle.rowex_reading.specs.Reads.{ReadsSome};
ghost use Rattle.rowex_table.specs.Seats.{IsSeatOf};
ghost use Rattle.tries.specs.Keys.{Key as KeyValue};
ghost use Rattle.rowex_writing.specs.plan.Planned.{IsPlanned};
ghost use Rattle.rowex_reading.specs.Ways.{IsWayOf};
ghost use Rattle.record_words.specs.declared.TheConstants.{HEAD_WORDS};

pub mod asking;
pub mod job;

use finite_map::Reply;
use insert_cases::{Case, PathNode, choose_case, last_level_before, pull_up_chain_end};
use record_words::MAX_ENTRIES;
use rowex_core::Gate;
use rowex_reading::{Found, find_affected};
use rowex_table::{HotTable, TableSeat};
use thiserror::Error;

/// What a call aims at, once its key is known to have the value that it expects, if it expects one.
#[derive(Clone, Copy)]
pub(crate) enum Aim {
    /// The key is to get the value, if it is absent.
    Insert,
    /// The key is to get the value, whatever it has.
    Upsert,
    /// The key is to be absent.
    Remove,
}

/// The nodes of the way that get others in their place: those from index `end` on, before `len`, or none. The topmost of the others is
/// named in the node at `end - 1`, in the slot that the search took there. If `end` is 0, it is named at the root.
#[derive(Clone, Copy)]
pub(crate) struct Span {
    pub len: usize,
    pub end: usize,
}

impl Span {
    /// Returns the index on the way of the topmost locked node: the one above the span. If the span goes up to the root, the result is 0,
    /// and the anchor is locked above. Then the topmost locked node is the span's own, if it has one.
    pub(crate) fn first_locked(self) -> usize
        ensures { result ≡ self.end - 1 }
    {
        self.end.saturating_sub(1)
    }
}

/// What is done at the lower end of a span.
#[derive(Clone, Copy)]
pub(crate) enum Deed {
    /// The new leaf is all of the tree: the root was empty.
    Put,
    /// The leaf that has the key gets another value.
    Value,
    /// A node of the leaf that stands there and the new one, with a fork at `position`, takes its place.
    PushDown { position: u16 },
    /// The lowest node gets the new leaf, beside the entries that `position` affects.
    Grow { position: u16 },
    /// The lowest node loses the leaf. It has one above it, and may become one node with its sibling.
    Take,
    /// The only node of the way loses the leaf.
    TakeTop,
    /// The root loses its only leaf.
    Empty,
}

/// What a call does.
#[derive(Clone, Copy)]
pub(crate) enum Plan {
    /// It returns this reply, and changes nothing.
    Answer(Reply),
    /// It makes this change.
    Change { span: Span, deed: Deed },
}

/// The kind of record of which none was free.
#[derive(Clone, Copy, Debug, PartialEq, Eq, Error)]
pub enum Full {
    /// Each node record was found not free.
    #[error("no node record is free")]
    Nodes,
    /// Each leaf record with room for the key was found not free.
    #[error("no leaf record is free")]
    Leaves,
}

/// What a call does, as far as the way and the search's end tell it.
#[derive(Clone, Copy)]
pub(crate) enum Outline {
    /// All is told.
    Known(Plan),
    /// The new leaf goes beside the entries that `position` affects in the node at index `level` of the way. With these entries
    /// [`plan_beside_entries`] tells the rest.
    Beside { position: u16, level: usize },
}

/// Returns the plan of a call with the aim `aim`, as far as the way and the end of its search tell the plan. The search went through `way`
/// and ended at `found`. These two tell all of the plan, unless a new leaf goes beside entries of a node that names other nodes.
pub(crate) fn plan_call(way: &[PathNode], aim: Aim, found: Found) -> Outline
    ensures { IsOutline way.now aim found result }
{
    match found {
        Found::Nothing => match aim {
            Aim::Remove => Outline::Known(Plan::Answer(Reply::Absent)),
            _ => Outline::Known(change_plan(0, 0, Deed::Put)),
        },
        Found::Leaf {
            mismatch: Some(position),
            ..
        } => match aim {
            Aim::Remove => Outline::Known(Plan::Answer(Reply::Absent)),
            _ => plan_new_leaf(way, position),
        },
        Found::Leaf {
            value,
            mismatch: None,
            ..
        } => match aim {
            Aim::Insert => Outline::Known(Plan::Answer(Reply::Exists(value))),
            Aim::Upsert => Outline::Known(change_plan(way.len(), way.len(), Deed::Value)),
            Aim::Remove => Outline::Known(plan_removal(way)),
        },
    }
}

/// Returns the plan of a removal, when its search went through `way` and found the key. The last node of `way` is remade without the leaf;
/// the root is emptied if there is none.
fn plan_removal(way: &[PathNode]) -> Plan
    ensures { result ≡ a_change (length way.now) (length way.now - 1) (removal_deed way.now) }
{
    let len = way.len();
    if len == 0 {
        return change_plan(0, 0, Deed::Empty);
    }
    if len == 1 {
        return change_plan(1, 0, Deed::TakeTop);
    }
    change_plan(len, len - 1, Deed::Take)
}

/// Returns the plan of a call with a new leaf, as far as `way` tells it. At `position` the new leaf's key first differs from that of the
/// found leaf. In a last node with leaves alone, none of the affected entries is a node, so `way` tells all.
fn plan_new_leaf(way: &[PathNode], position: u16) -> Outline
    ensures { IsBesideFound way.now position result }
{
    if way.is_empty() {
        return Outline::Known(change_plan(0, 0, Deed::PushDown { position }));
    }
    let level = last_level_before(way, position);
    if level + 1 == way.len() && way[level].height <= 1 {
        return Outline::Known(plan_in_lowest_node(way, position, level));
    }
    Outline::Beside { position, level }
}

/// Returns the plan of a call whose new leaf goes into the node at `level`, the last of `way`, which has leaves alone (height 1). The plan
/// is the same whichever leaves `position` affects, since no child node can take the new leaf.
fn plan_in_lowest_node(way: &[PathNode], position: u16, level: usize) -> Plan
    requires last { level + 1 ≡ length way.now }
    requires low { (s : PathNodeView) → slice_get way.now level ≡ Some s → s.height ≤ 1 }
    ensures { (first last : ℕ) → IsBeside way.now position level first last result }
{
    let deed = Deed::Grow { position };
    if (way[level].count as usize) < MAX_ENTRIES {
        change_plan(level + 1, level, deed)
    } else {
        change_plan(level + 1, pull_up_chain_end(way, level), deed)
    }
}

/// Returns the plan of a call whose new leaf goes beside entries of the node at `level` of `way`: those in the slots `first` to `last`,
/// which `position` affects. The node to change may be another one of `way`, as `choose_case` says.
pub(crate) fn plan_beside_entries(
    way: &[PathNode],
    position: u16,
    level: usize,
    first: u8,
    last: u8,
) -> Plan
    requires { level < length way.now }
    ensures { IsBeside way.now position level first last result }
{
    let choice = choose_case(way, level, first, last);
    let deed = Deed::Grow { position };
    let len = choice.level + 1;
    match choice.case {
        Case::LeafPushdown => change_plan(len, len, Deed::PushDown { position }),
        Case::NormalInsert => change_plan(len, choice.level, deed),
        Case::Overflow => change_plan(len, pull_up_chain_end(way, choice.level), deed),
    }
}

/// Returns the plan that does `deed`, and remakes the nodes of the way from index `end` on, before `len`. None is remade if `end` is `len`.
fn change_plan(len: usize, end: usize, deed: Deed) -> Plan
    ensures { result ≡ a_change len end deed }
{
    Plan::Change {
        span: Span { len, end },
        deed,
    }
}

/// Returns the plan of a call with the aim `aim`, when its search went through `way` and ended at `found`. The plan's span is a part of
/// `way`. Where the plan depends on which entries a new leaf affects, the head of their node is loaded once more, 25 words at most.
pub(crate) fn find_plan<G: Gate>(
    table: &HotTable,
    seat: &mut TableSeat,
    gate: &mut G,
    way: &[PathNode],
    aim: Aim,
    found: Found,
) -> Plan
    requires own { IsSeatOf table.now seat.old }
    requires possible { IsPossible table.now.layout seat.old.known }
    requires way { (m : ℕ) × (key : KeyValue) × IsWayOf table.now.layout seat.old.known m key way.now found }
    ensures reads { ReadsSome table.now G.becomes (seat.old, gate.old) (seat.new, gate.new) }
    ensures possible { IsPossible table.now.layout seat.new.known }
    ensures planned { (m : ℕ) (key : KeyValue) → IsWayOf table.now.layout seat.old.known m key way.now found →
        IsPlanned seat.new.known m key way.now aim found result }
    ensures within { LiesOnWay way.now result }
    ensures few { seat.new.known.steps ≤ seat.old.known.steps + HEAD_WORDS }
{
    match plan_call(way, aim, found) {
        Outline::Known(plan) => plan,
        Outline::Beside { position, level } => {
            let (first, last) = find_affected(table, seat, gate, way[level], position);
            plan_beside_entries(way, position, level, first, last)
        }
    }
}
