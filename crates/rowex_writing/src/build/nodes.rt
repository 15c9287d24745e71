//! Node records that a change makes: of one node, or of both halves of a cut. Their claims share one walk.

ghost use Rattle.std.specs.Prelude.{◌≡◌, ◌<◌, ◌≤◌, ◌+◌, ◌*◌, ◌++◌, ◌∷◌, [], All, IfSome, List, ℕ, length, MatchOption, None, false, true, Contains};
ghost use Rattle.record_words.specs.Node.{CanTakeLeaf, HasNodeWords, node_words};
ghost use Rattle.record_words.specs.Reading.{IsSpelling};
ghost use Rattle.rowex_table.specs.Made.{Made};
ghost use Rattle.rowex_table.specs.Seats.{IsSeatOf, SeatView};
ghost use Rattle.publish_laws.specs.Rises.{made_of_node};
ghost use Rattle.rowex_writing.specs.build.Spare.{FindsOne};
ghost use Rattle.rowex_writing.specs.build.Building.{IsBuilding, IsHalfMade, IsMadeFrom, HasNotMade};
ghost use Rattle.rowex_writing.specs.build.Remaking.{AwaitsLeaf, subtrie_with_leaf};
ghost use Rattle.compound_node.specs.Nodes.{IsBuiltFrom, NodeView, piece};
ghost use Rattle.insert_cases.specs.declared.growth.Grown.TheVariants.{Two};
ghost use Rattle.rowex_writing.specs.plan.Counts.{node_steps};
ghost use Rattle.rowex_writing.specs.locks.Going.{WorksOn};
ghost use Rattle.rowex_writing.specs.build.Walks.{HasMissedEach, HasNoOther, HasWalked, IsClaimWalk, IsCommittedWalk, IsOwnOf, Makes, bounds_of_walk, looks_for, looks_unless};
ghost use Rattle.record_words.specs.declared.records.Rec.TheVariants.{Node as a_node};
ghost use Rattle.rowex_records.specs.Claims.{HoldsOneMore, HasMissedSince, IsAnothersBut};
ghost use Rattle.publish_laws.specs.Lone.{HasFree};
ghost use Rattle.record_words.specs.declared.records.Rec.{Rec as Record};

use crate::build::hints::claim_node_on_walk;
use crate::build::kept::{Build, MOST_MADE, NodeWalk};
use crate::build::remaking::{NewLeaf, add_leaf_to_words};
use compound_node::{Cut, Entry, Half, Node};
use insert_cases::Risen;
use record_words::{NODE_FIELDS, NUMBERS_INDEX, Tag, pack_node, pack_state, read_numbers};
use rowex_core::{Gate, Rec};
use rowex_records::{RecordKind, fill_node, find_free_record};
use rowex_table::{HotTable, TableSeat};

/// Makes a record for `node`, adds it to `build.made`, and returns the entry that names it. `None` if no node record was free: none is
/// added.
///
/// The claim tries the last spare record, and then those that `build.walk` has left, from `build.nodes.next` on, by at most two steps
/// each. At a change's first claim these are all committed node records. Beside the walk's tries at most `node_steps` steps are made. If no record
/// was free, the states of the records in `build.made` are loaded, too.
pub(crate) fn make_node<G: Gate>(
    table: &HotTable,
    seat: &mut TableSeat,
    gate: &mut G,
    build: &mut Build,
    node: &Node,
) -> Option<Entry>
    requires building { (news : List Made) × IsBuilding table.now seat.old build.old.made.items news }
    requires room { length build.old.made.items < MOST_MADE }
    ensures makes { Makes 1 node_steps table.now G.becomes ((seat.old, gate.old), build.old) ((seat.new, gate.new), build.new) result }
    ensures made { (news : List Made) → IsBuilding table.now seat.old build.old.made.items news → MatchOption result
        (HasNotMade table.now seat.new build.new.made.items)
        (λ e. (number : ℕ) × (e ≡ Entry.Node number node.now.height) × HasNodeWords node.now ×
        IsBuilding table.now seat.new build.new.made.items (made_of_node number node.now ∷ news)) }
    ensures same { result ≡ None → (seat.new.known.own ≡ seat.old.known.own) × (build.new.made.items ≡ build.old.made.items) }
{
    let words = pack_node(node);
    make_node_from_words(table, seat, gate, build, &words)
}

/// Makes a node record of `words`, which are those of a node, adds the record to `build.made`, and returns the entry that names it. `None`
/// if no node record was free: none is added. Claims go on as in [`make_node`]. In a table with one pass, which has claimed nothing yet,
/// the first claim of a change finds a record if one is free.
pub(crate) fn make_node_from_words<G: Gate>(
    table: &HotTable,
    seat: &mut TableSeat,
    gate: &mut G,
    build: &mut Build,
    words: &[u64; NODE_FIELDS],
) -> Option<Entry>
    requires building { (news : List Made) × IsBuilding table.now seat.old build.old.made.items news }
    requires spelling { IsSpelling HasNodeWords node_words words.now }
    requires room { length build.old.made.items < MOST_MADE }
    ensures makes { Makes 1 node_steps table.now G.becomes ((seat.old, gate.old), build.old) ((seat.new, gate.new), build.new) result }
    ensures made { (news : List Made) (node : NodeView) → HasNodeWords node → node_words node ≡ words.now →
        IsBuilding table.now seat.old build.old.made.items news →
        MatchOption result (HasNotMade table.now seat.new build.new.made.items)
        (λ e. (number : ℕ) × (e ≡ Entry.Node number node.height) × IsBuilding table.now seat.new build.new.made.items (made_of_node number node ∷ news)) }
    ensures same { result ≡ None → (seat.new.known.own ≡ seat.old.known.own) × (build.new.made.items ≡ build.old.made.items) }
    ensures finds { FindsOne table.now.layout build.old.walk seat.old result }
{
    let number = claim_node(table, seat, gate, build)?;
    fill_node(table, seat, gate, number, words);
    build.made.push(Rec::Node(number));
    Some(Entry::Node {
        number,
        height: read_numbers(words[NUMBERS_INDEX]).height,
    })
}

/// Makes a record for the node of `words` with the leaf `new`, adds the record to `build.made`, and returns the entry that names it. `None`
/// if no node record was free: none is added. The node of `words` has leaves alone, and room for one more. In any case the leaf is added to
/// `words`, too.
pub(crate) fn make_node_with_leaf<G: Gate>(
    table: &HotTable,
    seat: &mut TableSeat,
    gate: &mut G,
    build: &mut Build,
    words: &mut [u64; NODE_FIELDS],
    new: &NewLeaf<'_>,
) -> Option<Entry>
    requires building { (news : List Made) × IsBuilding table.now seat.old build.old.made.items news }
    requires takes { (node : NodeView) × AwaitsLeaf words.old node new.now × CanTakeLeaf node }
    requires room { length build.old.made.items < MOST_MADE }
    ensures makes { Makes 1 node_steps table.now G.becomes ((seat.old, gate.old), build.old) ((seat.new, gate.new), build.new) result }
    ensures made { (news : List Made) (node : NodeView) → AwaitsLeaf words.old node new.now → CanTakeLeaf node →
        IsBuilding table.now seat.old build.old.made.items news →
        MatchOption result (HasNotMade table.now seat.new build.new.made.items)
        (λ e. (after : NodeView) × IsBuiltFrom after (subtrie_with_leaf new.now (piece node)) × (number : ℕ) × (e ≡ Entry.Node number after.height) ×
        HasNodeWords after × IsBuilding table.now seat.new build.new.made.items (made_of_node number after ∷ news)) }
    ensures same { result ≡ None → (seat.new.known.own ≡ seat.old.known.own) × (build.new.made.items ≡ build.old.made.items) }
{
    add_leaf_to_words(words, new);
    make_node_from_words(table, seat, gate, build, words)
}

/// Returns the entry for `half`, one side of the cut of the node that `old` names. A side that is one entry gives that entry, and a side
/// that is the node as it was gives `old`. For a side that is a new node, a record is made and added to `build.made`, and the entry names
/// it. `None` if a record was wanted and none was free: none is added.
fn make_half_entry<G: Gate>(
    table: &HotTable,
    seat: &mut TableSeat,
    gate: &mut G,
    build: &mut Build,
    old: Entry,
    half: &Half,
) -> Option<Entry>
    requires room { length build.old.made.items < MOST_MADE }
    requires building { (news : List Made) × IsBuilding table.now seat.old build.old.made.items news }
    ensures makes { Makes 1 node_steps table.now G.becomes ((seat.old, gate.old), build.old) ((seat.new, gate.new), build.new) result }
    ensures made { (news : List Made) → IsBuilding table.now seat.old build.old.made.items news → MatchOption result
        (HasNotMade table.now seat.new build.new.made.items)
        (λ e. (more : List Made) × IsHalfMade old half.now e more × IsBuilding table.now seat.new build.new.made.items (more ++ news)) }
{
    match half {
        Half::One(entry) => Some(*entry),
        Half::Many(node) => make_node(table, seat, gate, build, node),
        Half::Same => Some(old),
    }
}

/// Makes the fork that replaces a node with the entry `old`, which was cut in two as `cut` says. Each new node of `cut` gets a record, that
/// of the 1 side first. `None` if no node record was free: one made by then stays in `build.made`.
pub(crate) fn make_fork_of_cut<G: Gate>(
    table: &HotTable,
    seat: &mut TableSeat,
    gate: &mut G,
    build: &mut Build,
    old: Entry,
    cut: &Cut,
) -> Option<Risen>
    requires building { (news : List Made) × IsBuilding table.now seat.old build.old.made.items news }
    requires room { length build.old.made.items + 1 < MOST_MADE }
    ensures makes { Makes 2 (2 * node_steps) table.now G.becomes ((seat.old, gate.old), build.old) ((seat.new, gate.new), build.new) result }
    ensures made { (news : List Made) → IsBuilding table.now seat.old build.old.made.items news → MatchOption result
        (HasNotMade table.now seat.new build.new.made.items)
        (λ risen. (after : List Made) × IsMadeFrom old (Two cut.now) risen news after × IsBuilding table.now seat.new build.new.made.items after) }
{
    let one = make_half_entry(table, seat, gate, build, old, &cut.one)?;
    let zero = make_half_entry(table, seat, gate, build, old, &cut.zero)?;
    Some(Risen::Split {
        position: cut.position,
        zero,
        one,
    })
}

/// Claims a node record and returns its number. `None` if each committed one was found not free since the change began its claims; where
/// `build.walk.commits`, if each of the table was. `build.made` stays in either case.
///
/// All claims of a change try each node record once at most, spare ones aside, and each try takes at most two steps. Where none is left to
/// try, each committed one was found not free, or the change has claimed it. The states of the records in `build.made` are loaded then. In a table with
/// one pass, which has claimed nothing yet, the first claim of a change finds a record if one is free.
pub(crate) fn claim_node<G: Gate>(
    table: &HotTable,
    seat: &mut TableSeat,
    gate: &mut G,
    build: &mut Build,
) -> Option<u32>
    requires building { (news : List Made) × IsBuilding table.now seat.old build.old.made.items news }
    ensures goes { WorksOn table.now G.becomes (seat.old, gate.old) (seat.new, gate.new) }
    ensures claims { MatchOption result (seat.new.known.own ≡ seat.old.known.own)
        (λ number. (number < table.now.layout.nodes) × HoldsOneMore (a_node number) seat.old.known seat.new.known) }
    ensures made { build.new.made.items ≡ build.old.made.items }
    ensures walk { (first : SeatView) → HasWalked table.now.layout first seat.old build.old → MatchOption result
        (HasMissedEach table.now.layout (bounds_of_walk build.new.walk first) first.known.steps seat.new.known build.new.made.items)
        (λ number. IsCommittedWalk table.now.layout first seat.new (build.old.made.items ++ a_node number ∷ []) build.new.nodes.next build.new.walk) }
    ensures commits { build.new.walk.commits ≡ build.old.walk.commits }
    ensures few { seat.new.known.steps + 2 * build.new.walk.left ≤ seat.old.known.steps + 2 * build.old.walk.left + 2 + looks_for build.new result }
    ensures finds { FindsOne table.now.layout build.old.walk seat.old result }
{
    let claimed = claim_node_on_walk(table, seat, gate, &mut build.nodes, &mut build.walk);
    if let Some(number) = claimed {
        return Some(number);
    }
    load_states(table, seat, gate, build.made.as_slice());
    None
}

/// Returns whether a node record was found free beside those that the change has claimed. That record is not claimed, but left for
/// removals, and may be uncommitted. `false` if each node record was found not free since the change began its claims. `build.made` stays.
///
/// The last spare record is looked at first. Then the walk of the claims goes on, and the next claim begins with the record found. If none
/// is found, the states of the records in `build.made` are loaded, too.
pub(crate) fn leaves_free_node<G: Gate>(
    table: &HotTable,
    seat: &mut TableSeat,
    gate: &mut G,
    build: &mut Build,
) -> bool
    requires building { (news : List Made) × IsBuilding table.now seat.old build.old.made.items news }
    ensures goes { WorksOn table.now G.becomes (seat.old, gate.old) (seat.new, gate.new) }
    ensures own { seat.new.known.own ≡ seat.old.known.own }
    ensures made { build.new.made.items ≡ build.old.made.items }
    ensures walk { result ≡ false → (first : SeatView) → HasWalked table.now.layout first seat.old build.old →
        HasMissedEach table.now.layout first.bounds first.known.steps seat.new.known build.new.made.items }
    ensures few { seat.new.known.steps ≤ seat.old.known.steps + 2 * build.old.walk.left + 1 + looks_unless result build.new }
    ensures free { result ≡ true → HasFree table.now.layout seat.new }
{
    if is_last_free(table, seat, gate, build.nodes.spare.as_slice()) {
        return true;
    }
    if let Some(number) = find_free_node(table, seat, gate, build.nodes.next, build.walk) {
        build.nodes.next = number;
        return true;
    }
    load_states(table, seat, gate, build.made.as_slice());
    false
}

/// Returns the number of a node record that a load finds free. `None` if none was. Those that the walk has left below its end are looked at
/// from `next` on, and then those from the end on, which may be uncommitted.
fn find_free_node<G: Gate>(
    table: &HotTable,
    seat: &mut TableSeat,
    gate: &mut G,
    next: u32,
    walk: NodeWalk,
) -> Option<u32>
    requires own { IsSeatOf table.now seat.old }
    ensures goes { WorksOn table.now G.becomes (seat.old, gate.old) (seat.new, gate.new) }
    ensures own { seat.new.known.own ≡ seat.old.known.own }
    ensures walk { result ≡ None → (first : SeatView) (made : List Record) → HasNoOther seat.old.known made →
        IsCommittedWalk table.now.layout first seat.old made next walk →
        IsClaimWalk table.now.layout walk.end first.known.steps seat.new.known made next 0 }
    ensures few { seat.new.known.steps ≤ seat.old.known.steps + 2 * walk.left }
    ensures free { IfSome result (λ number. HasFree table.now.layout seat.new) }
{
    let nodes = table.layout().nodes;
    let end = walk.end.min(nodes);
    let left = walk.left_below_end(nodes);
    if let Some(number) = find_free_record(
        table,
        seat,
        gate,
        RecordKind::Node { end },
        next,
        left,
    ) {
        return Some(number);
    }
    let rest = (nodes - end).min(walk.left);
    find_free_record(
        table,
        seat,
        gate,
        RecordKind::Node { end: nodes },
        end,
        rest,
    )
}

/// Returns whether the node record with the last number in `spare` is free, by one load. `false`, without a step, if `spare` is empty, or
/// the table has no node record of that number.
fn is_last_free<G: Gate>(
    table: &HotTable,
    seat: &mut TableSeat,
    gate: &mut G,
    spare: &[u32],
) -> bool
    requires own { IsSeatOf table.now seat.old }
    ensures goes { WorksOn table.now G.becomes (seat.old, gate.old) (seat.new, gate.new) }
    ensures own { seat.new.known.own ≡ seat.old.known.own }
    ensures few { seat.new.known.steps ≤ seat.old.known.steps + 1 }
    ensures free { result ≡ true → HasFree table.now.layout seat.new }
{
    if spare.is_empty() {
        return false;
    }
    let number = spare[spare.len() - 1];
    if number >= table.layout().nodes {
        return false;
    }
    table.load_state(seat, gate, Rec::Node(number)) == pack_state(Tag::Free)
}

/// Loads the state of each record in `made`, all of them records that this pass has made. Each load is remembered as a failed step, which
/// found the record to be the pass's own. So the failed steps of a refusal tell of each node record.
fn load_states<G: Gate>(table: &HotTable, seat: &mut TableSeat, gate: &mut G, made: &[Rec])
    requires building { (news : List Made) × IsBuilding table.now seat.old made.now news }
    ensures goes { WorksOn table.now G.becomes (seat.old, gate.old) (seat.new, gate.new) }
    ensures own { seat.new.known.own ≡ seat.old.known.own }
    ensures seen { (r : Record) → Contains made.now r →
        HasMissedSince (IsAnothersBut table.now.layout seat.old.known made.now) seat.new.known.failed r seat.old.known.steps }
    ensures mine { All (λ r. HasMissedSince (IsOwnOf seat.old.known.pass) seat.new.known.failed r seat.old.known.steps) made.now }
    ensures few { seat.new.known.steps ≤ seat.old.known.steps + length made.now }
{
    for index in 0..made.len() {
        table.load_state(seat, gate, made[index]);
    }
}
