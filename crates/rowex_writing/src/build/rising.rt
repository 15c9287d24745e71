//! What takes the place of a span of nodes, from the lowest one up: a new node, or a fork that rises into the node above.

ghost use Rattle.std.specs.Prelude.{◌≡◌, ◌<◌, ◌≤◌, ◌+◌, ◌-◌, ◌*◌, ◌∷◌, [], List, ℕ, length, slice_get, IfSome, MatchOption, Some, replicate};
ghost use Rattle.insert_cases.specs.declared.choice.PathNode.{PathNode as PathNodeView};
ghost use Rattle.rowex_table.specs.Made.{Made};
ghost use Rattle.publish_laws.specs.Rises.{IsSide};
ghost use Rattle.rowex_writing.specs.build.Spare.{FindsOne};
ghost use Rattle.rowex_writing.specs.build.Building.{IsBuilding, IsGrowing, IsLevelRisen, IsLowRisen, IsAtMostOneHigher, IsRaising, IsRisenAt, IsSplit, MakesGrown, newcomer_of, Rises, GetsFork, GetsLeaf, FitsAbove, FitsOnWay, HasNotMade, HasRisenTo, gone_unless_whole, gone_with_way, levels_above};
ghost use Rattle.rowex_writing.specs.locks.Going.{HasLocked, IsLockedBy, LeadsLocked, WorksOnKeepingRecords};
ghost use Rattle.rowex_writing.specs.build.Remaking.{AwaitsLeaf};
ghost use Rattle.compound_node.specs.Nodes.{NodeView};
ghost use Rattle.record_words.specs.Node.{SpellLeft};
ghost use Rattle.rowex_table.specs.Seats.{IsSeatOf};
ghost use Rattle.insert_cases.specs.Grown.{keeps_side, is_same};
ghost use Rattle.node_tries.specs.Piece.{Place as At};
ghost use Rattle.tries.specs.Keys.{Key as KeyValue};
ghost use Rattle.tries.specs.Place.{subtrie_without};
ghost use Rattle.insert_cases.specs.Risen.{subtrie_of};
ghost use Rattle.insert_cases.specs.declared.raising.Risen.TheVariants.{Split};
ghost use Rattle.record_words.specs.declared.records.Rec.TheVariants.{Node as a_node};
ghost use Rattle.rowex_core.specs.Reading.{node_words_of};
ghost use Rattle.version_laws.specs.Rise.{entry};
ghost use Rattle.rowex_writing.specs.plan.Counts.{level_steps, node_steps};
ghost use Rattle.rowex_writing.specs.build.Walks.{Makes};

use crate::build::kept::{Build, MOST_MADE};
use crate::build::nodes::{make_fork_of_cut, make_node, make_node_from_words, make_node_with_leaf};
use crate::build::remaking::{Fork, NewLeaf, add_fork, add_leaf, cut_with_fork, cut_with_leaf};
use crate::locks::locked::{load_locked_node_words, read_locked_node};
use crate::plan::job::Job;
use compound_node::{Cut, Entry, Half, Node};
use insert_cases::{PathNode, Risen};
use key_bits::Key;
use record_words::{MAX_ENTRIES, NODE_FIELDS, can_take_leaf, drop_entry, read_node};
use rowex_core::Gate;
use rowex_table::{HotTable, TableSeat};

/// Makes and returns what replaces the locked node `number` when it gets `fork`: one entry, or a fork of two if the node was full. No entry
/// that is returned is higher than the node. `None` if no node record was free: one that was made by then stays in `build.made`. The locked
/// record stays as it is. Beside the steps of claims, at most `level_steps` are made.
fn raise_node_with_fork<G: Gate>(
    table: &HotTable,
    seat: &mut TableSeat,
    gate: &mut G,
    build: &mut Build,
    number: u32,
    fork: &Fork<'_>,
) -> Option<Risen>
    requires range { number < table.now.layout.nodes }
    requires below { GetsFork table.now seat.old build.old.made.items number fork.now }
    requires room { length build.old.made.items + 1 < MOST_MADE }
    ensures makes { Makes 2 level_steps table.now G.becomes ((seat.old, gate.old), build.old) ((seat.new, gate.new), build.new) result }
    ensures made { (b : GetsFork table.now seat.old build.old.made.items number fork.now) → MatchOption result
        (HasNotMade table.now seat.new build.new.made.items)
        (λ risen. IsRaising table.now seat.new build.new.made.items (a_node number ∷ b.here.gone) b.here.newcomer (entry number) (subtrie_of risen)) }
    ensures level { (words : List ℕ) → HasLocked seat.old.known number words → IfSome result (IsLevelRisen words) }
{
    let mut node = read_locked_node(table, seat, gate, number);
    if node.count() as usize == MAX_ENTRIES {
        let old = node_entry(number, &node);
        let cut = cut_with_fork(&node, fork);
        return make_fork_of_cut(table, seat, gate, build, old, &cut);
    }
    add_fork(&mut node, fork);
    let entry = make_node(table, seat, gate, build, &node)?;
    Some(Risen::Whole(entry))
}

/// Returns the entry that names `node`, which is in the node record `number`.
fn node_entry(number: u32, node: &Node) -> Entry
    ensures { result ≡ Entry.Node number node.now.height }
{
    Entry::Node {
        number,
        height: node.height(),
    }
}

/// The words of the locked node `number`, all but its state, as they were loaded.
#[derive(Drop)]
pub(crate) struct LoadedNode {
    pub number: u32,
    pub words: [u64; NODE_FIELDS],
}

/// Makes and returns what replaces the node `loaded` when it gets the leaf `new`, and whether the node stays, as [`remake_node_with_leaf`]
/// promises. It serves any node, by way of a `Node` made of `loaded.words`. `None` if no node record was free: one that was made by then
/// stays in `build.made`.
fn remake_node_with_leaf_by_value<G: Gate>(
    table: &HotTable,
    seat: &mut TableSeat,
    gate: &mut G,
    build: &mut Build,
    loaded: &LoadedNode,
    new: &NewLeaf<'_>,
) -> Option<(Risen, bool)>
    requires building { (news : List Made) × IsBuilding table.now seat.old build.old.made.items news }
    requires takes { (node : NodeView) × AwaitsLeaf loaded.now.words node new.now }
    requires room { length build.old.made.items + 1 < MOST_MADE }
    ensures makes { Makes 2 (2 * node_steps) table.now G.becomes ((seat.old, gate.old), build.old) ((seat.new, gate.new), build.new) result }
    ensures made { MakesGrown table.now (seat.old, build.old.made.items) (seat.new, build.new.made.items) loaded.now new.now result }
{
    let mut node = read_node(&loaded.words);
    if node.count() as usize == MAX_ENTRIES {
        let old = node_entry(loaded.number, &node);
        let cut = cut_with_leaf(&node, new);
        let stays = has_whole_node(&cut);
        let risen = make_fork_of_cut(table, seat, gate, build, old, &cut)?;
        return Some((risen, stays));
    }
    add_leaf(&mut node, new);
    let entry = make_node(table, seat, gate, build, &node)?;
    Some((Risen::Whole(entry), false))
}

/// Makes and returns what replaces the node `loaded` when it gets the leaf `new`: one entry, or a fork of two if the node was full. No node
/// made is higher than that node. The flag tells whether the node stays, as one side of that fork. The node's forks must lead the leaf's
/// key to slot `new.slot`.
///
/// `None` if no node record was free: one that was made by then stays in `build.made`, which must have room for two. Beside the steps of
/// claims, at most `2 * node_steps` are made. `loaded.words` may be changed: a node of leaves alone with room gets the leaf there, which
/// costs least.
fn remake_node_with_leaf<G: Gate>(
    table: &HotTable,
    seat: &mut TableSeat,
    gate: &mut G,
    build: &mut Build,
    loaded: &mut LoadedNode,
    new: &NewLeaf<'_>,
) -> Option<(Risen, bool)>
    requires building { (news : List Made) × IsBuilding table.now seat.old build.old.made.items news }
    requires takes { (node : NodeView) × AwaitsLeaf loaded.old.words node new.now }
    requires room { length build.old.made.items + 1 < MOST_MADE }
    ensures makes { Makes 2 (2 * node_steps) table.now G.becomes ((seat.old, gate.old), build.old) ((seat.new, gate.new), build.new) result }
    ensures made { MakesGrown table.now (seat.old, build.old.made.items) (seat.new, build.new.made.items) loaded.old new.now result }
{
    if can_take_leaf(&loaded.words) {
        let entry = make_node_with_leaf(table, seat, gate, build, &mut loaded.words, new)?;
        return Some((Risen::Whole(entry), false));
    }
    remake_node_with_leaf_by_value(table, seat, gate, build, loaded, new)
}

/// Makes and returns what replaces the locked node `number`, the lowest of a span, when it gets the leaf `new`: one entry, or a fork of two
/// if the node was full. The flag tells whether the node stays, as one side of that fork. No entry that is returned is higher than the
/// node. `None` if no node record was free: one that was made by then stays in `build.made`.
fn raise_lowest_node_with_leaf<G: Gate>(
    table: &HotTable,
    seat: &mut TableSeat,
    gate: &mut G,
    build: &mut Build,
    number: u32,
    new: &NewLeaf<'_>,
) -> Option<(Risen, bool)>
    requires range { number < table.now.layout.nodes }
    requires lowest { GetsLeaf table.now seat.old build.old.made.items number new.now }
    requires room { length build.old.made.items + 1 < MOST_MADE }
    ensures makes { Makes 2 level_steps table.now G.becomes ((seat.old, gate.old), build.old) ((seat.new, gate.new), build.new) result }
    ensures made { (b : GetsLeaf table.now seat.old build.old.made.items number new.now) → MatchOption result
        (HasNotMade table.now seat.new build.new.made.items)
        (λ r. IsRaising table.now seat.new build.new.made.items (gone_unless_whole r.1 number) (newcomer_of b) (entry number) (subtrie_of r.0)) }
    ensures level { (words : List ℕ) → HasLocked seat.old.known number words → IfSome result (λ r. IsLevelRisen words r.0) }
{
    let mut loaded = LoadedNode {
        number,
        words: [0; NODE_FIELDS],
    };
    load_locked_node_words(table, seat, gate, number, &mut loaded.words);
    remake_node_with_leaf(table, seat, gate, build, &mut loaded, new)
}

/// Returns whether one side of `cut` is the node that was cut, as it was.
fn has_whole_node(cut: &Cut) -> bool
    ensures { result ≡ keeps_side cut.now }
{
    is_whole_node(&cut.zero) || is_whole_node(&cut.one)
}

/// Returns whether `half`, a side of a cut, is the whole node that was cut (`Half::Same`). `false` for one entry and for a new node.
fn is_whole_node(half: &Half) -> bool
    ensures { result ≡ is_same half.now }
{
    match half {
        Half::Same => true,
        _ => false,
    }
}

/// Returns one entry for `risen`, which replaces a locked node. An entry stays itself, and a fork becomes a new node of two. That node is
/// at most one higher than the higher of its entries. `None` if no node record was free for that node. Inline, since mostly it is an entry
/// already.
#[inline(always)]
fn make_one_entry<G: Gate>(
    table: &HotTable,
    seat: &mut TableSeat,
    gate: &mut G,
    build: &mut Build,
    risen: Risen,
) -> Option<Entry>
    requires risen { (number : ℕ) × IsRisenAt table.now seat.old build.old.made.items number risen }
    requires room { length build.old.made.items < MOST_MADE }
    ensures makes { Makes 1 node_steps table.now G.becomes ((seat.old, gate.old), build.old) ((seat.new, gate.new), build.new) result }
    ensures made { (number : ℕ) (b : IsRisenAt table.now seat.old build.old.made.items number risen) → MatchOption result
        (HasNotMade table.now seat.new build.new.made.items)
        (λ e. IsRaising table.now seat.new build.new.made.items b.gone b.newcomer (entry number) (At e)) }
    ensures low { (height : ℕ) → IsLowRisen height risen → IfSome result (IsAtMostOneHigher height risen) }
{
    match risen {
        Risen::Whole(entry) => Some(entry),
        Risen::Split {
            position,
            zero,
            one,
        } => {
            let node = Node::pair(position, zero, one);
            make_node(table, seat, gate, build, &node)
        }
    }
}

/// What has risen to the node at index `level` of a way: `risen` takes that node's place, for the key of the search. It is to rise on to
/// the node at index `end`, which is `level` or less.
#[derive(Drop)]
pub(crate) struct Rise<'a> {
    pub key: &'a Key,
    pub end: usize,
    pub level: usize,
    pub risen: Risen,
}

/// Returns the fork `rise.risen`, with the key of the search. `rise.risen` is not one whole entry.
fn risen_fork<'a>(rise: &Rise<'a>) -> Fork<'a>
    requires { IsSplit rise.now.risen }
    ensures key { result.key.now ≡ rise.now.key.now }
    ensures same { rise.now.risen ≡ Split result.position result.zero result.one }
{
    match rise.risen {
        Risen::Whole(_) => unreachable!(),
        Risen::Split {
            position,
            zero,
            one,
        } => Fork {
            key: rise.key,
            position,
            zero,
            one,
        },
    }
}

/// Returns the one entry that replaces the node at `rise.end` of `way`, when `rise.risen` replaces the node at `rise.level`. If
/// `rise.level` is the greater index, `rise.risen` is a fork, which goes into the next node up the way. The entry is at most one higher
/// than the node at `rise.end`, and no higher if that node has fewer than 32 entries.
///
/// `None` if no node record was free: those made by then stay in `build.made`. Beside the steps of claims, `level_steps` are enough for
/// each level above, and `node_steps` for the last record. Inline, since mostly the two nodes are one.
#[inline(always)]
fn raise_to_end<G: Gate>(
    table: &HotTable,
    seat: &mut TableSeat,
    gate: &mut G,
    build: &mut Build,
    way: &[PathNode],
    rise: Rise<'_>,
) -> Option<Entry>
    requires up { Rises table.now seat.old build.old.made.items way.now rise }
    requires room { length build.old.made.items + 2 * levels_above rise < MOST_MADE }
    ensures makes { Makes (2 * levels_above rise.entry + 1) (levels_above rise.entry * level_steps + node_steps) table.now G.becomes
        ((seat.old, gate.old), build.old) ((seat.new, gate.new), build.new) result }
    ensures made { (b : Rises table.now seat.old build.old.made.items way.now rise.entry) → MatchOption result
        (HasNotMade table.now seat.new build.new.made.items)
        (HasRisenTo table.now seat.new build.new.made.items way.now b.here.newcomer rise.entry.end
        (gone_with_way way.now rise.entry.end rise.entry.level b.here.gone)) }
    ensures low { FitsOnWay seat.old.known way.now rise.entry.end result }
{
    let mut rise = rise;
    while rise.level > rise.end {
        let above = rise.level - 1;
        let fork = risen_fork(&rise);
        let risen = raise_node_with_fork(table, seat, gate, build, way[above].number, &fork)?;
        rise = Rise {
            key: rise.key,
            end: rise.end,
            level: above,
            risen,
        };
    }
    make_one_entry(table, seat, gate, build, rise.risen)
}

/// Returns the one entry that takes the place of the span's topmost node, at `job.span.end`, when its lowest node gets the leaf `new`. The
/// flag tells whether the lowest node stays as it is. The entry is at most one higher than the topmost node, and no higher if that has
/// fewer than 32 entries. `None` if no node record was free: those made by then stay in `build.made`.
pub(crate) fn raise_with_leaf<G: Gate>(
    table: &HotTable,
    seat: &mut TableSeat,
    gate: &mut G,
    build: &mut Build,
    job: &Job<'_>,
    new: &NewLeaf<'_>,
) -> Option<(Entry, bool)>
    requires growing { IsGrowing table.now seat.old build.old.made.items job.now.way.now job.now.span new.now }
    requires within { job.now.span.end < job.now.span.len }
    requires room { length build.old.made.items + 2 * (job.now.span.len - 1 - job.now.span.end) + 2 < MOST_MADE }
    ensures makes { Makes (2 * (job.now.span.len - 1 - job.now.span.end) + 3) ((job.now.span.len - job.now.span.end) * level_steps + node_steps) table.now G.becomes
        ((seat.old, gate.old), build.old) ((seat.new, gate.new), build.new) result }
    ensures made { (b : IsGrowing table.now seat.old build.old.made.items job.now.way.now job.now.span new.now) → MatchOption result
        (HasNotMade table.now seat.new build.new.made.items)
        (λ r. HasRisenTo table.now seat.new build.new.made.items job.now.way.now (newcomer_of b.lowest) job.now.span.end
        (gone_with_way job.now.way.now job.now.span.end (job.now.span.len - 1) (gone_unless_whole r.1 b.step.number)) r.0) }
    ensures low { (s : PathNodeView) (words : List ℕ) → slice_get job.now.way.now job.now.span.end ≡ Some s → HasLocked seat.old.known s.number words →
        IfSome result (λ r. FitsAbove words r.0) }
{
    let way = job.way;
    let end = job.span.end;
    let lowest = job.span.len - 1;
    let (risen, stays) = raise_lowest_node_with_leaf(
        table,
        seat,
        gate,
        build,
        way[lowest].number,
        new,
    )?;
    let rise = Rise {
        key: new.key,
        end,
        level: lowest,
        risen,
    };
    let entry = raise_to_end(table, seat, gate, build, way, rise)?;
    Some((entry, stays))
}

/// Loads the words of the locked node `step.number` into `words`, which are 0 before, and takes the leaf in `step.slot` out of them. Some
/// key's search leads to that leaf. If just one entry is left, returns that entry, and `words` are of no use. If more are left, returns
/// `None`.
pub(crate) fn load_without_leaf<G: Gate>(
    table: &HotTable,
    seat: &mut TableSeat,
    gate: &mut G,
    step: PathNode,
    words: &mut [u64; NODE_FIELDS],
) -> Option<Entry>
    requires own { IsSeatOf table.now seat.old }
    requires range { step.number < table.now.layout.nodes }
    requires locked { IsLockedBy seat.old.known step.number }
    requires place { (key : KeyValue) × LeadsLocked seat.old.known step.number key step.slot }
    requires empty { words.old ≡ replicate NODE_FIELDS 0 }
    ensures reads { WorksOnKeepingRecords table.now G.becomes (seat.old, gate.old) (seat.new, gate.new) }
    ensures left { (key : KeyValue) (shown : List ℕ) → LeadsLocked seat.old.known step.number key step.slot → HasLocked seat.old.known step.number shown →
        SpellLeft words.new result (subtrie_without key (node_words_of shown).subtrie) }
    ensures few { seat.new.known.steps ≤ seat.old.known.steps + NODE_FIELDS }
{
    load_locked_node_words(table, seat, gate, step.number, words);
    drop_entry(words, step.slot)
}

/// Returns the entry for what is left of the locked node `step.number` without the leaf in `step.slot`, to which some key's search leads.
/// That is the only entry left, or it names a new record. `None` if no node record was free: none is made then. In a table with one pass,
/// which has claimed nothing yet, the first claim of a change finds a record if one is free.
pub(crate) fn make_entry_without_leaf<G: Gate>(
    table: &HotTable,
    seat: &mut TableSeat,
    gate: &mut G,
    build: &mut Build,
    step: PathNode,
) -> Option<Entry>
    requires building { IsBuilding table.now seat.old build.old.made.items [] }
    requires range { step.number < table.now.layout.nodes }
    requires locked { IsLockedBy seat.old.known step.number }
    requires place { (key : KeyValue) × LeadsLocked seat.old.known step.number key step.slot }
    requires room { length build.old.made.items < MOST_MADE }
    ensures makes { Makes 1 level_steps table.now G.becomes ((seat.old, gate.old), build.old) ((seat.new, gate.new), build.new) result }
    ensures made { (key : KeyValue) (words : List ℕ) → LeadsLocked seat.old.known step.number key step.slot → HasLocked seat.old.known step.number words →
        MatchOption result (HasNotMade table.now seat.new build.new.made.items)
        (λ e. (news : List Made) × IsSide (subtrie_without key (node_words_of words).subtrie) e news × IsBuilding table.now seat.new build.new.made.items news) }
    ensures finds { FindsOne table.now.layout build.old.walk seat.old result }
{
    let mut words = [0; NODE_FIELDS];
    if let Some(entry) = load_without_leaf(table, seat, gate, step, &mut words) {
        return Some(entry);
    }
    make_node_from_words(table, seat, gate, build, &words)
}
