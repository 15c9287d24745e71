//! Where a pass builds what it puts into the index.

ghost use Rattle.std.specs.Prelude.{◌≡◌, ◌∷◌, [], IfOk};

use bounded_vec::BoundedVec;
use epochs::{Limbo, Sweep};
use insert_cases::PathNode;
use key_bits::Key;
use record_words::{
    LARGE_WORDS, LEAF_CLASSES, LEAF_WORDS, Layout, MEDIUM_WORDS, NODE_WORDS, RECORD_KINDS,
    SHORT_WORDS, WIDE_WORDS, count_leaf_words,
};
use rowex_core::Rec;
use rowex_reading::MOST_NODES;
use rowex_writing::{Build, Full, Hint, NodeWalk, Stretch};
use std::alloc::{AllocError, Global};
use std::ops::Range;

/// The small part of a pass, of the records of one kind or class, has so many words at most: 128 KiB.
const FIRST_WORDS: u32 = 16_384;

/// The number of the first record of a new table that no load has taken, of the nodes and of each class of leaves. Of nodes it is that
/// before the load is finished, which takes a few more behind it. These are plain numbers, which promise nothing.
#[derive(Clone, Copy)]
pub struct FirstFree {
    /// The number of a node record.
    pub node: u32,
    /// The number of a leaf record of each class, the smallest first.
    pub leaves: [u32; LEAF_CLASSES],
    /// Whether the table commits records as passes need them. Then no pass has a part of its own, but claims what it commits.
    pub is_reserved: bool,
}

impl FirstFree {
    /// Returns the first records of a table of `layout` that has no keys: record 0, and the first of each class.
    pub fn of(layout: Layout) -> FirstFree
        ensures node { result.node ≡ 0 }
        ensures leaves { result.leaves ≡ 0 ∷ layout.medium_from ∷ layout.large_from ∷ layout.wide_from ∷ layout.long_from ∷ [] }
    {
        FirstFree {
            node: 0,
            leaves: [
                0,
                layout.medium_from,
                layout.large_from,
                layout.wide_from,
                layout.long_from,
            ],
            is_reserved: false,
        }
    }
}

/// A look at a stretch visits so many of its records.
const LOOKED_AT: u32 = 256;

/// A stretch is swept if a look gave back more than one of so many records.
const LOST_SHARE: u16 = 16;

/// Records of a stretch are no longer scarce if a look found more than one of so many of them free.
const PLENTY_SHARE: u32 = 8;

/// A pass that has so many spare records of a kind has enough for its changes until the next small round.
const FEW_SPARE: usize = 64;

/// What a pass claims of the records of one kind or class. These are plain numbers, which promise nothing.
///
/// A pass has a part of its own, so that two that claim many records don't try for the same ones. But it begins with a small part. The
/// small parts of all passes stand side by side where the records begin: passes that claim few share pages, huge ones too.
#[derive(Clone, Copy)]
struct Share {
    /// How many of them, the first ones, a load has taken. Claims begin behind these, and count them as claimed: where enough of them was
    /// given back, the pass claims there again.
    loaded: u32,
    /// The number of the first record of the small part.
    first: u32,
    /// The number behind its last one. It is 4,294,967,295 once the pass has left the small part, or if that is all of the pass's share.
    end: u32,
    /// The number of the first record of the pass's own part.
    own: u32,
}

impl Share {
    /// Returns the parts of `records` records, of one kind or class, in which pass `number` of `passes` passes claims. A load has
    /// taken the first `loaded` records. The small part has at most `most` records.
    fn of(number: u16, passes: u32, records: u32, loaded: u32, most: u32) -> Share {
        let number = u32::from(number);
        let share = records.checked_div(passes).unwrap_or(0);
        let small = share.min(most);
        let first = number.saturating_mul(small);
        Share {
            loaded,
            first,
            end: first.saturating_add(if share > most { small } else { u32::MAX }),
            own: (passes.saturating_mul(small)).saturating_add(number.saturating_mul(
                share - small,
            )),
        }
    }

    /// Returns what every pass claims of a kind or class of which each pass claims what it commits. A load has taken the first `loaded`
    /// records.
    fn of_committed(loaded: u32) -> Share {
        Share {
            loaded,
            first: 0,
            end: u32::MAX,
            own: 0,
        }
    }

    /// Returns a hint whose claims begin with the small part, of `records` records; `AllocError` if memory is refused.
    fn begin_claims(&self, alloc: Global, records: u32) -> Result<Hint, AllocError>
        ensures { IfOk result (λ hint. hint.spare.items ≡ []) }
    {
        let mut hint = Hint::begin_at(alloc, self.first, records)?;
        hint.stretch = Stretch::between(self.first, self.loaded);
        Ok(hint)
    }

    /// Lets the claims of `hint` go on in the pass's own part, if they have come past the small one. Returns the share to keep from then
    /// on: in it the small part counts as left.
    fn leave_first_part(self, hint: &mut Hint) -> Share {
        if hint.stretch.start() < self.end {
            return self;
        }
        hint.stretch = Stretch::between(self.own, self.loaded);
        Share {
            end: u32::MAX,
            ..self
        }
    }
}

/// The lists that a pass's scans and changes work with. They may be large, so they are made once, with the pass, and reused by each
/// call.
#[derive(Drop)]
pub struct Scratch {
    /// The nodes on the way of the last search or scan.
    pub way: BoundedVec<PathNode, MOST_NODES>,
    /// What the last change has built, and where the next claims begin.
    pub build: Build,
    /// What the pass has retired and not given back yet.
    pub limbo: Limbo,
    /// Which node records the pass claims.
    nodes: Share,
    /// Which leaf records of each class the pass claims, the smallest class first.
    leaves: [Share; LEAF_CLASSES],
    /// What small rounds visit: of the stretch of a class of leaves, and of that of nodes.
    pub(crate) sweeps: [Sweep; 2],
    /// Which the next round serves: where it is even the first, for the class `turn / 2`, and else the second.
    pub(crate) turn: usize,
    /// The class of which the last full attempt found none free; `LEAF_CLASSES` if it lacked a node.
    lacked: usize,
    /// The number after the last record that the pass has committed: of nodes, and of each class of leaves. 0 where it has committed none.
    ends: [u32; RECORD_KINDS],
}

impl Scratch {
    /// Moves the records that the last attempt has unlinked into limbo, as far as that has room, and empties their list. Records for which
    /// it had no room are found by sweeps, and by full rounds. `build.made` stays.
    pub fn move_unlinked_to_limbo(&mut self)
        ensures gone { self.new.build.gone.items ≡ [] }
        ensures made { self.new.build.made.items ≡ self.old.build.made.items }
    {
        while let Some(rec) = self.build.gone.pop() {
            self.limbo.push(rec);
        }
    }

    /// Lets the next claims begin with the records that the last small round gave back. After these, claims go on in the pass's own parts,
    /// where they have come past its small ones. `layout` is that of the table. `build.made` and `build.gone` stay.
    pub fn reuse_given_records(&mut self, layout: Layout)
        ensures made { self.new.build.made.items ≡ self.old.build.made.items }
        ensures gone { self.new.build.gone.items ≡ self.old.build.gone.items }
    {
        let build = &mut self.build;
        for rec in self.limbo.given.as_slice() {
            keep_spare(build, layout, *rec);
        }
        self.leave_first_parts();
        self.go_on_sweeping(layout);
    }

    /// Goes on with looks and sweeps after a small round, and tells limbo whether records are still scarce. `build.made` and `build.gone`
    /// stay.
    fn go_on_sweeping(&mut self, layout: Layout)
        ensures made { self.new.build.made.items ≡ self.old.build.made.items }
        ensures gone { self.new.build.gone.items ≡ self.old.build.gone.items }
    {
        let plenty = self.follow_turn(layout);
        self.turn = next_turn(self.turn, self.sweeps[0].is_over());
        let few = self.count_spare() < FEW_SPARE;
        self.limbo.note_round(few, plenty);
    }

    /// Goes on with the looks and sweeps of which the round has visited some: of leaves or of nodes. Returns whether it has just found many
    /// records free that were scarce. `build.made` and `build.gone` stay.
    fn follow_turn(&mut self, layout: Layout) -> bool
        ensures made { self.new.build.made.items ≡ self.old.build.made.items }
        ensures gone { self.new.build.gone.items ≡ self.old.build.gone.items }
    {
        if self.turn % 2 == 0 {
            return self.follow_leaves(layout);
        }
        self.follow_nodes()
    }

    /// Goes on with the look or sweep of nodes, as `follow` says. Returns whether it has just found many free, if nodes were scarce.
    /// `build.made` and `build.gone` stay.
    fn follow_nodes(&mut self) -> bool
        ensures made { self.new.build.made.items ≡ self.old.build.made.items }
        ensures gone { self.new.build.gone.items ≡ self.old.build.gone.items }
    {
        let plenty = follow(&mut self.sweeps[1], &mut self.build.nodes.stretch, true, 0);
        plenty && self.lacked == LEAF_CLASSES
    }

    /// Goes on with the look or sweep of a class of leaves, as `follow` says. Returns whether it has just found many free, if those of the
    /// class were scarce. `build.made` and `build.gone` stay.
    fn follow_leaves(&mut self, layout: Layout) -> bool
        ensures made { self.new.build.made.items ≡ self.old.build.made.items }
        ensures gone { self.new.build.gone.items ≡ self.old.build.gone.items }
    {
        let class = self.turn / 2 % LEAF_CLASSES;
        let from = first_of_class(layout, class);
        let mut sweep = self.sweeps[0];
        let plenty = follow(
            &mut sweep,
            &mut self.build.leaves[class].stretch,
            false,
            from,
        );
        self.sweeps[0] = sweep;
        plenty && self.lacked == class
    }

    /// Returns how many spare numbers the pass has of the class or kind that the last full attempt lacked.
    fn count_spare(&self) -> usize {
        if self.lacked < LEAF_CLASSES {
            self.build.leaves[self.lacked].spare.len()
        } else {
            self.build.nodes.spare.len()
        }
    }

    /// Notes that an attempt lacked a record of the kind `lacks`, for the key `key`. Small rounds are made sooner then, for as many
    /// rounds as the table has records: so a full round costs little beside these. `build.made` stays.
    pub fn note_scarce(&mut self, layout: Layout, lacks: Full, key: &Key)
        ensures made { self.new.build.made.items ≡ self.old.build.made.items }
    {
        self.lacked = match lacks {
            Full::Nodes => LEAF_CLASSES,
            Full::Leaves => {
                let first = layout.first_leaf_with(count_leaf_words(key));
                layout.class_of(first).index()
            }
        };
        self.limbo
            .note_scarce(layout.nodes.saturating_add(layout.leaves));
    }

    /// Lets the claims of each kind and class go on in the pass's own part, if they have come past its small one. `build.made` and
    /// `build.gone` stay.
    fn leave_first_parts(&mut self)
        ensures made { self.new.build.made.items ≡ self.old.build.made.items }
        ensures gone { self.new.build.gone.items ≡ self.old.build.gone.items }
    {
        let nodes = self.nodes;
        self.nodes = nodes.leave_first_part(&mut self.build.nodes);
        for place in 0..LEAF_CLASSES {
            let share = self.leaves[place];
            self.leaves[place] = share.leave_first_part(&mut self.build.leaves[place]);
        }
    }

    /// Lets claims of the kind with the number `kind` go on with `numbers`, which the pass has just committed. A kind is 0 for nodes, and 1 to
    /// 5 for leaves by their class; numbers are counted from its first record on. `build.made` and `build.gone` stay.
    pub fn take_committed(&mut self, kind: u8, numbers: Range<u32>)
        ensures made { self.new.build.made.items ≡ self.old.build.made.items }
        ensures gone { self.new.build.gone.items ≡ self.old.build.gone.items }
    {
        let kind = kind as usize;
        if kind >= RECORD_KINDS {
            return;
        }
        self.ends[kind] = numbers.end;
        if kind == 0 {
            self.build.nodes.stretch.go_on_at(numbers.start);
        } else {
            let hint = &mut self.build.leaves[kind - 1];
            hint.stretch.go_on_at(numbers.start);
            hint.skips = 0;
        }
    }

    /// Returns whether the next `count` claims of the kind with the number `kind` may go past the records that the pass has committed.
    pub fn is_short_of(&self, kind: u8, count: u32) -> bool {
        let kind = kind as usize;
        if kind >= RECORD_KINDS {
            return false;
        }
        let start = if kind == 0 {
            self.build.nodes.stretch.start()
        } else {
            self.build.leaves[kind - 1].stretch.start()
        };
        start.saturating_add(count) > self.ends[kind]
    }

    /// Lets claims try each class of leaf records in its turn again: after a full round each may have a free record. Claims of nodes skip
    /// nothing. `build.made` stays.
    pub fn reset_skips(&mut self)
        ensures made { self.new.build.made.items ≡ self.old.build.made.items }
    {
        for place in 0..LEAF_CLASSES {
            self.build.leaves[place].skips = 0;
        }
    }
}

/// Returns which sweep the next round serves, after that of the number `turn`. Leaves and nodes take turns, and so do the classes of leaves,
/// once the sweep of one is over.
fn next_turn(turn: usize, is_over: bool) -> usize {
    let turn = turn % (2 * LEAF_CLASSES);
    if turn % 2 == 0 {
        turn + 1
    } else if is_over {
        (turn + 1) % (2 * LEAF_CLASSES)
    } else {
        turn - 1
    }
}

/// Goes on with the looks and sweeps of `stretch`, once `sweep` is over. After a look its claims know how many records are free. A sweep
/// follows if the look gave back many. Else the next look begins, if it is due. The records are nodes if `is_of_nodes` is true, else
/// leaves, and the stretch counts them from the number `from` on. Returns whether a look has just found more than an eighth of them free.
fn follow(sweep: &mut Sweep, stretch: &mut Stretch, is_of_nodes: bool, from: u32) -> bool {
    if !sweep.is_over() {
        return false;
    }
    let numbers = stretch.numbers();
    let count = numbers.end.saturating_sub(numbers.start);
    let recs = from.saturating_add(numbers.start)..from.saturating_add(numbers.end);
    let mut plenty = false;
    if sweep.is_look() {
        let free = sweep.count_free_among(count);
        stretch.note_free(free);
        plenty = free > count / PLENTY_SHARE;
        if sweep.has_given_share(LOST_SHARE) {
            *sweep = Sweep::of(is_of_nodes, recs, 1);
            return plenty;
        }
    }
    *sweep = Sweep::of_none();
    if stretch.is_look_due() {
        stretch.begin_look();
        *sweep = Sweep::of(is_of_nodes, recs, (count / LOOKED_AT).max(2));
    }
    plenty
}

/// Adds `rec` to the spare numbers of its kind and class, so that the next claim there tries `rec` first. If that list is full, `rec` isn't
/// kept. In any case claims skip that class no more. `layout` is that of the table. `build.made` and `build.gone` stay.
fn keep_spare(build: &mut Build, layout: Layout, rec: Rec)
    ensures { (build.new.made.items ≡ build.old.made.items) × (build.new.gone.items ≡ build.old.gone.items) }
{
    match rec {
        Rec::Node(number) => build.nodes.give_back(number),
        Rec::Leaf(number) => {
            let place = layout.class_of(number).index();
            let first = first_of_class(layout, place);
            build.leaves[place].give_back(number.saturating_sub(first));
        }
    }
}

/// Returns the number of the first leaf record of the class with the number `place`, by size.
fn first_of_class(layout: Layout, place: usize) -> u32 {
    match place {
        0 => 0,
        1 => layout.medium_from,
        2 => layout.large_from,
        3 => layout.wide_from,
        _ => layout.long_from,
    }
}

/// Returns, for each class of leaf records, the parts in which pass `number` claims. The table has this `layout`, and its records from
/// `free` on weren't loaded.
fn share_leaves(layout: Layout, number: u16, free: FirstFree) -> [Share; LEAF_CLASSES] {
    let share = |place: usize, from: u32, upto: u32, words: u32| {
        let (records, loaded) = (
            upto.saturating_sub(from),
            free.leaves[place].saturating_sub(from),
        );
        let most = FIRST_WORDS.checked_div(words).unwrap_or(0);
        if free.is_reserved {
            Share::of_committed(loaded)
        } else {
            Share::of(number, layout.passes, records, loaded, most)
        }
    };
    [
        share(0, 0, layout.medium_from, SHORT_WORDS as u32),
        share(
            1,
            layout.medium_from,
            layout.large_from,
            MEDIUM_WORDS as u32,
        ),
        share(2, layout.large_from, layout.wide_from, LARGE_WORDS as u32),
        share(3, layout.wide_from, layout.long_from, WIDE_WORDS as u32),
        share(4, layout.long_from, layout.leaves, LEAF_WORDS as u32),
    ]
}

/// Returns empty lists of a change, and hints whose claims begin as `nodes` and `leaves` say. `AllocError` if memory is refused.
fn new_build(
    alloc: Global,
    layout: Layout,
    nodes: Share,
    leaves: [Share; LEAF_CLASSES],
) -> Result<Build, AllocError>
    ensures { IfOk result (λ build. (build.made.items ≡ []) × (build.gone.items ≡ [])) }
{
    Ok(Build {
        made: BoundedVec::new(alloc)?,
        gone: BoundedVec::new(alloc)?,
        nodes: nodes.begin_claims(alloc, layout.nodes)?,
        walk: NodeWalk::begin(layout.nodes, false),
        leaves: [
            leaves[0].begin_claims(alloc, layout.medium_from)?,
            leaves[1].begin_claims(alloc, layout.large_from.saturating_sub(layout.medium_from))?,
            leaves[2].begin_claims(alloc, layout.wide_from.saturating_sub(layout.large_from))?,
            leaves[3].begin_claims(alloc, layout.long_from.saturating_sub(layout.wide_from))?,
            leaves[4].begin_claims(alloc, layout.leaves.saturating_sub(layout.long_from))?,
        ],
    })
}

/// Returns empty scratch lists for pass `number`. The table has this `layout`, and its records from `free` on weren't loaded. `AllocError`
/// if memory is refused.
pub fn new_scratch(
    alloc: Global,
    layout: Layout,
    number: u16,
    free: FirstFree,
) -> Result<Box<Scratch>, AllocError>
    ensures { IfOk result (λ scratch. (scratch.value.way.items ≡ []) × (scratch.value.build.made.items ≡ []) × (scratch.value.build.gone.items ≡ [])) }
{
    let most_nodes = FIRST_WORDS / NODE_WORDS as u32;
    let nodes = if free.is_reserved {
        Share::of_committed(free.node)
    } else {
        Share::of(number, layout.passes, layout.nodes, free.node, most_nodes)
    };
    let leaves = share_leaves(layout, number, free);
    let scratch = Scratch {
        way: BoundedVec::new(alloc)?,
        build: new_build(alloc, layout, nodes, leaves)?,
        limbo: Limbo::new(alloc, layout)?,
        nodes,
        leaves,
        sweeps: [Sweep::of_none(), Sweep::of_none()],
        turn: 0,
        lacked: LEAF_CLASSES,
        ends: [0; RECORD_KINDS],
    };
    Ok(Box::new(alloc, scratch)?)
}
