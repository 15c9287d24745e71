//! Limbo: the records that a pass has retired and not given back yet.

ghost use Rattle.std.specs.Prelude.{◌≡◌, ◌≢◌, ◌≤◌, ◌<◌, ◌⊎◌, ◌↔◌, ◌+◌, ◌-◌, ◌^◌, min, true, false, IfOk, IsTrue, vec_capacity};
ghost use Rattle.epochs.specs.Limbo.{due_after};
ghost use Rattle.epochs.specs.declared.limbo.Visited.TheVariants.{Waits};

use record_words::Layout;
use rowex_core::Rec;
use std::alloc::{AllocError, Global};
use std::ops::Range;

/// How many records a limbo list keeps at most. In a table with fewer records it is their number, rounded up to a power of two. A record
/// beyond that waits for a full round.
const MOST_WAITING: u32 = 16_384;

/// How many records a pass retires between two small rounds, at least. The cost of a round's begin, a load of each pin, is shared by these.
const LEAST_DUE: u32 = 32;

/// How many records a pass retires between two small rounds, at most. It is below `MOST_VISITED`: so rounds shorten a list that has grown
/// while a pin held records back.
const MOST_DUE: u32 = 96;

/// How many records a small round visits at most, which bounds its cost.
pub const MOST_VISITED: usize = 128;

/// How many records a small round visits at most in a look. They are far from one another, so that each may take long to load.
const MOST_LOOKED_AT: usize = 16;

/// How many records a round sweeps at most for each record that the pass has retired since the one before.
const SWEPT_FOR_ONE: usize = 4;

/// What a visit of a record came to.
#[derive(Clone, Copy)]
pub enum Visited {
    /// The visit gave the record back.
    Given,
    /// The record is retired, in an epoch that isn't below the bound of the round.
    Waits,
    /// The record is free already.
    Free,
    /// The record is in another state.
    Other,
}

/// Returns after how many retired records a small round is due in a table of `layout`. It is an eighth of the number of passes, since a
/// round loads each pin. But the lists of all passes together are to have at most a quarter of the nodes. It is at least `LEAST_DUE`, which
/// comes first, and at most `MOST_DUE`.
fn records_between_rounds(layout: Layout) -> u32
    ensures { result ≡ due_after layout }
{
    let by_pins = layout.passes / 8;
    let by_nodes = layout.nodes / 4 / layout.passes;
    by_pins.min(by_nodes).min(MOST_DUE).max(LEAST_DUE)
}

/// What small rounds visit beside the limbo list: records of one kind, from the number `next` on, below `end`. A sweep visits each of them,
/// so that those are found again for which the list had no room. A look visits each `step`th, to tell about how many are free. These are
/// plain numbers, which promise nothing.
#[derive(Clone, Copy)]
pub struct Sweep {
    /// Whether they are nodes.
    is_of_nodes: bool,
    next: u32,
    end: u32,
    /// 1 for a sweep, and more for a look.
    step: u32,
    /// How many were visited. This and the next ones stop at 65,535: a look visits few.
    visited: u16,
    /// How many of these were free before.
    free: u16,
    /// How many the visits gave back.
    given: u16,
}

impl Sweep {
    /// Returns the sweep of no record.
    pub fn of_none() -> Sweep {
        Sweep::of(false, 0..0, 1)
    }

    /// Returns the sweep of each `step`th record of `numbers`: nodes if `is_of_nodes` is true, else leaves.
    pub fn of(is_of_nodes: bool, numbers: Range<u32>, step: u32) -> Sweep
        ensures { (result.next ≡ numbers.start) × (result.end ≡ numbers.end) × (result.step ≡ step) × (result.is_of_nodes ≡ is_of_nodes) }
    {
        Sweep {
            is_of_nodes,
            next: numbers.start,
            end: numbers.end,
            step,
            visited: 0,
            free: 0,
            given: 0,
        }
    }

    /// Returns whether each record was visited.
    pub fn is_over(&self) -> bool
        ensures { IsTrue result ↔ self.now.end ≤ self.now.next }
    {
        self.next >= self.end
    }

    /// Returns whether records between those that are visited are left out.
    pub fn is_look(&self) -> bool
        ensures { IsTrue result ↔ 1 < self.now.step }
    {
        self.step > 1
    }

    /// Returns about how many of `count` records are free, if as many of them are as of those visited.
    pub fn count_free_among(&self, count: u32) -> u32 {
        let free = u64::from(self.free.saturating_add(self.given)) * u64::from(count);
        u32::try_from(free.checked_div(u64::from(self.visited)).unwrap_or(0)).unwrap_or(u32::MAX)
    }

    /// Returns whether more than one of `share` records that were visited was given back.
    pub fn has_given_share(&self, share: u16) -> bool {
        self.given > self.visited.checked_div(share).unwrap_or(0)
    }

    /// Returns how many records a round may visit here, if the pass has retired `retired` since the one before.
    pub(crate) fn most_visits(&self, retired: u32) -> usize
        ensures look { 1 < self.now.step → result ≤ MOST_LOOKED_AT }
    {
        let most = (retired as usize).saturating_mul(SWEPT_FOR_ONE);
        if self.is_look() {
            most.min(MOST_LOOKED_AT)
        } else {
            most
        }
    }

    /// Returns the next record to visit, and goes on behind it; `None` if each was visited.
    pub(crate) fn take_next(&mut self) -> Option<Rec> {
        if self.is_over() {
            return None;
        }
        let number = self.next;
        self.next = number.saturating_add(self.step);
        Some(if self.is_of_nodes {
            Rec::Node(number)
        } else {
            Rec::Leaf(number)
        })
    }

    /// Counts a visit, which came to `seen`.
    pub(crate) fn count_visit(&mut self, seen: Visited) {
        self.visited = self.visited.saturating_add(1);
        match seen {
            Visited::Given => self.given = self.given.saturating_add(1),
            Visited::Free => self.free = self.free.saturating_add(1),
            Visited::Waits | Visited::Other => {}
        }
    }
}

/// The limbo list of a pass: the records that it has retired and not given back yet, the oldest first.
///
/// These are plain numbers, which promise nothing. A record of the list may have been given back by a full round, of this pass or of
/// another. One for which the list has no room is left to such rounds, and to sweeps.
#[derive(Drop)]
pub struct Limbo {
    /// The ring of the records that wait, as far as it has been used. Its memory is that of all of it, for a number of records that is a
    /// power of two.
    waiting: Vec<Rec>,
    /// Where the oldest stands.
    first: usize,
    /// How many wait.
    count: usize,
    /// How many the pass has retired since its last small round.
    retired: u32,
    /// The bound of the pass's last full round by `collect_if_risen`; 0 before the first.
    pub(crate) swept: u64,
    /// What the last small round has given back, as far as it finds room here.
    pub given: Vec<Rec>,
    /// Whether a small round is due as soon as the pass has retired a record.
    is_eager: bool,
    /// How many small rounds the pass makes, at most, until it no longer takes records for scarce.
    scarce: u32,
}

impl Limbo {
    /// Returns an empty list, for a pass of a table with `layout` that has retired no record; `AllocError` if memory is refused. No later
    /// call on the list asks for memory.
    pub fn new(alloc: Global, layout: Layout) -> Result<Limbo, AllocError>
        ensures { IfOk result (λ limbo. (limbo.count ≡ 0) × (limbo.retired ≡ 0) × (limbo.is_eager ≡ false)) }
    {
        let records = layout.nodes.saturating_add(layout.leaves);
        let room = records.min(MOST_WAITING).next_power_of_two() as usize;
        Ok(Limbo {
            waiting: Vec::with_capacity(alloc, room)?,
            first: 0,
            count: 0,
            retired: 0,
            swept: 0,
            given: Vec::with_capacity(alloc, (records as usize).min(MOST_VISITED))?,
            is_eager: false,
            scarce: 0,
        })
    }

    /// Puts `rec`, which the pass has just retired, at the end of the list. If the list is full, the record is left to full rounds. In any
    /// case it counts towards the next small round; the count stops at 2^32 - 1.
    pub fn push(&mut self, rec: Rec)
        ensures retired { self.new.retired ≡ min (self.old.retired + 1) (2 ^ 32 - 1) }
        ensures room { self.old.count < vec_capacity self.old.waiting → self.new.count ≡ self.old.count + 1 }
        ensures full { vec_capacity self.old.waiting ≤ self.old.count → self.new.count ≡ self.old.count }
    {
        self.retired = self.retired.saturating_add(1);
        if self.count < self.waiting.capacity() {
            let place = self.place_of(self.count);
            if place < self.waiting.len() {
                self.waiting[place] = rec;
            } else {
                self.waiting.push_reserved(rec);
            }
            self.count += 1;
        }
    }

    /// Returns the ring's index of the record that waits at `index`, counted from 0 at the oldest. It is within the ring if that has memory
    /// at all.
    fn place_of(&self, index: usize) -> usize
        ensures { 0 < vec_capacity self.now.waiting → result < vec_capacity self.now.waiting }
    {
        // The ring has a power of two as its length.
        self.first.wrapping_add(index) & self.waiting.capacity().wrapping_sub(1)
    }

    /// Returns whether a small round is due in a table of `layout`: the pass has retired as many records since its last one as `due_after`
    /// says. Where records are scarce one is enough. Most calls end at the first comparison, which needs no division.
    pub fn is_due(&self, layout: Layout) -> bool
        ensures due { result ≡ true → (due_after layout ≤ self.now.retired) ⊎ ((self.now.is_eager ≡ true) × (1 ≤ self.now.retired)) }
        ensures early { result ≡ false → self.now.retired < due_after layout }
        ensures eager { result ≡ false → self.now.is_eager ≡ true → self.now.retired ≡ 0 }
    {
        (self.retired >= LEAST_DUE && self.retired >= records_between_rounds(layout))
            || (self.is_eager && self.retired > 0)
    }

    /// Notes that no record of a kind was free, and that a full round followed: no record counts towards the next small round. For the next
    /// `rounds` of these records are scarce: one is due as soon as the pass retires a record.
    pub fn note_scarce(&mut self, rounds: u32)
        ensures eager { self.new.is_eager ≡ true }
        ensures same { (self.new.retired ≡ 0) × (self.new.count ≡ self.old.count) }
    {
        self.retired = 0;
        self.is_eager = true;
        self.scarce = rounds;
    }

    /// Notes after a small round whether the pass has `few` spare records: only then the next round is due as soon as it retires one, if
    /// records are scarce. They no longer are if `plenty` is true.
    pub fn note_round(&mut self, few: bool, plenty: bool)
        ensures eager { self.new.is_eager ≡ true → (few ≡ true) × (plenty ≡ false) }
        ensures same { (self.new.retired ≡ self.old.retired) × (self.new.count ≡ self.old.count) }
    {
        self.is_eager = few && !plenty && self.scarce > 0;
        self.scarce = if plenty {
            0
        } else {
            self.scarce.saturating_sub(1)
        };
    }

    /// Makes the list ready for a small round: `given` is empty, and no record counts towards the next round. Those that wait stay.
    pub(crate) fn clear_round(&mut self)
        ensures { (self.new.retired ≡ 0) × (self.new.count ≡ self.old.count) }
    {
        self.retired = 0;
        self.given.clear();
    }

    /// Returns how many records wait.
    pub(crate) fn count(&self) -> usize
        ensures { result ≡ self.now.count }
    {
        self.count
    }

    /// Returns the record that waits at `index`, counted from 0 at the oldest; `None` if the ring has no record at that place. No contract
    /// says which: the number is a hint, and a visit loads the record's state.
    pub(crate) fn waiting_record(&self, index: usize) -> Option<Rec> {
        self.waiting.as_slice().get(self.place_of(index)).copied()
    }

    /// Returns how many records the pass has retired since its last small round.
    pub(crate) fn retired(&self) -> u32
        ensures { result ≡ self.now.retired }
    {
        self.retired
    }

    /// Adds `rec` to `given` if `seen`, what its visit came to, is `Given` and there is room. Returns whether `rec` is to leave the list:
    /// `false` exactly if it has to wait. The list of those that wait stays until `drop_oldest_records`.
    pub(crate) fn take_visit(&mut self, rec: Rec, seen: Visited) -> bool
        ensures waits { seen ≡ Waits → result ≡ false }
        ensures leaves { seen ≢ Waits → result ≡ true }
        ensures same { (self.new.count ≡ self.old.count) × (self.new.retired ≡ self.old.retired) }
    {
        match seen {
            Visited::Waits => return false,
            Visited::Given if self.given.len() < self.given.capacity() => {
                self.given.push_reserved(rec);
            }
            _ => {}
        }
        true
    }

    /// Takes the oldest `count` records out of the list; all, if there are fewer. How many count towards the next small round stays. An
    /// empty list begins again at its first place, so that a short list stays in little memory.
    pub(crate) fn drop_oldest_records(&mut self, count: usize)
        ensures { (self.new.count ≡ self.old.count - count) × (self.new.retired ≡ self.old.retired) }
    {
        self.count = self.count.saturating_sub(count);
        if self.count == 0 {
            self.first = 0;
        } else {
            self.first = self.place_of(count);
        }
    }
}
