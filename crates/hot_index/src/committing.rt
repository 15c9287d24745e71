//! Reserved records: how many of a kind aren't committed yet, and how more are.

ghost use Rattle.std.specs.Prelude.{◌≡◌, ◌<◌, ◌≤◌, MatchOption};
ghost use Rattle.record_words.specs.declared.TheConstants.{RECORD_KINDS};
ghost use Rattle.hot_index_calls.specs.Passes.{Owns};
ghost use Rattle.hot_index.specs.Committing.{KnowsUncommitted, HasFallen, number_of_kind};

use crate::index::{Index, Pass};
use record_words::{Layout, LeafClass};

/// A kind of records: nodes, or the leaves of a class.
#[derive(Clone, Copy)]
pub enum Kind {
    Nodes,
    Leaves(LeafClass),
}

impl Kind {
    /// Returns the kind with this number, or `None` if it is above 5.
    pub fn of(number: u32) -> Option<Kind>
        ensures { MatchOption result (RECORD_KINDS ≤ number) (λ kind. number_of_kind kind ≡ number) }
    {
        match number {
            0 => Some(Kind::Nodes),
            1 => Some(Kind::Leaves(LeafClass::Short)),
            2 => Some(Kind::Leaves(LeafClass::Medium)),
            3 => Some(Kind::Leaves(LeafClass::Large)),
            4 => Some(Kind::Leaves(LeafClass::Wide)),
            5 => Some(Kind::Leaves(LeafClass::Long)),
            _ => None,
        }
    }

    /// Returns the number of the kind: 0 for nodes, and 1 to 5 for leaves, the smallest class first.
    fn number(self) -> u8
        ensures number { result ≡ number_of_kind self }
        ensures few { result < RECORD_KINDS }
    {
        match self {
            Kind::Nodes => 0,
            Kind::Leaves(LeafClass::Short) => 1,
            Kind::Leaves(LeafClass::Medium) => 2,
            Kind::Leaves(LeafClass::Large) => 3,
            Kind::Leaves(LeafClass::Wide) => 4,
            Kind::Leaves(LeafClass::Long) => 5,
        }
    }

    /// Returns how many records of the kind a table of `layout` has.
    fn count(self, layout: &Layout) -> u32 {
        let (from, end) = match self {
            Kind::Nodes => (0, layout.nodes),
            Kind::Leaves(LeafClass::Short) => (0, layout.medium_from),
            Kind::Leaves(LeafClass::Medium) => (layout.medium_from, layout.large_from),
            Kind::Leaves(LeafClass::Large) => (layout.large_from, layout.wide_from),
            Kind::Leaves(LeafClass::Wide) => (layout.wide_from, layout.long_from),
            Kind::Leaves(LeafClass::Long) => (layout.long_from, layout.leaves),
        };
        end.saturating_sub(from)
    }
}

/// Returns the number of the record from which on `count` of `all` records stand; 0 if there are more.
fn number_from_end(all: u32, count: u64) -> u32 {
    u64::from(all).saturating_sub(count) as u32
}

impl Index {
    /// Returns how many records of `kind` are reserved and not committed: the last ones of the kind. The number only falls, by `commit` of
    /// any pass. It is 0 in an index that `create_reserved` hasn't made.
    ///
    /// It loads one word, which counts as no step. All else that the pass knows stays.
    pub fn uncommitted(&self, pass: &mut Pass, kind: Kind) -> u64
        requires { Owns self.now pass.old }
        ensures own { Owns self.now pass.new }
        ensures found { KnowsUncommitted kind result pass.old pass.new }
    {
        self.table.load_uncommitted(&mut pass.seat, kind.number())
    }

    /// Commits the next `count` records of `kind`, or all that are left if these are fewer. Returns how many of the kind are uncommitted
    /// then: fewer than the pass knew of, or none, unless `count` is 0. The pass's next claims go on with these. If another pass commits some
    /// of the kind at the same time, this call may commit none. It changes no key.
    ///
    /// It makes one load and one exchange of a word, which count as no steps. All else that the pass knows stays.
    pub fn commit(&self, pass: &mut Pass, kind: Kind, count: u64) -> u64
        requires { Owns self.now pass.old }
        ensures own { Owns self.now pass.new }
        ensures found { KnowsUncommitted kind result pass.old pass.new }
        ensures falls { 0 < count → HasFallen kind result pass.old }
    {
        let all = kind.count(&self.table.layout());
        let kind = kind.number();
        let found = self.table.load_uncommitted(&mut pass.seat, kind);
        let left = found.saturating_sub(count);
        let seen = self.table.commit_records(&mut pass.seat, kind, found, left);
        if seen != found {
            return seen;
        }
        let numbers = number_from_end(all, found)..number_from_end(all, left);
        pass.scratch.take_committed(kind, numbers);
        left
    }

    /// Returns whether the next `count` claims of `kind` by this pass may go past the records that it has committed by `commit`: then it is
    /// time for another `commit`, so that no change finds that none is free. This is a hint, which promises nothing.
    pub fn is_short_of(&self, pass: &Pass, kind: Kind, count: u32) -> bool {
        pass.scratch.is_short_of(kind.number(), count)
    }
}
