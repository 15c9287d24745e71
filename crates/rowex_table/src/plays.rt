//! The rule of the table, and what its steps tell.

ghost use Rattle.std.specs.Prelude.{ℕ, List, [], Option as Maybe, None};
ghost use Rattle.finite_map.specs.declared.Note.{Note};
ghost use Rattle.record_words.specs.declared.layout.Layout.{Layout as Laid};
ghost use Rattle.rowex_core.specs.declared.event.Act.{Act as Deed};
ghost use Rattle.rowex_core.specs.declared.event.Act.TheVariants.{ClearPin};
ghost use Rattle.rowex_core.specs.declared.known.Known.{Known};
ghost use Rattle.rowex_table.specs.declared.traces.TracedView.TheVariants.{Spent};
ghost use Rattle.rowex_table.specs.Rule.{Ruled, did, first_view, met, next_dealer, dealt, bounding, committing, paired, first_of_two, second_of_two, stamped, stamping, following, followed, touching};

use crate::first_words::FirstWords;
use crate::traces::TracedView;
use atomic_table::{Join, Play, Split, TableRule};
use std::marker::{Brand, PhantomData};

/// The rule of a table with a layout. A list of steps leads from a new table to a lawful core, which the table's words show. If the table's
/// first words show loaded pairs, the list begins with the load. What each seat knows is true of the core and of the list. No two seats are
/// of one pass, and each pass has a seat or is still to be dealt.
pub(crate) struct RowexRule;

impl TableRule<(), TracedView, FirstWords> for RowexRule {
    ghost holds = { λ first_words. Ruled first_words.layout };

    ghost first = { λ first_words. first_view first_words.layout first_words.loads first_words.words.items };
}

/// Which event a step makes, at a table of which layout, and the notes that its caller adds to what is known after it.
pub(crate) trait Step {
    ghost layout: { Maybe Laid };

    ghost act: { Deed };

    ghost said: { Known → List Note };
}

// Each call at `Brand` names its own step in place of these.
impl Step for Brand {
    ghost layout = { None };

    ghost act = { ClearPin };

    ghost said = { λ _. [] };
}

/// Which word of those that say how many records are uncommitted, at a table of which layout, and what an exchange of it expects and stores.
pub(crate) trait UncommittedWord {
    ghost layout: { Maybe Laid };

    ghost kind: { ℕ };

    ghost expected: { ℕ };

    ghost count: { ℕ };
}

impl UncommittedWord for Brand {
    ghost layout = { None };

    ghost kind = { 0 };

    ghost expected = { 0 };

    ghost count = { 0 };
}

/// The load of the word that `Q` names.
pub(crate) struct Bounding<Q> {
    step: PhantomData<Q>,
}

impl<Q: UncommittedWord> Play<(), TracedView> for Bounding<Q> {
    ghost then = { bounding Q.layout Q.kind };
}

/// The exchange of the word that `Q` names.
pub(crate) struct Committing<Q> {
    step: PhantomData<Q>,
}

impl<Q: UncommittedWord> Play<(), TracedView> for Committing<Q> {
    ghost then = { committing Q.layout Q.kind Q.expected Q.count };
}

/// The step of a pass that `Q` names, made through its seat.
pub(crate) struct Stepping<Q> {
    step: PhantomData<Q>,
}

impl<Q: Step> Play<(), TracedView> for Stepping<Q> {
    ghost then = { did Q.layout Q.act Q.said };
}

/// The meeting of two passes whose seats are joined, at a table of the layout that `Q` names.
pub(crate) struct Meets<Q> {
    step: PhantomData<Q>,
}

impl<Q: Step> Play<(), TracedView> for Meets<Q> {
    ghost then = { met Q.layout };
}

/// The load of a word that its pass ignores. It counts as a touch, and is no event.
pub(crate) struct Touching;

impl Play<(), TracedView> for Touching {
    ghost then = { touching };
}

/// A dealer's seat as two: the dealer's, and that of the pass that it hands out.
pub(crate) struct Deal;

impl Split<TracedView> for Deal {
    ghost left = { next_dealer };

    ghost right = { dealt };
}

/// The seats of two passes as one, for a meeting, and that one seat as the two again.
pub(crate) struct Part;

impl Split<TracedView> for Part {
    ghost left = { first_of_two };

    ghost right = { second_of_two };
}

impl Join<TracedView> for Part {
    ghost both = { paired };

    ghost spent = { Spent };
}

/// The seat of a pass as two: the pass's, and that of a stamp. Or the seats of a pass and of a stamp as one, to follow the stamp.
pub(crate) struct Stamping;

impl Split<TracedView> for Stamping {
    ghost left = { stamping };

    ghost right = { stamped };
}

impl Join<TracedView> for Stamping {
    ghost both = { following };

    ghost spent = { Spent };
}

/// The step by which a pass follows the stamp whose seat is joined to its own, at a table of the layout that `Q` names.
pub(crate) struct Follows<Q> {
    step: PhantomData<Q>,
}

impl<Q: Step> Play<(), TracedView> for Follows<Q> {
    ghost then = { followed Q.layout };
}
