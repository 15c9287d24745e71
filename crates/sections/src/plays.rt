//! The rule of the table, and what its steps tell.

ghost use Rattle.sections.specs.declared.events.Seated.TheVariants.{Dealer};
ghost use Rattle.sections.specs.Rule.{SectionsRuled, counting, section_dealt, entering, finding, found_moments, found_extent, found_word, leaving, next_section, taking};

use crate::events::Seated;
use atomic_table::{Play, Split, TableRule};

/// The rule of a table of so many sections: its words show a lawful run of events. What each seat knows is true of the run, and no two
/// seats have one section.
pub(crate) struct SectionRule;

impl TableRule<(), Seated, u16> for SectionRule {
    ghost holds = { SectionsRuled };

    ghost first = { λ count. Dealer 0 count };
}

/// A seat is dealt.
pub(crate) struct Deal;

impl Split<Seated> for Deal {
    ghost left = { next_section };

    ghost right = { section_dealt };
}

/// The number of moments is loaded.
pub(crate) struct FindsMoments;

impl Play<(), Seated> for FindsMoments {
    ghost then = { finding found_moments };
}

/// The extent is loaded: all sections that were ever entered have lower numbers.
pub(crate) struct FindsExtent;

impl Play<(), Seated> for FindsExtent {
    ghost then = { finding found_extent };
}

/// The word of a section is loaded.
pub(crate) struct FindsWord;

impl Play<(), Seated> for FindsWord {
    ghost then = { finding found_word };
}

/// The extent is raised above the number of the seat's own section.
pub(crate) struct Counts;

impl Play<(), Seated> for Counts {
    ghost then = { counting };
}

/// The seat's own section is entered.
pub(crate) struct Entering;

impl Play<(), Seated> for Entering {
    ghost then = { entering };
}

/// The seat's own section is left.
pub(crate) struct Leaving;

impl Play<(), Seated> for Leaving {
    ghost then = { leaving };
}

/// A moment is taken, unless another was taken since the seat's last load of their number.
pub(crate) struct Taking;

impl Play<(), Seated> for Taking {
    ghost then = { taking };
}
