//! What happens to sections, and what a seat of their table knows of it. No value of these types is made: contracts alone speak of them,
//! and their numbers are whole numbers without bound.

use std::collections::LinkedList;

/// What changes a section, or takes a moment.
pub enum SectionEvent {
    /// The section with the first number is entered. The second is how many moments had been taken when its owner loaded their number.
    Entered(u64, u64),
    /// The section of this number is left.
    Left(u64),
    /// A moment is taken.
    Taken,
}

/// What the owner of a section knows.
pub struct SectionKnowledge {
    /// The number of the section.
    pub number: u64,
    /// How many sections the table has.
    pub count: u64,
    /// Whether the section is counted, as it is from its first entry on: the extent is above its number.
    pub counted: bool,
    /// What has happened, up to the last event of which it knows. The newest event comes first.
    pub run: LinkedList<SectionEvent>,
}

/// What a seat of the table knows.
pub enum Seated {
    /// That the sections from this number on are still to be dealt, and how many the table has.
    Dealer(u64, u64),
    /// What the owner of a section knows.
    Owner(SectionKnowledge),
}
