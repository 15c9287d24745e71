//! The table of sections, and the sections as their owners have them.

ghost use Rattle.std.specs.Prelude.{◌≡◌, ◌+◌, ◌*◌, ◌<◌, ℕ, IfOk, length};
ghost use mathlib.Core.Option.{some};
ghost use lib.ListN.{get_elem?};
ghost use Rattle.sections.specs.Sections.{IsNewSection, SectionView};

use crate::events::Seated;
use crate::plays::{Deal, SectionRule};
use atomic_table::{Seat, Table};
use std::alloc::{AllocError, Global};
use std::marker::Model;

/// The most moments that a table tells apart. A section's word, which may be one more than that, still fits 64 bits.
pub const MOST_MOMENTS: u64 = 1 << 63;

/// The index of the word with the number of moments taken.
pub(crate) const MOMENTS: usize = 0;
/// The index of the word with the extent: all sections that were ever entered have lower numbers. It is eight words behind `MOMENTS`, in
/// another line of a processor's cache, since moments change more often.
pub(crate) const EXTENT: usize = 8;
/// The index of the word of section 0. That of each further section is 8 higher, so that no two are in one line of a processor's cache.
pub(crate) const FIRST_SECTION: usize = 16;

/// A section, which one thread has at a time: the right to enter it and to leave it. What its owner knows of the run takes no bytes.
#[derive(Drop)]
pub struct Section {
    pub(crate) seat: Seat<(), Seated>,
    pub(crate) number: u16,
    /// Whether the section is counted, as it is from its first entry on: the extent is above its number.
    pub(crate) counted: bool,
    /// The section's word in the table, which only its owner stores.
    pub(crate) word: u64,
}

impl Model for Section {
    ghost use Rattle.sections.specs.Sections.{SectionView};

    ghost Value = { SectionView };

    ghost use Rattle.sections.specs.Rule.{IsOwners, owner_of};

    ghost view = { λ s. record { table = s.seat.table_id; known = owner_of s.seat.me.0 } };

    ghost invariant = { λ s. IsOwners s.seat.me s.number s.counted s.word };
}

/// The words of the sections and of their moments, which threads share through a `&`.
#[derive(Drop)]
pub struct Sections {
    pub(crate) table: Table<(), Seated, u16, SectionRule, Global>,
    pub(crate) count: u16,
}

impl Model for Sections {
    ghost use Rattle.sections.specs.Sections.{SectionsView};

    ghost Value = { SectionsView };

    ghost use Rattle.std.specs.Prelude.{◌≡◌};
    ghost use Rattle.sections.specs.Rule.{sections_words};

    ghost view = { λ t. record { id = t.table.shared.table_id; count = t.count } };

    ghost invariant = { λ t. (t.table.shared.table_id.words ≡ sections_words t.count) × (t.table.shared.key ≡ t.count) };
}

impl Sections {
    /// Makes a table of `count` sections, none of which is open. Returns it with the sections, in the order of their numbers from 0 on.
    /// `AllocError` if memory is refused.
    pub fn new(alloc: Global, count: u16) -> Result<(Sections, Vec<Section>), AllocError>
        ensures table { IfOk result (λ made. made.0.count ≡ count) }
        ensures length { IfOk result (λ made. length made.1.items ≡ count) }
        ensures sections { IfOk result (λ made. (q : ℕ) (s : SectionView) → get_elem? made.1.items q ≡ some s → IsNewSection made.0 q s) }
    {
        let words = Vec::from_elem(alloc, 0u64, FIRST_SECTION + 8 * count as usize)?;
        let (table, mut dealer) = Table::of_words(alloc, words.as_slice(), &count)?;
        let mut sections = Vec::with_capacity(alloc, count as usize)?;
        for number in 0..count {
            let seat = table.shared.split_seat::<Deal>(&mut dealer);
            sections.push(Section {
                seat,
                number,
                counted: false,
                word: 0,
            })?;
        }
        Ok((Sections { table, count }, sections))
    }
}
