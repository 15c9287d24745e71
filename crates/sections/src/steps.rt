//! The atomic steps that owners of sections make, each on one word of the table.

ghost use Rattle.std.specs.Prelude.{◌≡◌, ◌≤◌, ◌<◌, ℕ, true};
ghost use Rattle.sections.specs.Runs.{HasNoneOf, moments_in, word_in};
ghost use Rattle.sections.specs.Sections.{Enters, IsInside, IsSectionOf, Leaves, SeesOthers, StartsCounting, TakesNext};

use crate::plays::{Counts, Entering, FindsExtent, FindsMoments, FindsWord, Leaving, Taking};
use crate::table::{EXTENT, FIRST_SECTION, MOMENTS, MOST_MOMENTS, Section, Sections};

impl Sections {
    /// Loads and returns the number of moments taken so far, at most `MOST_MOMENTS`. The owner then knows of the events of others up to
    /// now.
    pub(crate) fn load_moments(&self, section: &mut Section) -> u64
        requires { IsSectionOf self.now section.old }
        ensures looks { SeesOthers section.old section.new }
        ensures found { result ≡ moments_in section.new.known.run }
        ensures most { result ≤ MOST_MOMENTS }
    {
        self.table
            .shared
            .load::<FindsMoments>(&mut section.seat, MOMENTS)
    }

    /// Loads and returns the extent: all sections that were ever entered have numbers below it. It is at most the number of sections. The
    /// owner then knows of the events of others up to now.
    pub(crate) fn load_extent(&self, section: &mut Section) -> u16
        requires { IsSectionOf self.now section.old }
        ensures looks { SeesOthers section.old section.new }
        ensures within { result ≤ self.now.count }
        ensures beyond { (q : ℕ) → result ≤ q → HasNoneOf q section.new.known.run }
    {
        let extent = self
            .table
            .shared
            .load::<FindsExtent>(&mut section.seat, EXTENT);
        extent.min(self.count as u64) as u16
    }

    /// Loads and returns the word of the section with the number `of`. The owner then knows of the events of others up to now.
    pub(crate) fn load_word(&self, section: &mut Section, of: u16) -> u64
        requires own { IsSectionOf self.now section.old }
        requires range { of < self.now.count }
        ensures looks { SeesOthers section.old section.new }
        ensures found { result ≡ word_in of section.new.known.run }
    {
        let place = FIRST_SECTION + 8 * of as usize;
        self.table
            .shared
            .load::<FindsWord>(&mut section.seat, place)
    }

    /// Counts `section`: raises the extent above the section's number, if it is lower. From then on `is_past` loads the section's word. If
    /// the section is counted already, no step is made.
    pub(crate) fn count_section(&self, section: &mut Section)
        requires { IsSectionOf self.now section.old }
        ensures { StartsCounting section.old section.new }
    {
        if section.counted {
            return;
        }
        let next = section.number as u64 + 1;
        self.table
            .shared
            .fetch_max::<Counts>(&mut section.seat, EXTENT, next);
        section.counted = true;
    }

    /// Enters `section`: stores `moments` and one in its word. `section` isn't open, and is counted, so that `is_past` can't miss it.
    /// `moments` is how many moments the owner knows to be taken.
    pub(crate) fn store_entered(&self, section: &mut Section, moments: u64)
        requires own { IsSectionOf self.now section.old }
        requires outside { ¬ IsInside section.old }
        requires counted { section.old.known.counted ≡ true }
        requires moments { (moments ≤ MOST_MOMENTS) × (moments ≡ moments_in section.old.known.run) }
        ensures { Enters section.old section.new }
    {
        let place = FIRST_SECTION + 8 * section.number as usize;
        let word = moments + 1;
        self.table
            .shared
            .store::<Entering>(&mut section.seat, place, word);
        section.word = word;
    }

    /// Leaves `section`, which is open: stores 0 in its word.
    pub(crate) fn store_left(&self, section: &mut Section)
        requires own { IsSectionOf self.now section.old }
        requires inside { IsInside section.old }
        ensures { Leaves section.old section.new }
    {
        let place = FIRST_SECTION + 8 * section.number as usize;
        self.table
            .shared
            .store::<Leaving>(&mut section.seat, place, 0);
        section.word = 0;
    }

    /// Takes a moment if just `expected` have been taken up to now, which are fewer than `MOST_MOMENTS`; `expected` is how many the owner
    /// knows of. If more had been taken, nothing changes: then another owner's moment serves as well. The owner then knows of the events of
    /// others up to now.
    pub(crate) fn take_next(&self, section: &mut Section, expected: u64)
        requires own { IsSectionOf self.now section.old }
        requires fewer { (expected < MOST_MOMENTS) × (expected ≡ moments_in section.old.known.run) }
        ensures { TakesNext expected section.old section.new }
    {
        self.table
            .shared
            .compare_exchange::<Taking>(&mut section.seat, MOMENTS, expected, expected + 1);
    }
}
