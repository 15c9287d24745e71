//! The calls of sections.

ghost use Rattle.std.specs.Prelude.{◌≡◌, ◌<◌, ◌≤◌, true, false};
ghost use Rattle.sections.specs.Runs.{IsHeld, IsNewer, IsPast};
ghost use Rattle.sections.specs.Sections.{Enters, IsInside, IsSectionOf, Leaves, SeesOthers, TakesMoment};

use crate::table::{MOST_MOMENTS, Section, Sections};

impl Section {
    /// Returns whether the section is open: it has been entered, and not been left since.
    pub fn is_inside(&self) -> bool
        ensures inside { IsInside self.now → result ≡ true }
        ensures outside { ¬ IsInside self.now → result ≡ false }
    {
        self.word != 0
    }
}

impl Sections {
    /// Enters the section, and returns `true`. If it is open already, it stays so, and the result is `false`. Entering takes two atomic
    /// steps. At the first time it takes one more, which counts the section.
    pub fn enter(&self, section: &mut Section) -> bool
        requires { IsSectionOf self.now section.old }
        ensures inside { IsInside section.old → (result ≡ false) × (section.new ≡ section.old) }
        ensures entered { ¬ IsInside section.old → (result ≡ true) × Enters section.old section.new }
    {
        if section.is_inside() {
            return false;
        }
        self.count_section(section);
        let moments = self.load_moments(section);
        self.store_entered(section, moments);
        true
    }

    /// Leaves the section, and returns `true`. If it isn't open, nothing changes, and the result is `false`. Leaving takes one atomic step.
    pub fn leave(&self, section: &mut Section) -> bool
        requires { IsSectionOf self.now section.old }
        ensures outside { ¬ IsInside section.old → (result ≡ false) × (section.new ≡ section.old) }
        ensures left { IsInside section.old → (result ≡ true) × Leaves section.old section.new }
    {
        if !section.is_inside() {
            return false;
        }
        self.store_left(section);
        true
    }

    /// Takes a moment, and returns its number, from 1 on. Sections that are open at the call are entered before the moment. It takes two
    /// atomic steps at most. `section` may be open or not. Once `MOST_MOMENTS` are taken, each call returns one more than that, and takes
    /// none.
    pub fn take_moment(&self, section: &mut Section) -> u64
        requires { IsSectionOf self.now section.old }
        ensures { TakesMoment result section.old section.new }
    {
        let taken = self.load_moments(section);
        if taken < MOST_MOMENTS {
            self.take_next(section, taken);
        }
        taken + 1
    }

    /// Returns whether each section that was open before the moment with the number `moment` has been left since; `false` if the moment
    /// isn't taken yet. It waits for no section. It takes two atomic steps at most, and one for each section up to the last that was ever
    /// entered. The result may be `false` for a section that was entered as the moment was taken.
    pub fn is_past(&self, section: &mut Section, moment: u64) -> bool
        requires { IsSectionOf self.now section.old }
        ensures looks { SeesOthers section.old section.new }
        ensures past { result ≡ true → IsPast moment section.new.known.run }
        ensures held { result ≡ false → IsHeld moment section.new.known.run }
    {
        if self.load_moments(section) < moment {
            return false;
        }
        let extent = self.load_extent(section);
        for of in 0..extent {
            let word = self.load_word(section, of);
            if !is_newer(word, moment) {
                return false;
            }
        }
        true
    }
}

/// Returns whether a section with the word `word` isn't open, or its owner loaded the number of moments after `moment` was taken. The word
/// of an open section is one more than the number loaded, and that of any other section is 0. A section for which the result is `false` is
/// open.
fn is_newer(word: u64, moment: u64) -> bool
    ensures newer { result ≡ true → IsNewer moment word }
    ensures older { result ≡ false → (0 < word) × (word ≤ moment) }
{
    word == 0 || word > moment
}
