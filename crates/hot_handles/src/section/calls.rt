//! How sections are opened, and the calls of an open one.

ghost use Rattle.std.specs.Prelude.{◌≡◌, ◌<◌, [], IfErr, IfOk, MatchOption, false, true};
ghost use Rattle.sections.specs.Runs.{IsHeld, IsPast};
ghost use Rattle.sections.specs.Sections.{Enters, IsInside, IsSectionOf, Leaves, SeesOthers, TakesMoment};
ghost use Rattle.hot_handles.specs.SectionHandles.{HasOpenedSection, KeepsSections, IsUnchangedSection};

use crate::section::opened::OpenSection;
use sections::{Section, Sections};
use std::alloc::{AllocError, Global};
use std::sync::Arc;

/// Makes a new table of `count + 1` sections. `count` must be below 65,535, so that the number of sections fits 16 bits. Returns section 0,
/// new, in a box with a share of the table. The box keeps the `count` others for handles that `open_next` makes. `AllocError` if memory is
/// refused.
pub fn make_keeper(alloc: Global, count: u16) -> Result<Box<OpenSection, Global>, AllocError>
    requires { count < 65_535 }
    ensures { IfOk result (λ made. KeepsSections count made.value) }
{
    let (sections, mut kept) = Sections::new(alloc, count + 1)?;
    kept.reverse();
    let Some(section) = kept.pop() else {
        return Err(AllocError);
    };
    let sections = Arc::new(alloc, sections)?;
    let apart = [0; 2];
    Ok(Box::new(
        alloc,
        OpenSection {
            sections,
            section,
            kept,
            apart,
        },
    )?)
}

impl OpenSection {
    /// Takes the last section out of `kept`. Returns this section in a box, with a share of the table, for a handle that keeps no other
    /// section. It returns `None` if none is kept. All else of this handle stays. `AllocError` if memory is refused, and then all sections
    /// stay kept.
    pub fn open_next(
        &mut self,
        alloc: Global,
    ) -> Result<Option<Box<OpenSection, Global>>, AllocError>
        ensures opened { IfOk result (λ next. MatchOption next (self.old.kept.items ≡ [] × IsUnchangedSection self.old self.new)
            (λ b. HasOpenedSection self.old self.new b.value)) }
        ensures refused { IfErr result (λ _. IsUnchangedSection self.old self.new) }
    {
        let sections = Arc::try_clone(&self.sections)?;
        let Some(section) = self.kept.pop() else {
            return Ok(None);
        };
        match box_section(alloc, sections, section) {
            Ok(opened) => Ok(Some(opened)),
            Err(section) => {
                self.kept.push(section)?;
                Err(AllocError)
            }
        }
    }

    /// Returns whether the section is open.
    pub fn is_inside(&self) -> bool
        ensures inside { IsInside self.now.section → result ≡ true }
        ensures outside { ¬ IsInside self.now.section → result ≡ false }
    {
        self.section.is_inside()
    }

    /// Enters the section if it isn't open, as `Sections::enter` does, and returns whether it has entered. If it is open already, nothing
    /// changes. The table and the kept sections stay.
    pub fn enter(&mut self) -> bool
        ensures inside { IsInside self.old.section → (result ≡ false) × (self.new.section ≡ self.old.section) }
        ensures entered { ¬ IsInside self.old.section → (result ≡ true) × Enters self.old.section self.new.section }
        ensures keeps { (self.new.sections.value ≡ self.old.sections.value) × (self.new.kept.items ≡ self.old.kept.items) }
    {
        self.sections.enter(&mut self.section)
    }

    /// Leaves the section if it is open, as `Sections::leave` does, and returns whether it has left. If it isn't open, nothing changes. The
    /// table and the kept sections stay.
    pub fn leave(&mut self) -> bool
        ensures outside { ¬ IsInside self.old.section → (result ≡ false) × (self.new.section ≡ self.old.section) }
        ensures left { IsInside self.old.section → (result ≡ true) × Leaves self.old.section self.new.section }
        ensures keeps { (self.new.sections.value ≡ self.old.sections.value) × (self.new.kept.items ≡ self.old.kept.items) }
    {
        self.sections.leave(&mut self.section)
    }

    /// Takes a moment, and returns its number, from 1 on, as `Sections::take_moment` does. Once `MOST_MOMENTS` are taken, it takes none,
    /// and returns `MOST_MOMENTS + 1`. The section stays open, or not open, as it was. The table and the kept sections stay.
    pub fn take_moment(&mut self) -> u64
        ensures taken { TakesMoment result self.old.section self.new.section }
        ensures keeps { (self.new.sections.value ≡ self.old.sections.value) × (self.new.kept.items ≡ self.old.kept.items) }
    {
        self.sections.take_moment(&mut self.section)
    }

    /// Returns whether the moment with the number `moment` is past, as `Sections::is_past` does: each section that was open before it has
    /// been left since. If not, the moment hasn't been taken, or a section is open whose owner loaded the number of moments before this one
    /// was taken. The section stays open, or not open, as it was. The table and the kept sections stay.
    pub fn is_past(&mut self, moment: u64) -> bool
        ensures looks { SeesOthers self.old.section self.new.section }
        ensures past { result ≡ true → IsPast moment self.new.section.known.run }
        ensures held { result ≡ false → IsHeld moment self.new.section.known.run }
        ensures keeps { (self.new.sections.value ≡ self.old.sections.value) × (self.new.kept.items ≡ self.old.kept.items) }
    {
        self.sections.is_past(&mut self.section, moment)
    }
}

/// Returns a box of `section` with a share of `sections`, which must be the section's table. The box keeps no other section. If memory is
/// refused, the error is `section`.
fn box_section(
    alloc: Global,
    sections: Arc<Sections, Global>,
    section: Section,
) -> Result<Box<OpenSection, Global>, Section>
    requires { IsSectionOf sections.value section }
    ensures opened { IfOk result (λ b. (b.value.sections.value ≡ sections.value) × (b.value.section ≡ section) × (b.value.kept.items ≡ [])) }
    ensures refused { IfErr result (λ s. s ≡ section) }
{
    let opened = OpenSection {
        sections,
        section,
        kept: Vec::new(alloc),
        apart: [0; 2],
    };
    Box::new(alloc, opened).map_err(|refused| refused.value.section)
}
