//! What an open handle of a section holds.

ghost use Rattle.std.specs.Prelude.{All};
ghost use Rattle.sections.specs.Sections.{IsSectionOf};

use sections::{Section, Sections};
use std::alloc::Global;
use std::sync::Arc;

/// A section, with a share of its table.
#[derive(Drop)]
pub struct OpenSection {
    pub sections: Arc<Sections, Global>,
    pub section: Section,
    /// Sections of the table that others will open, the last one first.
    pub kept: Vec<Section>,
    /// Room, so that no line of a processor's cache has two sections.
    pub(crate) apart: [u64; 2],
    pub ghost own: { IsSectionOf sections.value section },
    pub ghost kept_own: { All (IsSectionOf sections.value) kept.items },
}
