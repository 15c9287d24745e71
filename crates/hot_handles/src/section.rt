//! Handles of sections.

mod calls;
mod cell;
mod handle;
mod lending;
mod opened;

pub use calls::make_keeper;
pub use cell::SectionCell;
pub use handle::SectionHandle;
pub use opened::OpenSection;
