//! Handles that a program in C may hold: of a load, of a section. And what a cell of a handle holds, whatever its type: a cell is a place
//! that C may hold.
//!
//! No type that crosses to C has type arguments, so each kind of handle has a cell of its own. In memory it is `Held`, and one lemma lets
//! it be used so (`casts`).
#![tactic(auto)]

mod held;
mod lending;
mod load;
mod section;

pub use held::Held;
pub use load::{LoadCell, LoadHandle, OpenLoad};
pub use section::{OpenSection, SectionCell, SectionHandle, make_keeper};
