//! Handles of bulk loads.

mod cell;
mod handle;
mod lending;
mod open_load;

pub use cell::LoadCell;
pub use handle::LoadHandle;
pub use open_load::OpenLoad;
