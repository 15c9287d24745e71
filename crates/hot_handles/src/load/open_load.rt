//! What an open handle of a load holds.

use hot_index::Load;

/// A load that goes on.
#[derive(Drop)]
pub struct OpenLoad {
    pub load: Load,
}
