//! The two directions of a scan.

/// In which order a scan lists the keys of its range.
#[derive(Clone, Copy)]
pub enum Direction {
    /// From the first key on, in rising order.
    Upwards,
    /// From the last key on, in falling order.
    Downwards,
}
