//! What a list keeps of a pair beside the bytes of its key.

/// How many bytes the key of a pair has, and its value. The fields have the order of C's.
#[repr(C)]
#[derive(Clone, Copy, Drop)]
pub struct PairHead {
    pub count: u8,
    pub value: u64,
}
