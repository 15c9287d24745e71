//! A vector on the heap that never grows: all its memory is asked for when it is made.
//!
//! # What carries the proof
//!
//! The invariant of `BoundedVec` is that it has memory for `MOST` elements. So a `push` with fewer there asks for none.
#![tactic(auto)]

mod bounded_vec;

pub use bounded_vec::BoundedVec;
