//! `BoundedVec` and its methods.

ghost use Rattle.std.specs.Prelude.{◌≡◌, ◌⊎◌, ◌<◌, ◌≤◌, [], ◌∷◌, ◌++◌, length, min, take, vec_capacity, IfOk, IsSome, OnSome, slice_get, ◌+◌, ◌-◌, ◌↔◌};
ghost use Rattle.std.specs.Option.{option_to_list};

use std::alloc::{AllocError, Global};
use std::marker::Model;
use std::mem::swap;

/// How many elements have memory apart from that for `MOST`. A list that never had more leaves the other memory unwritten, and the system
/// may then never give it pages.
const FEW: usize = 8;

/// A vector of at most `MOST` elements. Their memory is on the heap, from when the vector is made: no later call asks for any.
///
/// Contracts see the elements, as `items`.
#[derive(Drop)]
pub struct BoundedVec<T, const MOST: usize> {
    /// The elements. There is memory for [`FEW`] of them, and for `MOST` once there were more.
    elements: Vec<T>,
    /// No element: it keeps the memory for `MOST` until `elements` takes it.
    empty: Vec<T>,
}

impl<T, const MOST: usize> Model for BoundedVec<T, MOST> {
    ghost use Rattle.std.specs.Prelude.{◌≡◌, ◌⊎◌, [], min, vec_capacity};
    ghost use Rattle.bounded_vec.specs.declared.bounded_vec.TheConstants.{FEW};
    ghost use Rattle.bounded_vec.specs.Bounded.{BoundedVec as Elements, bounded_vec_code};

    ghost Value = { Elements T };

    ghost coded = { bounded_vec_code T.code };

    ghost view = { λ v. record { items = v.elements.items } };

    ghost invariant = { λ v. (v.empty.items ≡ []) × ((vec_capacity v.elements ≡ MOST) ⊎ (vec_capacity v.elements ≡ min FEW MOST) × (vec_capacity v.empty ≡ MOST)) };
}

impl<T, const MOST: usize> BoundedVec<T, MOST> {
    /// Returns the elements, at most `MOST`. Inline, since it is short, as the methods below are.
    #[inline(always)]
    pub fn as_slice(&self) -> &[T]
        ensures value { result.now ≡ self.now.items }
        ensures fits { length result.now ≤ MOST }
    {
        self.elements.as_slice()
    }

    /// Returns how many elements there are.
    #[inline(always)]
    pub fn len(&self) -> usize
        ensures { result ≡ length self.now.items }
    {
        self.elements.len()
    }

    /// Removes and returns the last element; `None` if there is none.
    #[inline(always)]
    pub fn pop(&mut self) -> Option<T>
        ensures items { self.old.items ≡ self.new.items ++ option_to_list result }
        ensures variant { IsSome result ↔ (0 < length self.old.items) }
        ensures len { OnSome result (length self.new.items + 1 ≡ length self.old.items) }
        ensures rest { self.new.items ≡ take (length self.old.items - 1) self.old.items }
        ensures value { result ≡ slice_get self.old.items (length self.old.items - 1) }
    {
        self.elements.pop()
    }
}

impl<T: Copy + Drop, const MOST: usize> BoundedVec<T, MOST> {
    /// Returns an empty vector with memory for `MOST` elements; `AllocError` if memory is refused.
    pub fn new(alloc: Global) -> Result<BoundedVec<T, MOST>, AllocError>
        ensures { IfOk result (λ v. v.items ≡ []) }
    {
        Ok(BoundedVec {
            elements: Vec::with_capacity(alloc, FEW.min(MOST))?,
            empty: Vec::with_capacity(alloc, MOST)?,
        })
    }

    /// Appends `element`. There must be room: fewer than `MOST` elements.
    #[inline(always)]
    pub fn push(&mut self, element: T)
        requires { length self.old.items < MOST }
        ensures items { self.new.items ≡ self.old.items ++ element ∷ [] }
    {
        if self.elements.len() == FEW {
            BoundedVec::<T, MOST>::make_room(&mut self.elements, &mut self.empty);
        }
        self.elements.push_reserved(element);
    }

    /// Moves `elements` into memory for `MOST` elements, that of `empty`, unless they stand there already. Then `empty` has the other
    /// memory. Not inline, since it is rare. The element to append is no parameter, so that it can stay in registers.
    #[inline(never)]
    fn make_room(elements: &mut Vec<T>, empty: &mut Vec<T>)
        requires room { length elements.old.items < MOST }
        requires empty { empty.old.items ≡ [] }
        requires memory { (vec_capacity elements.old ≡ MOST) ⊎ (vec_capacity elements.old ≡ min FEW MOST) × (vec_capacity empty.old ≡ MOST) }
        ensures items { elements.new.items ≡ elements.old.items }
        ensures empty { empty.new.items ≡ [] }
        ensures memory { vec_capacity elements.new ≡ MOST }
    {
        if elements.capacity() < MOST {
            for place in 0..elements.len() {
                empty.push_reserved(elements[place]);
            }
            elements.clear();
            swap(elements, empty);
        }
    }

    /// Keeps the first `count` elements; all, if there are fewer.
    #[inline(always)]
    pub fn truncate(&mut self, count: usize)
        ensures items { self.new.items ≡ take count self.old.items }
    {
        self.elements.truncate(count);
    }

    /// Removes all elements.
    #[inline(always)]
    pub fn clear(&mut self)
        ensures { self.new.items ≡ [] }
    {
        self.elements.clear();
    }
}
