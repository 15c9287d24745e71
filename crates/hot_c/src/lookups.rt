//! The keys that a program in C looks up by one call.

ghost use Rattle.std.specs.Prelude.{◌≡◌, ◌↔◌, All, IfOk, IsTrue, length, map};
ghost use Rattle.hot_c.specs.Lookups.{answer, are_answered, key_in};
ghost use Rattle.hot_c.specs.Calls.{FitsInKey};

use crate::status::{ABSENT, FOUND};
use key_bits::{Key, MAX_BYTES};
use std::alloc::{AllocError, Global};

/// A key to look up, and what was found. The fields have the order of C's.
#[repr(C)]
pub struct Lookup<'a> {
    pub key: &'a [u8],
    /// The key's value, if it was found.
    pub value: u64,
    /// `FOUND` or `ABSENT`.
    pub status: u32,
}

/// Returns whether no key of `lookups` has more than 240 bytes.
pub fn have_fitting_keys(lookups: &[Lookup<'_>]) -> bool
    ensures { IsTrue result ↔ All (λ l. FitsInKey (key_in l)) lookups.now }
{
    lookups.iter().all(|lookup| lookup.key.len() <= MAX_BYTES)
}

/// Returns copies of the keys of `lookups`, in their order; none of them may have more than 240 bytes. `AllocError` if memory is refused.
pub fn copy_keys(alloc: Global, lookups: &[Lookup<'_>]) -> Result<Vec<Key>, AllocError>
    requires { All (λ l. FitsInKey (key_in l)) lookups.now }
    ensures { IfOk result (λ keys. keys.items ≡ map key_in lookups.now) }
{
    let mut keys = Vec::with_capacity(alloc, lookups.len())?;
    for lookup in lookups {
        let mut key = Key::empty();
        match key.set_bytes(lookup.key) {
            Ok(()) => keys.push(key)?,
            Err(_) => unreachable!(),
        }
    }
    Ok(keys)
}

/// Writes each of `found` to the element of `lookups` at the same index: `FOUND` with the value; or `ABSENT`, and the value there stays.
/// `found` must be as long as `lookups`.
pub fn write_found_values(found: &[Option<u64>], lookups: &mut [Lookup<'_>])
    requires { length found.now ≡ length lookups.old }
    ensures { lookups.new ≡ are_answered lookups.old found.now }
{
    for (place, value) in found.iter().enumerate() {
        write_found_value(*value, &mut lookups[place]);
    }
}

/// Writes `found`, the value of a key, to `lookup`: `FOUND` with the value; or `ABSENT`, and the value there stays.
fn write_found_value(found: Option<u64>, lookup: &mut Lookup<'_>)
    ensures { lookup.new ≡ answer lookup.old found }
{
    match found {
        Some(value) => {
            lookup.value = value;
            lookup.status = FOUND;
        }
        None => lookup.status = ABSENT,
    }
}
