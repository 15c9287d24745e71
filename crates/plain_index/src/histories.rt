//! Whether calls are legal in a front, decided from the values.
ghost use Rattle.std.specs.Prelude.{◌≡◌, ◌↔◌, IsTrue, slice_get};
ghost use Rattle.finite_map.specs.declared.Change.{Change};
ghost use Rattle.finite_map.specs.Maps.{value_at};
ghost use Rattle.finite_map.specs.Fronts.{FitsKind, LegalFront, map_of};
ghost use Rattle.finite_map.specs.Calls.{LegalCalls, RisesFrom, StandsIn, change_of, changes_of, effect_of, is_change, own_changes};

use finite_map::{Call, Change, Kind, Note, Reply};
use key_bits::Key;

/// Returns whether `front` is legal, and `notes` are legal in it as the calls of pass `pass`. Then each note has the map's reply at its
/// place. The places never fall, and rise after a change of the pass. The changes of the pass in `front` are just those that the notes tell
/// of. The time rises with the square of the lengths.
pub fn are_legal(front: &[Change], pass: u16, notes: &[Note]) -> bool
    ensures { IsTrue result ↔ LegalCalls front.now pass notes.now }
{
    is_legal_front(front)
        && notes.iter().all(|note| note_fits_front(front, pass, note))
        && places_rise_from(0, notes)
        && tell_own_changes(front, pass, notes)
}

/// Returns the kind and the value of the change that `call` makes if its reply is `reply`; `None` if it changes nothing.
fn effect_of(call: &Call, reply: Reply) -> Option<(Kind, u64)>
    ensures { result ≡ effect_of call.now reply }
{
    match (call, reply) {
        (Call::Insert(_, value), Reply::Inserted) => Some((Kind::Added, *value)),
        (Call::Upsert(_, value), Reply::New) => Some((Kind::Added, *value)),
        (Call::Upsert(_, value), Reply::Was(_)) => Some((Kind::Replaced, *value)),
        (Call::Exchange(_, _, value), Reply::Exchanged) => Some((Kind::Replaced, *value)),
        (Call::Add(_, delta), Reply::Was(held)) => {
            Some((Kind::Replaced, held.wrapping_add(*delta)))
        }
        (Call::Remove(_) | Call::RemoveIf(..), Reply::Removed(held)) => Some((Kind::Removed, held)),
        _ => None,
    }
}

/// Returns the value of `key` in the map of all changes of `front`; `None` if the key is absent there.
fn held_value(front: &[Change], key: &Key) -> Option<u64>
    ensures { result ≡ value_at (map_of front.now) key.now }
{
    let mut held = None;
    for change in front {
        if change.key == *key {
            held = match change.kind {
                Kind::Added | Kind::Replaced => Some(change.value),
                Kind::Removed => None,
            };
        }
    }
    held
}

/// Returns whether a change of the kind `kind` with `value` is legal where its key has the value `held`; `None` stands for an absent key.
fn is_legal_change(kind: Kind, held: Option<u64>, value: u64) -> bool
    ensures { IsTrue result ↔ FitsKind kind held value }
{
    match kind {
        Kind::Added => held.is_none(),
        Kind::Replaced => held.is_some(),
        Kind::Removed => held == Some(value),
    }
}

/// Returns whether each change of `front` is legal on the map that the changes before it have made of an empty one.
fn is_legal_front(front: &[Change]) -> bool
    ensures { IsTrue result ↔ LegalFront front.now }
{
    for (i, change) in front.iter().enumerate() {
        if !is_legal_change(
            change.kind,
            held_value(&front[..i], &change.key),
            change.value,
        ) {
            return false;
        }
    }
    true
}

/// Returns whether the call of `note` changed the map.
fn changes_map(note: &Note) -> bool
    ensures { result ≡ is_change note.now }
{
    effect_of(&note.call, note.reply).is_some()
}

/// Returns whether `change` is the one that the call of `note` made, as a call of `pass`.
fn tells_of_change(note: &Note, pass: u16, change: &Change) -> bool
    ensures { IsTrue result ↔ (change_of pass note.now ≡ Some change.now) }
{
    match effect_of(&note.call, note.reply) {
        None => false,
        Some((kind, value)) => {
            change.pass == pass
                && change.key == *note.call.key()
                && change.value == value
                && change.kind == kind
        }
    }
}

/// Returns whether the change that `note` tells of stands at the note's place in `front`. True if it tells of none.
fn names_change(front: &[Change], pass: u16, note: &Note) -> bool
    ensures { IsTrue result ↔ ((c : Change) → change_of pass note.now ≡ Some c → slice_get front.now note.now.place ≡ Some c) }
{
    if !changes_map(note) {
        return true;
    }
    match front.get(note.place as usize) {
        Some(change) => tells_of_change(note, pass, change),
        None => false,
    }
}

/// Returns whether `note` is legal in `front` as a note of `pass`. Its place is in the front, and its reply is that of the map there. The
/// change that it tells of, if any, stands at that place.
fn note_fits_front(front: &[Change], pass: u16, note: &Note) -> bool
    ensures { IsTrue result ↔ StandsIn front.now pass note.now }
{
    if note.place > front.len() as u64 {
        return false;
    }
    let held = held_value(&front[..note.place as usize], note.call.key());
    note.reply == note.call.reply(held) && names_change(front, pass, note)
}

/// Returns whether the places of `notes` begin at `low` or later, never fall, and rise behind each note that tells of a change. `low` has
/// 128 bits, since a place behind the greatest of 64 bits may be asked for.
fn places_rise_from(low: u128, notes: &[Note]) -> bool
    ensures { IsTrue result ↔ RisesFrom low notes.now }
{
    let Some((note, later)) = notes.split_first() else {
        return true;
    };
    let place = u128::from(note.place);
    let next = if changes_map(note) { place + 1 } else { place };
    low <= place && places_rise_from(next, later)
}

/// Returns whether the changes of `front` by `pass` are just those that `notes` tell of, in the same order.
fn tell_own_changes(front: &[Change], pass: u16, notes: &[Note]) -> bool
    ensures { IsTrue result ↔ (own_changes pass front.now ≡ changes_of pass notes.now) }
{
    match (front.split_first(), notes.split_first()) {
        (Some((change, rest)), _) if change.pass != pass => tell_own_changes(rest, pass, notes),
        (_, Some((note, later))) if !changes_map(note) => tell_own_changes(front, pass, later),
        (Some((change, rest)), Some((note, later))) => {
            tells_of_change(note, pass, change) && tell_own_changes(rest, pass, later)
        }
        (None, None) => true,
        _ => false,
    }
}
