//! By which change one list of leaves became another.

ghost use Rattle.std.specs.Prelude.{ℕ, ◌≡◌, ◌<◌, ◌≤◌, Some, None, length, map, slice_index};
ghost use Rattle.rowex_replay_state.specs.Versions.{read_item};
ghost use Rattle.rowex_core.specs.Events.{AgreeByNumber};
ghost use Rattle.rowex_replay_state.specs.Changed.{BeginApart, IsFoundChange, IsMade, numbers};

use crate::linked::Item;
use finite_map::{Change, Kind};
use std::cmp::Ordering;

/// Returns the change by which `pass` made the leaves `before` the leaves `after`: one leaf more, one less, or one for another of its key.
/// `None` exactly if the two lists don't differ by such a change. Both lists have to be in the order of the keys, and leaves of one number
/// have to be one leaf.
pub fn change_between(pass: u16, before: &[Item], after: &[Item]) -> Option<Change>
    ensures { AgreeByNumber (map read_item before.now) (map read_item after.now) → IsFoundChange pass (map read_item before.now) (map read_item after.now) result }
{
    let front = count_same_first_items(before, after);
    change_from_first_difference(pass, &before[front..], &after[front..])
}

/// Returns the change by which `pass` made the leaves `gone` the leaves `come`; `None` exactly if the two lists don't differ by one change.
/// If both lists have a first leaf, these two have different numbers. So the change is at the first place, and the lesser of the two keys
/// tells which leaf it is. Both lists have to be in the order of the keys, and leaves of one number have to be one leaf.
fn change_from_first_difference(pass: u16, gone: &[Item], come: &[Item]) -> Option<Change>
    requires { BeginApart (map read_item gone.now) (map read_item come.now) }
    ensures { AgreeByNumber (map read_item gone.now) (map read_item come.now) → IsFoundChange pass (map read_item gone.now) (map read_item come.now) result }
{
    match (gone.split_first(), come.split_first()) {
        (None, None) => None,
        (None, Some((new, rest))) => make_change(pass, new, Kind::Added, gone, rest),
        (Some((old, rest)), None) => make_change(pass, old, Kind::Removed, rest, come),
        (Some((old, gone_rest)), Some((new, come_rest))) => match old.key.cmp(&new.key) {
            Ordering::Less => make_change(pass, old, Kind::Removed, gone_rest, come),
            Ordering::Equal => make_change(pass, new, Kind::Replaced, gone_rest, come_rest),
            Ordering::Greater => make_change(pass, new, Kind::Added, gone, come_rest),
        },
    }
}

/// Returns the change of `pass` of the kind `kind` for the leaf `item`. `before` and `after` are the leaves beside it, before and after the
/// change. `None` exactly if these two lists don't have the same record numbers in the same order, since then more than one leaf has
/// changed.
fn make_change(
    pass: u16,
    item: &Item,
    kind: Kind,
    before: &[Item],
    after: &[Item],
) -> Option<Change>
    ensures { IsMade (map read_item before.now) (map read_item after.now) (record { pass = pass; key = item.now.key; value = item.now.value; kind = kind }) result }
{
    if before.len() == after.len() && count_same_first_items(before, after) == before.len() {
        Some(Change {
            pass,
            key: item.key.copy(),
            value: item.value,
            kind,
        })
    } else {
        None
    }
}

/// Returns how many leaves of `before` and `after`, from the first on, have the same record numbers. The count ends at the first place
/// where the numbers differ, or where a list ends.
fn count_same_first_items(before: &[Item], after: &[Item]) -> usize
    ensures within { result ≤ length before.now }
    ensures within_both { result ≤ length after.now }
    ensures same { (k : ℕ) → k < result → slice_index (numbers (map read_item before.now)) k ≡ slice_index (numbers (map read_item after.now)) k }
    ensures apart { result < length before.now → result < length after.now →
        slice_index (numbers (map read_item before.now)) result ≡ slice_index (numbers (map read_item after.now)) result → ⊥ }
{
    let common = before.len().min(after.len());
    for i in 0..common {
        if before[i].number != after[i].number {
            return i;
        }
    }
    common
}
