//! What a call asks for, by the value that its key was found to have.

ghost use Rattle.std.specs.Prelude.{◌≡◌, None, MatchOption};
ghost use Rattle.rowex_reading.specs.Ways.{value_of as the_value};
ghost use Rattle.rowex_writing.specs.plan.Asking.{IsRequest, aim_of as the_aim, aim_where as the_aim_where, value_in as the_value_in};

use crate::plan::Aim;
use finite_map::Call;
use rowex_reading::Found;

/// What a call requests for its key.
#[derive(Clone, Copy)]
pub(crate) struct Request {
    pub aim: Aim,
    /// The value that the key is to get; 0 for a removal.
    pub value: u64,
}

/// Returns what `call` requests, when the search for its key ended at `found`. `None` if it requests no change: for a get, for a call whose
/// expected value is not the key's, and for an addition to an absent key.
pub(crate) fn request_of(call: &Call, found: Found) -> Option<Request>
    ensures { MatchOption result (the_aim call.now (the_value found) ≡ None) (IsRequest call.now (the_value found)) }
{
    let held = found_value(found);
    let aim = aim_of(call, held)?;
    let value = new_value(call, held);
    Some(Request { aim, value })
}

/// Returns the value that `call` gives its key, if it changes the map. `held` is the key's value before; `None` if the key is absent. The
/// result is 0 for a get, a removal, and an addition to an absent key, which give no value.
fn new_value(call: &Call, held: Option<u64>) -> u64
    ensures { result ≡ the_value_in call.now held }
{
    match (call, held) {
        (Call::Insert(_, value) | Call::Upsert(_, value) | Call::Exchange(_, _, value), _) =>
            *value,
        (Call::Add(_, delta), Some(had)) => had.wrapping_add(*delta),
        (Call::Add(..) | Call::Get(_) | Call::Remove(_) | Call::RemoveIf(..), _) => 0,
    }
}

/// Returns the value of the key of a search that ended at `found`; `None` if it found nothing, or a leaf with another key.
pub(crate) fn found_value(found: Found) -> Option<u64>
    ensures { result ≡ the_value found }
{
    match found {
        Found::Leaf {
            value,
            mismatch: None,
            ..
        } => Some(value),
        _ => None,
    }
}

/// Returns what `call` aims at when its key has the value `held`, or is absent (`None`). The result is `None` if the call is to change
/// nothing.
fn aim_of(call: &Call, held: Option<u64>) -> Option<Aim>
    ensures { result ≡ the_aim call.now held }
{
    match call {
        Call::Get(_) => None,
        Call::Insert(..) => Some(Aim::Insert),
        Call::Upsert(..) => Some(Aim::Upsert),
        Call::Exchange(_, expected, _) => aim_if_expected(*expected, held, Aim::Upsert),
        Call::Add(..) => held.and(Some(Aim::Upsert)),
        Call::Remove(_) => Some(Aim::Remove),
        Call::RemoveIf(_, expected) => aim_if_expected(*expected, held, Aim::Remove),
    }
}

/// Returns `aim` if `held` is the value `expected`; `None` if it is another value, or the key is absent.
fn aim_if_expected(expected: u64, held: Option<u64>, aim: Aim) -> Option<Aim>
    ensures { result ≡ the_aim_where expected held aim }
{
    match held {
        Some(held) if held == expected => Some(aim),
        _ => None,
    }
}
