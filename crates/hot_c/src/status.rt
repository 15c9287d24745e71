//! The statuses that tell a program in C how a call came out.

ghost use Rattle.std.specs.Prelude.{◌≡◌};
ghost use Rattle.std.specs.Prelude.{Ok};
ghost use Rattle.hot_c.specs.Statuses.{reply_status, value_after};

use hot_index::Reply;

/// The call was made. There is nothing else to tell.
pub const DONE: u32 = 0;
/// The key has the value that was written for the caller.
pub const FOUND: u32 = 1;
/// The key is absent, or there is no such key or pair.
pub const ABSENT: u32 = 2;
/// An insertion was made: the key was absent and has the value now.
pub const INSERTED: u32 = 3;
/// No insertion was made: the key keeps its value, which was written for the caller.
pub const EXISTS: u32 = 4;
/// An upsert found the key absent, and it has the value now.
pub const NEW: u32 = 5;
/// The key has a new value, and the one before was written for the caller.
pub const WAS: u32 = 6;
/// The key is absent now, and the value that it had was written for the caller.
pub const REMOVED: u32 = 7;
/// Another call was in the way; nothing was changed.
pub const BUSY: u32 = 8;
/// Too few node records are free; nothing was changed.
pub const FULL_NODES: u32 = 9;
/// No leaf record with room for the key is free; nothing was changed.
pub const FULL_LEAVES: u32 = 10;
/// A key has more than 240 bytes, or more than any leaf record of the index has room for.
pub const KEY_TOO_LONG: u32 = 11;
/// The handle is closed.
pub const CLOSED: u32 = 12;
/// A handle that was to be opened is open.
pub const OPEN: u32 = 13;
/// A number of handles, node records, leaf records or sections is out of range.
pub const OUT_OF_RANGE: u32 = 14;
/// Memory was refused.
pub const NO_MEMORY: u32 = 15;
/// The key had the expected value, and has the new one now.
pub const EXCHANGED: u32 = 16;
/// The key keeps its value, which isn't the expected one and was written for the caller.
pub const DIFFERS: u32 = 17;
/// Too few records were free, but some may come back; nothing was changed.
pub const HELD_BACK: u32 = 18;
/// No handle is kept that could be opened.
pub const NO_HANDLE: u32 = 19;
/// The section is open.
pub const INSIDE: u32 = 22;
/// The section isn't open.
pub const OUTSIDE: u32 = 23;
/// A section that was open at the moment may still be open, or the moment hasn't been taken.
pub const NOT_PAST: u32 = 24;
/// The key isn't above the last one of the load.
pub const NOT_RISING: u32 = 25;

/// Returns the status of `reply`. If the reply has a value, that value is written to `value`; else `value` stays.
pub fn write_reply(reply: Reply, value: &mut u64) -> u32
    ensures status { result ≡ reply_status reply }
    ensures value { value.new ≡ value_after value.old (Ok reply) }
{
    let (status, held) = match reply {
        Reply::Inserted => (INSERTED, None),
        Reply::Exists(held) => (EXISTS, Some(held)),
        Reply::New => (NEW, None),
        Reply::Was(held) => (WAS, Some(held)),
        Reply::Exchanged => (EXCHANGED, None),
        Reply::Differs(held) => (DIFFERS, Some(held)),
        Reply::Value(held) => (FOUND, Some(held)),
        Reply::Absent => (ABSENT, None),
        Reply::Removed(held) => (REMOVED, Some(held)),
    };
    if let Some(held) = held {
        *value = held;
    }
    status
}
