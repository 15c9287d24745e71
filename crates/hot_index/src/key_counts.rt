//! How many keys a map has that passes share: by a count for each pass, which its own calls keep, and no other pass writes.

ghost use Rattle.std.specs.Prelude.{◌≡◌, ◌<◌, ◌^◌, [], ℕ, List, length};
ghost use Rattle.finite_map.specs.declared.Change.{Change};
ghost use Rattle.finite_map.specs.Fronts.{map_of};
ghost use Rattle.hot_index.specs.KeyCounts.{AreCounts, CountsAnswer, CountsReply, IsCountOf, net_of};

use finite_map::Reply;

/// How many keys the calls of a pass have put in, less how many they have taken out, modulo 2^64.
#[derive(Clone, Copy)]
pub struct KeyCount {
    pub keys: u64,
}

impl KeyCount {
    /// Returns the count of a pass that has made no call.
    pub fn new() -> KeyCount
        ensures { (q : ℕ) → IsCountOf q [] result }
    {
        KeyCount { keys: 0 }
    }

    /// Adds how many keys a call with the reply `reply` has put in, less how many it has taken out. If this was the count of a pass's
    /// answered calls, it is now that of these and one more. To this one some map gives the reply.
    pub fn note(&mut self, reply: Reply)
        ensures { CountsReply reply self.old self.new }
    {
        self.keys = self.keys.wrapping_add(net(reply));
    }

    /// Counts a call of the pass that returned `answer`: a reply as `note` does, and a refusal not at all.
    pub fn note_answer<F>(&mut self, answer: &Result<Reply, F>)
        ensures { CountsAnswer answer.now self.old self.new }
    {
        if let Ok(reply) = answer {
            self.note(*reply);
        }
    }
}

/// Returns how many keys a call with the reply `reply` has put in, less how many it has taken out, modulo 2^64.
fn net(reply: Reply) -> u64
    ensures { result ≡ net_of reply }
{
    match reply {
        Reply::Inserted | Reply::New => 1,
        Reply::Removed(_) => u64::MAX,
        _ => 0,
    }
}

/// Returns the sum of `counts`, modulo 2^64. If `counts` are those of all passes, in the order of their numbers, the sum is how many keys
/// the map has. The map must have fewer than 2^64 keys, and no pass may be changing it.
pub fn total(counts: &[KeyCount]) -> u64
    ensures { (front : List Change) → AreCounts front counts.now → length (map_of front) < 2 ^ 64 → result ≡ length (map_of front) }
{
    let mut total: u64 = 0;
    for place in 0..counts.len() {
        total = total.wrapping_add(counts[place].keys);
    }
    total
}
