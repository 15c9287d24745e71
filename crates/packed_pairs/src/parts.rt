//! The heads of a list and the bytes of its keys, as they lie in memory; and what makes a list fit into memory.

ghost use Rattle.std.specs.Prelude.{◌≡◌, [], length, map, pred, take};
ghost use Rattle.packed_pairs.specs.Parts.{fitting, packed_head, keys_in};

use crate::head::PairHead;
use crate::pairs::Pairs;

impl Pairs {
    /// Returns the heads of the list's pairs, and the bytes of their keys, one key behind the other, both in the list's order.
    pub fn parts(&self) -> (&[PairHead], &[u8])
        ensures heads { result.0.now ≡ map packed_head self.now }
        ensures keys { result.1.now ≡ keys_in self.now }
    {
        (self.heads.as_slice(), self.bytes.as_slice())
    }

    /// Takes out the last pair, if there is one. The list keeps its memory.
    fn pop_pair(&mut self)
        ensures { self.new ≡ take (pred (length self.old)) self.old }
    {
        match self.heads.pop() {
            None => (),
            Some(head) => self.bytes.truncate(self.bytes.len() - head.count as usize),
        }
    }

    /// Takes out pairs from the end until the keys of those left have at most `room` bytes together.
    pub fn fit(&mut self, room: usize)
        ensures { self.new ≡ fitting room self.old }
    {
        while self.key_bytes() > room {
            self.pop_pair();
        }
    }

    /// Returns how many bytes the keys of the list have together.
    pub fn key_bytes(&self) -> usize
        ensures { result ≡ length (keys_in self.now) }
    {
        self.bytes.len()
    }

    /// Takes out all pairs. The list frees its memory if it has more than `most` bytes for its heads, or for the bytes of its keys.
    pub fn let_go(&mut self, most: usize)
        ensures { self.new ≡ [] }
    {
        if self.bytes.capacity() > most || self.heads.capacity() > most / 16 {
            *self = Pairs::new(*self.bytes.allocator());
        } else {
            self.clear();
        }
    }
}
