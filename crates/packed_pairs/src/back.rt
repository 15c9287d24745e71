//! The pairs of a list, from the last one on.

ghost use Rattle.std.specs.Iterator.{YieldsLastBy};
ghost use Rattle.packed_pairs.specs.Packed.{pair_of};

use crate::iter::Iter;

impl<'a> DoubleEndedIterator for Iter<'a> {
    ghost next_back_gives = { YieldsLastBy pair_of (λ i. i) };

    /// Returns the last pair that is left, or `None`. So `pairs.iter().rev()` reads the list of a scan downwards in rising order.
    #[inline(always)]
    fn next_back(&mut self) -> Option<(&'a [u8], u64)> {
        let (head, heads) = self.heads.split_last()?;
        let (bytes, key) = self.bytes.split_at(self.bytes.len() - head.count as usize);
        self.heads = heads;
        self.bytes = bytes;
        Some((key, head.value))
    }
}
