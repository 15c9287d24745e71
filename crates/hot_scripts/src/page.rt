//! Lines that are made one after another, in a small room of their own, before they go to a text together.

ghost use Rattle.std.specs.Prelude.{◌≡◌, ◌≢◌, ◌++◌, ◌+◌, ◌*◌, ◌≤◌, [], false, length, decimal};
ghost use Rattle.hex.specs.Hex.{encode_lower};

use crate::digits::{count_digits, write_hex};
use itoa::write_digits;
use key_bits::MAX_BYTES;
use std::marker::Model;

/// The most decimal digits of a number of 64 bits.
pub const NUMBER_DIGITS: usize = 20;

/// The most bytes of a line: those of a pair, with its word, a key in digits, a space, its value and its end.
pub const MOST_BYTES: usize = 5 + 2 * MAX_BYTES + 1 + NUMBER_DIGITS + 1;

/// How many bytes a page has room for.
pub const ROOM: usize = 1024;

/// Lines, which are the first `end` bytes of `room`. Each number and key is written once, where it stays.
///
/// Contracts see the bytes that are there.
#[derive(Drop)]
pub struct Page {
    room: [u8; ROOM],
    end: usize,
}

impl Model for Page {
    ghost use Rattle.std.specs.Prelude.{List, ℕ, ◌≤◌, take};
    ghost use Rattle.hot_scripts.specs.declared.page.TheConstants.{ROOM};

    ghost Value = { List ℕ };

    ghost view = { λ page. take page.end page.room };

    ghost invariant = { λ page. page.end ≤ ROOM };
}

impl Page {
    /// Returns a page without bytes.
    pub fn new() -> Page
        ensures { result ≡ [] }
    {
        Page {
            room: [0; ROOM],
            end: 0,
        }
    }

    /// Takes out all bytes.
    pub fn clear(&mut self)
        ensures { self.new ≡ [] }
    {
        self.end = 0;
    }

    /// Returns the bytes of the page.
    pub fn as_bytes(&self) -> &[u8]
        ensures { result.now ≡ self.now }
    {
        &self.room[..self.end]
    }

    /// Returns whether the page has room for fewer than `MOST_BYTES` bytes, the most that a line has.
    #[inline(always)]
    pub fn is_full(&self) -> bool
        ensures { result ≡ false → length self.now + MOST_BYTES ≤ ROOM }
    {
        self.end + MOST_BYTES > ROOM
    }

    /// Puts `text` on the page, behind what is there; the page must have room for it.
    #[inline(always)]
    pub fn put_text(&mut self, text: &[u8])
        requires { length self.old + length text.now ≤ ROOM }
        ensures { self.new ≡ self.old ++ text.now }
    {
        let end = self.end + text.len();
        self.room[self.end..end].copy_from_slice(text);
        self.end = end;
    }

    /// Puts `number` on the page in decimal digits, without leading zeros. The page must have room for `NUMBER_DIGITS` bytes, whatever the
    /// number.
    #[inline(always)]
    pub fn put_number(&mut self, number: u64)
        requires { length self.old + NUMBER_DIGITS ≤ ROOM }
        ensures { self.new ≡ self.old ++ decimal number }
    {
        let end = self.end + count_digits(number);
        write_digits(number, &mut self.room, end);
        self.end = end;
    }

    /// Puts `bytes` on the page, each as two lower case hexadecimal digits; the page must have room for these.
    #[inline(always)]
    pub fn put_hex(&mut self, bytes: &[u8])
        requires { length self.old + 2 * length bytes.now ≤ ROOM }
        ensures { self.new ≡ self.old ++ encode_lower bytes.now }
    {
        let end = self.end + 2 * bytes.len();
        write_hex(bytes, &mut self.room[self.end..end]);
        self.end = end;
    }
}
