//! The commands of a script.

ghost use Rattle.std.specs.Prelude.{◌≡◌};
ghost use Rattle.hot_scripts.specs.Grammar.{most_digits};

use finite_map::Call;
use key_bits::Key;

/// A range of keys, both ends inclusive, and the greatest number of pairs that are wanted.
#[derive(Drop)]
pub struct KeyRange {
    pub from: Key,
    pub upto: Key,
    pub limit: usize,
}

/// What one line of a script asks for: a call, or a scan of a range.
#[derive(Drop)]
pub enum Command {
    Call(Call),
    Scan(KeyRange),
}

/// The version of a script, which says how long its keys may be: the second if its first line is `hot 2`, else the first.
#[derive(Clone, Copy)]
pub enum Version {
    First,
    Second,
}

impl Version {
    /// Returns how many hexadecimal digits, two for each byte, a key may have at most in a script of this version.
    pub fn most_digits(self) -> usize
        ensures { result ≡ most_digits self }
    {
        match self {
            Version::First => 128,
            Version::Second => 480,
        }
    }
}
