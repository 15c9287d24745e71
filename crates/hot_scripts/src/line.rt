//! One line of a script.

ghost use Rattle.std.specs.Prelude.{◌≡◌, ◌≤◌, ◌==◌, [], ◌∷◌, None, length, position};
ghost use Rattle.std.specs.List.{slice_split};
ghost use Rattle.hot_scripts.specs.Grammar.{line_words, command_of, reading_of};
ghost use Rattle.hot_scripts.specs.Words.{parts_left, bytes_left, AreWords};

use crate::command::{Command, KeyRange, Version};
use crate::fault::Reason;
use crate::word;
use finite_map::Call;

/// Returns the index of the first `separator` in `text`; `None` if there is none.
fn first_index(separator: u8, text: &[u8]) -> Option<usize>
    ensures { result ≡ position (λ b. b == separator) text.now }
{
    text.iter().position(|byte| *byte == separator)
}

/// Returns the part of `text` before the first `separator`, and what follows the separator. If there is no separator, it returns all of
/// `text`, and `None`. What follows is shorter than `text` (`left`), so a loop over the parts ends.
pub fn split_once(separator: u8, text: &[u8]) -> (&[u8], Option<&[u8]>)
    ensures parts { slice_split (λ b. b == separator) text.now ≡ result.0.now ∷ parts_left separator result.1 }
    ensures whole { result.1 ≡ None → result.0.now ≡ text.now }
    ensures left { bytes_left result.1 ≤ length text.now }
{
    match first_index(separator, text) {
        Some(at) => (&text[..at], Some(&text[at + 1..])),
        None => (text, None),
    }
}

/// The words of a line that has two, three or four.
#[derive(Drop)]
enum Words<'a> {
    Two(&'a [u8], &'a [u8]),
    Three(&'a [u8], &'a [u8], &'a [u8]),
    Four(&'a [u8], &'a [u8], &'a [u8], &'a [u8]),
    Other,
}

/// Returns the words of `line`, the parts between its spaces; a word may be empty. It returns `Other` if there are not two, three or four.
fn split_words(line: &[u8]) -> Words<'_>
    ensures { AreWords result (line_words line.now) }
{
    let (name, rest) = split_once(b' ', line);
    let Some(rest) = rest else {
        return Words::Other;
    };
    let (first, rest) = split_once(b' ', rest);
    let Some(rest) = rest else {
        return Words::Two(name, first);
    };
    let (second, rest) = split_once(b' ', rest);
    let Some(rest) = rest else {
        return Words::Three(name, first, second);
    };
    let (third, rest) = split_once(b' ', rest);
    match rest {
        None => Words::Four(name, first, second, third),
        Some(_) => Words::Other,
    }
}

/// Returns the command `name` for `key` alone: `get` or `remove`. The error is `Command` if `name` is another word, or `Key` if `key`
/// stands for no key of `version`.
fn parse_key_command(version: Version, name: &[u8], key: &[u8]) -> Result<Command, Reason>
    ensures { result ≡ command_of version (name.now ∷ key.now ∷ []) }
{
    if name == b"get".as_slice() {
        let key = word::parse_key(version, key)?;
        Ok(Command::Call(Call::Get(key)))
    } else if name == b"remove".as_slice() {
        let key = word::parse_key(version, key)?;
        Ok(Command::Call(Call::Remove(key)))
    } else {
        Err(Reason::Command)
    }
}

/// Returns the command `name` for `key` and `value`: `insert` or `upsert`. The error is `Command` if `name` is another word, or else `Key`
/// or `Value` for the first bad word.
fn parse_value_command(
    version: Version,
    name: &[u8],
    key: &[u8],
    value: &[u8],
) -> Result<Command, Reason>
    ensures { result ≡ command_of version (name.now ∷ key.now ∷ value.now ∷ []) }
{
    if name == b"insert".as_slice() {
        let key = word::parse_key(version, key)?;
        let value = word::parse_value(value)?;
        Ok(Command::Call(Call::Insert(key, value)))
    } else if name == b"upsert".as_slice() {
        let key = word::parse_key(version, key)?;
        let value = word::parse_value(value)?;
        Ok(Command::Call(Call::Upsert(key, value)))
    } else {
        Err(Reason::Command)
    }
}

/// Returns the command `name` for the range from `from` to `upto` and `limit`: `scan`. The error is `Command` if `name` is another word, or
/// else `Key` or `Limit` for the first bad word.
fn parse_range_command(
    version: Version,
    name: &[u8],
    from: &[u8],
    upto: &[u8],
    limit: &[u8],
) -> Result<Command, Reason>
    ensures { result ≡ command_of version (name.now ∷ from.now ∷ upto.now ∷ limit.now ∷ []) }
{
    if name == b"scan".as_slice() {
        let from = word::parse_key(version, from)?;
        let upto = word::parse_key(version, upto)?;
        let limit = word::parse_limit(limit)?;
        Ok(Command::Scan(KeyRange { from, upto, limit }))
    } else {
        Err(Reason::Command)
    }
}

/// Returns the command that `line` asks for in a script of `version`. The error is `Command` if the words of the line name no command, or
/// else the reason of the first bad word.
fn parse_command(version: Version, line: &[u8]) -> Result<Command, Reason>
    ensures { result ≡ command_of version (line_words line.now) }
{
    match split_words(line) {
        Words::Two(name, key) => parse_key_command(version, name, key),
        Words::Three(name, key, value) => parse_value_command(version, name, key, value),
        Words::Four(name, from, upto, limit) => parse_range_command(
            version, name, from, upto, limit,
        ),
        Words::Other => Err(Reason::Command),
    }
}

/// Returns the command that `line` asks for in a script of `version`. `Ok(None)` if `line` is empty or begins with `#`. The error is the
/// reason why the line is bad.
pub fn parse_line(version: Version, line: &[u8]) -> Result<Option<Command>, Reason>
    ensures { result ≡ reading_of version line.now }
{
    if line.is_empty() || line[0] == b'#' {
        return Ok(None);
    }
    let command = parse_command(version, line)?;
    Ok(Some(command))
}
