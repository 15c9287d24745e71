//! What the lines of a case say.

use finite_map::Call;
use key_bits::{Key, MAX_BYTES};
use std::alloc::Global;
use std::io;
use std::io::ErrorKind;

/// What a pass may do: make a call, list so many pairs, or make a round of collection. It lists from the lowest key on, or from the
/// highest one downwards.
#[derive(Drop)]
pub enum Task {
    Make(Call),
    Scan(usize),
    ScanReverse(usize),
    Collect,
}

/// A small index, of `nodes` node records and `leaves` leaf records, and what is done on it.
#[derive(Drop)]
pub struct TestCase<'a> {
    pub alloc: Global,
    pub nodes: u32,
    pub leaves: u32,
    /// What pass 0, or beside threads the last pass, does on each new index beforehand.
    pub before: Vec<Task>,
    /// What pass 1 may do at a stop: the tasks of one of these lines, each line in its turn.
    pub others: Vec<&'a str>,
    /// The keys of what is done by chance.
    pub keys: Vec<Key>,
    /// The key to whose value each thread adds one after each task by chance.
    pub counter: Option<Key>,
}

impl<'a> TestCase<'a> {
    /// Returns a case on an index of one node record and one leaf record, with nothing to do.
    pub fn new(alloc: Global) -> TestCase<'a> {
        TestCase {
            alloc,
            nodes: 1,
            leaves: 1,
            before: Vec::new(alloc),
            others: Vec::new(alloc),
            keys: Vec::new(alloc),
            counter: None,
        }
    }

    /// Begins a new case, with nothing to do. `text` has the numbers of its node and leaf records; else `bad_line`, and the case stays.
    pub fn begin_case(&mut self, text: &str) -> io::Result<()> {
        (self.nodes, self.leaves) = parse_two_numbers(text)?;
        self.before.clear();
        self.others.clear();
        self.keys.clear();
        self.counter = None;
        Ok(())
    }

    /// Has each thread add to the value of the key that `text` stands for; `bad_line` if it is none, and the case stays.
    pub fn set_counted_key(&mut self, text: &str) -> io::Result<()> {
        self.counter = Some(parse_key(text)?);
        Ok(())
    }
}

/// Returns the error for a line of a case that can't be read or done.
pub fn bad_line() -> io::Error {
    io::Error::from(ErrorKind::InvalidInput)
}

/// Returns the two numbers of `text`, of 32 bits, with a blank between them; `bad_line` if it is anything else.
pub fn parse_two_numbers(text: &str) -> io::Result<(u32, u32)> {
    match text.split_once(' ') {
        Some((first, second)) => Ok((parse_count(first)?, parse_count(second)?)),
        None => Err(bad_line()),
    }
}

/// Returns the number that `word` stands for; `bad_line` if it is none of 64 bits.
fn parse_number(word: &str) -> io::Result<u64> {
    word.parse::<u64>().map_err(|_| bad_line())
}

/// Returns the number that `word` stands for; `bad_line` if it is none of 32 bits.
fn parse_count(word: &str) -> io::Result<u32> {
    word.parse::<u32>().map_err(|_| bad_line())
}

/// Adds the tasks of `text`, parted by commas, to the end of `tasks`. `bad_line` at the first part that is no task; an error if memory is
/// refused. Tasks that were added before the error stay in `tasks`.
pub fn parse_tasks(tasks: &mut Vec<Task>, text: &str) -> io::Result<()> {
    let alloc = *tasks.allocator();
    for part in text.split(',') {
        let words: Vec<&str> = part.split_whitespace().collect(alloc)?;
        append_tasks(tasks, &words)?;
    }
    Ok(())
}

/// Adds the task of `words` to `tasks`: of a call, one for each of its keys. A value that is left out is 0. `bad_line` if it is no task; an
/// error if memory is refused.
fn append_tasks(tasks: &mut Vec<Task>, words: &[&str]) -> io::Result<()> {
    let (name, word, value) = match *words {
        ["collect"] => return Ok(tasks.push(Task::Collect)?),
        ["scan", limit] => return Ok(tasks.push(Task::Scan(parse_count(limit)? as usize))?),
        ["scan_reverse", limit] => return Ok(tasks.push(Task::ScanReverse(
            parse_count(limit)? as usize,
        ))?),
        [name, word] => (name, word, 0),
        [name, word, value] => (name, word, parse_number(value)?),
        _ => return Err(bad_line()),
    };
    let mut keys = Vec::new(*tasks.allocator());
    parse_keys(&mut keys, word)?;
    for key in keys {
        tasks.push(Task::Make(call_by_name(name, key, value)?))?;
    }
    Ok(())
}

/// Returns the call `name` with `key` and `value`. An exchange expects `value` and gives the key the next one. `bad_line` if there is no
/// such call.
fn call_by_name(name: &str, key: Key, value: u64) -> io::Result<Call> {
    match name {
        "insert" => Ok(Call::Insert(key, value)),
        "upsert" => Ok(Call::Upsert(key, value)),
        "exchange" => Ok(Call::Exchange(key, value, value.wrapping_add(1))),
        "add" => Ok(Call::Add(key, value)),
        "remove" => Ok(Call::Remove(key)),
        "remove_if" => Ok(Call::RemoveIf(key, value)),
        "get" => Ok(Call::Get(key)),
        _ => Err(bad_line()),
    }
}

/// Adds the keys that the words of `text` stand for to `keys`. Each is in hexadecimal digits, or a dash if it is empty. Two bytes with two
/// dots between them stand for all keys of one byte from the first to the last. `bad_line` for other words; an error if memory is refused.
pub fn parse_keys(keys: &mut Vec<Key>, text: &str) -> io::Result<()> {
    for word in text.split_whitespace() {
        match word.split_once("..") {
            Some((first, last)) => {
                let (first, last) = (parse_byte(first)?, parse_byte(last)?);
                for byte in first..=last {
                    keys.push(make_key(&[byte])?)?;
                }
            }
            None => keys.push(parse_key(word)?)?,
        }
    }
    Ok(())
}

/// Returns the byte that `word`, two hexadecimal digits, stands for; else `bad_line`.
fn parse_byte(word: &str) -> io::Result<u8> {
    let mut room = [0u8; 1];
    hex::decode_to_slice(word, &mut room).map_err(|_| bad_line())?;
    Ok(room[0])
}

/// Returns the key that `word` stands for: hexadecimal digits, or a dash if it is empty; `bad_line` if it is none.
fn parse_key(word: &str) -> io::Result<Key> {
    if word == "-" {
        return make_key(&[]);
    }
    if word.len() > 2 * MAX_BYTES {
        return Err(bad_line());
    }
    let mut room = [0u8; MAX_BYTES];
    let bytes = &mut room[..word.len() / 2];
    hex::decode_to_slice(word, bytes).map_err(|_| bad_line())?;
    make_key(bytes)
}

/// Returns the key of `bytes`; `bad_line` if they are more than 240.
fn make_key(bytes: &[u8]) -> io::Result<Key> {
    Key::from_bytes(bytes).map_err(|_| bad_line())
}
