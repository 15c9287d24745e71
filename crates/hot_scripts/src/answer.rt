//! The lines of the answers.

ghost use Rattle.std.specs.Prelude.{◌≡◌, ◌++◌, ◌+◌, ◌*◌, ◌<◌, ◌≤◌, ◌^◌, OnOk, codes, flat_map, length};
ghost use Rattle.hot_scripts.specs.Meaning.{key_text, line, pair_line, reply_text, scan_lines, with_number};

use crate::page::{MOST_BYTES, Page, ROOM};
use finite_map::Reply;
use itoa::Buffer;
use key_bits::MAX_BYTES;
use packed_pairs::Pairs;
use std::alloc::{AllocError, Global};

/// Adds a line to the end of `text`: `word`, and then `number` in decimal digits. `AllocError` if memory is refused: then perhaps a part of
/// the line is added.
fn push_number(text: &mut Vec<u8>, word: &[u8], number: u64) -> Result<(), AllocError>
    ensures { OnOk result (text.new.items ≡ text.old.items ++ line (with_number word.now number)) }
{
    let mut digits = Buffer::new();
    text.extend_from_slice(word)?;
    text.extend_from_slice(digits.format(number).as_bytes())?;
    text.extend_from_slice(b"\n")
}

/// Adds the line that tells `reply`, with its value if it has one, to the end of `text`. `AllocError` if memory is refused: then perhaps a
/// part of the line is added.
pub fn push_reply(text: &mut Vec<u8>, reply: Reply) -> Result<(), AllocError>
    ensures { OnOk result (text.new.items ≡ text.old.items ++ line (reply_text reply)) }
{
    match reply {
        Reply::Inserted => text.extend_from_slice(b"inserted\n"),
        Reply::Exists(value) => push_number(text, b"exists ", value),
        Reply::New => text.extend_from_slice(b"new\n"),
        Reply::Was(value) => push_number(text, b"was ", value),
        Reply::Exchanged => text.extend_from_slice(b"exchanged\n"),
        Reply::Differs(value) => push_number(text, b"differs ", value),
        Reply::Value(value) => push_number(text, b"value ", value),
        Reply::Absent => text.extend_from_slice(b"none\n"),
        Reply::Removed(value) => push_number(text, b"removed ", value),
    }
}

/// Puts `key` on the page in lower case hexadecimal digits. The empty key is a dash. The page must have room for the longest key.
#[inline(always)]
fn put_key(page: &mut Page, key: &[u8])
    requires key { length key.now ≤ MAX_BYTES }
    requires room { length page.old + 2 * MAX_BYTES ≤ ROOM }
    ensures { page.new ≡ page.old ++ key_text key.now }
{
    if key.is_empty() {
        page.put_text(b"-");
    } else {
        page.put_hex(key);
    }
}

/// Puts a line on the page: the word `pair`, the digits of `key`, and `value`, with spaces between them. The page must have room for the
/// longest such line.
#[inline(always)]
fn put_pair(page: &mut Page, key: &[u8], value: u64)
    requires key { length key.now ≤ MAX_BYTES }
    requires room { length page.old + MOST_BYTES ≤ ROOM }
    ensures { page.new ≡ page.old ++ pair_line (key.now, value) }
{
    page.put_text(b"pair ");
    put_key(page, key);
    page.put_text(b" ");
    page.put_number(value);
    page.put_text(b"\n");
}

/// Makes room on `page` for a line of `MOST_BYTES` bytes. If the page has too little, its lines go to the end of `text`, and the page is
/// cleared. So the text with the page behind it stays the same. `AllocError` if memory is refused.
#[inline(always)]
fn make_room(text: &mut Vec<u8>, page: &mut Page) -> Result<(), AllocError>
    ensures room { OnOk result (length page.new + MOST_BYTES ≤ ROOM) }
    ensures kept { OnOk result (text.new.items ++ page.new ≡ text.old.items ++ page.old) }
{
    if page.is_full() {
        text.extend_from_slice(page.as_bytes())?;
        page.clear();
    }
    Ok(())
}

/// Adds the lines of a scan that listed `pairs` to the end of `text`: one for each pair, and a last one with `more` or `end`, and their
/// number. `more` says whether the scan's range has more. `AllocError` if memory is refused: then perhaps a part of the lines is added.
/// `pairs` are fewer than 2^63, as of any list (`short`).
pub fn push_scan(text: &mut Vec<u8>, pairs: &Pairs, more: bool) -> Result<(), AllocError>
    ensures lines { OnOk result (text.new.items ≡ text.old.items ++ scan_lines pairs.now more) }
    ensures short { length pairs.now < 2 ^ 63 }
{
    let count = pairs.len();
    let mut page = Page::new();
    for (key, value) in pairs.iter() {
        make_room(text, &mut page)?;
        put_pair(&mut page, key, value);
    }
    text.extend_from_slice(page.as_bytes())?;
    if more {
        push_number(text, b"more ", count as u64)
    } else {
        push_number(text, b"end ", count as u64)
    }
}

/// Adds the line `file I`, where `I` is `number`, to the end of `texts`, and then `text`, the answers to that file's script. `AllocError`
/// if memory is refused: then perhaps the line is added.
pub fn push_section(
    alloc: Global,
    texts: &mut Vec<Vec<u8>>,
    number: u32,
    text: Vec<u8>,
) -> Result<(), AllocError>
    ensures { OnOk result (flat_map (λ t. t.items) texts.new.items
        ≡ flat_map (λ t. t.items) texts.old.items ++ line (with_number (codes "file ") number) ++ text.items) }
{
    texts.push(format!(in alloc; "file {number}\n")?.into_bytes())?;
    texts.push(text)?;
    Ok(())
}
