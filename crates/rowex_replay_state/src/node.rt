//! A node and a head of their words.

ghost use Rattle.std.specs.Prelude.{◌≡◌, length};
ghost use Rattle.partial_keys.specs.declared.TheConstants.{MAX_ENTRIES};
ghost use Rattle.record_words.specs.Node.{HasHeadWords, HasNodeWords, HaveEntryWords, entry_words, head_words, node_words};
ghost use Rattle.record_words.specs.Reading.{IsReading};

use crate::entry::unpack_entry;
use crate::fixed::{are_same, read_columns, read_rows};
use arrayvec::ArrayVec;
use compound_node::{Entry, Head, Node};
use record_words::{
    HEAD_WORDS, MAX_ENTRIES, NODE_FIELDS, WordFault, pack_head, pack_node, read_numbers,
};

/// Returns the node of a node record with `words` from offset 1 on; `WordFault::Bad` if no node has these words. Reading passes over bits
/// that no node uses. So the node's words are made anew, and all are compared with `words`.
pub fn unpack_node(words: &[u64; NODE_FIELDS]) -> Result<Node, WordFault>
    ensures { IsReading HasNodeWords node_words words.now result }
{
    let entries = unpack_entries(&words[HEAD_WORDS..])?;
    let numbers = read_numbers(words[0]);
    let columns = read_columns(&words[..HEAD_WORDS], numbers);
    let rows = read_rows(&words[..HEAD_WORDS], numbers);
    match Node::from_parts(
        numbers.height,
        columns.as_slice(),
        &rows,
        entries.as_slice(),
    ) {
        Some(node) => {
            if are_same(&pack_node(&node), words) {
                Ok(node)
            } else {
                Err(WordFault::Bad)
            }
        }
        None => Err(WordFault::Bad),
    }
}

/// Returns the head of a node record with `words` from offset 1 up to its entries, which may be any. `WordFault::Bad` if no head has these
/// words. To find that, the head's words are made anew, and all are compared with `words`.
pub fn unpack_head(words: &[u64; HEAD_WORDS]) -> Result<Head, WordFault>
    ensures { IsReading HasHeadWords head_words words.now result }
{
    let numbers = read_numbers(words[0]);
    let columns = read_columns(words, numbers);
    let rows = read_rows(words, numbers);
    match Head::from_parts(numbers.count, numbers.height, columns.as_slice(), &rows) {
        Some(head) => {
            if are_same(&pack_head(&head), words) {
                Ok(head)
            } else {
                Err(WordFault::Bad)
            }
        }
        None => Err(WordFault::Bad),
    }
}

/// Returns the entries whose words are `words`, up to the first 0. `WordFault::Bad` if a word is that of no entry, or one behind a 0 isn't
/// 0.
fn unpack_entries(words: &[u64]) -> Result<ArrayVec<Entry, MAX_ENTRIES>, WordFault>
    requires { length words.now ≡ MAX_ENTRIES }
    ensures { IsReading (λ entries. HaveEntryWords entries.items) (λ entries. entry_words entries.items) words.now result }
{
    let mut entries = ArrayVec::new();
    for (i, word) in words.iter().enumerate() {
        match unpack_entry(*word)? {
            Some(entry) if entries.len() == i => entries.push(entry),
            Some(_) => return Err(WordFault::Bad),
            None => {}
        }
    }
    Ok(entries)
}
