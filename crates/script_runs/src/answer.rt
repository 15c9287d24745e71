//! The answers to calls and scripts, and their lines.

ghost use Rattle.std.specs.Prelude.{◌≡◌, ◌≤◌, ◌++◌, IfOk, OnOk, codes, flat_map, length, map};
ghost use Rattle.hot_scripts.specs.declared.script.TheConstants.{MAX_FILES};
ghost use Rattle.hot_scripts.specs.Meaning.{line};
ghost use Rattle.script_runs.specs.Answers.{answer_text};
ghost use Rattle.script_runs.specs.Scripts.{sections};

use finite_map::Reply;
use hot_index::{Full, Handle, Index};
use hot_scripts::answer::{push_reply, push_section};
use std::alloc::{AllocError, Global};
use std::mem;

/// The answer to a call.
#[derive(Clone, Copy)]
pub enum Answer {
    /// The map's reply.
    Reply(Reply),
    /// No record of this kind was free for the call, which changed nothing.
    Full(Full),
}

/// A script that has run: its handle, and the answers to its commands.
#[derive(Drop)]
pub struct Done<'a> {
    pub handle: Handle<&'a Index>,
    pub text: Vec<u8>,
}

/// Adds the line that tells `answer`, a reply or the kind of records of which none was free, to the end of `text`. `AllocError` if memory
/// is refused: then perhaps a part of the line is added.
pub fn push_answer(text: &mut Vec<u8>, answer: Answer) -> Result<(), AllocError>
    ensures { OnOk result (text.new.items ≡ text.old.items ++ line (answer_text answer)) }
{
    match answer {
        Answer::Reply(reply) => push_reply(text, reply),
        Answer::Full(Full::Nodes) => text.extend_from_slice(b"full nodes\n"),
        Answer::Full(Full::Leaves) => text.extend_from_slice(b"full leaves\n"),
    }
}

/// Returns texts that follow one another. The answers to each of `files`, which must be `MAX_FILES` at most, stand below a line `file I`,
/// where `I` counts from 1. Then comes `last`, the answers to the last script, below the line `last`. The files' texts are taken out of
/// `files`. `AllocError` if memory is refused.
pub fn make_sections(
    alloc: Global,
    files: &mut [Done<'_>],
    last: Vec<u8>,
) -> Result<Vec<Vec<u8>>, AllocError>
    requires { length files.old ≤ MAX_FILES }
    ensures { IfOk result (λ texts. flat_map (λ t. t.items) texts.items
        ≡ sections 1 (map (λ f. f.text.items) files.old) ++ line (codes "last") ++ last.items) }
{
    let mut texts = Vec::new(alloc);
    let mut number = 1u32;
    for file in files.iter_mut() {
        let text = mem::replace(&mut file.text, Vec::new(alloc));
        push_section(alloc, &mut texts, number, text)?;
        number += 1;
    }
    texts.push(Vec::from_slice(alloc, b"last\n")?)?;
    texts.push(last)?;
    Ok(texts)
}
