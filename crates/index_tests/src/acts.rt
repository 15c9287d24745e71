//! Steps as lines of text.

use rowex_core::{Act, Rec, Spot, Target};
use std::alloc::AllocError;
use std::fmt;

/// What a step is on: the words in a line that name it, behind the step's name.
#[derive(Clone, Copy)]
enum Object {
    Nothing,
    Root,
    Anchor,
    Leaf(u32),
    Node(u32),
    Entry(u32, u8),
    /// The value of a leaf.
    Value(u32),
    /// A pass or an epoch.
    Number(u64),
}

impl fmt::Display for Object {
    /// Writes what a step is on, behind a blank; nothing for `Nothing`.
    fn fmt<W: fmt::Write>(&self, f: &mut fmt::Formatter<W>) -> fmt::Result {
        match self {
            Object::Nothing => Ok(()),
            Object::Root => write!(f, " root"),
            Object::Anchor => write!(f, " anchor"),
            Object::Leaf(number) => write!(f, " leaf {number}"),
            Object::Node(number) => write!(f, " node {number}"),
            Object::Entry(number, entry) => write!(f, " node {number} entry {entry}"),
            Object::Value(number) => write!(f, " leaf {number} value"),
            Object::Number(number) => write!(f, " {number}"),
        }
    }
}

/// What a step stored, loaded or found. Words of a record are in hexadecimal digits.
#[derive(Clone, Copy)]
enum Found {
    Nothing,
    Number(u64),
    Word(u64),
}

/// The parts of a line: the step's name, what it is on, which word of that or in which epoch, and the word that it stored, loaded or found.
#[derive(Clone, Copy)]
struct Line {
    name: &'static str,
    thing: Object,
    detail: Option<(&'static str, u64)>,
    found: Found,
}

impl Line {
    /// Returns the line of the step `name` on `thing`, with no detail and nothing found.
    fn of_object(name: &'static str, thing: Object) -> Line {
        Line {
            name,
            thing,
            detail: None,
            found: Found::Nothing,
        }
    }

    /// Returns the line of the step `name` on `thing`, with `number`, which it stored, loaded or found.
    fn of_number(name: &'static str, thing: Object, number: u64) -> Line {
        Line {
            found: Found::Number(number),
            ..Line::of_object(name, thing)
        }
    }

    /// Returns the line of the step `name` on the word of `rec` at `offset`, which is `word`.
    fn of_word(name: &'static str, rec: Rec, offset: u8, word: u64) -> Line {
        Line {
            name,
            thing: object_of_record(rec),
            detail: Some(("offset", u64::from(offset))),
            found: Found::Word(word),
        }
    }
}

/// Returns the record `rec`, as a line names it.
fn object_of_record(rec: Rec) -> Object {
    match rec {
        Rec::Node(number) => Object::Node(number),
        Rec::Leaf(number) => Object::Leaf(number),
    }
}

/// Returns the root, the entry or the value at `spot`, as a line names it.
fn object_of_spot(spot: Spot) -> Object {
    match spot {
        Spot::Root => Object::Root,
        Spot::Slot { node, slot } => Object::Entry(node, slot),
        Spot::Value { leaf } => Object::Value(leaf),
    }
}

/// Returns the anchor or the node `target`, as a line names it.
fn object_of_target(target: Target) -> Object {
    match target {
        Target::Anchor => Object::Anchor,
        Target::Node(number) => Object::Node(number),
    }
}

/// Returns the line of the step `act`.
fn line_of_act(act: &Act) -> Line {
    match *act {
        Act::Claim { rec, found } => Line::of_number("claim", object_of_record(rec), found),
        Act::Fill { rec, offset, word } => Line::of_word("fill", rec, offset, word),
        Act::Ready { rec } => Line::of_object("ready", object_of_record(rec)),
        Act::Release { rec } => Line::of_object("release", object_of_record(rec)),
        Act::LoadRef { spot, word } => Line::of_number("load_ref", object_of_spot(spot), word),
        Act::LoadFixed { rec, offset, word } => Line::of_word("load_fixed", rec, offset, word),
        Act::Lock { target, found } => Line::of_number("lock", object_of_target(target), found),
        Act::Unlock { target } => Line::of_object("unlock", object_of_target(target)),
        Act::Publish { spot, word } => Line::of_number("publish", object_of_spot(spot), word),
        Act::Mark { rec, epoch } => Line {
            detail: Some(("in", epoch)),
            ..Line::of_object("mark", object_of_record(rec))
        },
        Act::LoadEpoch { word } => Line::of_number("load_epoch", Object::Nothing, word),
        Act::Advance { expected, found } => Line::of_number(
            "advance",
            Object::Number(expected),
            found,
        ),
        Act::SetPin { word } => Line::of_number("set_pin", Object::Nothing, word),
        Act::ClearPin => Line::of_object("clear_pin", Object::Nothing),
        Act::LoadPin { of, word } => Line::of_number(
            "load_pin",
            Object::Number(u64::from(of)),
            word,
        ),
        Act::LoadState { rec, word } => Line::of_number("load_state", object_of_record(rec), word),
        Act::GiveBack { rec, epoch, found } => Line {
            detail: Some(("of", epoch)),
            ..Line::of_number("give_back", object_of_record(rec), found)
        },
        Act::Load { words } => Line::of_number("load", Object::Nothing, words.len() as u64),
    }
}

/// Adds the line of `act` to `text`, without a line end. `AllocError` if memory is refused: then perhaps a part of the line is added.
pub fn write_act(text: &mut String, act: &Act) -> Result<(), AllocError> {
    let line = line_of_act(act);
    write!(text, "{}{}", line.name, line.thing)?;
    if let Some((word, number)) = line.detail {
        write!(text, " {word} {number}")?;
    }
    match line.found {
        Found::Nothing => Ok(()),
        Found::Number(number) => write!(text, ": {number}"),
        Found::Word(word) => write!(text, ": {word:016x}"),
    }
}
