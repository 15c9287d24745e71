//! What the words of the command line ask for.

ghost use Rattle.std.specs.Prelude.{◌≡◌, ◌⊎◌, ◌≤◌, IfErr, IfOk, length, map, string_bytes};
ghost use Rattle.clap.specs.Words.{kind_of};
ghost use Rattle.record_words.specs.Limits.{IsLeafCount, IsNodeCount};
ghost use Rattle.hot_scripts.specs.declared.fault.RunFault.TheVariants.{Memory};
ghost use Rattle.hot_scripts.specs.declared.ending.Ending.TheVariants.{Usage, Fault};
ghost use Rattle.hot_scripts.specs.Endings.{ending_of};
ghost use Rattle.hot_scripts.specs.Options.{DoParse, IsArgument, IsAsked, IsCountOption, names_rule};

use crate::ending::Ending;
use crate::fault::RunFault;
use crate::script::MAX_FILES;
use clap::builder::ValueParser;
use clap::error::ErrorKind;
use clap::{Arg, ArgAction, Command};
use record_words::{MAX_LEAVES, MAX_NODES};
use std::alloc::{AllocError, Global};
use std::rt::Env;
use std::{env, io};

/// What the command line asks for.
#[derive(Drop)]
pub struct Request<'a> {
    /// How many node records the index has: 1 to 65,535.
    pub nodes: u32,
    /// How many leaf records it has: 1 to 262,143.
    pub leaves: u32,
    /// The names of the files that have scripts, in the order of the words: `MAX_FILES` at most.
    pub files: Vec<&'a str>,
    ghost nodes_fit: { IsNodeCount nodes },
    ghost leaves_fit: { IsLeafCount leaves },
    ghost files_fit: { length files.items ≤ 63 },
}

impl From<clap::Error> for Ending {
    ghost from_gives = { λ error ending. ending ≡ ending_of (kind_of error) };

    /// Returns the ending for a command line that was not parsed: `Fault(Memory)` if memory was refused, else `Usage`.
    fn from(error: clap::Error) -> Ending {
        if error.kind() == ErrorKind::OutOfMemory {
            Ending::Fault(RunFault::Memory)
        } else {
            Ending::Usage
        }
    }
}

/// Returns the words of the command line, the program's name first. The error is `Fault(Memory)` if memory is refused, and `Usage` if the
/// words can't be read. What the words are isn't said here.
pub fn read_words<R: Env + AllocGlobal>(rt: &R) -> Result<Vec<String>, Ending>
    ensures { IfErr result (λ ending. (ending ≡ Usage) ⊎ (ending ≡ Fault Memory)) }
{
    match env::args(rt) {
        Ok(words) => Ok(words.collect(rt.alloc())?),
        Err(error) if error.kind() == io::ErrorKind::OutOfMemory => Err(Ending::from(AllocError)),
        Err(_) => Err(Ending::Usage),
    }
}

/// Returns the option with the long name `name`, behind two dashes, which takes a number from 1 to `most`.
fn count_option<'a>(alloc: Global, name: &'a str, most: u32) -> Arg<'a>
    ensures { IsCountOption name.now most result }
{
    Arg::new(alloc, name)
        .long(name)
        .action(ArgAction::Set)
        .value_parser(ValueParser::signed(1, i64::from(most)))
}

/// Returns the argument `name`: the words that are no options, any number of them.
fn names_argument<'a>(alloc: Global, name: &'a str) -> Arg<'a>
    ensures { IsArgument name.now (names_rule name.now) result }
{
    Arg::new(alloc, name).action(ArgAction::Append)
}

/// Returns what `words`, those of the command line, ask for. The numbers of records are those that follow `--nodes` and `--leaves`; one
/// that is left out is 4,096 or 16,384. The files have the order of the words. The error is `Usage` only if the words don't parse, or name
/// more than `MAX_FILES` files. It is `Fault(Memory)` if memory is refused.
pub fn parse_request<'a>(alloc: Global, words: &'a [String]) -> Result<Request<'a>, Ending>
    ensures asked { IfOk result (λ request. IsAsked (map string_bytes words.now) request.nodes request.leaves (map (λ name. name.now) request.files.items)) }
    ensures refused { IfErr result (λ ending. ((ending ≡ Usage) × (DoParse (map string_bytes words.now) → ⊥)) ⊎ (ending ≡ Fault Memory)) }
{
    let command = Command::new(alloc, "hot-run")
        .arg(count_option(alloc, "nodes", MAX_NODES))?
        .arg(count_option(alloc, "leaves", MAX_LEAVES))?
        .arg(names_argument(alloc, "FILE"))?;
    let matches = command.try_get_matches_from(words)?;
    let nodes = matches.get_one::<u32>("nodes").unwrap_or(4096);
    let leaves = matches.get_one::<u32>("leaves").unwrap_or(16_384);
    let names = matches.get_strs("FILE").unwrap_or(&[]);
    if names.len() > MAX_FILES {
        return Err(Ending::Usage);
    }
    let files = Vec::from_slice(alloc, names)?;
    Ok(Request {
        nodes,
        leaves,
        files,
    })
}
