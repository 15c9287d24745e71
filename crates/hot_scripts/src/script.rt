//! A whole script: the check of its lines, and its commands, each read again where it is asked for.

ghost use Rattle.std.specs.Prelude.{◌≡◌, ◌+◌, ◌^◌, ◌<◌, ◌≤◌, All, IfErr, IfOk, MatchOption, None, Some, filter_map, length, vec_len};
ghost use Rattle.key_bits.specs.declared.TheConstants.{MAX_BYTES};
ghost use Rattle.hot_scripts.specs.Grammar.{HasKeyUpTo, asked, called_key, commands_of, first_bad, lines_of, readings_of};
ghost use Rattle.hot_scripts.specs.Words.{bytes_left};

use crate::command::{Command, Version};
use crate::fault::{Reason, RunFault};
use crate::line::{parse_line, split_once};
use finite_map::Call;

/// The most bytes that a script may have.
pub const MAX_SCRIPT: usize = 1_048_576;

/// The most files that a run may have.
pub const MAX_FILES: usize = 63;

/// A script in which `parse_line` finds no bad line. It keeps the text, and no command.
#[derive(Drop)]
pub struct Script {
    text: Vec<u8>,
    /// No key of its calls has more bytes.
    longest: usize,
    ghost keys_fit: { All (HasKeyUpTo longest) (filter_map asked (readings_of (lines_of text.items))) },
    ghost is_key: { longest ≤ MAX_BYTES },
}

/// The commands that are left of a script: those of the lines in the text `left`, in the grammar of `version`. There are none if there is
/// no text.
#[derive(Clone, Copy)]
pub struct Commands<'a> {
    version: Version,
    left: Option<&'a [u8]>,
}

impl Script {
    ghost use Rattle.hot_scripts.specs.Parses.{Parses, script_commands, commands_left};

    /// Returns the script with this `text`, which must have `MAX_SCRIPT` bytes at most. If the text has a bad line, the error is
    /// `RunFault::Script` with the number and the reason of the first one.
    pub fn parse(text: Vec<u8>) -> Result<Script, RunFault>
        requires { vec_len text ≤ MAX_SCRIPT }
        ensures { Parses result (commands_of text.items) }
    {
        let (first, commands) = Commands::opening(&text);
        match commands.longest_key_length(first) {
            Err((line, reason)) => Err(RunFault::Script { line, reason }),
            Ok(longest) => Ok(Script { text, longest }),
        }
    }

    /// Returns a number of bytes, `MAX_BYTES` at most. No key of the script's calls has more.
    pub fn longest_key_length(&self) -> usize
        ensures keys { All (HasKeyUpTo result) (script_commands self.now) }
        ensures few { result ≤ MAX_BYTES }
    {
        self.longest
    }

    /// Returns all commands of the script, in the order of its lines. Each is read from the text again when `next_command` returns it.
    pub fn commands(&self) -> Commands<'_>
        ensures { commands_left result ≡ script_commands self.now }
    {
        let (_, commands) = Commands::opening(&self.text);
        commands
    }
}

impl<'a> Commands<'a> {
    ghost use Rattle.hot_scripts.specs.Parses.{GivesFirst, IsOpening, commands_left, readings_left};

    /// Takes out the first of the commands and returns it; `None` if none is left.
    pub fn next_command(&mut self) -> Option<Command>
        ensures { GivesFirst (commands_left self.old) result (commands_left self.new) }
    {
        while let Some(text) = self.left {
            let (line, rest) = split_once(b'\n', text);
            self.left = rest;
            if let Ok(Some(command)) = parse_line(self.version, line) {
                return Some(command);
            }
        }
        None
    }

    /// Returns the number of the first line of `script` that may have a command, and the lines from this one on. These have all commands of
    /// the script, and its first bad line, if it has one. The number is 2 if the first line is `hot 2`, which says that the script is of
    /// the second version. Else it is 1.
    fn opening(script: &'a [u8]) -> (u32, Commands<'a>)
        ensures { IsOpening script.now result.0 result.1 }
    {
        let (first, rest) = split_once(b'\n', script);
        if first == b"hot 2".as_slice() {
            let version = Version::Second;
            (
                2,
                Commands {
                    version,
                    left: rest,
                },
            )
        } else {
            let version = Version::First;
            let left = Some(script);
            (1, Commands { version, left })
        }
    }

    /// If no line is bad, returns a number of bytes, `MAX_BYTES` at most, that no key of a call in these lines exceeds. Else the error is
    /// the number and the reason of the first bad line. The first line has the number `first`, and the numbers of all must fit 32 bits.
    fn longest_key_length(self, first: u32) -> Result<usize, (u32, Reason)>
        requires { first + bytes_left self.left < 2 ^ 32 }
        ensures good { IfOk result (λ longest. first_bad first (readings_left self.entry) ≡ None) }
        ensures keys { IfOk result (λ longest. All (HasKeyUpTo longest) (commands_left self.entry)) }
        ensures few { IfOk result (λ longest. longest ≤ MAX_BYTES) }
        ensures bad { IfErr result (λ fault. first_bad first (readings_left self.entry) ≡ Some fault) }
    {
        let mut number = first;
        let mut left = self.left;
        let mut longest = 0;
        while let Some(text) = left {
            let (line, rest) = split_once(b'\n', text);
            match parse_line(self.version, line) {
                Ok(command) => longest = larger_number(longest, key_length(&command)),
                Err(reason) => return Err((number, reason)),
            }
            number += 1;
            left = rest;
        }
        Ok(longest)
    }
}

/// Returns how many bytes the key of the call `command` has; 0 if it is a scan or `None`.
fn key_length(command: &Option<Command>) -> usize
    ensures key { MatchOption command.now (result ≡ 0) (λ command. result ≡ length (called_key command)) }
    ensures few { result ≤ MAX_BYTES }
{
    match command {
        Some(Command::Call(call)) => call.key().as_bytes().len(),
        Some(Command::Scan(_)) | None => 0,
    }
}

/// Returns the larger of `first` and `second`.
fn larger_number(first: usize, second: usize) -> usize
    ensures bound { (first ≤ result) × (second ≤ result) }
    ensures few { first ≤ MAX_BYTES → second ≤ MAX_BYTES → result ≤ MAX_BYTES }
{
    if first < second { second } else { first }
}
