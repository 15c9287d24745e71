//! Scripts of commands on an ordered map: their grammar, what they mean, and the texts of their answers and faults. And what the command
//! line of the program `hot-run` asks for, the scripts in files that it names, and how a run ends without its answers.
//!
//! # What carries the proof
//!
//! A script's meaning is defined without the parser's loop: parts between line ends, words between spaces, the first bad line
//! (`script_meaning`, `commands_of`). `Script::parse` takes exactly good scripts. The command line is what clap's own clauses say of its
//! words (`IsAsked`).
#![tactic(auto)]

pub mod answer;
pub mod arguments;
pub mod command;
mod digits;
pub mod ending;
pub mod fault;
pub mod files;
pub mod in_files;
mod line;
mod page;
pub mod script;
pub mod streams;
mod word;
