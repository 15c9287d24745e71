//! Runs of two passes by chance, the tasks of one in the middle of the other's.

ghost use Rattle.std.specs.Prelude.{All};
ghost use Rattle.hot_index_calls.specs.Passes.{Owns};

use crate::cases::{Task, TestCase, parse_two_numbers};
use crate::guests::{Guest, create_index, do_tasks, lowest_key};
use crate::judge::{Stopper, prepare_guest, verdict};
use finite_map::Call;
use hot_index::{Index, Pass};
use key_bits::Key;
use std::alloc::AllocError;
use std::io;

/// Numbers that follow no plan, always the same from the same seed.
#[derive(Drop)]
pub struct Chance(pub u64);

impl Chance {
    /// Returns the next number by chance, below `bound`; 0 if `bound` is 0. The numbers are Knuth's for MMIX, without their lower bits,
    /// which repeat soon.
    pub fn next_below(&mut self, bound: u64) -> u64 {
        self.0 = self
            .0
            .wrapping_mul(6_364_136_223_846_793_005)
            .wrapping_add(1_442_695_040_888_963_407);
        (self.0 >> 33).checked_rem(bound).unwrap_or(0)
    }

    /// Returns the next task by chance, of all kinds but exchanges, conditional removals and scans downwards. It has one of `keys`, or the
    /// empty key if there is none, and `value` if it takes one.
    pub fn next_task(&mut self, keys: &[Key], value: u64) -> Task {
        let kind = self.next_below(16);
        let key = match keys.get(self.next_below(keys.len() as u64) as usize) {
            Some(key) => key.copy(),
            None => lowest_key(),
        };
        match kind {
            0..=4 => Task::Make(Call::Insert(key, value)),
            5..=7 => Task::Make(Call::Upsert(key, value)),
            8 => Task::Make(Call::Add(key, value)),
            9..=12 => Task::Make(Call::Remove(key)),
            13 => Task::Make(Call::Get(key)),
            14 => Task::Scan(4),
            _ => Task::Collect,
        }
    }
}

/// Takes turns on a new index of `case`, and prints whether all were lawful. `text` has the seed and the number of turns. The error is
/// `bad_line` if it has anything else, or there is no such index. It returns an error, too, if memory is refused, or a write failed.
pub fn run_turns<R: Print + AllocGlobal>(rt: &R, case: &TestCase, text: &str) -> io::Result<()> {
    let (seed, turns) = parse_two_numbers(text)?;
    let (index, passes) = create_index(case.alloc, 2, case.nodes, case.leaves)?;
    let wrong = take_turns_on_new_index(case, &index, passes, seed, turns)?;
    println!(rt; "{turns} turns from {seed}: {}", verdict(wrong))
}

/// Does what `case` does beforehand on `index`, which was just made, with its two `passes`. Then it takes `turns` turns from `seed`.
/// Returns how often something was wrong; an error as of `prepare_guest`, or if memory is refused.
fn take_turns_on_new_index(
    case: &TestCase,
    index: &Index,
    passes: Vec<Pass>,
    seed: u32,
    turns: u32,
) -> io::Result<u64>
    requires { All (Owns index.now) passes.items }
{
    let (mut guest, mut gate) = prepare_guest(case, index, passes)?;
    take_turns(case, &mut guest, &mut gate, seed, turns)
}

/// Takes `turns` turns, each by `run_random_turn`, from `seed`. Returns how often something was wrong; an error if memory is refused.
fn take_turns(
    case: &TestCase,
    guest: &mut Guest,
    gate: &mut Stopper,
    seed: u32,
    turns: u32,
) -> io::Result<u64> {
    let mut chance = Chance(u64::from(seed));
    for turn in 0..u64::from(turns) {
        run_random_turn(case, guest, gate, &mut chance, turn)?;
    }
    Ok(gate.judge.wrong)
}

/// Has `guest` do a task by `chance`. After one of its first 160 steps, by chance too, `gate` has the other pass do a second one; if the
/// first task has fewer steps, the second isn't done. `turn` is the value of both. Every 32nd turn it drops the steps that were kept, and
/// compares scans by `guest` with the replay. `gate.judge` counts what is wrong. `AllocError` if memory is refused.
fn run_random_turn(
    case: &TestCase,
    guest: &mut Guest,
    gate: &mut Stopper,
    chance: &mut Chance,
    turn: u64,
) -> Result<(), AllocError> {
    let task = chance.next_task(&case.keys, turn);
    gate.tasks.clear();
    gate.tasks.push(chance.next_task(&case.keys, turn))?;
    gate.left = chance.next_below(160).wrapping_add(1);
    let mut said = String::new(case.alloc);
    do_tasks(guest, &[task], gate, &mut said)?;
    if turn % 32 == 0 {
        gate.left = 0;
        gate.said.clear();
        gate.judge.told.clear();
        gate.judge.judge_scans(case.alloc, guest)?;
    }
    Ok(())
}
