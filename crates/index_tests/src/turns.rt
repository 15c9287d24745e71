//! Threads that step one at a time, in an order made from a seed: so the list of their steps is the order in which they were made.

ghost use Rattle.std.specs.Prelude.{All};
ghost use Rattle.hot_index_calls.specs.Passes.{Owns};

use crate::cases::{TestCase, bad_line, parse_two_numbers};
use crate::chance::Chance;
use crate::guests::{Guest, create_index, do_tasks, pop_guest};
use crate::judge::{Judge, verdict};
use finite_map::Call;
use hot_index::{Event, Gate, Handle, Index, Pass, Reply};
use key_bits::Key;
use std::alloc::{AllocError, Global};
use std::sync::atomic::{AtomicU64, Ordering};
use std::thread::{Threads, map_vec};
use std::{io, thread};

/// What `turn` of a `Rota` is while it is nobody's turn.
const FREE: u64 = u64::MAX;
/// How often a thread looks whether it is its turn before it gives up.
const MAX_LOOKS: u32 = 50_000_000;
/// How many threads there are at most: `Rota` has a bit for each.
const MOST_THREADS: u32 = 4;
/// How many tasks a thread does.
const TASKS: u64 = 12;

/// Whose turn it is to step, how many steps there were, and which threads have begun and not ended, each a bit. `seed` makes the order;
/// `lost` counts the waits that were given up and the tasks that failed, `added` the additions that were made.
#[derive(Drop)]
struct Rota {
    seed: u64,
    turn: AtomicU64,
    steps: AtomicU64,
    begun: AtomicU64,
    lost: AtomicU64,
    added: AtomicU64,
}

/// What threads have counted in the end, as a `Rota` does.
#[derive(Clone, Copy)]
struct Sums {
    lost: u64,
    added: u64,
}

impl Rota {
    /// Waits until it is the turn of thread `number`, or takes a turn that is nobody's. After `MAX_LOOKS` looks it gives up and adds one to
    /// `lost`, so that a lost turn ends the run as wrong.
    fn wait_for_turn(&self, number: u64) {
        for _ in 0..MAX_LOOKS {
            if self.turn.load(Ordering::SeqCst) == number
                || self
                    .turn
                    .compare_exchange(FREE, number, Ordering::SeqCst, Ordering::SeqCst)
                    .is_ok()
            {
                return;
            }
            thread::yield_now();
        }
        self.lost.fetch_add(1, Ordering::SeqCst);
    }

    /// Gives the turn to one of the threads that have begun and not ended, by chance from the seed and `step`. Returns the thread's number.
    /// If there is none, the turn is nobody's, and it returns `FREE`.
    fn hand_on_turn(&self, step: u64) -> u64 {
        let begun = self.begun.load(Ordering::SeqCst);
        let mut next = Chance(self.seed ^ step).next_below(4);
        for _ in 0..3 {
            if begun & thread_bit(next) == 0 {
                next = next.wrapping_add(1) & 3;
            }
        }
        let turn = if begun & thread_bit(next) == 0 {
            FREE
        } else {
            next
        };
        self.turn.store(turn, Ordering::SeqCst);
        turn
    }
}

/// Returns the bit of thread `number`, which is below `MOST_THREADS`.
fn thread_bit(number: u64) -> u64 {
    1 << (number & 3)
}

/// A gate that keeps the steps of thread `number`, each with its number among all. By chance it passes the turn on, and waits for it.
#[derive(Drop)]
struct Turns<'a> {
    rota: &'a Rota,
    number: u64,
    told: Vec<(u64, Event)>,
}

impl<'a> Gate for Turns<'a> {
    ghost becomes = { λ _ _ _. Unit {0} };

    /// Keeps `event` with its number among all threads' steps. By chance, one time in four, it hands the turn on and waits for its own.
    fn at(&mut self, event: &Event) {
        let step = self.rota.steps.fetch_add(1, Ordering::SeqCst);
        let _ = self.told.push((step, *event));
        if Chance(self.rota.seed.wrapping_add(step)).next_below(4) == 0
            && self.rota.hand_on_turn(step) != self.number
        {
            self.rota.wait_for_turn(self.number);
        }
    }
}

/// Tries to add one to the value of `key`. If the key has a value and no other pass is in the way, `gate.rota.added` counts the addition.
fn add_one(guest: &mut Guest, gate: &mut Turns, key: &Key) {
    let call = Call::Add(key.copy(), 1);
    let told = guest.index.try_call_with(&mut guest.pass, &call, gate);
    if matches!(told, Ok(Reply::Was(_))) {
        gate.rota.added.fetch_add(1, Ordering::SeqCst);
    }
}

/// Does `TASKS` tasks by chance, by `pass`, and adds to the value of `case.counter` after each, if the case has one. Returns the steps, in
/// the order in which they were made, each with its number among those of all threads. `rota.lost` counts tasks that failed, and waits for
/// a turn that were given up.
fn run_thread(case: &TestCase, rota: &Rota, index: &Index, pass: Pass) -> Vec<(u64, Event)>
    requires { Owns index.now pass }
{
    let mut guest = Handle::new(index, pass);
    let number = u64::from(guest.number());
    let mut chance = Chance(rota.seed.wrapping_add(number << 40));
    let told = Vec::new(case.alloc);
    let mut gate = Turns { rota, number, told };
    let mut said = String::new(case.alloc);
    rota.begun.fetch_add(thread_bit(number), Ordering::SeqCst);
    rota.wait_for_turn(number);
    for turn in 0..TASKS {
        let task = chance.next_task(&case.keys, turn);
        if do_tasks(&mut guest, &[task], &mut gate, &mut said).is_err() {
            rota.lost.fetch_add(1, Ordering::SeqCst);
        }
        if let Some(key) = &case.counter {
            add_one(&mut guest, &mut gate, key);
        }
    }
    rota.begun.fetch_sub(thread_bit(number), Ordering::SeqCst);
    rota.hand_on_turn(rota.steps.load(Ordering::SeqCst));
    gate.told
}

/// Lets `judge` judge the steps `told` of all threads in the order of their numbers, and then scans by `last`, another pass. `AllocError`
/// if memory is refused.
fn judge_steps(
    alloc: Global,
    judge: &mut Judge,
    last: &mut Guest,
    told: &[Vec<(u64, Event)>],
) -> Result<(), AllocError> {
    let mut total = 0usize;
    for steps in told.iter() {
        total = total.wrapping_add(steps.len());
    }
    let mut order = vec![in alloc; None; total]?;
    for steps in told.iter() {
        order_steps(&mut order, steps);
    }
    for event in order.iter() {
        judge_step(judge, event);
    }
    judge.judge_scans(alloc, last)
}

/// Puts each of `steps`, those of a thread, into `order` at the step's number. A number that `order` has no place for is left out.
fn order_steps(order: &mut [Option<Event>], steps: &[(u64, Event)]) {
    for (step, event) in steps.iter() {
        if let Some(place) = order.get_mut(*step as usize) {
            *place = Some(*event);
        }
    }
}

/// Gives `event`, what stands at one place of the order of all steps, to `judge`. `None` says that no thread told of that step, and counts
/// as one wrong.
fn judge_step(judge: &mut Judge, event: &Option<Event>) {
    match event {
        Some(event) => judge.at(event),
        None => judge.wrong = judge.wrong.wrapping_add(1),
    }
}

/// Lets `threads` threads step on a new index of `case`, in an order made from `seed`, after what the case does beforehand. Returns how
/// often something was wrong, as `count_wrong` counts it. It returns an error if a number is out of range, memory is refused, or a thread
/// can't be started.
fn run_order<R: AllocGlobal + Threads + Sync>(
    rt: &R,
    case: &TestCase,
    threads: u32,
    seed: u64,
) -> io::Result<u64> {
    let passes = threads.wrapping_add(1);
    let (index, seats) = create_index(case.alloc, passes, case.nodes, case.leaves)?;
    run_threads(rt, case, &index, seats, passes, seed)
}

/// Starts a thread for each pass but the last, and lets the threads step on `index`, which was just made. Returns how often something was
/// wrong, as `run_order` does. `seats` are all its passes, `passes` in number: one for each thread, and the last for what is done before
/// and after.
fn run_threads<R: AllocGlobal + Threads + Sync>(
    rt: &R,
    case: &TestCase,
    index: &Index,
    mut seats: Vec<Pass>,
    passes: u32,
    seed: u64,
) -> io::Result<u64>
    requires { All (Owns index.now) seats.items }
{
    let mut last = pop_guest(index, &mut seats)?;
    let mut judge = Judge::new(case.alloc, passes, case.nodes, case.leaves)?;
    do_tasks(
        &mut last,
        &case.before,
        &mut judge,
        &mut String::new(case.alloc),
    )?;
    let (told, sums) = step_threads(rt, case, index, seats, seed)?;
    count_wrong(case, &mut judge, &mut last, &told, sums)
}

/// Starts a thread for each pass of `seats`, which are of `index`, and lets it do its tasks (`run_thread`). The threads take turns in an
/// order made from `seed`. Returns the steps of each thread, each with its number among all, in the order of `seats`. With them it returns
/// how many waits and tasks failed in all threads, and how many additions were made. It returns an error if memory is refused, or a thread
/// can't be started.
fn step_threads<R: AllocGlobal + Threads + Sync>(
    rt: &R,
    case: &TestCase,
    index: &Index,
    seats: Vec<Pass>,
    seed: u64,
) -> io::Result<(Vec<Vec<(u64, Event)>>, Sums)>
    requires { All (Owns index.now) seats.items }
{
    let rota = Rota {
        seed,
        turn: AtomicU64::new(FREE),
        steps: AtomicU64::new(0),
        begun: AtomicU64::new(0),
        lost: AtomicU64::new(0),
        added: AtomicU64::new(0),
    };
    let step_in_turn = |pass: Pass| -> Vec<(u64, Event)>
        requires { Owns index.now pass }
    { run_thread(case, &rota, index, pass) };
    let told = map_vec(rt, seats, &step_in_turn)?;
    let sums = Sums {
        lost: rota.lost.load(Ordering::SeqCst),
        added: rota.added.load(Ordering::SeqCst),
    };
    Ok((told, sums))
}

/// Returns how often something was wrong in the steps `told`: the steps and the scans by `last` that `judge` finds wrong, and `sums.lost`.
/// `judge` knows all steps before `told`. It counts one more if the value of `case.counter` isn't `sums.added`. It returns an error if
/// memory is refused.
fn count_wrong(
    case: &TestCase,
    judge: &mut Judge,
    last: &mut Guest,
    told: &[Vec<(u64, Event)>],
    sums: Sums,
) -> io::Result<u64> {
    judge_steps(case.alloc, judge, last, told)?;
    if let Some(key) = &case.counter {
        if last.get(key) != Some(sums.added) {
            judge.wrong = judge.wrong.wrapping_add(1);
        }
    }
    Ok(judge.wrong.wrapping_add(sums.lost))
}

/// Lets threads step in turns on new indexes of `case`, and prints whether all was lawful. `text` has two numbers: of the threads, which
/// must be `MOST_THREADS` at most, and of the orders, each on an index of its own. The seeds lie further apart than an order has steps, as
/// each step adds its number to the seed. The error is `bad_line` for any other text. Else it is that of a `run_order`, or of the write.
pub fn run_orders<R>(rt: &R, case: &TestCase, text: &str) -> io::Result<()>
where
    R: Print + AllocGlobal + Threads + Sync,
{
    let (threads, orders) = parse_two_numbers(text)?;
    if threads > MOST_THREADS {
        return Err(bad_line());
    }
    let mut wrong = 0u64;
    for seed in 0..u64::from(orders) {
        wrong = wrong.wrapping_add(run_order(rt, case, threads, seed << 20)?);
    }
    println!(rt; "{orders} orders of {threads} threads: {}", verdict(wrong))
}
