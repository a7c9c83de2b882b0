// Measures the clause stores beside a plain scan: for each line of input, STORE WORK ARRIVAL RANGE BUILT TIMES, the time that the work took and the sum of its answers.
// `bench/README.md` says how it is used.
#![tactic(auto)]

mod measured;
mod plain;
mod task;

ghost use Rattle.std.specs.Prelude.{◌≡◌, ◌+◌, ◌-◌, ◌*◌, ◌/◌, ◌%◌, ◌^◌, if◌then◌else◌, bit_and, nat_eq, IfOk, vec_len};
ghost use Rattle.nth_clause.specs.Digits.{AtPlaces};

use clause::words::Clause;
use measured::{Measured, Stored};
use nth_clause::fifths;
use plain::Plain;
use row_store::ordered::RowStore;
use row_store::slot::Slot;
use skip_store::skips::{SkipStore, blank, links_for};
use std::alloc::{AllocError, Global};
use std::io;
use std::io::{BufRead, BufReader};
use std::time::Instant;
use store::entry::Entry;
use task::{Arrival, NotUnderstood, Subject, Task, Work};

const COUNT: u16 = 16384;

// The clauses are every fifth in clause order from this number on, which has atoms 1 to 12, all positive. All these clauses have atom 12, positive.
const PUT: u32 = 265720;

// The clauses after them are never put.
const OTHER: u32 = 265721;

// The clauses that are put, in clause order.
fn put_clauses(heap: Global) -> Result<Vec<Clause>, AllocError>
    ensures { IfOk result (λ v. (vec_len v ≡ 16384) × AtPlaces 265720 v.items 16384) }
{
    fifths::<PUT>(heap, COUNT)
}

// The clauses that never are, each after the one at its place.
fn other_clauses(heap: Global) -> Result<Vec<Clause>, AllocError>
    ensures { IfOk result (λ v. (vec_len v ≡ 16384) × AtPlaces 265721 v.items 16384) }
{
    fifths::<OTHER>(heap, COUNT)
}

// The steps in which clauses are put and asked for.
const PUT_STEP: u32 = 9973;

const ASK_STEP: u32 = 7919;

// The i-th place in a scattered order of the first `range`, a power of two: an odd step reaches each of them once.
fn scattered(range: u32, step: u32, i: u32) -> u32
    ensures { result ≡ bit_and (i * step % 2 ^ 32) (range - 1) }
{
    i.wrapping_mul(step) & range.saturating_sub(1)
}

// The i-th place from the two ends of the first `range` inwards.
// Kept twice, here and in `store_orders`: one function over any range would be public in a third crate, with a contract and a must-fail edit of its own, for this one line.
fn alternating(range: u32, i: u32) -> u32
    ensures { result ≡ (if nat_eq (i % 2) 0 then i / 2 else range - 1 - i / 2) }
{
    if i % 2 == 0 {
        i / 2
    } else {
        range.saturating_sub(1).saturating_sub(i / 2)
    }
}

fn clause_at(clauses: &[Clause], place: u32) -> Clause {
    clauses
        .get(place as usize)
        .copied()
        .unwrap_or(Clause::empty())
}

// The i-th valuation: of atoms 1 to 11 some, atom 12 as asked.
fn valuation(i: u32, twelfth: bool) -> u64 {
    let low = i.wrapping_mul(1289) as u64 & 2047;
    if twelfth { low | 2048 } else { low }
}

// Does something so many times, and answers the sum of the answers.
fn repeat<F: FnMut(u32) -> u64>(times: u32, mut once: F) -> u64
    requires { F.IsAlwaysCallable once }
{
    let mut sum = 0u64;
    for i in 0..times {
        sum = sum.wrapping_add(once(i));
    }
    sum
}

// A task with the clauses that are put, and those that never are, in clause order.
#[derive(Clone, Copy)]
struct Job<'a> {
    task: Task,
    held: &'a [Clause],
    others: &'a [Clause],
}

impl Job<'_> {
    // The i-th place to be asked for.
    fn asked(&self, i: u32) -> u32 {
        scattered(self.task.range, ASK_STEP, i)
    }

    // The i-th entry to arrive.
    fn arriving(&self, i: u32) -> Entry {
        let range = self.task.range;
        let place = match self.task.arrival {
            Arrival::Scattered => scattered(range, PUT_STEP, i),
            Arrival::Alternating => alternating(range, i),
        };
        Entry::given(clause_at(self.held, place))
    }

    // Puts the entries that the work begins with, and answers the sum of the answers.
    fn build<M: Measured>(&self, store: &mut M) -> u64 {
        repeat(self.task.built, |i| store.fill(self.arriving(i)))
    }

    // Does the work, and answers the sum of the answers. Kept one match, on the word of the input: each arm hands its step to `repeat` as a closure.
    fn work<M: Measured>(&self, store: &mut M) -> u64 {
        let times = self.task.times;
        let built = self.task.built;
        match self.task.work {
            Work::Find => repeat(times, |i| store.look(&clause_at(self.held, self.asked(i)))),
            Work::Miss => repeat(
                times,
                |i| store.look(&clause_at(self.others, self.asked(i))),
            ),
            Work::Put => repeat(times, |i| store.add(self.arriving(built.wrapping_add(i)))),
            Work::Least => repeat(times, |i| store.least(valuation(i, false))),
            Work::Never => repeat(times, |i| store.least(valuation(i, true))),
        }
    }
}

fn measure<M: Measured>(
    rt: &HostRuntime,
    line: &str,
    store: &mut M,
    task: &Task,
) -> io::Result<()> {
    let heap = rt.alloc();
    let held = put_clauses(heap)?;
    let others = other_clauses(heap)?;
    let job = Job {
        task: *task,
        held: &held,
        others: &others,
    };
    let built = job.build(store);
    let start = Instant::now(rt)?;
    let sum = job.work(store);
    let nanos = start.elapsed(rt)?.as_nanos();
    println!(rt; "{line}: {nanos} ns, sums {built} {sum}")
}

// Measures the store of the task. Kept three arms: each kind of store borrows memory of its own kind.
fn perform(rt: &HostRuntime, line: &str, task: &Task) -> io::Result<()> {
    let heap = rt.alloc();
    match task.subject {
        Subject::Row => {
            let mut slots = vec![in heap; Slot::blank(); COUNT as usize]?;
            let mut seats = vec![in heap; 0u16; COUNT as usize]?;
            let mut store = Stored(RowStore::new(&mut slots, &mut seats));
            measure(rt, line, &mut store, task)
        }
        Subject::Skip => {
            let mut records = vec![in heap; blank(); COUNT as usize]?;
            let mut links = vec![in heap; 0u16; links_for(COUNT)]?;
            let mut store = Stored(SkipStore::new(&mut records, &mut links));
            measure(rt, line, &mut store, task)
        }
        Subject::Plain => {
            let mut store = Plain::new(heap);
            measure(rt, line, &mut store, task)
        }
    }
}

fn main(rt: HostRuntime) -> io::Result<()> {
    for line in BufReader::new(rt.alloc(), rt.stdin())?.lines(rt.alloc()) {
        let line = line?;
        match line.as_str().parse::<Task>() {
            Ok(task) => perform(&rt, line.as_str(), &task)?,
            Err(NotUnderstood) => println!(rt; "not understood: {line}")?,
        }
    }
    Ok(())
}
