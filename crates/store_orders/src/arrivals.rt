ghost use Rattle.std.specs.Prelude.{◌≡◌, ◌+◌, ◌≤◌, IfOk, vec_len};
ghost use Rattle.clause.specs.Clauses.{lits};
ghost use Rattle.nth_clause.specs.Digits.{nth, AtPlaces};
ghost use Rattle.store_orders.specs.Arrivals.{number_at, last, inwards, place_of, mixed_up, mixed_down};

use clause::words::Clause;
use nth_clause::{fifth, fifths};
use std::alloc::{AllocError, Global};

// How many clauses are put: as many as a store has places at most.
pub const COUNT: u16 = 16384;

// An order in which the clauses arrive. Kept an enum, in place of closures: an order is data that the calls name, and one of the four is shuffled afterwards.
#[derive(Clone, Copy)]
pub enum Order {
    Ascending,
    Descending,
    // The lowest, the highest, the next lowest, and so on.
    Alternating,
    Random,
}

// The clauses that are put are every fifth in clause order from this number on, which is {11}: they have 11 atoms, and atom 11 is positive
// below place 11,810 and negative from there on.
const PUT: u32 = 59049;

// The clauses after them are never put.
const OTHER: u32 = 59050;

// The clause at place j of those that are put, in clause order.
pub fn put_clause(j: u16) -> Clause
    ensures { lits result ≡ nth (number_at j) }
{
    fifth::<PUT>(j)
}

// The clause after it, which is never put.
pub fn other_clause(j: u16) -> Clause
    ensures { lits result ≡ nth (number_at j + 1) }
{
    fifth::<OTHER>(j)
}

// The clauses that are put, in clause order.
pub fn all_clauses(heap: Global) -> Result<Vec<Clause>, AllocError>
    ensures { IfOk result (λ v. (vec_len v ≡ 16384) × AtPlaces 59049 v.items 16384) }
{
    fifths::<PUT>(heap, COUNT)
}

// The place of the i-th to arrive, from 0, from the two ends inwards.
// Kept twice, here and in `store_bench`: one function over any range would be public in a third crate, with a contract and a must-fail edit of its own, for this one line.
fn alternating(i: u16) -> u16
    requires { i ≤ last }
    ensures { result ≡ inwards i }
{
    if i % 2 == 0 { i / 2 } else { COUNT - 1 - i / 2 }
}

// The place of the i-th to arrive; a random order is shuffled afterwards.
fn arrives(order: Order, i: u16) -> u16
    requires { i ≤ last }
    ensures { result ≡ place_of order i }
{
    match order {
        Order::Ascending => i,
        Order::Descending => COUNT - 1 - i,
        Order::Alternating => alternating(i),
        Order::Random => i,
    }
}

// A number that looks random, from the one before: xorshift with the shifts 13, 7 and 17.
fn xorshift(before: u64) -> u64
    ensures { result ≡ mixed_up 17 (mixed_down 7 (mixed_up 13 before)) }
{
    let mut x = before;
    x ^= x << 13;
    x ^= x >> 7;
    x ^= x << 17;
    x
}

// Shuffles the places: each is exchanged with one at or before it.
fn shuffle(places: &mut [u16]) {
    let mut random = 88172645463325252;
    // Kept a range of indices: `swap` takes two.
    for i in 0..places.len() {
        random = xorshift(random);
        let other = (random % (i as u64 + 1)) as usize;
        places.swap(i, other);
    }
}

// The places of the clauses in the order in which they arrive.
pub fn arrivals(heap: Global, order: Order) -> Result<Vec<u16>, AllocError>
    ensures { IfOk result (λ v. vec_len v ≡ 16384) }
{
    let mut places: Vec<u16> = (0..COUNT).map(|i| arrives(order, i)).collect(heap)?;
    if let Order::Random = order {
        shuffle(&mut places);
    }
    Ok(places)
}
