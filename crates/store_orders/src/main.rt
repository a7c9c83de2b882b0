// Puts 16,384 clauses into both clause stores side by side, in four orders of arrival, and compares every answer on the way with the one that is known from
// the order of arrival.
#![tactic(auto)]

mod arrivals;
mod looks;

use arrivals::{COUNT, Order, all_clauses, arrivals, put_clause};
use clause::words::Clause;
use looks::{Known, Placed, Sides};
use row_store::ordered::RowStore;
use row_store::slot::Slot;
use skip_store::skips::{SkipStore, blank, links_for};
use std::io;
use store::entry::Entry;
use store::store::ClauseStore;

// Puts all clauses, and looks at both stores whenever their size is a power of four.
fn fill<A: ClauseStore, B: ClauseStore>(
    sides: &mut Sides<A, B>,
    places: &[u16],
    clauses: &mut [Placed],
) -> io::Result<()> {
    for (size, j) in (1..=COUNT).zip(places) {
        let entry = Entry::derived(put_clause(*j), size, *j);
        sides.put(entry, Some(size))?;
        if let Some(placed) = clauses.get_mut(*j as usize) {
            placed.number = Some(size);
        }
        if size.is_power_of_two() && size.trailing_zeros() % 2 == 0 {
            let places = &places[..places.len().min(size as usize)];
            sides.look(&Known { clauses, places })?;
        }
    }
    sides.put_full(clauses.first().and_then(|placed| placed.number))
}

fn follow(rt: &HostRuntime, name: &str, order: Order, clauses: &[Clause]) -> io::Result<()> {
    let heap = rt.alloc();
    let places = arrivals(heap, order)?;
    let mut placed: Vec<Placed> = clauses
        .iter()
        .map(|clause| Placed {
            clause: *clause,
            number: None,
        })
        .collect(heap)?;
    let mut slots = vec![in heap; Slot::blank(); COUNT as usize]?;
    let mut seats = vec![in heap; 0u16; COUNT as usize]?;
    let mut row = RowStore::new(&mut slots, &mut seats);
    let mut records = vec![in heap; blank(); COUNT as usize]?;
    let mut links = vec![in heap; 0u16; links_for(COUNT)]?;
    let mut skip = SkipStore::new(&mut records, &mut links);
    let mut sides = Sides {
        rt,
        row: &mut row,
        skip: &mut skip,
        alike: 0,
    };
    fill(&mut sides, &places, &mut placed)?;
    let alike = sides.alike;
    let size = row.size();
    println!(rt; "{name}: {size} put, {alike} answers alike")
}

fn main(rt: HostRuntime) -> io::Result<()> {
    let clauses = all_clauses(rt.alloc())?;
    follow(&rt, "ascending", Order::Ascending, &clauses)?;
    follow(&rt, "descending", Order::Descending, &clauses)?;
    follow(&rt, "alternating", Order::Alternating, &clauses)?;
    follow(&rt, "random", Order::Random, &clauses)
}
