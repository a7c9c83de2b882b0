// Asks both clause stores the requests of one set of tables, and compares each answer with the one that the rules give.
#![tactic(auto)]

mod ask;
mod request;
mod tables;

ghost use Rattle.std.specs.Prelude.{◌≡◌, ◌*◌, ◌≤◌, length, IfOk};

use ask::ask;
use request::Row;
use row_store::ordered::RowStore;
use row_store::slot::Slot;
use skip_store::skips::{SkipStore, blank, links_for};
use std::io;
use store::store::ClauseStore;

// How much memory is lent: slots and seats to the row, records and links to the skip list.
#[derive(Clone, Copy)]
struct Lent {
    slots: usize,
    seats: usize,
    records: usize,
    links: usize,
}

// Just what so many places take.
fn lent_for(places: u16) -> Lent
    ensures { result ≡ record { slots = places; seats = places; records = places; links = 2 * places } }
{
    let count = places as usize;
    Lent {
        slots: count,
        seats: count,
        records: count,
        links: links_for(places),
    }
}

// A table: its requests with their answers, and the memory that is lent to each store.
#[derive(Clone, Copy)]
struct Table<'a> {
    name: &'a str,
    lent: Lent,
    rows: &'a [Row],
}

impl<'a> Table<'a> {
    fn new(name: &'a str, lent: Lent, rows: &'a [Row]) -> Table<'a>
        ensures { (result.lent ≡ lent) × (result.rows.now ≡ rows.now) }
    {
        Table { name, lent, rows }
    }
}

impl Table<'_> {
    // Performs the table on the store, prints a line for each wrong answer, and answers how many were right.
    fn perform<S: ClauseStore>(
        &self,
        rt: &HostRuntime,
        kind: &str,
        store: &mut S,
    ) -> io::Result<usize>
        ensures { IfOk result (λ n. n ≤ length self.now.rows.now) }
    {
        let table = self.name;
        let mut right = 0;
        for (i, row) in self.rows.iter().enumerate() {
            let Row(request, expected) = *row;
            let answer = ask(store, &request);
            if answer == expected {
                right += 1;
            } else {
                println!(rt;
                    "wrong: {table}, {kind} store, request {i}: {request:?} answers {answer:?} and not {expected:?}"
                )?;
            }
        }
        Ok(right)
    }

    // Kept two, here and below: a store borrows memory of its own kind, and one function over both would take a trait that makes the memory and lends the store.
    fn over_row(&self, rt: &HostRuntime) -> io::Result<usize>
        ensures { IfOk result (λ n. n ≤ length self.now.rows.now) }
    {
        let heap = rt.alloc();
        let mut slots = vec![in heap; Slot::blank(); self.lent.slots]?;
        let mut seats = vec![in heap; 0u16; self.lent.seats]?;
        let mut store = RowStore::new(&mut slots, &mut seats);
        self.perform(rt, "row", &mut store)
    }

    fn over_skip(&self, rt: &HostRuntime) -> io::Result<usize>
        ensures { IfOk result (λ n. n ≤ length self.now.rows.now) }
    {
        let heap = rt.alloc();
        let mut records = vec![in heap; blank(); self.lent.records]?;
        let mut links = vec![in heap; 0u16; self.lent.links]?;
        let mut store = SkipStore::new(&mut records, &mut links);
        self.perform(rt, "skip", &mut store)
    }

    // Performs the table on an empty store of each kind in the lent memory, and prints how many answers were right.
    fn over_both(&self, rt: &HostRuntime) -> io::Result<()> {
        let row = self.over_row(rt)?;
        let skip = self.over_skip(rt)?;
        let name = self.name;
        let asked = self.rows.len();
        println!(rt; "{name}: {asked} requests, right: row {row}, skip {skip}")
    }
}

fn few_places(rt: &HostRuntime) -> io::Result<()> {
    Table::new("no places", lent_for(0), &tables::NO_PLACES).over_both(rt)?;
    Table::new("one place", lent_for(1), &tables::ONE_PLACE).over_both(rt)?;
    Table::new("held again", lent_for(4), &tables::HELD_AGAIN).over_both(rt)?;
    Table::new("full", lent_for(3), &tables::FULL).over_both(rt)
}

fn questions(rt: &HostRuntime) -> io::Result<()> {
    Table::new("entry outside", lent_for(4), &tables::ENTRY_OUTSIDE).over_both(rt)?;
    Table::new("find absent", lent_for(4), &tables::FIND_ABSENT).over_both(rt)?;
    Table::new("order, last first", lent_for(7), &tables::ORDER_DOWN).over_both(rt)?;
    Table::new("order, first first", lent_for(7), &tables::ORDER_UP).over_both(rt)?;
    Table::new("highest atom", lent_for(3), &tables::HIGHEST_ATOM).over_both(rt)?;
    Table::new("none false", lent_for(4), &tables::NONE_FALSE).over_both(rt)?;
    Table::new("antecedents", lent_for(4), &tables::ANTECEDENTS).over_both(rt)
}

fn memory(rt: &HostRuntime) -> io::Result<()> {
    let many = Lent {
        slots: 20000,
        seats: 20000,
        records: 20000,
        links: 40000,
    };
    Table::new("20,000 lent", many, &tables::MANY_LENT).over_both(rt)?;
    let fewer_records = Lent {
        slots: 3,
        seats: 5,
        records: 3,
        links: 10,
    };
    Table::new("fewer records", fewer_records, &tables::UNEQUAL).over_both(rt)?;
    // Seven links are enough for three places and one over.
    let fewer_seats = Lent {
        slots: 5,
        seats: 3,
        records: 5,
        links: 7,
    };
    Table::new("fewer seats and links", fewer_seats, &tables::UNEQUAL).over_both(rt)?;
    without_places(rt)
}

// Of the two slices that a place needs, one alone.
fn without_places(rt: &HostRuntime) -> io::Result<()> {
    // One link is less than a place takes.
    let no_seats = Lent {
        slots: 4,
        seats: 0,
        records: 4,
        links: 1,
    };
    Table::new(
        "records without seats and links",
        no_seats,
        &tables::NO_PLACES,
    )
    .over_both(rt)?;
    let no_records = Lent {
        slots: 0,
        seats: 4,
        records: 0,
        links: 8,
    };
    Table::new(
        "seats and links without records",
        no_records,
        &tables::NO_PLACES,
    )
    .over_both(rt)
}

fn main(rt: HostRuntime) -> io::Result<()> {
    few_places(&rt)?;
    questions(&rt)?;
    memory(&rt)
}
