// Looks at both stores: every answer beside the one that is known from the order of arrival.
ghost use Rattle.std.specs.Prelude.{◌≡◌, MatchOption};
ghost use Rattle.clause.specs.Refusals.{answer};
ghost use Rattle.std.specs.List.{find};
ghost use Rattle.store_orders.specs.Arrivals.{known_number, NoEntry, IsEntry, counts, first_known, is_due, next, same_entries};

use crate::arrivals::{COUNT, other_clause, put_clause};
use clause::refusal::Refusal;
use clause::words::Clause;
use std::io;
use store::entry::Entry;
use store::store::ClauseStore;

// A clause that is put, with its number once it was.
#[derive(Clone, Copy)]
pub struct Placed {
    pub clause: Clause,
    pub number: Option<u16>,
}

impl Placed {
    // Whether the clause was put and is false.
    fn counts(&self, valuation: u64) -> bool
        ensures { result ≡ counts valuation self.now }
    {
        self.number.is_some() && !self.clause.is_true(valuation)
    }
}

// What is known without a store: the clauses in clause order, and the places of the entries so far, by their numbers.
#[derive(Clone, Copy)]
pub struct Known<'a, 'b> {
    pub clauses: &'a [Placed],
    pub places: &'b [u16],
}

impl Known<'_, '_> {
    // The number of the clause at place j, nothing where it was not put yet.
    fn number(&self, j: u16) -> Option<u16>
        ensures { result ≡ known_number self.now.clauses.now j }
    {
        self.clauses.get(j as usize)?.number
    }

    // The entry with the number: its antecedents are its number and its place.
    fn entry(&self, number: u16) -> Option<Entry>
        ensures { MatchOption result (NoEntry self.now.places.now number) (λ e. IsEntry self.now.places.now number e) }
    {
        let index = number.checked_sub(1)?;
        let place = *self.places.get(index as usize)?;
        Some(Entry::derived(put_clause(place), number, place))
    }

    // The first clause in clause order that was put and is false.
    fn first_false(&self, valuation: u64) -> Option<Placed>
        ensures { result ≡ find (counts valuation) self.now.clauses.now }
    {
        self.clauses
            .iter()
            .copied()
            .find(|placed| placed.counts(valuation))
    }

    // The number of that clause.
    fn least_false(&self, valuation: u64) -> Option<u16>
        ensures { result ≡ first_known valuation self.now.clauses.now }
    {
        self.first_false(valuation)?.number
    }
}

// Whether the answer is the number, or refusal 10 for none.
fn is_answer(put: Result<u16, Refusal>, number: Option<u16>) -> bool
    ensures { result ≡ is_due (answer put) number }
{
    put == number.ok_or(Refusal::NoPlaceFree)
}

// Whether two answers are the same entry, or both none: the derived equality, which has no clauses of its own.
fn same_entries(one: Option<Entry>, other: Option<Entry>) -> bool
    ensures { result ≡ same_entries one other }
{
    one == other
}

// Both stores side by side, where they print, and how many of their answers were the known one.
#[derive(Drop)]
pub struct Sides<'r, 'a, 'b, A, B> {
    pub rt: &'r HostRuntime,
    pub row: &'a mut A,
    pub skip: &'b mut B,
    pub alike: u64,
}

impl<A: ClauseStore, B: ClauseStore> Sides<'_, '_, '_, A, B> {
    fn count(&mut self)
        ensures { self.new.alike ≡ next self.old.alike }
    {
        self.alike = self.alike.saturating_add(1);
    }

    // Puts an entry into both stores, and prints a line unless both answer the number.
    pub fn put(&mut self, entry: Entry, number: Option<u16>) -> io::Result<()> {
        let row = is_answer(self.row.put(entry), number);
        let skip = is_answer(self.skip.put(entry), number);
        if row && skip {
            self.count();
            return Ok(());
        }
        let rt = self.rt;
        println!(rt; "wrong: put with {number:?} due: row {row}, skip {skip}")
    }

    // Puts one clause more into full stores, which is refused, and the first clause in order, which is held.
    pub fn put_full(&mut self, first: Option<u16>) -> io::Result<()> {
        self.put(Entry::given(other_clause(0)), None)?;
        self.put(Entry::given(put_clause(0)), first)
    }

    // Counts answers of both stores that are the known one, or prints a line.
    fn compare(
        &mut self,
        question: &str,
        argument: u64,
        row: Option<u16>,
        skip: Option<u16>,
        known: Option<u16>,
    ) -> io::Result<()> {
        let rt = self.rt;
        if row != skip {
            return println!(rt;
                "stores differ: {question} {argument}: row {row:?}, skip {skip:?}, known {known:?}"
            );
        }
        if row != known {
            return println!(rt; "wrong: {question} {argument}: {row:?}, known {known:?}");
        }
        self.count();
        Ok(())
    }

    fn find(
        &mut self,
        question: &str,
        j: u16,
        clause: Clause,
        known: Option<u16>,
    ) -> io::Result<()> {
        let row = self.row.find(&clause);
        let skip = self.skip.find(&clause);
        self.compare(question, j as u64, row, skip, known)
    }

    fn finds(&mut self, known: &Known) -> io::Result<()> {
        for j in 0..COUNT {
            self.find("find", j, put_clause(j), known.number(j))?;
            self.find("find after", j, other_clause(j), None)?;
        }
        Ok(())
    }

    fn entries(&mut self, known: &Known) -> io::Result<()> {
        let rt = self.rt;
        for number in 0..COUNT + 2 {
            let row = self.row.entry(number);
            if !same_entries(row, self.skip.entry(number)) {
                println!(rt; "stores differ: entry {number}")?;
            } else if !same_entries(row, known.entry(number)) {
                println!(rt; "wrong: entry {number}")?;
            } else {
                self.count();
            }
        }
        Ok(())
    }

    // Under 256 valuations of the 11 atoms, from the one without a true atom on.
    fn leasts(&mut self, known: &Known) -> io::Result<()> {
        for i in 0..256u64 {
            let valuation = i * 1289 % 2048;
            let row = self.row.least_false(valuation);
            let skip = self.skip.least_false(valuation);
            self.compare(
                "least false",
                valuation,
                row,
                skip,
                known.least_false(valuation),
            )?;
        }
        Ok(())
    }

    // All questions: 2 * 16,384 finds, 16,386 entries, 256 least false ones.
    pub fn look(&mut self, known: &Known) -> io::Result<()> {
        self.finds(known)?;
        self.entries(known)?;
        self.leasts(known)
    }
}
