#![tactic(auto)]

ghost use Rattle.std.specs.Prelude.{◌≡◌, ℕ, ◌+◌, ◌-◌, ◌<◌, ◌≤◌, min, length, take, drop, MatchOption, slice_index_or, ◌==◌};
ghost use Rattle.row.specs.Order.{Compares, Ascending, Seat, Lacks, Holds, seated};
ghost use Rattle.row.specs.Adds.{Located, Adds};

use std::cmp::Ordering;

// A kind of records with a total order.
pub trait Record: Copy {
    // Where a record stands in the order of its kind: a record comes before another if its key is less.
    ghost key: { Self → ℕ };

    fn order(&self, other: &Self) -> Ordering
        ensures { Compares (key self.now) (key other.now) result };
}

// What an addition came to: the slot of the record already held, or that of the new one, or no slot was free.
// Kept one enum of three cases: a `Result` would need a second enum inside, for held or new.
#[derive(Clone, Copy)]
pub enum Added {
    Held(usize),
    New(usize),
    Full,
}

// Records in order, without equals, at the front of lent slots.
// Only the first `places` slots are ever used, and of them the first `size` are in use. Kept a slice with two counts: the caller lends the memory.
// The clauses `lender` say that the same memory stays lent: a fact of before and after, which no invariant of a type can say.
#[derive(Drop)]
pub struct Row<'a, R: Record> {
    slots: &'a mut [R],
    size: usize,
    places: usize,
    ghost within: { size ≤ places },
    ghost fits: { places ≤ length slots.now },
    ghost ascends: { Ascending R.key slots.now size },
}

impl<'a, R: Record> Row<'a, R> {
    // An empty row that uses at most `most` of the slots.
    pub fn new(slots: &'a mut [R], most: usize) -> Row<'a, R>
        ensures size { result.size ≡ 0 }
        ensures places { result.places ≡ min (length slots.old) most }
        ensures same { result.slots.now ≡ slots.old }
        ensures lender { result.slots.ghost_name ≡ slots.entry.ghost_name }
    {
        let places = slots.len().min(most);
        Row {
            slots,
            size: 0,
            places,
        }
    }

    // How many records there are.
    pub fn size(&self) -> usize
        ensures { result ≡ self.now.size }
    {
        self.size
    }

    // How many records there is room for.
    pub fn places(&self) -> usize
        ensures { result ≡ self.now.places }
    {
        self.places
    }

    // The records, in order.
    pub fn records(&self) -> &[R]
        ensures { result.now ≡ take self.now.size self.now.slots.now }
    {
        &self.slots[..self.size]
    }

    // The record at the position `i`, from 0.
    pub fn get(&self, i: usize) -> Option<R>
        ensures { MatchOption result (self.now.size ≤ i) (λ x. (i < self.now.size) × ((d : R) → x ≡ slice_index_or self.now.slots.now i d)) }
    {
        self.records().get(i).copied()
    }

    // How many records come before `x`: the position of the first that does not.
    pub fn seat(&self, x: &R) -> usize
        ensures { Seat R.key self.now.slots.now self.now.size (R.key x.now) result }
    {
        match self.search(x) {
            Ok(i) | Err(i) => i,
        }
    }

    // The position of the record that `x` equals in the order.
    pub fn find(&self, x: &R) -> Option<usize>
        ensures { MatchOption result (Lacks R.key self.now.slots.now self.now.size (R.key x.now)) (λ i. Holds R.key self.now.slots.now self.now.size (R.key x.now) i) }
    {
        self.search(x).ok()
    }

    // The slot of the record that `x` equals in the order, or the slot where `x` belongs.
    fn search(&self, x: &R) -> Result<usize, usize>
        ensures { Located R.key self.now.slots.now self.now.size (R.key x.now) result }
    {
        self.records().binary_search_by(|record| record.order(x))
    }

    // Puts `x` in where it belongs, unless the row holds its equal or is full.
    pub fn add(&mut self, x: R) -> Added
        ensures adds { Adds R.key self.old.slots.now self.old.size self.old.places x result self.new.slots.now self.new.size }
        ensures places { self.new.places ≡ self.old.places }
        ensures beyond { drop self.old.places self.new.slots.now ≡ drop self.old.places self.old.slots.now }
        ensures lender { self.new.slots.ghost_name ≡ self.old.slots.ghost_name }
    {
        match self.search(&x) {
            Ok(i) => Added::Held(i),
            Err(_) if self.is_full() => Added::Full,
            Err(i) => {
                self.insert(i, x);
                Added::New(i)
            }
        }
    }

    // Whether no place is free.
    fn is_full(&self) -> bool
        ensures { result ≡ (self.now.size == self.now.places) }
    {
        self.size == self.places
    }

    // Puts the new record `x` in at its seat; the records from there on move up by one.
    fn insert(&mut self, seat: usize, x: R)
        requires free { self.old.size < self.old.places }
        requires new { Lacks R.key self.old.slots.now self.old.size (R.key x) }
        requires seat { Seat R.key self.old.slots.now self.old.size (R.key x) seat }
        ensures slots { self.new.slots.now ≡ seated self.old.slots.now self.old.size seat x }
        ensures size { self.new.size ≡ self.old.size + 1 }
        ensures places { self.new.places ≡ self.old.places }
        ensures beyond { drop self.old.places self.new.slots.now ≡ drop self.old.places self.old.slots.now }
        ensures lender { self.new.slots.ghost_name ≡ self.old.slots.ghost_name }
    {
        // Lent apart: between the two writes the slots are not in order.
        let slots = &mut *self.slots;
        slots.copy_within(seat..self.size, seat + 1);
        slots[seat] = x;
        self.size += 1;
    }
}
