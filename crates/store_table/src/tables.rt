// The tables of requests. Every answer is reasoned from the rules: entries are numbered from 1 by arrival, no clause stands twice, a clause that is not
// held is refused with 10 where no place is free, and least false answers the first false clause in clause order. A valuation is the word of its true
// atoms: 1 is atom 1, 2 is atom 2, 3 both.
use crate::request::{Answer, Request, Row, Words};

// Clauses by their literals, P positive and N negative, in clause order: {}, {1}, {-1}, {2}, {2, 1}, {2, -1}, {-2}.
const EMPTY: Words = Words {
    positive: 0,
    negative: 0,
};

const P1: Words = Words {
    positive: 1,
    negative: 0,
};

const N1: Words = Words {
    positive: 0,
    negative: 1,
};

const P2: Words = Words {
    positive: 2,
    negative: 0,
};

const P2_P1: Words = Words {
    positive: 3,
    negative: 0,
};

const P2_N1: Words = Words {
    positive: 2,
    negative: 1,
};

const N2: Words = Words {
    positive: 0,
    negative: 2,
};

// The clauses {1, 2, .., 63}, {64} and {-64, 1}, in clause order.
const P1_TO_P63: Words = Words {
    positive: 0x7fff_ffff_ffff_ffff,
    negative: 0,
};

const P64: Words = Words {
    positive: 0x8000_0000_0000_0000,
    negative: 0,
};

const N64_P1: Words = Words {
    positive: 1,
    negative: 0x8000_0000_0000_0000,
};

// Valuations with atom 63, with atom 64, with both.
const V63: u64 = 0x4000_0000_0000_0000;

const V64: u64 = 0x8000_0000_0000_0000;

const V63_V64: u64 = 0xc000_0000_0000_0000;

// No places at all.
pub const NO_PLACES: [Row; 8] = [
    // Nothing was lent that makes a place.
    Row(Request::Places, Answer::Count(0)),
    // No entry stands in it.
    Row(Request::Size, Answer::Count(0)),
    // No place is free.
    Row(Request::Put(P1), Answer::Refused(10)),
    // Nor for the clause without a literal.
    Row(Request::Put(EMPTY), Answer::Refused(10)),
    // A refusal alters nothing.
    Row(Request::Size, Answer::Count(0)),
    // The refused clause is not held.
    Row(Request::Find(P1), Answer::Nothing),
    // There is no entry.
    Row(Request::Entry(1), Answer::Nothing),
    // No clause is held, so none is false.
    Row(Request::LeastFalse(0), Answer::Nothing),
];

// One place.
pub const ONE_PLACE: [Row; 10] = [
    // One was lent.
    Row(Request::Places, Answer::Count(1)),
    // It is free at first.
    Row(Request::Size, Answer::Count(0)),
    // The first entry has number 1.
    Row(Request::Put(P2), Answer::Number(1)),
    // Now it is taken.
    Row(Request::Size, Answer::Count(1)),
    // No place is free for a second clause.
    Row(Request::Put(P1), Answer::Refused(10)),
    // The refused clause is not held.
    Row(Request::Find(P1), Answer::Nothing),
    // A held clause needs no place.
    Row(Request::Put(P2), Answer::Number(1)),
    // Entry 1 is as it was put.
    Row(Request::Entry(1), Answer::Holds(P2, 0, 0)),
    // Atom 2 is false, so {2} is.
    Row(Request::LeastFalse(0), Answer::Number(1)),
    // Atom 2 is true, so {2} is.
    Row(Request::LeastFalse(2), Answer::Nothing),
];

// A held clause again, in four places.
pub const HELD_AGAIN: [Row; 10] = [
    // The first entry.
    Row(Request::Put(P2_N1), Answer::Number(1)),
    // The second.
    Row(Request::Put(N2), Answer::Number(2)),
    // Held: its number again.
    Row(Request::Put(P2_N1), Answer::Number(1)),
    // Nothing was added.
    Row(Request::Size, Answer::Count(2)),
    // Held, whatever its antecedents are now.
    Row(Request::Derive(P2_N1, 2, 2), Answer::Number(1)),
    // It keeps the antecedents that it came with.
    Row(Request::Entry(1), Answer::Holds(P2_N1, 0, 0)),
    // The other one too.
    Row(Request::Put(N2), Answer::Number(2)),
    // Still two.
    Row(Request::Size, Answer::Count(2)),
    // A new clause takes the next number.
    Row(Request::Put(P1), Answer::Number(3)),
    // The numbers of the others stay.
    Row(Request::Find(P2_N1), Answer::Number(1)),
];

// Three places, all taken: held clauses still answer.
pub const FULL: [Row; 15] = [
    // By arrival.
    Row(Request::Put(N2), Answer::Number(1)),
    // By arrival.
    Row(Request::Put(P1), Answer::Number(2)),
    // The last place.
    Row(Request::Put(P2), Answer::Number(3)),
    // No place is free.
    Row(Request::Put(N1), Answer::Refused(10)),
    // A refusal alters nothing.
    Row(Request::Size, Answer::Count(3)),
    // The refused clause is not held.
    Row(Request::Find(N1), Answer::Nothing),
    // Held, so not refused.
    Row(Request::Put(P1), Answer::Number(2)),
    // Held, so not refused.
    Row(Request::Put(N2), Answer::Number(1)),
    // Find still answers.
    Row(Request::Find(P2), Answer::Number(3)),
    // So does entry.
    Row(Request::Entry(3), Answer::Holds(P2, 0, 0)),
    // The refused clause has no entry.
    Row(Request::Entry(4), Answer::Nothing),
    // {1} and {2} are false, and {1} comes first.
    Row(Request::LeastFalse(0), Answer::Number(2)),
    // Only {2} is false.
    Row(Request::LeastFalse(1), Answer::Number(3)),
    // {1} and {-2} are false, and {1} comes first.
    Row(Request::LeastFalse(2), Answer::Number(2)),
    // Only {-2} is false.
    Row(Request::LeastFalse(3), Answer::Number(1)),
];

// Entries outside 1 to the size, in four places.
pub const ENTRY_OUTSIDE: [Row; 9] = [
    // Numbers start at 1.
    Row(Request::Entry(0), Answer::Nothing),
    // No entry yet.
    Row(Request::Entry(1), Answer::Nothing),
    // The first entry.
    Row(Request::Put(P1), Answer::Number(1)),
    // Still none.
    Row(Request::Entry(0), Answer::Nothing),
    // Within the size.
    Row(Request::Entry(1), Answer::Holds(P1, 0, 0)),
    // A free place has no entry.
    Row(Request::Entry(2), Answer::Nothing),
    // Nor has the last place.
    Row(Request::Entry(4), Answer::Nothing),
    // Beyond the places.
    Row(Request::Entry(5), Answer::Nothing),
    // The largest number that can be asked for.
    Row(Request::Entry(65535), Answer::Nothing),
];

// Clauses that are not held, in four places.
pub const FIND_ABSENT: [Row; 11] = [
    // Nothing is held.
    Row(Request::Find(P1), Answer::Nothing),
    // Not even the clause without a literal, which blank memory looks like.
    Row(Request::Find(EMPTY), Answer::Nothing),
    // The first entry.
    Row(Request::Put(P2), Answer::Number(1)),
    // Held.
    Row(Request::Find(P2), Answer::Number(1)),
    // The other sign is another clause.
    Row(Request::Find(N2), Answer::Nothing),
    // So is one with a literal more.
    Row(Request::Find(P2_P1), Answer::Nothing),
    // So is one with another atom.
    Row(Request::Find(P1), Answer::Nothing),
    // So is one with a literal less.
    Row(Request::Find(EMPTY), Answer::Nothing),
    // Questions alter nothing.
    Row(Request::Size, Answer::Count(1)),
    // The clause without a literal can be held.
    Row(Request::Put(EMPTY), Answer::Number(2)),
    // Now it is.
    Row(Request::Find(EMPTY), Answer::Number(2)),
];

// The order {} < {1} < {-1} < {2} < {2, 1} < {2, -1} < {-2}: the last comes first, and after each the least false under all four valuations of two atoms.
pub const ORDER_DOWN: [Row; 35] = [
    // {-2} is entry 1.
    Row(Request::Put(N2), Answer::Number(1)),
    // {-2} is true where atom 2 is false.
    Row(Request::LeastFalse(0), Answer::Nothing),
    // Likewise.
    Row(Request::LeastFalse(1), Answer::Nothing),
    // {-2} is false.
    Row(Request::LeastFalse(2), Answer::Number(1)),
    // {-2} is false.
    Row(Request::LeastFalse(3), Answer::Number(1)),
    // {2, -1} is entry 2.
    Row(Request::Put(P2_N1), Answer::Number(2)),
    // Both are true.
    Row(Request::LeastFalse(0), Answer::Nothing),
    // Only {2, -1} is false.
    Row(Request::LeastFalse(1), Answer::Number(2)),
    // Only {-2} is false.
    Row(Request::LeastFalse(2), Answer::Number(1)),
    // Only {-2} is false.
    Row(Request::LeastFalse(3), Answer::Number(1)),
    // {2, 1} is entry 3.
    Row(Request::Put(P2_P1), Answer::Number(3)),
    // Only {2, 1} is false.
    Row(Request::LeastFalse(0), Answer::Number(3)),
    // Only {2, -1} is false.
    Row(Request::LeastFalse(1), Answer::Number(2)),
    // Only {-2} is false.
    Row(Request::LeastFalse(2), Answer::Number(1)),
    // Only {-2} is false.
    Row(Request::LeastFalse(3), Answer::Number(1)),
    // {2} is entry 4.
    Row(Request::Put(P2), Answer::Number(4)),
    // {2} and {2, 1} are false, and {2} comes first.
    Row(Request::LeastFalse(0), Answer::Number(4)),
    // {2} and {2, -1} are false, and {2} comes first.
    Row(Request::LeastFalse(1), Answer::Number(4)),
    // Only {-2} is false.
    Row(Request::LeastFalse(2), Answer::Number(1)),
    // Only {-2} is false.
    Row(Request::LeastFalse(3), Answer::Number(1)),
    // {-1} is entry 5.
    Row(Request::Put(N1), Answer::Number(5)),
    // {2} still, since {-1} is true.
    Row(Request::LeastFalse(0), Answer::Number(4)),
    // {-1} comes before {2} and {2, -1}.
    Row(Request::LeastFalse(1), Answer::Number(5)),
    // Only {-2} is false.
    Row(Request::LeastFalse(2), Answer::Number(1)),
    // {-1} comes before {-2}.
    Row(Request::LeastFalse(3), Answer::Number(5)),
    // {1} is entry 6.
    Row(Request::Put(P1), Answer::Number(6)),
    // {1} comes before {2} and {2, 1}.
    Row(Request::LeastFalse(0), Answer::Number(6)),
    // {-1} still, since {1} is true.
    Row(Request::LeastFalse(1), Answer::Number(5)),
    // {1} comes before {-2}.
    Row(Request::LeastFalse(2), Answer::Number(6)),
    // {-1} still, since {1} is true.
    Row(Request::LeastFalse(3), Answer::Number(5)),
    // {} is entry 7.
    Row(Request::Put(EMPTY), Answer::Number(7)),
    // {} is false everywhere, and comes before all.
    Row(Request::LeastFalse(0), Answer::Number(7)),
    // Likewise.
    Row(Request::LeastFalse(1), Answer::Number(7)),
    // Likewise.
    Row(Request::LeastFalse(2), Answer::Number(7)),
    // Likewise.
    Row(Request::LeastFalse(3), Answer::Number(7)),
];

// The same clauses in clause order, {} last.
pub const ORDER_UP: [Row; 13] = [
    // {1} is entry 1.
    Row(Request::Put(P1), Answer::Number(1)),
    // {-1} is entry 2.
    Row(Request::Put(N1), Answer::Number(2)),
    // {2} is entry 3.
    Row(Request::Put(P2), Answer::Number(3)),
    // {2, 1} is entry 4.
    Row(Request::Put(P2_P1), Answer::Number(4)),
    // {2, -1} is entry 5.
    Row(Request::Put(P2_N1), Answer::Number(5)),
    // {-2} is entry 6.
    Row(Request::Put(N2), Answer::Number(6)),
    // {1}, {2} and {2, 1} are false.
    Row(Request::LeastFalse(0), Answer::Number(1)),
    // {-1}, {2} and {2, -1} are false.
    Row(Request::LeastFalse(1), Answer::Number(2)),
    // {1} and {-2} are false.
    Row(Request::LeastFalse(2), Answer::Number(1)),
    // {-1} and {-2} are false.
    Row(Request::LeastFalse(3), Answer::Number(2)),
    // {} is entry 7.
    Row(Request::Put(EMPTY), Answer::Number(7)),
    // It comes before all.
    Row(Request::LeastFalse(0), Answer::Number(7)),
    // It comes before all.
    Row(Request::LeastFalse(3), Answer::Number(7)),
];

// The highest atom decides, in all 64 atoms.
pub const HIGHEST_ATOM: [Row; 9] = [
    // {64} is entry 1.
    Row(Request::Put(P64), Answer::Number(1)),
    // {-64, 1} is entry 2.
    Row(Request::Put(N64_P1), Answer::Number(2)),
    // {1, .., 63} is entry 3.
    Row(Request::Put(P1_TO_P63), Answer::Number(3)),
    // {1, .., 63} and {64} are false, and the one without atom 64 comes first.
    Row(Request::LeastFalse(0), Answer::Number(3)),
    // Only {64} is false.
    Row(Request::LeastFalse(1), Answer::Number(1)),
    // Only {64} is false.
    Row(Request::LeastFalse(V63), Answer::Number(1)),
    // {1, .., 63} and {-64, 1} are false, and the one without atom 64 comes first.
    Row(Request::LeastFalse(V64), Answer::Number(3)),
    // Only {-64, 1} is false.
    Row(Request::LeastFalse(V63_V64), Answer::Number(2)),
    // Atoms 1 and 64 make all three true.
    Row(Request::LeastFalse(0x8000_0000_0000_0001), Answer::Nothing),
];

// Least false where none is false, in four places.
pub const NONE_FALSE: [Row; 8] = [
    // No clause is held.
    Row(Request::LeastFalse(0), Answer::Nothing),
    // The first entry.
    Row(Request::Put(P1), Answer::Number(1)),
    // The second.
    Row(Request::Put(P2_N1), Answer::Number(2)),
    // Atoms 1 and 2 make both true.
    Row(Request::LeastFalse(3), Answer::Nothing),
    // So do all 64 atoms.
    Row(Request::LeastFalse(0xffff_ffff_ffff_ffff), Answer::Nothing),
    // Only {2, -1} is false.
    Row(Request::LeastFalse(1), Answer::Number(2)),
    // Only {1} is false.
    Row(Request::LeastFalse(0), Answer::Number(1)),
    // Questions alter nothing.
    Row(Request::Size, Answer::Count(2)),
];

// Antecedents are kept, in four places.
pub const ANTECEDENTS: [Row; 11] = [
    // A given clause.
    Row(Request::Put(P2_P1), Answer::Number(1)),
    // Another.
    Row(Request::Put(N2), Answer::Number(2)),
    // What follows from the two.
    Row(Request::Derive(P1, 1, 2), Answer::Number(3)),
    // It has its antecedents, in their order.
    Row(Request::Entry(3), Answer::Holds(P1, 1, 2)),
    // A given clause has 0 and 0.
    Row(Request::Entry(1), Answer::Holds(P2_P1, 0, 0)),
    // Held: nothing alters.
    Row(Request::Derive(P1, 2, 1), Answer::Number(3)),
    // The first antecedents stay.
    Row(Request::Entry(3), Answer::Holds(P1, 1, 2)),
    // Held as derived: it does not become given.
    Row(Request::Put(P1), Answer::Number(3)),
    // They stay.
    Row(Request::Entry(3), Answer::Holds(P1, 1, 2)),
    // A store takes any antecedents.
    Row(Request::Derive(N1, 65535, 16384), Answer::Number(4)),
    // And gives them back.
    Row(Request::Entry(4), Answer::Holds(N1, 65535, 16384)),
];

// 20,000 records lent.
pub const MANY_LENT: [Row; 7] = [
    // A store has at most 16,384 places.
    Row(Request::Places, Answer::Count(16384)),
    // All are free.
    Row(Request::Size, Answer::Count(0)),
    // The first entry.
    Row(Request::Put(N1), Answer::Number(1)),
    // It is held.
    Row(Request::Entry(1), Answer::Holds(N1, 0, 0)),
    // A free place.
    Row(Request::Entry(16384), Answer::Nothing),
    // A record that was lent, and is no place.
    Row(Request::Entry(16385), Answer::Nothing),
    // Likewise.
    Row(Request::Entry(20000), Answer::Nothing),
];

// Slices of unequal lengths, the lesser enough for three places.
pub const UNEQUAL: [Row; 10] = [
    // The lesser decides.
    Row(Request::Places, Answer::Count(3)),
    // The first place.
    Row(Request::Put(P2), Answer::Number(1)),
    // The second.
    Row(Request::Put(P1), Answer::Number(2)),
    // The last.
    Row(Request::Put(N1), Answer::Number(3)),
    // No place is free.
    Row(Request::Put(N2), Answer::Refused(10)),
    // All are taken.
    Row(Request::Size, Answer::Count(3)),
    // What is held answers.
    Row(Request::Find(P2), Answer::Number(1)),
    // What is held answers.
    Row(Request::Entry(2), Answer::Holds(P1, 0, 0)),
    // {1} comes before {2}.
    Row(Request::LeastFalse(0), Answer::Number(2)),
    // {-1} comes before {2}.
    Row(Request::LeastFalse(1), Answer::Number(3)),
];
