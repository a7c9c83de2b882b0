// Clauses numbered in clause order, for tests and measurements of the stores.
#![tactic(auto)]

ghost use Rattle.std.specs.Prelude.{◌≡◌, ◌*◌, ◌^◌, ◌<◌, ◌≤◌, IfOk, vec_len};
ghost use Rattle.clause.specs.Clauses.{lits};
ghost use Rattle.nth_clause.specs.Digits.{unit, word, nth, fifth_number, InOrder, AtPlaces};

use clause::words::Clause;
use std::alloc::{AllocError, Global};

// 1 where the lowest digit of k is `digit`, else 0.
fn unit(k: u32, digit: u32) -> u64
    ensures { result ≡ unit digit k }
{
    u64::from(k % 3 == digit)
}

// The word of the atoms, of the first `atoms`, whose digit in k is `digit`.
fn word(k: u32, digit: u32, atoms: u32) -> u64
    requires { atoms ≤ 21 }
    ensures value { result ≡ word digit atoms k }
    ensures below { result < 2 ^ atoms }
{
    if atoms == 0 {
        return 0;
    }
    2 * word(k / 3, digit, atoms - 1) + unit(k, digit)
}

// Clause k of all clauses in clause order, from 0, which is the empty one.
pub fn nth(k: u32) -> Clause
    ensures value { lits result ≡ nth k }
    ensures order { InOrder }
{
    let positive = word(k, 1, 21);
    let negative = word(k, 2, 21);
    Clause::of_words(positive, negative).unwrap()
}

// The clause at place j, from 0, of every fifth in clause order, from number FIRST on; a number beyond 32 bits is taken as the largest.
pub fn fifth<const FIRST: u32>(j: u16) -> Clause
    ensures { lits result ≡ nth (fifth_number FIRST j) }
{
    nth(FIRST.saturating_add(5 * u32::from(j)))
}

// The clauses at the first `count` of those places, in clause order.
pub fn fifths<const FIRST: u32>(heap: Global, count: u16) -> Result<Vec<Clause>, AllocError>
    ensures { IfOk result (λ v. (vec_len v ≡ count) × AtPlaces FIRST v.items count) }
{
    (0..count).map(fifth::<FIRST>).collect(heap)
}

#[cfg(test)]
mod tests {
    use super::*;

    // 59,049 is 3^10, and 5 and 10 are written 12 and 101 in base 3: the clauses are {11}, {-1, 2, 11} and {1, 3, 11}.
    #[test]
    fn lists_every_fifth(rt: HostRuntime) -> Result<(), AllocError> {
        let clauses = fifths::<59049>(rt.alloc(), 3)?;
        let words = [(0x400, 0), (0x402, 1), (0x405, 0)];
        assert_eq!(rt; clauses.len(), words.len());
        for (clause, (positive, negative)) in clauses.iter().zip(words) {
            assert_eq!(rt; clause.positive(), positive);
            assert_eq!(rt; clause.negative(), negative);
        }
        Ok(())
    }
}
