// The clauses of a text, handed out one by one.
ghost use Rattle.std.specs.Prelude.{◌≡◌, [], ◌∷◌, Ok, MatchOption, length};
ghost use Rattle.std.specs.Iterator.{at_most};
ghost use Rattle.dimacs.specs.Reading.{content, text_end, left};
ghost use Rattle.dimacs.specs.Heading.{headed};
ghost use Rattle.dimacs.specs.Walk.{Parsed, parse, walk, early, early_in};
ghost use Rattle.dimacs.specs.ToCome.{to_come};

use crate::body::Scan;
use crate::reader::Reader;
use clause::refusal::Refusal;
use clause::words::Clause;

// The clauses to come of a text.
#[derive(Drop)]
pub struct Clauses<'a> {
    reader: Reader<'a>,
    scan: Scan,
}

impl<'a> Clauses<'a> {
    // The clauses of a text that was checked; of any other, those before its first fault.
    pub fn new(text: &'a [u8], n: u32) -> Clauses<'a>
        ensures first { to_come result ≡ early n text.now }
        ensures all { (p : Parsed) → parse n text.now ≡ Ok p → to_come result ≡ p.clauses }
    {
        let mut reader = Reader::from_heading(text);
        let scan = start(&mut reader, n);
        Clauses { reader, scan }
    }

    // The next clause, or nothing where none is to come.
    pub fn next_clause(&mut self) -> Option<Clause>
        ensures { MatchOption result ((to_come self.old ≡ []) × (to_come self.new ≡ [])) (λ c. to_come self.old ≡ c ∷ to_come self.new) }
    {
        while let Some(word) = self.reader.next_word() {
            let before = self.scan;
            let Ok(after) = before.take_word(word) else {
                self.scan = Scan::new(0, 0);
                return None;
            };
            self.scan = after;
            if after.left < before.left {
                return Some(before.clause);
            }
        }
        None
    }
}

impl Iterator for Clauses<'_> {
    type Item = Clause;

    ghost next_gives = { λ s r t. MatchOption r ((to_come s ≡ []) × (to_come t ≡ [])) (λ c. to_come s ≡ c ∷ to_come t) };

    ghost remaining = { λ s. at_most (length (to_come s)) };

    fn next(&mut self) -> Option<Clause> {
        self.next_clause()
    }
}

// The scan of the clauses after the heading, of none where that is refused.
fn start(reader: &mut Reader<'_>, n: u32) -> Scan
    ensures same { content reader.new ≡ content reader.old }
    ensures value { (walk (text_end reader.old) result (left reader.new)).clauses ≡ early_in (text_end reader.old) (headed n (text_end reader.old) (left reader.old)) }
{
    match reader.heading(n) {
        Ok(heading) => heading.scan(),
        Err(_) => Scan::new(0, 0),
    }
}
