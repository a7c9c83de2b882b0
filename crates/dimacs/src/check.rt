// The check of a whole text, in one walk and without memory.
ghost use Rattle.std.specs.Prelude.{◌≡◌, nat_lt};
ghost use Rattle.clause.specs.Refusals.{answer};
ghost use Rattle.dimacs.specs.Reading.{text_end, left};
ghost use Rattle.dimacs.specs.Walk.{walk, begun, parse, counts, fault_of};

use crate::body::Scan;
use crate::heading::Heading;
use crate::reader::Reader;
use clause::refusal::Refusal;

fn is_too_large(bytes: usize) -> bool
    ensures { result ≡ nat_lt 1048576 bytes }
{
    bytes > 1_048_576
}

// How many atoms and clauses the text has, or its refusal, where at most n atoms are allowed (and 64 at the most).
pub fn check(text: &[u8], n: u32) -> Result<Heading, Refusal>
    ensures { answer result ≡ counts (parse n text.now) }
{
    if is_too_large(text.len()) {
        return Err(Refusal::TooLarge);
    }
    let mut reader = Reader::from_heading(text);
    let heading = reader.heading(n)?;
    check_clauses(&mut reader, heading.scan())?;
    Ok(heading)
}

// Whether the words that are left are the clauses of the scan, no more and no less.
fn check_clauses(reader: &mut Reader<'_>, first: Scan) -> Result<(), Refusal>
    ensures { fault_of result ≡ (walk (text_end reader.old) first (left reader.old)).fault }
{
    let end = reader.end();
    let mut scan = first;
    for word in reader {
        scan = scan.take_word(word)?;
    }
    if scan.left > 0 {
        return Err(Refusal::ClauseCount(end));
    }
    Ok(())
}

impl Heading {
    // The scan of the clauses after this heading.
    pub(crate) fn scan(self) -> Scan
        ensures { result ≡ begun self }
    {
        Scan::new(self.atoms, self.clauses)
    }
}
