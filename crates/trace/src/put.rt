ghost use Rattle.std.specs.Prelude.{◌≡◌, ℕ, ◌+◌, ◌*◌, ◌≤◌, length, if◌then◌else◌};
ghost use Rattle.rule.specs.Tests.{is_bare};
ghost use Rattle.lines.specs.Bytes.{wrote as put};
ghost use Rattle.lines.specs.Format.{line_bytes, trailer_bytes};
ghost use Rattle.trace.specs.Lines.{as_line, chosen, closing, entry_lines, lines_bytes, given_lines, trailer_for, trace_lines, trace_of};
ghost use Rattle.trace.specs.Calls.{over};
ghost use Rattle.trace.specs.Tables.{Table};

use crate::held::{count, entry_line, held_line};
use crate::mark::is_marked;
use crate::number::{number, renumber};
use lines::line::{Line, Trailer};
use lines::write::{put_line, put_trailer};
use rule::right::is_bare;
use session::session::Session;
use store::entry::Entry;
use store::store::ClauseStore;

// How many lines were written, and how many of them are given.
#[derive(Clone, Copy)]
pub(crate) struct Count {
    lines: u32,
    given: u32,
}

// A session, and a mark for each of its entries.
#[derive(Drop)]
pub(crate) struct Marked<'a, 'b, S: ClauseStore> {
    pub(crate) session: &'a Session<'b, S>,
    pub(crate) marks: &'a [u8],
    ghost each: { length (S.held session.now.store.now).entries ≤ length marks.now },
}

fn given_of(line: Line) -> u32
    ensures { result ≡ (if is_bare line then 1 else 0) }
{
    u32::from(is_bare(line))
}

fn trailer_for(atoms: u32, count: Count) -> Trailer
    requires { count.lines ≤ 16385 }
    ensures { result ≡ trailer_for atoms count.lines count.given }
{
    Trailer {
        atoms,
        distance: 24 * count.lines,
        last: count.lines,
        given: count.given,
    }
}

// Writes the last line and the trailer behind the lines of the entries: the length of the trace.
fn put_end(buffer: &mut [u8], atoms: u32, entries: Count, last: Line) -> usize
    requires { (entries.lines ≤ 16384) × ((entries.given ≤ entries.lines) × (24 * (entries.lines + 2) ≤ length buffer.old)) }
    ensures bytes { buffer.new ≡ put (put buffer.old (24 * entries.lines) (line_bytes last)) (24 * (entries.lines + 1)) (trailer_bytes (trailer_for atoms (entries.lines + 1) (entries.given + (if is_bare last then 1 else 0)))) }
    ensures count { result ≡ 24 * (entries.lines + 2) }
{
    let count = Count {
        lines: entries.lines + 1,
        given: entries.given + given_of(last),
    };
    let _ = put_line(buffer, count.lines, last);
    let _ = put_trailer(buffer, trailer_for(atoms, count));
    24 * (count.lines as usize + 1)
}

impl<'a, 'b, S: ClauseStore> Marked<'a, 'b, S> {
    // Kept two counts in the loop: only marked entries have a line, and the counts are the answer.
    // Writes the lines of the marked entries by arrival, renumbered by the table.
    fn put_entries(&self, table: &[u16], buffer: &mut [u8]) -> Count
        requires { (24 * length (S.held self.now.session.now.store.now).entries ≤ length buffer.old) × (Table (chosen self.now.marks.now (S.held self.now.session.now.store.now).entries) table.now) }
        ensures wrote { buffer.new ≡ over (lines_bytes (entry_lines (S.held self.now.session.now.store.now).entries (chosen self.now.marks.now (S.held self.now.session.now.store.now).entries))) buffer.old }
        ensures lines { result.lines ≡ length (chosen self.now.marks.now (S.held self.now.session.now.store.now).entries) }
        ensures given { result.given ≡ given_lines (entry_lines (S.held self.now.session.now.store.now).entries (chosen self.now.marks.now (S.held self.now.session.now.store.now).entries)) }
        ensures few { (result.lines ≤ length (S.held self.now.session.now.store.now).entries) × (result.given ≤ result.lines) }
    {
        // Kept two counts in the loop: only marked entries have a line, and the counts are the answer.
        let mut lines = 0;
        let mut given = 0;
        for (i, mark) in self.marks[..count(self.session)].iter().enumerate() {
            if is_marked(*mark) {
                let line = renumber(table, held_line(self.session, i as u16 + 1));
                let _ = put_line(buffer, lines + 1, line);
                lines += 1;
                given += given_of(line);
            }
        }
        Count { lines, given }
    }

    // Writes the trace of the marked entries and of the last derivation: its length.
    pub(crate) fn put_trace(&self, last: Entry, buffer: &mut [u8]) -> usize
        requires empty { as_line last ≡ closing last.first last.second }
        requires room { 24 * (length (S.held self.now.session.now.store.now).entries + 2) ≤ length buffer.old }
        ensures bytes { buffer.new ≡ over (trace_of self.now.session.now.search.atoms (trace_lines (S.held self.now.session.now.store.now).entries (chosen self.now.marks.now (S.held self.now.session.now.store.now).entries) last.first last.second)) buffer.old }
        ensures count { result ≡ length (trace_of self.now.session.now.search.atoms (trace_lines (S.held self.now.session.now.store.now).entries (chosen self.now.marks.now (S.held self.now.session.now.store.now).entries) last.first last.second)) }
    {
        let mut table = [0u16; 16384];
        number(self.marks, count(self.session), &mut table);
        let entries = self.put_entries(&table, buffer);
        let line = renumber(&table, entry_line(last));
        put_end(buffer, self.session.search().atoms, entries, line)
    }
}
