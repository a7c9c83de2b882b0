ghost use Rattle.std.specs.Prelude.{◌≡◌, ℕ, ◌+◌, ◌*◌, ◌≤◌, true, length};
ghost use Rattle.clause.specs.Refusals.{answer};
ghost use Rattle.trace.specs.Marks.{marks_of};
ghost use Rattle.trace.specs.Lines.{as_line, closing, trace};
ghost use Rattle.trace.specs.Calls.{left, over, has_room, traced};

use crate::held::count;
use crate::mark::mark;
use crate::put::Marked;
use clause::refusal::Refusal;
use clause::words::Clause;
use session::search::Phase;
use session::session::Session;
use store::entry::Entry;
use store::store::ClauseStore;

// Whether the marks and the buffer are long enough for so many entries, the empty clause and the trailer.
fn has_room(size: usize, buffer: &[u8], marks: &[u8]) -> bool
    requires { size ≤ 16384 }
    ensures { result ≡ has_room size buffer.now marks.now }
{
    size <= marks.len() && 24 * (size + 2) <= buffer.len()
}

// Marks the entries and writes the trace of the session's last derivation, of the empty clause: its length.
fn write_refutation<S: ClauseStore>(
    session: &Session<'_, S>,
    last: Entry,
    buffer: &mut [u8],
    marks: &mut [u8],
) -> usize
    requires empty { as_line last ≡ closing last.first last.second }
    requires room { (length (S.held session.now.store.now).entries ≤ length marks.old) × (24 * (length (S.held session.now.store.now).entries + 2) ≤ length buffer.old) }
    ensures bytes { buffer.new ≡ over (trace session.now.search.atoms (S.held session.now.store.now).entries last.first last.second) buffer.old }
    ensures marks { marks.new ≡ over (marks_of (S.held session.now.store.now).entries last.first last.second) marks.old }
    ensures count { result ≡ length (trace session.now.search.atoms (S.held session.now.store.now).entries last.first last.second) }
{
    mark(session, last, marks);
    Marked { session, marks }.put_trace(last, buffer)
}

// Under an unsatisfiable verdict, the trace of the refutation, written over the first bytes of the buffer, and the mark of each held entry: 1 where
// the trace has a line for it, else 0 (bytes, since the caller lends the memory and reads them). It answers the trace's length in bytes. A refused call alters nothing.
pub fn write_trace<S: ClauseStore>(
    session: &Session<'_, S>,
    buffer: &mut [u8],
    marks: &mut [u8],
) -> Result<usize, Refusal>
    ensures { left buffer.new marks.new (answer result) ≡ traced (S.held session.now.store.now) session.now.search buffer.old marks.old }
{
    match session.search().phase {
        Phase::Unopened(e) => Err(e),
        Phase::Refuted(..) if !has_room(count(session), buffer, marks) => Err(Refusal::TooShort),
        Phase::Refuted(first, second) => {
            let last = Entry::derived(Clause::empty(), first, second);
            Ok(write_refutation(session, last, buffer, marks))
        }
        _ => Err(Refusal::NoVerdict),
    }
}
