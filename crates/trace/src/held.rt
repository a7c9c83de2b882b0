ghost use Rattle.std.specs.Prelude.{◌≡◌, ◌≤◌, length};
ghost use Rattle.trace.specs.Marks.{entry_of};
ghost use Rattle.trace.specs.Lines.{as_line};

use clause::words::Clause;
use lines::line::Line;
use session::session::Session;
use store::entry::Entry;
use store::store::ClauseStore;

// How many entries the session holds.
pub(crate) fn count<S: ClauseStore>(session: &Session<'_, S>) -> usize
    ensures value { result ≡ length (S.held session.now.store.now).entries }
    ensures few { result ≤ 16384 }
{
    session.size() as usize
}

// An entry as a line, with the numbers of entries. Kept a function: `From` could stand only in the crate of `Line` or of `Entry`, and neither knows the other.
pub(crate) fn entry_line(entry: Entry) -> Line
    ensures { result ≡ as_line entry }
{
    Line {
        positive: entry.clause.positive(),
        negative: entry.clause.negative(),
        first: u32::from(entry.first),
        second: u32::from(entry.second),
    }
}

// Entry k as a line; the empty clause where there is no such entry.
pub(crate) fn held_line<S: ClauseStore>(session: &Session<'_, S>, k: u16) -> Line
    ensures { result ≡ as_line (entry_of (S.held session.now.store.now).entries k) }
{
    entry_line(session.entry(k).unwrap_or(Entry::given(Clause::empty())))
}
