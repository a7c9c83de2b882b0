ghost use Rattle.std.specs.Prelude.{◌≡◌, ℕ, ◌+◌, ◌-◌, ◌<◌, ◌≤◌, ◌&&◌, leb, length, if◌then◌else◌, ◌==◌, nat_le, slice_index, slice_set};
ghost use Rattle.trace.specs.Marks.{marked, marks_of};
ghost use Rattle.trace.specs.Calls.{over};

use crate::held::{count, held_line};
use session::session::Session;
use store::entry::Entry;
use store::store::ClauseStore;

// Whether the mark of an entry is set.
pub(crate) fn is_marked(mark: u8) -> bool
    ensures { result ≡ (mark == 1) }
{
    mark == 1
}

// Marks entry k, if it is one of the first `upto`.
fn note(marks: &mut [u8], upto: usize, k: u32)
    requires { upto ≤ length marks.old }
    ensures { marks.new ≡ (if leb 1 k && nat_le k upto then slice_set marks.old (k - 1) 1 else marks.old) }
{
    if 1 <= k && k as usize <= upto {
        marks[k as usize - 1] = 1;
    }
}

// Clears the first `size` marks. Kept the whole slice with a size, here and where marks are numbered: the clauses say of the whole that the marks past it stay.
fn clear(marks: &mut [u8], size: usize)
    requires { size ≤ length marks.old }
    ensures long { length marks.new ≡ length marks.old }
    ensures none { (i : ℕ) → i < size → slice_index marks.new i ≡ 0 }
    ensures rest { (i : ℕ) → size ≤ i → slice_index marks.new i ≡ slice_index marks.old i }
{
    marks[..size].fill(0);
}

// Marks the entries that the last derivation depends on. Antecedents lie below their entries, so one pass from the last entry down is enough.
// Kept a range of indices: while a mark is read, marks below it are written, so no iterator over them can be held.
pub(crate) fn mark<S: ClauseStore>(session: &Session<'_, S>, last: Entry, marks: &mut [u8])
    requires { length (S.held session.now.store.now).entries ≤ length marks.old }
    ensures { marks.new ≡ over (marks_of (S.held session.now.store.now).entries last.first last.second) marks.old }
{
    let size = count(session);
    clear(marks, size);
    note(marks, size, u32::from(last.first));
    note(marks, size, u32::from(last.second));
    for i in (0..size).rev() {
        if is_marked(marks[i]) {
            let line = held_line(session, i as u16 + 1);
            note(marks, i, line.first);
            note(marks, i, line.second);
        }
    }
}
