ghost use Rattle.std.specs.Prelude.{◌≡◌, ℕ, ◌≤◌, [], length};
ghost use Rattle.trace.specs.Marks.{marked};
ghost use Rattle.trace.specs.Lines.{order, place, renumbered};
ghost use Rattle.trace.specs.Tables.{line_in, by_table, Table};

use crate::mark::is_marked;
use lines::line::Line;

// The line of entry k by the table, 0 where it has none. Kept `let .. else`: with one chain of `and_then` and `map_or` the proof did not close.
fn line_of(table: &[u16], k: u32) -> u32
    ensures { result ≡ line_in table.now k }
{
    let Some(i) = k.checked_sub(1) else {
        return 0;
    };
    table.get(i as usize).map_or(0, |line| u32::from(*line))
}

// The line with the numbers of lines in place of those of entries, by the table.
pub(crate) fn renumber(table: &[u16], line: Line) -> Line
    ensures { result ≡ by_table table.now line }
{
    Line {
        first: line_of(table, line.first),
        second: line_of(table, line.second),
        ..line
    }
}

// Numbers the lines: the table, empty before, then has the line of each marked entry. Kept `table[i]`: after a `zip` with `iter_mut` the proof did not close.
pub(crate) fn number(marks: &[u8], size: usize, table: &mut [u16])
    requires { (size ≤ length marks.now) × ((size ≤ length table.old) × ((size ≤ 16384) × (Table [] table.old))) }
    ensures { Table (order (marked marks.now) size) table.new }
{
    let mut lines: u16 = 0;
    for (i, mark) in marks[..size].iter().enumerate() {
        if is_marked(*mark) {
            lines += 1;
            table[i] = lines;
        }
    }
}
