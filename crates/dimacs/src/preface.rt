// What stands before the heading of a text.
ghost use Rattle.std.specs.Prelude.{◌≡◌, ◌≤◌, length};
ghost use Rattle.dimacs.specs.Preface.{preface, start, lead};

use crate::runs::{is_in_line, is_indent, run_length};

// How much of a line stands before its first word, or before its end if it is a comment or has no word.
fn lead(line: &[u8]) -> usize
    ensures value { result ≡ lead line.now }
    ensures within { result ≤ length line.now }
{
    match line {
        [b'c', ..] => run_length(line, is_in_line),
        _ => run_length(line, is_indent),
    }
}

// Where the first word outside a comment begins, or the text's length. Kept an index: the place is what is asked for.
pub(crate) fn heading_place(text: &[u8]) -> usize
    ensures value { result ≡ preface start text.now }
    ensures within { result ≤ length text.now }
{
    let mut at = lead(text);
    while text.get(at) == Some(&b'\n') {
        at += 1;
        at += lead(&text[at..]);
    }
    at
}
