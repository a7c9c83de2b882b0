ghost use Rattle.std.specs.Prelude.{◌≡◌, [], ◌∷◌, ◌++◌, map, IfOk, string_bytes, OnOk};
ghost use Rattle.std.specs.Option.{option_map};
ghost use Rattle.std.specs.List.{join_by};
ghost use Rattle.script.specs.Lines.{words, spaced_at, spaced, trimmed};
ghost use Rattle.script.specs.Scripts.{line_as, comment, numbered, line_of, lines_of};

use crate::request::{Request, understood};
use std::alloc::{AllocError, Global};

// A line of a script that is not skipped: its number, its words with one space between them, and the request, if it is one.
#[derive(Drop)]
pub struct Line {
    pub number: u64,
    pub call: String,
    pub request: Option<Request>,
}

// The words of a line, which spaces separate.
fn words<'a>(heap: Global, line: &'a str) -> Result<Vec<&'a str>, AllocError>
    ensures { IfOk result (λ v. map (λ x. x.now) v.items ≡ words line.now) }
{
    let mut words = Vec::new(heap);
    for piece in line.split(' ') {
        if piece.is_empty() {
            continue;
        }
        words.push(piece)?;
    }
    Ok(words)
}

// Puts a word after the text, and a space between them unless it is the first. Kept, though words are joined by the library now: it is public, and its promise stays.
pub fn append(text: &mut String, index: usize, word: &str) -> Result<(), AllocError>
    ensures { OnOk result (string_bytes text.new ≡ string_bytes text.old ++ spaced_at index word.now) }
{
    if index == 0 {
        return text.push_str(word);
    }
    text.push(' ')?;
    text.push_str(word)
}

// The words as the library joins them.
fn joined(heap: Global, words: &[&str]) -> Result<String, AllocError>
    ensures { IfOk result (λ s. string_bytes s ≡ join_by (λ x. x.now) (32 ∷ []) words.now) }
{
    words.join(heap, " ")
}

// The words with one space between each two.
fn spaced(heap: Global, words: &[&str]) -> Result<String, AllocError>
    ensures { IfOk result (λ s. string_bytes s ≡ spaced (map (λ x. x.now) words.now)) }
{
    joined(heap, words)
}

// The line without the carriage return that it may end in.
fn trimmed(line: &str) -> &str
    ensures { result.now ≡ trimmed line.now }
{
    line.strip_suffix('\r').unwrap_or(line)
}

// The line of that number and those words, or nothing where it has no word.
fn line_of(heap: Global, number: u64, words: &[&str]) -> Result<Option<Line>, AllocError>
    ensures { IfOk result (λ o. option_map line_as o ≡ numbered number (map (λ x. x.now) words.now)) }
{
    if words.is_empty() {
        return Ok(None);
    }
    let call = spaced(heap, words)?;
    let request = understood(heap, words)?;
    Ok(Some(Line {
        number,
        call,
        request,
    }))
}

fn is_comment(line: &str) -> bool
    ensures { result ≡ comment line.now }
{
    line.starts_with('#')
}

// The same of a line as it stands; a comment is skipped.
fn read_line(heap: Global, number: u64, line: &str) -> Result<Option<Line>, AllocError>
    ensures { IfOk result (λ o. option_map line_as o ≡ line_of number line.now) }
{
    if is_comment(line) {
        return Ok(None);
    }
    let words = words(heap, trimmed(line))?;
    line_of(heap, number, &words)
}

// The lines of a script that are not skipped, numbered from 1.
pub fn read_script(heap: Global, script: &str) -> Result<Vec<Line>, AllocError>
    ensures { IfOk result (λ v. map line_as v.items ≡ lines_of script.now) }
{
    let mut lines = Vec::new(heap);
    for (i, line) in script.split('\n').enumerate() {
        let Some(read) = read_line(heap, i as u64 + 1, line)? else {
            continue;
        };
        lines.push(read)?;
    }
    Ok(lines)
}
