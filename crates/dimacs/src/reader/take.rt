ghost use Rattle.std.specs.Prelude.{◌≡◌, [], ◌∷◌, length, MatchOption};
ghost use Rattle.std.specs.Iterator.{at_most};
ghost use Rattle.dimacs.specs.Reading.{content, text_end, left, piece};
ghost use Rattle.dimacs.specs.Preface.{after_preface};

use crate::preface::heading_place;
use crate::reader::{Reader, Word};
use crate::runs::{is_blank, is_in_word, run_length};

impl<'a> Reader<'a> {
    // A reader of the words from the heading on: all that are in no comment line before it.
    pub fn from_heading(text: &'a [u8]) -> Self
        ensures { (content result ≡ text.now) × (left result ≡ after_preface text.now) }
    {
        let at = heading_place(text);
        Reader { text, at }
    }

    // The text's length.
    pub(crate) fn end(&self) -> usize
        ensures { result ≡ text_end self.now }
    {
        self.text.len()
    }

    // The next word, or nothing where only blanks are left.
    pub fn next_word(&mut self) -> Option<Word<'a>>
        ensures same { content self.new ≡ content self.old }
        ensures cases { MatchOption result ((left self.old ≡ []) × (left self.new ≡ [])) (λ w. left self.old ≡ piece w ∷ left self.new) }
    {
        let text = self.text;
        let start = self.at + run_length(&text[self.at..], is_blank);
        let end = start + run_length(&text[start..], is_in_word);
        self.at = end;
        if start == end {
            return None;
        }
        Some(Word {
            bytes: &text[start..end],
            place: start,
        })
    }
}

impl<'a> Iterator for Reader<'a> {
    type Item = Word<'a>;

    ghost next_gives = { λ s r t. (content t ≡ content s) × MatchOption r ((left s ≡ []) × (left t ≡ [])) (λ w. left s ≡ piece w ∷ left t) };

    ghost remaining = { λ s. at_most (length (left s)) };

    fn next(&mut self) -> Option<Word<'a>> {
        self.next_word()
    }
}
