// The words of a line.
ghost use Rattle.std.specs.Prelude.{◌≡◌, ◌<◌, false, [], ◌∷◌, length, filter, Some, None, MatchBool, MatchOption, MatchResult, ◌≢◌, slice_index};
ghost use Rattle.std.specs.List.{slice_split};
ghost use Rattle.text.specs.Readers.{left, Reads, both, following, optional};
ghost use Rattle.text.specs.Words.{blank, written, words_of};

use crate::numbers::{Number, read_number};
use crate::reason::Reason;

// Words are separated by these and nothing else.
const BLANKS: [char; 2] = [' ', '\t'];

// The text without the blanks at its front.
fn skip_blanks(text: &str) -> &str
    ensures words { words_of result.now ≡ words_of text.now }
    ensures dark { 0 < length result.now → blank (slice_index result.now 0) ≡ false }
{
    text.trim_start_matches(BLANKS)
}

// The text up to its first blank, and what follows that blank.
fn cut_word(text: &str) -> (&str, &str)
    ensures words { words_of text.now ≡ filter written (result.0.now ∷ slice_split blank result.1.now) }
    ensures some { 0 < length text.now → blank (slice_index text.now 0) ≡ false → 0 < length result.0.now }
{
    text.split_once(BLANKS).unwrap_or((text, ""))
}

// What is left of a line. It has no `Model`: that would take `Copy` from a public type.
#[derive(Clone, Copy)]
pub struct Words<'a> {
    rest: &'a str,
}

impl<'a> Words<'a> {
    pub fn new(line: &'a str) -> Words<'a>
        ensures { left result ≡ words_of line.now }
    {
        Words { rest: line }
    }

    // Takes the next word; nothing at the end of the line.
    pub fn next_word(&mut self) -> Option<&'a str>
        ensures { MatchOption result (left self.old ≡ []) (λ w. left self.old ≡ w.now ∷ left self.new) }
    {
        let (word, rest) = cut_word(skip_blanks(self.rest));
        self.rest = rest;
        if word.is_empty() { None } else { Some(word) }
    }

    // Takes the next word where it is `word`, and leaves it otherwise. Answers whether it took it.
    pub fn take(&mut self, word: &str) -> bool
        ensures { MatchBool result (following word.now (left self.old) ≡ Some (left self.new)) ((following word.now (left self.old) ≡ None) × (left self.new ≡ left self.old)) }
    {
        let mut ahead = *self;
        let stands = ahead.next_word() == Some(word);
        if stands {
            *self = ahead;
        }
        stands
    }

    // Nothing may follow.
    pub fn end(&mut self) -> Result<(), Reason>
        ensures { MatchResult result (λ _. left self.old ≡ []) (λ _. left self.old ≢ []) }
    {
        match self.next_word() {
            Some(_) => Err(Reason::SurplusWord),
            None => Ok(()),
        }
    }

    // The next word as a number.
    pub fn number<N: Number>(&mut self) -> Result<N, Reason>
        ensures { Reads N.reader self.old result self.new }
    {
        read_number(self.next_word().ok_or(Reason::NumberMissing)?)
    }

    // The next two words as numbers.
    pub fn pair<N: Number>(&mut self) -> Result<(N, N), Reason>
        ensures { Reads (both N.reader N.reader) self.old result self.new }
    {
        let first = self.number()?;
        let second = self.number()?;
        Ok((first, second))
    }

    // The next four words as numbers, two and two.
    pub fn pairs<N: Number>(&mut self) -> Result<((N, N), (N, N)), Reason>
        ensures { Reads (both (both N.reader N.reader) (both N.reader N.reader)) self.old result self.new }
    {
        let first = self.pair()?;
        let second = self.pair()?;
        Ok((first, second))
    }

    // The number after `word`, where that stands here.
    pub fn number_after<N: Number>(&mut self, word: &str) -> Result<Option<N>, Reason>
        ensures { Reads (optional word.now N.reader) self.old result self.new }
    {
        if !self.take(word) {
            return Ok(None);
        }
        Ok(Some(self.number()?))
    }
}
