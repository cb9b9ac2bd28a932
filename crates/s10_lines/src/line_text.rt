//! A line of words as it grows, in memory that it has from the start.

ghost use Rattle.std.specs.Prelude.{◌≡◌, ◌≤◌, ◌<◌, ℕ, List, [], ◌∷◌, length, decimal, MatchOption};
ghost use Rattle.s10_lines.specs.Lines.{spaced};
ghost use Rattle.s10_lines.specs.LineText.{Holds, Grows};

use arrayvec::ArrayVec;
use itoa::Buffer;

/// A text of at most 512 characters that grows. If a longer one was asked for, it is lost.
#[derive(Drop)]
pub struct LineText {
    // The text, as long as all of it had space.
    text: ArrayVec<u8, 512>,
    is_whole: bool,
}

impl LineText {
    /// Returns a line without characters.
    pub(crate) fn new() -> LineText
        ensures { Holds result [] }
    {
        LineText {
            text: ArrayVec::new(),
            is_whole: true,
        }
    }

    /// Returns the text, or `None` if it is longer than 512 characters.
    pub fn as_slice(&self) -> Option<&[u8]>
        ensures { (text : List ℕ) → Holds self.now text → MatchOption result (512 < length text)
            (λ chars. (chars.now ≡ text) × (length text ≤ 512)) }
    {
        if self.is_whole {
            Some(self.text.as_slice())
        } else {
            None
        }
    }

    /// Adds a text unchanged.
    pub(crate) fn add(&mut self, more: &[u8])
        ensures { Grows self.old self.new more.now }
    {
        if self.text.try_extend_from_slice(more).is_err() {
            self.is_whole = false;
        }
    }

    /// Adds a space and a word.
    pub(crate) fn add_word(&mut self, word: &[u8])
        ensures { Grows self.old self.new (spaced (word.now ∷ [])) }
    {
        self.add(b" ");
        self.add(word);
    }

    /// Adds a space and a number in decimal, without leading zeros.
    pub(crate) fn add_decimal(&mut self, number: u32)
        ensures { Grows self.old self.new (spaced (decimal number ∷ [])) }
    {
        let mut buffer = Buffer::new();
        self.add_word(buffer.format(number).as_bytes());
    }
}
