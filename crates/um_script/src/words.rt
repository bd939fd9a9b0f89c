//! The words of a line, one after the other.

ghost use Rattle.std.specs.{
  Prelude.{◌≡◌, ◌+◌, ◌-◌, ◌<◌, ◌≤◌, ◌^◌, length, drop, false, MatchOption, MatchResult},
  List.{prefix_len},
};
ghost use Rattle.um_script.specs.Words.{is_space, is_word_byte, words_from, ends, word};

use crate::fault::{LineFault, LineKind};

/// A word of a line.
#[derive(Clone, Copy)]
pub struct Word<'a> {
    pub bytes: &'a [u8],
    /// The column of its first byte.
    pub column: u32,
}

/// The words of a line that are still to be read.
#[derive(Drop)]
pub struct Words<'a> {
    pub rest: &'a [u8],
    /// The column of the first byte of the rest.
    pub column: u32,
    ghost fits: { column + length rest.now < 2 ^ 32 },
}

/// How many spaces the bytes begin with.
fn leading_spaces(bytes: &[u8]) -> usize
    ensures value { result ≡ prefix_len is_space bytes.now }
    ensures within { result ≤ length bytes.now }
{
    for (index, byte) in bytes.iter().enumerate() {
        if *byte != b' ' {
            return index;
        }
    }
    bytes.len()
}

/// How many bytes stand before the first space.
fn word_length(bytes: &[u8]) -> usize
    ensures value { result ≡ prefix_len is_word_byte bytes.now }
    ensures within { result ≤ length bytes.now }
{
    for (index, byte) in bytes.iter().enumerate() {
        if *byte == b' ' {
            return index;
        }
    }
    bytes.len()
}

impl<'a> Words<'a> {
    /// All words of a line.
    pub fn of_line(line: &'a [u8]) -> Words<'a>
        requires { length line.now < 2 ^ 32 - 1 }
        ensures rest { result.rest.now ≡ line.now }
        ensures column { result.column ≡ 1 }
    {
        Words {
            rest: line,
            column: 1,
        }
    }

    fn skip(&mut self, count: usize)
        requires { count ≤ length self.old.rest.now }
        ensures rest { self.new.rest.now ≡ drop count self.old.rest.now }
        ensures column { self.new.column ≡ self.old.column + count }
    {
        self.rest = &self.rest[count..];
        self.column += count as u32;
    }

    /// The next word, or none where the line ends.
    pub fn next(&mut self) -> Option<Word<'a>>
        ensures { MatchOption result
            ((words_from false self.old.column self.old.rest.now ≡ ends (self.new.column + length self.new.rest.now))
            × (words_from false self.new.column self.new.rest.now ≡ ends (self.new.column + length self.new.rest.now)))
            (λ w. words_from false self.old.column self.old.rest.now ≡ word w.bytes.now w.column (words_from false self.new.column self.new.rest.now)) }
    {
        self.skip(leading_spaces(self.rest));
        let count = word_length(self.rest);
        if count == 0 {
            return None;
        }
        let word = Word {
            bytes: &self.rest[..count],
            column: self.column,
        };
        self.skip(count);
        Some(word)
    }

    /// The next word, which has to stand there.
    pub fn word(&mut self) -> Result<Word<'a>, LineFault>
        ensures { MatchResult result
            (λ w. words_from false self.old.column self.old.rest.now ≡ word w.bytes.now w.column (words_from false self.new.column self.new.rest.now))
            (λ e. (words_from false self.old.column self.old.rest.now ≡ ends e.column) × (e.kind ≡ LineKind.Missing)) }
    {
        match self.next() {
            Some(word) => Ok(word),
            None => Err(LineFault {
                kind: LineKind::Missing,
                column: self.column + self.rest.len() as u32,
            }),
        }
    }
}
