//! A text that grows in reserved room, with draws.

ghost use Rattle.std.specs.Prelude.{◌≡◌, ◌+◌, ◌*◌, ◌≤◌, ◌<◌, length, vec_len, vec_capacity};
ghost use Rattle.um_gen.specs.Draws as draws;
ghost use Rattle.um_gen.specs.Pieces as pieces;
ghost use Rattle.um_gen.specs.Pieces.{Writes, plain};

use itoa::Buffer;
use rand_core::utils::NextWord;
use rand_pcg::Lcg64Xsh32;

/// The text so far, and the generator of its draws. The room is reserved, so no piece takes memory.
#[derive(Drop)]
pub struct Writer {
    pub text: Vec<u8>,
    pub random: Lcg64Xsh32,
}

impl Writer {
    /// A number below `below`: the next word's remainder.
    #[tactic(auto, unfolding(crate::specs::Draws::draw, crate::specs::Draws::drawn))]
    pub fn draw(&mut self, below: u32) -> u32
        requires { 0 < below }
        ensures value { result ≡ draws.draw below self.old.random }
        ensures small { result < below }
        ensures random { self.new.random ≡ draws.drawn self.old.random }
        ensures text { self.new.text ≡ self.old.text }
    {
        self.random.next_word() % below
    }

    /// A piece of text.
    pub fn put(&mut self, text: &str)
        requires { vec_len self.old.text + length text.now ≤ vec_capacity self.old.text }
        ensures { Writes self.old self.new (plain text.now) (length text.now) }
    {
        self.text.extend_from_slice(text.as_bytes()).unwrap()
    }

    /// A number.
    pub fn put_number(&mut self, n: u32)
        requires { vec_len self.old.text + 10 ≤ vec_capacity self.old.text }
        ensures { Writes self.old self.new (pieces.number n) 10 }
    {
        let mut buffer = Buffer::new();
        self.put(buffer.format(n))
    }

    /// A drawn number below `below`.
    pub fn put_drawn(&mut self, below: u32)
        requires some { 0 < below }
        requires room { vec_len self.old.text + 10 ≤ vec_capacity self.old.text }
        ensures { Writes self.old self.new (pieces.drawn_number below) 10 }
    {
        let n = self.draw(below);
        self.put_number(n);
    }

    /// Where a drawn word of a stack stands.
    pub fn put_offset(&mut self)
        requires { vec_len self.old.text + 10 ≤ vec_capacity self.old.text }
        ensures { Writes self.old self.new pieces.drawn_offset 10 }
    {
        let word = self.draw(32);
        self.put_number(4 * word);
    }
}
