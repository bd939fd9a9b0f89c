//! Text, appended into reserved room.

ghost use Rattle.std.specs.{
  Prelude.{◌≡◌, ◌+◌, ◌*◌, ◌≤◌, ◌<◌, ◌++◌, codes, length, vec_len, vec_capacity, decimal},
  Fmt.{signed_decimal},
  List.{flat_map},
};
ghost use Rattle.um_trace.specs.{Digits.{hex2, hex8, address, value, glyph_of, leading}, Room.{Puts}};

use itoa::Buffer;
use um_base::Addr;

/// A piece. The room is there, so it takes no memory. Where the length is a constant, the bytes are written at once.
#[inline(always)]
pub fn put(room: &mut Vec<u8>, piece: &[u8])
    requires { vec_len room.old + length piece.now ≤ vec_capacity room.old }
    ensures { Puts room.old room.new piece.now (length piece.now) }
{
    room.extend_from_slice(piece).unwrap()
}

/// A piece, one byte after another.
fn put_each(room: &mut Vec<u8>, piece: &[u8])
    requires { vec_len room.old + length piece.now ≤ vec_capacity room.old }
    ensures { Puts room.old room.new piece.now (length piece.now) }
{
    for byte in piece {
        room.push_reserved(*byte);
    }
}

/// A short piece, such as a name or a word, four bytes at a time.
pub fn put_short(room: &mut Vec<u8>, piece: &[u8])
    requires { vec_len room.old + length piece.now ≤ vec_capacity room.old }
    ensures { Puts room.old room.new piece.now (length piece.now) }
{
    let mut left = piece;
    'fours: while let [a, b, c, d, rest @ ..] = left {
        put(room, &[*a, *b, *c, *d]);
        left = rest;
    }
    put_each(room, left);
}

/// A space.
#[inline(always)]
pub fn put_space(room: &mut Vec<u8>)
    requires { vec_len room.old + 1 ≤ vec_capacity room.old }
    ensures { Puts room.old room.new (codes " ") 1 }
{
    room.push_reserved(b' ');
}

/// The end of a line.
#[inline(always)]
pub fn put_newline(room: &mut Vec<u8>)
    requires { vec_len room.old + 1 ≤ vec_capacity room.old }
    ensures { Puts room.old room.new (codes "\n") 1 }
{
    room.push_reserved(b'\n');
}

/// A piece of text.
#[inline(always)]
pub fn put_text(room: &mut Vec<u8>, text: &str)
    requires { vec_len room.old + length text.now ≤ vec_capacity room.old }
    ensures { Puts room.old room.new text.now (length text.now) }
{
    put(room, text.as_bytes())
}

/// A decimal digit.
#[tactic(auto, using(std::proofs::lemmas::Fmt::decimal_digit))]
fn put_digit(room: &mut Vec<u8>, digit: u32)
    requires room { vec_len room.old + 1 ≤ vec_capacity room.old }
    requires small { digit < 10 }
    ensures { Puts room.old room.new (decimal digit) 1 }
{
    room.push_reserved(48 + digit as u8);
}

/// A number of ticks.
pub fn put_ticks(room: &mut Vec<u8>, n: u64)
    requires { vec_len room.old + 20 ≤ vec_capacity room.old }
    ensures { Puts room.old room.new (decimal n) 20 }
{
    let mut buffer = Buffer::new();
    put_text(room, buffer.format(n))
}

/// A number.
pub fn put_decimal(room: &mut Vec<u8>, n: u32)
    requires { vec_len room.old + 10 ≤ vec_capacity room.old }
    ensures { Puts room.old room.new (decimal n) 10 }
{
    if n < 10 {
        return put_digit(room, n);
    }
    if n < 100 {
        put_digit(room, n / 10);
        return put_digit(room, n % 10);
    }
    let mut buffer = Buffer::new();
    put_text(room, buffer.format(n))
}

/// A word, and a number.
pub fn put_numbered(room: &mut Vec<u8>, word: &str, n: u32)
    requires { vec_len room.old + length word.now + 10 ≤ vec_capacity room.old }
    ensures { Puts room.old room.new (word.now ++ decimal n) (length word.now + 10) }
{
    put_text(room, word);
    put_decimal(room, n);
}

/// A count.
pub fn put_count(room: &mut Vec<u8>, count: usize)
    requires { vec_len room.old + 20 ≤ vec_capacity room.old }
    ensures { Puts room.old room.new (decimal count) 20 }
{
    let mut buffer = Buffer::new();
    put_text(room, buffer.format(count))
}

/// A priority.
pub fn put_signed(room: &mut Vec<u8>, priority: i8)
    requires { vec_len room.old + 4 ≤ vec_capacity room.old }
    ensures { Puts room.old room.new (signed_decimal priority) 4 }
{
    let mut buffer = Buffer::new();
    put_text(room, buffer.format(priority))
}

/// The digits.
const GLYPHS: [u8; 16] = *b"0123456789abcdef";

/// A digit, in lower case.
#[inline(always)]
fn glyph(d: u32) -> u8
    requires { d < 16 }
    ensures { result ≡ glyph_of d }
{
    GLYPHS[d as usize]
}

/// The eight digits of a number.
#[tactic(auto, unfolding(crate::specs::Digits::hex8))]
#[inline(always)]
fn digits(n: u32) -> [u8; 8]
    ensures value { result ≡ hex8 n }
    ensures len { length (hex8 n) ≡ 8 }
{
    [
        glyph(n / 0x1000_0000),
        glyph(n / 0x100_0000 % 16),
        glyph(n / 0x10_0000 % 16),
        glyph(n / 0x1_0000 % 16),
        glyph(n / 0x1000 % 16),
        glyph(n / 0x100 % 16),
        glyph(n / 0x10 % 16),
        glyph(n % 16),
    ]
}

/// An address in memory: `0x` and eight digits.
#[tactic(auto, unfolding(crate::specs::Digits::address))]
pub fn put_address(room: &mut Vec<u8>, addr: Addr)
    requires { vec_len room.old + 10 ≤ vec_capacity room.old }
    ensures { Puts room.old room.new (address addr.0) 10 }
{
    let [a, b, c, d, e, f, g, h] = digits(addr.0);
    put(room, &[b'0', b'x', a, b, c, d, e, f, g, h])
}

/// How many of a number's eight digits are zeros in front.
fn leading(n: u32) -> usize
    ensures value { result ≡ leading n }
    ensures some { result < 8 }
{
    if n < 0x10 {
        7
    } else if n < 0x100 {
        6
    } else if n < 0x1000 {
        5
    } else if n < 0x1_0000 {
        4
    } else if n < 0x10_0000 {
        3
    } else if n < 0x100_0000 {
        2
    } else if n < 0x1000_0000 {
        1
    } else {
        0
    }
}

/// A value: `0x` and its digits, without zeros in front.
#[tactic(auto, unfolding(crate::specs::Digits::value))]
pub fn put_value(room: &mut Vec<u8>, n: u32)
    requires { vec_len room.old + 10 ≤ vec_capacity room.old }
    ensures { Puts room.old room.new (value n) 10 }
{
    put_text(room, "0x");
    let all = digits(n);
    put_short(room, &all[leading(n)..])
}

/// The two digits of a byte.
#[tactic(auto, unfolding(crate::specs::Digits::hex2))]
fn put_byte(room: &mut Vec<u8>, byte: u8)
    requires { vec_len room.old + 2 ≤ vec_capacity room.old }
    ensures { Puts room.old room.new (hex2 byte) 2 }
{
    put(room, &[glyph(byte as u32 / 16), glyph(byte as u32 % 16)])
}

/// Bytes, two digits each.
pub fn put_bytes(room: &mut Vec<u8>, bytes: &[u8])
    requires { vec_len room.old + 2 * length bytes.now ≤ vec_capacity room.old }
    ensures { Puts room.old room.new (flat_map hex2 bytes.now) (2 * length bytes.now) }
{
    for byte in bytes {
        put_byte(room, *byte);
    }
}
