//! The pieces of a text, and their lines.

ghost use Rattle.std.specs.Prelude.{◌≡◌, ◌≢◌, ◌<◌, ◌∷◌, length, ℕ, List, IfSome, IfNone, slice_index};
ghost use Rattle.um_audit.specs.Lines.{IsFirstLine, pieces, line_of, is_dump};

/// Where the first newline stands.
fn newline(text: &[u8]) -> Option<usize>
    ensures within { IfSome result (λ i. i < length text.now) }
    ensures found { IfSome result (λ i. slice_index text.now i ≡ 10) }
    ensures before { IfSome result (λ i. (k : ℕ) → k < i → slice_index text.now k ≢ 10) }
    ensures none { IfNone result ((k : ℕ) → k < length text.now → slice_index text.now k ≢ 10) }
{
    for (i, byte) in text.iter().enumerate() {
        if *byte == 10 {
            return Some(i);
        }
    }
    None
}

/// The first piece of a text that isn't empty, and what follows it.
pub fn first_piece(text: &[u8]) -> (&[u8], &[u8])
    requires { 0 < length text.now }
    ensures piece { pieces text.now ≡ result.0.now ∷ pieces result.1.now }
    ensures shorter { length result.1.now < length text.now }
{
    match newline(text) {
        Some(i) => text.split_at(i + 1),
        None => (text, &[]),
    }
}

/// The line of that piece, and what follows the piece.
pub fn first_line(text: &[u8]) -> (&[u8], &[u8])
    requires { 0 < length text.now }
    ensures line { IsFirstLine text.now result.0.now result.1.now }
    ensures shorter { length result.1.now < length text.now }
{
    match newline(text) {
        Some(i) => (&text[..i], text.split_at(i + 1).1),
        None => (text, &[]),
    }
}

/// Whether a line is the one with which a dump begins.
pub fn is_dump(line: &[u8]) -> bool
    ensures { (piece : List ℕ) → line.now ≡ line_of piece → result ≡ is_dump piece }
{
    line == "dump".as_bytes()
}
