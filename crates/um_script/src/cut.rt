//! The parts of a word.

ghost use Rattle.std.specs.Prelude.{◌≡◌, ◌<◌, ◌==◌, length, option_map, position, IfSome};
ghost use Rattle.um_script.specs.Operands as operands;

fn place_of(mark: u8, bytes: &[u8]) -> Option<usize>
    ensures place { result ≡ position (λ b. b == mark) bytes.now }
    ensures within { IfSome result (λ k. k < length bytes.now) }
{
    bytes.iter().position(|byte| *byte == mark)
}

/// The bytes before the first `mark`, and those behind it.
pub fn cut(mark: u8, bytes: &[u8]) -> Option<(&[u8], &[u8])>
    ensures { option_map (λ x. (x.0.now, x.1.now)) result ≡ operands.cut mark bytes.now }
{
    let place = place_of(mark, bytes)?;
    Some((&bytes[..place], &bytes[place + 1..]))
}
