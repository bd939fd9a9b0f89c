//! Numbers of a description.

ghost use Rattle.std.specs.Prelude.{◌≡◌};
ghost use Rattle.um_description.specs.Numbers.{clamped};

/// A number as an image has it.
pub fn clamped(n: i64) -> u32
    ensures { result ≡ clamped n }
{
    if n < 0 {
        0
    } else if n > 0xffff_ffff {
        0xffff_ffff
    } else {
        n as u32
    }
}
