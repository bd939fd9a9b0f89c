//! What the protection unit makes of a size.

ghost use Rattle.std.specs.Prelude.{◌≡◌, ◌≤◌};
ghost use Rattle.um_base.specs.Layout as layout;
ghost use Rattle.um_layout.specs.Sizes.{IsLeastSize};

use um_base::Mpu;

/// The least size that the unit guards and that is at least `size`, both in bytes: a power of two from 32 on under
/// PMSAv7, and a multiple of 32 under PMSAv8.
pub fn rounded(mpu: Mpu, size: u32) -> u32
    requires some { 1 ≤ size }
    requires most { size ≤ 65536 }
    ensures value { result ≡ layout.rounded mpu size }
    ensures least { IsLeastSize mpu size result }
    ensures small { result ≤ 65536 }
{
    match mpu {
        Mpu::V7 => size.max(32).next_power_of_two(),
        Mpu::V8 => size.next_multiple_of(32),
    }
}
