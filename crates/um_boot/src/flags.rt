//! Flags by number.

ghost use Rattle.std.specs.Prelude.{◌≡◌, slice_set};

/// Writes a flag, if there is one.
pub fn put(flags: &mut [bool], i: usize, there: bool)
    ensures { flags.new ≡ slice_set flags.old i there }
{
    if i < flags.len() {
        flags[i] = there;
    }
}
