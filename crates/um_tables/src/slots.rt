//! Slots by number.

ghost use Rattle.std.specs.Prelude.{◌≡◌, slice_index_or, slice_set};

/// What stands in a slot, or the given value past the last slot.
pub fn get_or<T: Copy>(slots: &[T], i: usize, other: T) -> T
    ensures { result ≡ slice_index_or slots.now i other }
{
    match slots.get(i) {
        Some(value) => *value,
        None => other,
    }
}

/// Writes a slot, if there is one.
pub fn put<T: Copy>(slots: &mut [T], i: usize, value: T)
    ensures { slots.new ≡ slice_set slots.old i value }
{
    if i < slots.len() {
        slots[i] = value;
    }
}
