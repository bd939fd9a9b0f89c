//! Rows by addresses.

ghost use Rattle.std.specs.Prelude.{◌≡◌, ◌<◌, IfSome};
ghost use Rattle.um_base.specs.Places.{row_at};
ghost use Rattle.um_steps.specs.Given.{IsGiven};

use um_base::{Image, OBJECT_STEP, OBJECTS, ROWS};
use um_steps::rows;

/// The row whose address is exactly this. For any object but a thread stack the address gives the row by itself, so no other row is looked
/// at.
pub(crate) fn row_at(image: &Image, a: u32) -> Option<usize>
    requires { IsGiven image.now }
    ensures value { result ≡ row_at image.now a }
    ensures small { IfSome result (λ x. x < ROWS) }
{
    let x = (a.wrapping_sub(OBJECTS) / OBJECT_STEP) as usize;
    match image.objects.as_slice().get(x) {
        Some(object) if object.addr.0 == a => Some(x),
        _ => rows::row_at(image, a),
    }
}
