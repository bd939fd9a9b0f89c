//! The kinds of objects that the rows have.

ghost use Rattle.std.specs.Prelude.{◌≡◌};
ghost use Rattle.um_fine.specs.Processor.{kind_of};

use um_base::{Image, Kind, STATIC_ROWS};
use um_steps::kinds::dynamic_kind;

/// The kind of the object of a row, whether it stands or not.
pub fn kind_of(image: &Image, x: usize) -> Option<Kind>
    ensures { result ≡ kind_of image.now x }
{
    match image.objects.as_slice().get(x) {
        Some(o) => Some(o.kind),
        None => {
            if x < STATIC_ROWS {
                None
            } else {
                Some(dynamic_kind(x))
            }
        }
    }
}
