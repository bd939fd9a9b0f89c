//! The read-only data of an image.

ghost use Rattle.std.specs.Prelude.{◌≡◌, IfOk};
ghost use Rattle.um_machine.specs.Memory.{rodata_of};

use std::alloc::Global;
use um_base::{Image, OutOfMemory};

/// The bytes of the read-only data, filled up with zeros.
pub fn rodata(alloc: Global, image: &Image) -> Result<Vec<u8>, OutOfMemory>
    ensures { IfOk result (λ bytes. bytes.items ≡ rodata_of image.now) }
{
    let size = match image.rodata {
        Some(range) => range.size as usize,
        None => 0,
    };
    let given = image.rodata_bytes.as_slice();
    let mut bytes = given.to_vec(alloc)?;
    bytes.resize(size.max(given.len()), 0)?;
    Ok(bytes)
}
