//! The description of a number.

ghost use Rattle.std.specs.Prelude.{◌≡◌, ◌+◌, ◌≤◌, vec_len, vec_capacity, IfOk};
ghost use Rattle.um_gen.specs.Description as description;
ghost use Rattle.um_gen.specs.Pieces.{Writes};

use crate::boots::BOOT;
use crate::writer::Writer;
use rand_core::SeedableRng;
use rand_pcg::Lcg64Xsh32;
use std::alloc::Global;
use um_base::OutOfMemory;

/// The most bytes of a description.
const MOST: usize = 17_160;

impl Writer {
    /// The whole description.
    fn put_whole(&mut self)
        requires { vec_len self.old.text + 17160 ≤ vec_capacity self.old.text }
        ensures { Writes self.old self.new description.whole 17160 }
    {
        self.put_head();
        self.put_objects();
        self.put_each(&BOOT, 8);
        self.put_scripts();
    }
}

/// The description of a number: eight threads that have the same kinds of objects, with drawn domains, grants and
/// script lines. All memory is taken before the first byte is written.
pub fn generate(alloc: Global, number: u64) -> Result<Vec<u8>, OutOfMemory>
    ensures { IfOk result (λ text. text.items ≡ description.description number) }
{
    let mut writer = Writer {
        text: Vec::with_capacity(alloc, MOST)?,
        random: Lcg64Xsh32::seed_from_u64(number),
    };
    writer.put_whole();
    Ok(writer.text)
}
