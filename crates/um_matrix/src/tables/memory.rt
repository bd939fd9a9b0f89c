//! Memory, and what a thread may do there.

ghost use Rattle.std.specs.Prelude.{◌≡◌, ◌<◌, ◌≤◌, ◌+◌, ◌^◌, length, replicate, ℕ};

use crate::tables::Tables;
use um_base::{Access, PARTITION_AREA, RODATA, Range, STACK_AREA, THREADS};
use um_steps::bytes::part;
use um_steps::regions;

impl<'a> Tables<'a> {
    ghost use Rattle.um_machine.specs.Memory.{allowed, bytes_at, with_bytes, le_bytes};

    /// Whether a thread may do this with n bytes from an address on.
    #[tactic(auto, using(um_steps::proofs::RegionLemmas::regions_allow))]
    pub(crate) fn allowed(&self, t: usize, access: Access, a: u32, n: u32) -> bool
        requires { t < THREADS }
        ensures { result ≡ allowed self.now t access a n }
    {
        let thread = &self.threads[t];
        if n == 0 {
            return true;
        }
        if a as u64 + n as u64 > 0x1_0000_0000 {
            return false;
        }
        let stacks = regions::stack_regions_allow(
            self.image,
            thread.mode,
            thread.stack,
            access,
            a,
            n,
        );
        let parts = regions::domain_allows(
            self.domains.as_slice(),
            thread.domain,
            thread.mode,
            access,
            a,
            n,
        );
        let rodata = regions::rodata_allows(self.image.rodata, access, a, n);
        stacks || parts || rodata
    }

    /// n bytes from an address on, which lie in one area.
    pub(crate) fn bytes_at(&self, a: u32, n: u32) -> &[u8]
        ensures value { result.now ≡ bytes_at self.now a n }
        ensures few { length result.now ≤ n }
    {
        if a < PARTITION_AREA {
            part(
                self.rodata.as_slice(),
                a.saturating_sub(RODATA) as usize,
                n as usize,
            )
        } else if a < STACK_AREA {
            part(
                self.memory.as_slice(),
                (a - PARTITION_AREA) as usize,
                n as usize,
            )
        } else {
            part(
                self.stacks.as_slice(),
                (a - STACK_AREA) as usize,
                n as usize,
            )
        }
    }

    /// Writes bytes from an address on.
    pub(crate) fn write(&mut self, a: u32, bytes: &[u8])
        requires { length bytes.now < 2 ^ 32 }
        ensures { self.new ≡ with_bytes self.old a bytes.now }
    {
        if a < STACK_AREA {
            self.memory
                .write(a.saturating_sub(PARTITION_AREA) as usize, bytes);
        } else {
            self.stacks.write((a - STACK_AREA) as usize, bytes);
        }
    }

    /// Writes a number of at most four bytes from an address on, the lowest byte first.
    pub(crate) fn write_number(&mut self, a: u32, n: u32, value: u32)
        ensures { self.new ≡ with_bytes self.old a (le_bytes n value) }
    {
        let bytes = value.to_le_bytes();
        self.write(a, &bytes[..(n as usize).min(4)]);
    }

    /// Writes zero bytes over a range.
    pub(crate) fn clear(&mut self, range: Range)
        ensures { self.new ≡ with_bytes self.old range.start.0 (replicate range.size 0) }
    {
        let a = range.start.0;
        let n = range.size as usize;
        if a < STACK_AREA {
            self.memory
                .clear(a.saturating_sub(PARTITION_AREA) as usize, n);
        } else {
            self.stacks.clear((a - STACK_AREA) as usize, n);
        }
    }
}
