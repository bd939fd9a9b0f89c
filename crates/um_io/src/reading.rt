//! Reading to the end.
ghost use Rattle.std.specs.{
  Prelude.{◌≡◌, ℕ, ◌+◌, ◌≤◌, List, length, IfOk},
  Io.KnownBytes.{Consumes, IsAtEnd},
};
ghost use Rattle.um_io.specs.Causes.{Rose};

use crate::{Failed, Source};
use std::alloc::{AllocError, Global};

/// Why the bytes of a source were not read to the end.
#[derive(Clone, Copy, Debug, PartialEq, Eq)]
pub enum ReadAll {
    /// The source failed, and counts it.
    Fault,
    /// One byte more than the limit was taken.
    TooLong,
    /// Memory ran out.
    Memory,
}

impl From<AllocError> for ReadAll {
    ghost use Rattle.um_io.specs.declared.reading.ReadAll.TheVariants.{Memory};

    ghost from_gives = { λ _ e. e ≡ Memory };

    fn from(_e: AllocError) -> ReadAll {
        ReadAll::Memory
    }
}

impl From<Failed> for ReadAll {
    ghost use Rattle.um_io.specs.declared.reading.ReadAll.TheVariants.{Fault};

    ghost from_gives = { λ _ e. e ≡ Fault };

    fn from(_e: Failed) -> ReadAll {
        ReadAll::Fault
    }
}

/// How many bytes are asked of a source at a time.
const PIECE: usize = 4096;

/// All bytes that the source has left, of which there may be `limit`.
///
/// `TooLong` comes once `limit + 1` bytes were taken, `Fault` once a read failed, and `Memory`
/// where the bytes find no room. What an error took is lost; it was a front of what was left.
pub fn read_all<S: Source>(alloc: Global, source: &mut S, limit: u32) -> Result<Vec<u8>, ReadAll>
    ensures whole { IfOk result (λ bytes.
        Consumes (S.left source.old) (S.left source.new) bytes.items) }
    ensures at_end { IfOk result (λ _. IsAtEnd (S.left source.new)) }
    ensures short { IfOk result (λ bytes. length bytes.items ≤ limit) }

    // A fault comes only where the count of failures rose, and takes the limit at most.
    ensures fault { result ≡ Err ReadAll.Fault → Rose (S.faults source.old) (S.faults source.new) }
    ensures fault_short { result ≡ Err ReadAll.Fault → (taken : List ℕ) × (length taken ≤ limit)
        × Consumes (S.left source.old) (S.left source.new) taken }
    ensures too_long { result ≡ Err ReadAll.TooLong → (taken : List ℕ) × (length taken ≡ limit + 1)
        × Consumes (S.left source.old) (S.left source.new) taken }
    ensures memory { result ≡ Err ReadAll.Memory → (taken : List ℕ) × (length taken ≤ limit + 1)
        × Consumes (S.left source.old) (S.left source.new) taken }

    ensures later { S.faults source.old ≤ S.faults source.new }
    ensures most { S.most source.new ≡ S.most source.old }
    ensures at_most { S.faults source.new ≤ S.most source.new }
{
    let most = limit as usize + 1;
    let mut bytes = Vec::new(alloc);
    let mut piece = [0u8; PIECE];
    while bytes.len() < most {
        let room = PIECE.min(most - bytes.len());
        let count = source.read(&mut piece[..room])?;
        if count == 0 {
            return Ok(bytes);
        }
        bytes.extend_from_slice(&piece[..count])?;
    }
    Err(ReadAll::TooLong)
}

#[cfg(test)]
mod tests {
    use super::*;
    use crate::{MemSource, StdSource};
    use std::test::Fail;

    fn sample(alloc: Global) -> Result<Vec<u8>, AllocError> {
        (0..10_000u32).map(|k| (k % 251) as u8).collect(alloc)
    }

    fn read_in_pieces(alloc: Global, piece: u32, limit: u32) -> Result<Vec<u8>, ReadAll>
        requires { 1 ≤ piece }
    {
        let mut source = MemSource::new(sample(alloc)?, piece, Vec::new(alloc));
        read_all(alloc, &mut source, limit)
    }

    #[test]
    fn reads_exactly_the_limit(rt: HostRuntime) -> Result<(), Fail> {
        let alloc = rt.alloc();
        let want = sample(alloc)?;
        assert_eq!(rt; read_in_pieces(alloc, 1, 10_000)?, want);
        assert_eq!(rt; read_in_pieces(alloc, 7, 10_000)?, want);
        assert_eq!(rt; read_in_pieces(alloc, 4096, 10_000)?, want);
        Ok(())
    }

    #[test]
    fn refuses_one_byte_more(rt: HostRuntime) -> Result<(), Fail> {
        let alloc = rt.alloc();
        assert_eq!(rt; read_in_pieces(alloc, 7, 9_999), Err(ReadAll::TooLong));
        assert_eq!(rt; read_in_pieces(alloc, 4096, 0), Err(ReadAll::TooLong));
        Ok(())
    }

    #[test]
    fn tells_a_fault(rt: HostRuntime) -> Result<(), Fail> {
        let alloc = rt.alloc();
        let want = sample(alloc)?;
        let fails = Vec::from_slice(alloc, &[0, 3])?;
        let mut source = MemSource::new(sample(alloc)?, 7, fails);
        assert_eq!(rt; read_all(alloc, &mut source, 10_000), Err(ReadAll::Fault));
        assert_eq!(rt; read_all(alloc, &mut source, 10_000), Err(ReadAll::Fault));
        let rest = read_all(alloc, &mut source, 10_000)?;
        assert_eq!(rt; Some(rest.as_slice()), want.get(14..));
        Ok(())
    }

    #[test]
    fn reads_from_a_reader(rt: HostRuntime) -> Result<(), Fail> {
        let alloc = rt.alloc();
        let text = "mode sim\n".as_bytes();
        let mut source = StdSource::new(text);
        let bytes = read_all(alloc, &mut source, 100)?;
        assert_eq!(rt; bytes.as_slice(), text);
        Ok(())
    }
}
