//! Writing all bytes.
ghost use Rattle.std.specs.{Prelude.{◌≡◌, ◌+◌, ◌≤◌, length, IsOk, OnOk, OnErr}, Io.KnownBytes.{Appends}};
ghost use Rattle.um_io.specs.{Causes.{HasCause}, Bytes.{AppendsFront}};

use crate::{Failed, Sink};

/// Writes all of the bytes, or a front of them where the sink fails. It takes no memory.
pub fn write_all<O: Sink>(sink: &mut O, bytes: &[u8]) -> Result<(), Failed>
    ensures all { OnOk result (Appends (O.taken sink.old) (O.taken sink.new) bytes.now) }
    ensures front { OnErr result (AppendsFront (O.taken sink.old) (O.taken sink.new) bytes.now) }
    ensures cause { HasCause (O.faults sink.old) (O.faults sink.new) result }

    // No more bytes than there is room for are written with no failure.
    ensures succeeds { length bytes.now ≤ O.room sink.old → IsOk result }
    ensures quiet { length bytes.now ≤ O.room sink.old → O.faults sink.new ≡ O.faults sink.old }
    ensures room { length bytes.now ≤ O.room sink.old
        → O.room sink.new + length bytes.now ≡ O.room sink.old }
{
    let mut done = 0;
    while done < bytes.len() {
        let count = sink.write(&bytes[done..])?;
        done += count;
    }
    Ok(())
}

#[cfg(test)]
mod tests {
    use super::*;
    use crate::{MemSink, StdSink};
    use std::alloc::{AllocError, Global};
    use std::test::Fail;
    use um_base::OutOfMemory;

    fn sample(alloc: Global) -> Result<Vec<u8>, AllocError> {
        (0..10_000u32).map(|k| (k % 251) as u8).collect(alloc)
    }

    fn sink_of_pieces(alloc: Global, piece: u32, fails: &[u32]) -> Result<MemSink, OutOfMemory>
        requires { 1 ≤ piece }
    {
        MemSink::new(alloc, piece, Vec::from_slice(alloc, fails)?)
    }

    #[test]
    fn writes_all_in_pieces(rt: HostRuntime) -> Result<(), Fail> {
        let alloc = rt.alloc();
        let bytes = sample(alloc)?;
        for mut sink in [
            sink_of_pieces(alloc, 1, &[])?,
            sink_of_pieces(alloc, 7, &[])?,
            sink_of_pieces(alloc, 4096, &[])?,
        ] {
            assert_eq!(rt; write_all(&mut sink, &bytes), Ok(()));
            assert_eq!(rt; sink.bytes(), bytes.as_slice());
        }
        Ok(())
    }

    #[test]
    fn keeps_the_front_of_a_failed_write(rt: HostRuntime) -> Result<(), Fail> {
        let alloc = rt.alloc();
        let mut sink = sink_of_pieces(alloc, 7, &[1])?;
        assert_eq!(rt; write_all(&mut sink, b"kernel object"), Err(Failed));
        assert_eq!(rt; sink.bytes(), b"kernel ".as_slice());
        assert_eq!(rt; write_all(&mut sink, b"thread"), Ok(()));
        assert_eq!(rt; sink.bytes(), b"kernel thread".as_slice());
        Ok(())
    }

    #[test]
    fn fails_once_the_room_is_used_up(rt: HostRuntime) -> Result<(), Fail> {
        let alloc = rt.alloc();
        let mebibyte = vec![in alloc; 7u8; 1 << 20]?;
        let mut sink = sink_of_pieces(alloc, 1 << 30, &[])?;
        for _ in 0..64 {
            write_all(&mut sink, &mebibyte)?;
        }
        assert_eq!(rt; write_all(&mut sink, &[]), Ok(()));
        assert_eq!(rt; write_all(&mut sink, &[7]), Err(Failed));
        assert_eq!(rt; sink.bytes().len(), 64 << 20);
        Ok(())
    }

    #[test]
    fn writes_into_a_writer(rt: HostRuntime) -> Result<(), Fail> {
        let alloc = rt.alloc();
        let mut text = Vec::new(alloc);
        write_all(&mut StdSink::new(&mut text), b"layout\n")?;
        assert_eq!(rt; text.as_slice(), b"layout\n".as_slice());

        let mut short = [0u8; 3];
        assert_eq!(rt;
            write_all(&mut StdSink::new(&mut short[..]), b"layout\n"),
            Err(Failed)
        );
        assert_eq!(rt; short.as_slice(), b"lay".as_slice());
        Ok(())
    }
}
