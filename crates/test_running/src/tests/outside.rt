//! Sources and sinks that fail at one of their calls.

use super::{Ended, answered, call, source_of};
use std::process::Abort;
use std::sync::Wait;
use std::test::Fail;
use std::thread::Threads;
use um_app::Status;
use um_io::{MemSink, NoGate};
use um_samples::REALISTIC;

/// The number of a call that isn't reached.
const NEVER: u32 = 1000;

#[test]
fn a_read_fails(rt: HostRuntime) -> Result<(), Fail> {
    let alloc = rt.alloc();
    for k in 0..21 {
        let source = source_of(alloc, REALISTIC, 7, vec![in alloc; k]?)?;
        let out = MemSink::new(alloc, 100, Vec::new(alloc))?;
        let ended = call(&rt, "sim", source, out, &NoGate)?;
        assert_eq!(rt; ended.status, Status::ReadFault, "read {k}");
        assert_eq!(rt; ended.out.bytes().len(), 0);
        assert_eq!(rt; ended.err.bytes(), b"zumode: read fault\n".as_slice());
    }
    Ok(())
}

/// A command whose write with this number fails says so, and wrote a prefix of its text.
fn fails_at<R: Abort + AllocGlobal + Threads + Wait + Sync>(
    rt: &R,
    line: &str,
    whole: &Ended,
    write: u32,
) -> Result<Ended, Fail> {
    let alloc = rt.alloc();
    let source = source_of(alloc, REALISTIC, 7, Vec::new(alloc))?;
    let out = MemSink::new(alloc, 100, vec![in alloc; write]?)?;
    let ended = call(rt, line, source, out, &NoGate)?;
    assert_eq!(rt; ended.status, Status::WriteFault, "write {write}");
    assert!(rt; whole.out.bytes().starts_with(ended.out.bytes()));
    assert_eq!(rt; ended.err.bytes(), b"zumode: write fault\n".as_slice());
    Ok(ended)
}

#[test]
fn a_write_fails(rt: HostRuntime) -> Result<(), Fail> {
    let whole = answered(&rt, "sim", REALISTIC, &NoGate)?;
    assert_eq!(rt; whole.status, Status::Done);
    for k in 0..21 {
        let ended = fails_at(&rt, "sim", &whole, k)?;
        assert_eq!(rt; ended.out.bytes().len(), 100 * (k as usize));
    }
    Ok(())
}

#[test]
fn a_write_of_a_run_fails(rt: HostRuntime) -> Result<(), Fail> {
    let whole = answered(&rt, "run --cpus 1", REALISTIC, &NoGate)?;
    assert_eq!(rt; whole.status, Status::Done);
    assert!(rt; whole.board);
    for k in 0..21 {
        let ended = fails_at(&rt, "run --cpus 1", &whole, k)?;
        assert!(rt;
            !ended.board,
            "the board is left, although write {k} failed"
        );
    }
    Ok(())
}

#[test]
fn a_call_that_fails_is_not_reached(rt: HostRuntime) -> Result<(), Fail> {
    let alloc = rt.alloc();
    let whole = answered(&rt, "sim", REALISTIC, &NoGate)?;
    let source = source_of(alloc, REALISTIC, 7, vec![in alloc; NEVER]?)?;
    let out = MemSink::new(alloc, 100, vec![in alloc; NEVER]?)?;
    let ended = call(&rt, "sim", source, out, &NoGate)?;
    assert_eq!(rt; ended.status, Status::Done);
    assert_eq!(rt; ended.out.bytes(), whole.out.bytes());
    assert_eq!(rt; ended.err.bytes().len(), 0);
    Ok(())
}
