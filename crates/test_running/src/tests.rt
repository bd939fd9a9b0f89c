//! The top call over memory, with or without a gate.

mod audits;
mod gates;
mod lines;
mod outside;
mod picks;
mod runs;
mod texts;
mod turns;

ghost use Rattle.std.specs.Prelude.{◌≤◌};

use std::alloc::Global;
use std::process::Abort;
use std::sync::Wait;
use std::test::Fail;
use std::thread::Threads;
use um_app::{Status, zumode};
use um_io::{Gate, MemSink, MemSource, NoGate};

/// What a call answered and wrote.
#[derive(Drop)]
pub struct Ended {
    pub status: Status,
    pub out: MemSink,
    pub err: MemSink,
    /// Whether a board was left.
    pub board: bool,
}

/// The words of a line, which stand one space apart.
fn words_of(alloc: Global, line: &str) -> Result<Vec<String>, Fail> {
    let mut words = Vec::new(alloc);
    for word in line.split(' ') {
        words.push(String::from_str(alloc, word)?)?;
    }
    Ok(words)
}

/// A source of a description, which gives this many bytes a call. The calls of these numbers fail.
pub fn source_of(
    alloc: Global,
    description: &str,
    piece: u32,
    fails: Vec<u32>,
) -> Result<MemSource, Fail>
    requires { 1 ≤ piece }
{
    let bytes = description.as_bytes().to_vec(alloc)?;
    Ok(MemSource::new(bytes, piece, fails))
}

/// A command between a source and two sinks, the second one for its error line.
fn call_between<R: AllocGlobal + Threads + Wait + Sync, G: Gate + Sync>(
    rt: &R,
    line: &str,
    mut source: MemSource,
    mut out: MemSink,
    mut err: MemSink,
    gate: &G,
) -> Result<Ended, Fail> {
    let words = words_of(rt.alloc(), line)?;
    let mut ran = None;
    let status = zumode(rt, &words, &mut source, &mut out, &mut err, gate, &mut ran);
    let board = ran.is_some();
    if let Some(closed) = ran {
        closed.free();
    }
    Ok(Ended {
        status,
        out,
        err,
        board,
    })
}

/// A command between a source and a sink.
pub fn call<R: AllocGlobal + Threads + Wait + Sync, G: Gate + Sync>(
    rt: &R,
    line: &str,
    source: MemSource,
    out: MemSink,
    gate: &G,
) -> Result<Ended, Fail> {
    let alloc = rt.alloc();
    let err = MemSink::new(alloc, 4096, Vec::new(alloc))?;
    call_between(rt, line, source, out, err, gate)
}

/// A command over memory, with this many bytes a call, where nothing fails.
pub fn in_pieces<R: AllocGlobal + Threads + Wait + Sync>(
    rt: &R,
    line: &str,
    input: Vec<u8>,
    piece: u32,
) -> Result<Ended, Fail>
    requires { 1 ≤ piece }
{
    let alloc = rt.alloc();
    let source = MemSource::new(input, piece, Vec::new(alloc));
    let out = MemSink::new(alloc, piece, Vec::new(alloc))?;
    let err = MemSink::new(alloc, piece, Vec::new(alloc))?;
    call_between(rt, line, source, out, err, &NoGate)
}

/// A command on a description, where nothing fails.
pub fn answered<R: AllocGlobal + Threads + Wait + Sync, G: Gate + Sync>(
    rt: &R,
    line: &str,
    description: &str,
    gate: &G,
) -> Result<Ended, Fail> {
    let alloc = rt.alloc();
    let source = source_of(alloc, description, 4096, Vec::new(alloc))?;
    let out = MemSink::new(alloc, 4096, Vec::new(alloc))?;
    call(rt, line, source, out, gate)
}

/// A command ended with this status, wrote these bytes, and told this.
pub fn is_ended(rt: &impl Abort, ended: &Ended, status: Status, out: &[u8], err: &[u8]) {
    assert_eq!(rt; ended.status, status);
    assert_eq!(rt; ended.out.bytes(), out);
    assert_eq!(rt; ended.err.bytes(), err);
}
