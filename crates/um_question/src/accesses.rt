//! The bytes of memory that an act touches.

ghost use Rattle.std.specs.Prelude.{◌≡◌, ◌≤◌, ◌^◌};
ghost use Rattle.um_question.specs.Accesses as accesses;

use um_base::{Access, Act, Addr, Found, Range};

/// Bytes of memory that follow one another.
#[derive(Clone, Copy)]
pub struct Span {
    /// The address of the first.
    pub start: u64,
    /// The address behind the last.
    pub end: u64,
}

/// So many bytes from an address on.
fn bytes_from(start: Addr, size: u64) -> Span
    requires { size ≤ 2 ^ 32 }
    ensures { result ≡ accesses.bytes_from start size }
{
    Span {
        start: start.0 as u64,
        end: start.0 as u64 + size,
    }
}

fn no_bytes() -> Span
    ensures { result ≡ accesses.no_bytes }
{
    bytes_from(Addr(0), 0)
}

/// How many bytes a copy touches.
fn copied(fits: bool, size: u32) -> u64
    ensures value { result ≡ accesses.copied fits size }
    ensures few { result ≤ 2 ^ 32 }
{
    if fits { size as u64 } else { 0 }
}

/// How many bytes a read of a text hands on.
fn text_size(found: Found) -> u64
    ensures value { result ≡ accesses.text_size found }
    ensures few { result ≤ 2 ^ 32 }
{
    match found {
        Found::Length(n) => n as u64 + 1,
        Found::TooLong => 32,
        Found::Unreadable => 0,
    }
}

/// The bytes that an act reads.
fn bytes_read(act: &Act) -> Span
    ensures { result ≡ accesses.bytes_read act.now }
{
    match *act {
        Act::Load { addr, size, .. } => bytes_from(addr, size as u64),
        Act::CopyIn { addr, size, fits } => bytes_from(addr, copied(fits, size)),
        Act::CopyStr { addr, found } => bytes_from(addr, text_size(found)),
        _ => no_bytes(),
    }
}

/// The bytes that an act writes.
fn bytes_written(act: &Act) -> Span
    ensures { result ≡ accesses.bytes_written act.now }
{
    match *act {
        Act::Store { addr, size, .. } => bytes_from(addr, size as u64),
        Act::CopyOut { addr, size, fits } => bytes_from(addr, copied(fits, size)),
        _ => no_bytes(),
    }
}

/// The bytes that an act executes.
fn bytes_executed(act: &Act) -> Span
    ensures { result ≡ accesses.bytes_executed act.now }
{
    match *act {
        Act::Fetch { addr } => bytes_from(addr, 4),
        _ => no_bytes(),
    }
}

/// Whether a byte lies both in these and in a range.
fn meets_range(bytes: Span, range: Range) -> bool
    ensures { result ≡ accesses.meets_range bytes range }
{
    let start = bytes.start.max(range.start.0 as u64);
    let end = bytes.end.min(range.start.0 as u64 + range.size as u64);
    start < end
}

/// Whether an act touches at least one byte of a range in this way.
pub fn touches(access: Access, range: Range, act: &Act) -> bool
    ensures { result ≡ accesses.touches access range act.now }
{
    let bytes = match access {
        Access::Read => bytes_read(act),
        Access::Write => bytes_written(act),
        Access::Exec => bytes_executed(act),
    };
    meets_range(bytes, range)
}
