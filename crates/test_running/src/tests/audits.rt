//! Audits of the run of a store to the last byte of a partition, and a load past it.

use super::{Ended, in_pieces, is_ended};
use std::alloc::Global;
use std::sync::Wait;
use std::test::Fail;
use std::thread::Threads;
use um_app::Status;
use um_samples::{LAST_BYTE, LAST_BYTE_RUN};

/// A description that breaks off at the lines of its script.
const BROKEN: &str = "version = 1
script = [{name = \"m\", lines = [";

/// The input of an audit: the description, the line between, and a trace.
fn audited<R: AllocGlobal + Threads + Wait + Sync>(rt: &R, trace: &[u8]) -> Result<Ended, Fail> {
    let alloc = rt.alloc();
    let mut input = LAST_BYTE.as_bytes().to_vec(alloc)?;
    input.extend_from_slice(b"=====\n".as_slice())?;
    input.extend_from_slice(trace)?;
    in_pieces(rt, "audit", input, 4096)
}

/// The text of the run without its line of this number, counted from 1.
fn without(alloc: Global, number: usize) -> Result<Vec<u8>, Fail> {
    let mut text = Vec::new(alloc);
    for (k, line) in LAST_BYTE_RUN.split('\n').enumerate() {
        if k.saturating_add(1) != number && !line.is_empty() {
            text.extend_from_slice(line.as_bytes())?;
            text.push(b'\n')?;
        }
    }
    Ok(text)
}

/// The bytes of the partition before its last one.
const ZEROS: &str = "00000000000000000000000000000000000000000000000000000000000000";

/// The text of the run, with another end of its last line after the zeros.
fn ended_by(alloc: Global, end: &str) -> Result<Vec<u8>, Fail> {
    let mut text = without(alloc, 14)?;
    let line = format!(in alloc; "memory 0x20000000 {ZEROS}{end}")?;
    text.extend_from_slice(line.as_bytes())?;
    Ok(text)
}

#[test]
fn audits_say_their_verdicts(rt: HostRuntime) -> Result<(), Fail> {
    let alloc = rt.alloc();
    let third = without(alloc, 3)?;
    let eighth = without(alloc, 8)?;
    let same = ended_by(alloc, "ab\n")?;
    let changed = ended_by(alloc, "ac\n")?;
    let unended = ended_by(alloc, "ab")?;
    let cases: [(&[u8], &str); 9] = [
        (LAST_BYTE_RUN.as_bytes(), "yes\n"),
        (&same, "yes\n"),
        (&third, "no step 3\n"),
        (&eighth, "not complete\n"),
        (&changed, "no dump 14\n"),
        (&unended, "no dump 14\n"),
        (&[], "no step 1\n"),
        (b"dump\n", "not complete\n"),
        (b"a begin  m 1\n", "no step 1\n"),
    ];
    for (trace, verdict) in cases {
        let ended = audited(&rt, trace)?;
        is_ended(&rt, &ended, Status::Done, verdict.as_bytes(), b"");
    }
    Ok(())
}

#[test]
fn wrong_inputs_get_no_verdict(rt: HostRuntime) -> Result<(), Fail> {
    let alloc = rt.alloc();
    let broken = format!(in alloc; "{BROKEN}\n=====\n")?;
    let long = vec![in alloc; b'#'; 1_048_577]?;
    let cases: [(&[u8], Status, &str); 4] = [
        (
            LAST_BYTE.as_bytes(),
            Status::Refused,
            "zumode: refused: NoTrace\n",
        ),
        (
            BROKEN.as_bytes(),
            Status::Refused,
            "zumode: refused: NoTrace\n",
        ),
        (
            broken.as_bytes(),
            Status::Refused,
            "zumode: refused: NotToml\n",
        ),
        (&long, Status::TooLong, "zumode: input too long\n"),
    ];
    for (input, status, line) in cases {
        let ended = in_pieces(&rt, "audit", input.to_vec(alloc)?, 4096)?;
        is_ended(&rt, &ended, status, b"", line.as_bytes());
    }
    Ok(())
}
